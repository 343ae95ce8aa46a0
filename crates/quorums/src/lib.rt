//! Two groups that are large enough share a member.
//!
//! Definitions and laws alone: each function has an empty body, and its contract is the law. A group of members below n
//! is a test with a count, or a list of different members; `lists_are_tests` says that the two are one thing.
#![tactic(auto)]

ghost use Rattle.std.specs.Prelude.{◌≡◌, ◌↔◌, ℕ, ◌+◌, ◌<◌, ◌≤◌, Bool, true, List, length, Contains};
ghost use Rattle.quorums.specs.Groups.{Has, count, majority, IsMajority, Shared, AreMembers, SharedInLists, is_in, members_of};

/// Two groups of members below n whose sizes add up to more than n share a member.
pub fn groups_share()
    ensures tests { (n : ℕ) (g h : ℕ → Bool) → n < count g n + count h n → Shared n g h }
    ensures lists { (n : ℕ) (xs ys : List ℕ) → AreMembers n xs → AreMembers n ys → n < length xs + length ys → SharedInLists n xs ys }
{}

/// Two majorities of n members share a member.
pub fn majorities_share()
    ensures tests { (n : ℕ) (g h : ℕ → Bool) → IsMajority n g → IsMajority n h → Shared n g h }
    ensures lists { (n : ℕ) (xs ys : List ℕ) → AreMembers n xs → AreMembers n ys → majority n ≤ length xs → majority n ≤ length ys → SharedInLists n xs ys }
{}

/// A trim quorum and a recovery quorum share a member, where the two sizes add up to more than n.
pub fn trim_and_recovery_share()
    ensures tests { (n trims recovers : ℕ) (g h : ℕ → Bool) → n < trims + recovers → trims ≤ count g n → recovers ≤ count h n → Shared n g h }
    ensures lists { (n trims recovers : ℕ) (xs ys : List ℕ) → n < trims + recovers → AreMembers n xs → AreMembers n ys → trims ≤ length xs → recovers ≤ length ys → SharedInLists n xs ys }
{}

/// A list of different members is a test that passes as many members as the list is long, and the other way round: the
/// members that pass a test are a list of different members, as long as the test's count.
pub fn lists_are_tests()
    ensures count { (n : ℕ) (xs : List ℕ) → AreMembers n xs → count (is_in xs) n ≡ length xs }
    ensures same { (xs : List ℕ) (m : ℕ) → (is_in xs m ≡ true) ↔ Has xs m }
    ensures members { (n : ℕ) (g : ℕ → Bool) → AreMembers n (members_of g n) }
    ensures length { (n : ℕ) (g : ℕ → Bool) → length (members_of g n) ≡ count g n }
    ensures back { (n : ℕ) (g : ℕ → Bool) (m : ℕ) → Has (members_of g n) m ↔ ((m < n) × (g m ≡ true)) }
{}

/// `Has` is std's `Contains`.
pub fn has_is_contains<T>()
    ensures { (xs : List T) (x : T) → Has xs x ↔ Contains xs x }
{}
