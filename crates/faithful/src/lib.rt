//! What faithful lines say of tuples: the rules of deliveries, saves, choices, restores, trims, attempts and refusals (F2 and F6 to
//! F9) of `line_rules`, each of a line and the lines before it, and laws of tuples and quorums beside them.
//!
//! Definitions and laws alone: each function has an empty body, and its contract is the law. A list of lines stands with the
//! latest first, so what stands before a line is the rest of the list. The rules of learn, reply, state and answer lines aren't
//! cited here: a line of those kinds owes nothing by these definitions.
#![tactic(auto)]

ghost use Rattle.std.specs.Prelude.{◌≡◌, ◌<◌, ◌≤◌, ◌+◌, ℕ, Bool, true, false, List, Some, count_by, length};
ghost use Rattle.std.specs.List.{AllByRecursion};
ghost use Rattle.mrp_types.specs.declared.id.NodeId.{NodeId};
ghost use Rattle.mrp_types.specs.declared.id.RingId.{RingId};
ghost use Rattle.mrp_types.specs.declared.value.Value.TheVariants.{Skip};
ghost use Rattle.mrp_config.specs.Config.{has_node};
ghost use Rattle.plain_model.specs.Tuples.{instances, is_at_or_after, is_tuple_of, next_place, past};
ghost use Rattle.checkpoint.specs.Checkpoints.{is_after};
ghost use Rattle.protocol.specs.Lines.{Line};
ghost use Rattle.faithful.specs.Scanners.{Reaches, book, paired};
ghost use Rattle.faithful.specs.Answers.{AreDifferent, Both};
ghost use Rattle.faithful.specs.Rules.{AllKnown, BySkips, IsKnown};

/// Two groups of nodes that together are more than all share one; and of nodes that answered once at most, no more are counted
/// than pass a test that all of them pass.
pub fn groups_share()
    ensures share { (f g : NodeId → Bool) (nodes : List NodeId) → length nodes < count_by f nodes + count_by g nodes → Both f g nodes }
    ensures counted { (nodes : List NodeId) (test : ℕ → Bool) (answers : List (NodeId × List (RingId × ℕ))) → AreDifferent answers
        → AllByRecursion (λ (answer : NodeId × List (RingId × ℕ)). has_node nodes answer.0.0 ≡ true → test answer.0.0 ≡ true) answers
        → count_by (λ (answer : NodeId × List (RingId × ℕ)). has_node nodes answer.0.0) answers ≤ count_by (λ (n : NodeId). test n.0) nodes }
{}

/// A valid tuple that is moved past its next place is at or after what it was, and not the same. All below it is known where all
/// below it was and that place is; and it is reached by skips where it was and that place is Skip.
pub fn tuples_move()
    ensures reaches { (m : ℕ → ℕ) (rings : List RingId) (k : List (RingId × ℕ)) → is_tuple_of m rings k ≡ true → Reaches (instances (past m k)) (instances k) }
    ensures later { (m : ℕ → ℕ) (k : List (RingId × ℕ)) → 0 < length k → Reaches (instances k) (instances (past m k)) → ⊥ }
    ensures known { (m : ℕ → ℕ) (lines : List Line) (k : List (RingId × ℕ)) → AllKnown lines k → IsKnown lines (next_place m k).0 (next_place m k).1 → AllKnown lines (past m k) }
    ensures skips { (m : ℕ → ℕ) (rings : List RingId) (lines : List Line) (from k : List (RingId × ℕ)) → BySkips m rings lines from k
        → book lines (next_place m k).0 (next_place m k).1 ≡ Some Skip → BySkips m rings lines from (past m k) }
{}

/// The order of tuples as lines print them is that of the valid tuples: at or after, after, and the same.
pub fn tuples_are_ordered()
    ensures reaches { (m : ℕ → ℕ) (rings : List RingId) (a b : List (RingId × ℕ)) → is_tuple_of m rings a ≡ true → is_tuple_of m rings b ≡ true → is_at_or_after a b ≡ true → Reaches (instances a) (instances b) }
    ensures at_or_after { (a b : List (RingId × ℕ)) → Reaches (instances a) (instances b) → is_at_or_after a b ≡ true }
    ensures after { (m : ℕ → ℕ) (rings : List RingId) (a b : List (RingId × ℕ)) → is_tuple_of m rings a ≡ true → is_tuple_of m rings b ≡ true → is_after a b ≡ true → Reaches (instances b) (instances a) }
    ensures not_after { (m : ℕ → ℕ) (rings : List RingId) (a b : List (RingId × ℕ)) → is_tuple_of m rings a ≡ true → is_tuple_of m rings b ≡ true → is_after a b ≡ false → Reaches (instances a) (instances b) }
    ensures shown { (m : ℕ → ℕ) (rings : List RingId) (k : List (RingId × ℕ)) → is_tuple_of m rings k ≡ true → paired rings (instances k) ≡ k }
{}
