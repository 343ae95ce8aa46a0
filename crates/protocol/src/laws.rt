//! What the tables of a ring are good for.

ghost use Rattle.std.specs.Prelude.{◌≡◌, ◌↔◌, ℕ, ◌-◌, ◌<◌, ◌≤◌, ◌||◌, max, List, ◌∷◌, length, take, drop, Some, true, false};
ghost use Rattle.std.specs.List.{AllByRecursion};
ghost use Rattle.mrp_types.specs.declared.id.NodeId.{NodeId};
ghost use Rattle.mrp_types.specs.declared.id.RingId.{RingId};
ghost use Rattle.mrp_types.specs.declared.value.Value.{Value};
ghost use Rattle.mrp_types.specs.declared.voted.Voted.{Voted};
ghost use Rattle.mrp_types.specs.declared.voted.Decided.{Decided};
ghost use Rattle.range_map.specs.Entries.{IsIncreasingFrom, IsNextGap};
ghost use Rattle.vote_state.specs.declared.cast.Cast.{Cast};
ghost use Rattle.frames.specs.Spelling.{vote_size, decided_size};
ghost use Rattle.mrp_config.specs.Config.{has_node};
ghost use Rattle.mrp_config.specs.declared.tables.PartitionTable.{PartitionTable};
ghost use Rattle.plain_model.specs.Pages.{IsLongestFront};
ghost use Rattle.plain_model.specs.Tuples.{is_tuple_of};
ghost use Rattle.protocol.specs.Parts.{Ring, Pending, Campaign, Learner, Round, Part};
ghost use Rattle.protocol.specs.Rings.{position_of, by_id, replicas_of, members_of};
ghost use Rattle.protocol.specs.Acceptor.{page_room, votes_page, ranges_page};
ghost use Rattle.protocol.specs.Learner.{first_of, with_met, is_news, with_range_learned, first_gap, learned_ranges};
ghost use Rattle.protocol.specs.Ballots.{higher, least_above, greatest_seen, own_ballot, covered_to};
ghost use Rattle.protocol.specs.Proposing.{unproposed, entry_size, fresh_entries, run_end};
ghost use Rattle.protocol.specs.Trimming.{least};
ghost use Rattle.protocol.specs.Recovery.{best_of};
ghost use Rattle.protocol.specs.Meaning.{Meets, AreHeld, IsLeastAbove, HasOnePosition, IsLeastOwned, IsCovered, IsLongestRun, AreMaximal, IsLeastAnswer, times, AreByIdFrom, AreIncreasingFrom, IsBestAnswer};

/// The page of a Promise and of a Chosen, and the commands of a fresh batch, are the longest prefix that fits: the next
/// entry would not.
pub fn pages_are_longest_prefixes()
    ensures votes { (votes : List Voted) → IsLongestFront vote_size page_room votes (votes_page votes) }
    ensures ranges { (ranges : List Decided) → IsLongestFront decided_size page_room ranges (ranges_page ranges) }
    ensures batch { (pending : List Pending) → IsLongestFront entry_size (8192 - 3) (unproposed pending) (fresh_entries pending) }
{}

/// A learner takes a value where it holds none and the base isn't above, and says whether there is such an instance.
/// Passing over learned instances ends at the first that isn't.
pub fn the_first_value_stays()
    ensures taken { (range : Decided) (learner : Learner) → IsIncreasingFrom 0 learner.held
        → Meets first_of (max range.lo learner.base) range.hi range.value learner.held (with_range_learned range learner).held }
    ensures no_news { (range : Decided) (learner : Learner) → IsIncreasingFrom 0 learner.held
        → (is_news range learner ≡ false) ↔ AreHeld (max range.lo learner.base) range.hi learner.held }
    ensures gap { (from : ℕ) (held : List (ℕ × Value)) → IsIncreasingFrom 0 held → IsNextGap held from (first_gap from held) }
{}

/// Of two votes that are reported at an instance the one of the higher ballot stands.
pub fn the_higher_vote_stands()
    ensures { (lo hi : ℕ) (cast : Cast) (reports : List (ℕ × Cast)) → IsIncreasingFrom 0 reports → Meets higher lo hi cast reports (with_met higher lo hi cast reports) }
{}

/// The ballot of a start is the least above what was seen that the node owns.
pub fn a_start_takes_the_least_ballot()
    ensures rest { (floor n rest : ℕ) → rest < n → IsLeastAbove floor n rest (least_above floor n rest) }
    ensures owned { (ring : Ring) (part : Part) (position : ℕ) → position_of ring ring.own ≡ Some position → HasOnePosition ring
        → IsLeastOwned ring (greatest_seen part) (own_ballot ring part position) }
{}

/// Up to where a majority is covered: past each instance below, and past no other.
pub fn coverage_is_a_majority()
    ensures { (ring : Ring) (covered : List ℕ) (inst : ℕ) → (inst < covered_to ring covered) ↔ IsCovered ring covered inst }
{}

/// A run of due Skips is the longest, and has the next instance where a Skip is due there: each of its instances is covered by a majority, not learned, and a due Skip; the one
/// behind it isn't such a one, or the run has 65,536 instances.
pub fn runs_of_due_skips_are_longest()
    ensures { (ring : Ring) (campaign : Campaign) (held : List (ℕ × Value)) → IsIncreasingFrom 0 campaign.reports → IsIncreasingFrom 0 held
        → IsLongestRun ring campaign held (run_end ring campaign held) }
{}

/// What was learned is told in maximal ranges: exactly what is held, and no two neighbours could be joined.
pub fn learned_ranges_are_maximal()
    ensures { (held : List (ℕ × Value)) → IsIncreasingFrom 0 held → AreMaximal held (learned_ranges held) }
{}

/// A round says the least of all its answers once each subscribed partition has its trim quorum of them, where that is above
/// the trim when it was asked.
pub fn a_round_says_the_least_answer()
    ensures { (ring : Ring) (round : Round) (inst : ℕ) → (least ring round ≡ Some inst) ↔ IsLeastAnswer ring round inst }
{}

/// Nodes by id are exactly the nodes of the list, each as often as it stood there, in the order of their ids; where none stood
/// twice they increase.
pub fn nodes_are_put_by_id()
    ensures same { (node : NodeId) (nodes : List NodeId) → times node (by_id nodes) ≡ times node nodes }
    ensures order { (nodes : List NodeId) → AreByIdFrom 0 (by_id nodes) }
    ensures increasing { (nodes : List NodeId) → ((node : NodeId) → times node nodes ≤ 1) → AreIncreasingFrom 0 (by_id nodes) }
{}

/// The members of a ring are the acceptors as listed, and then by id the replicas of the subscribed partitions that aren't
/// acceptors.
pub fn members_are_acceptors_and_then_replicas()
    ensures acceptors { (acceptors : List NodeId) (subscribers : List PartitionTable) → take (length acceptors) (members_of acceptors subscribers) ≡ acceptors }
    ensures order { (acceptors : List NodeId) (subscribers : List PartitionTable) → AreByIdFrom 0 (drop (length acceptors) (members_of acceptors subscribers)) }
    ensures others { (acceptors : List NodeId) (subscribers : List PartitionTable) (node : NodeId) → has_node acceptors node.0 ≡ true
        → has_node (drop (length acceptors) (members_of acceptors subscribers)) node.0 ≡ false }
    ensures all { (acceptors : List NodeId) (subscribers : List PartitionTable) (node : NodeId) →
        has_node (members_of acceptors subscribers) node.0 ≡ (has_node acceptors node.0 || has_node (replicas_of subscribers) node.0) }
{}

/// Of answers with valid tuples of the partition's rings the best one is chosen: one with the greatest tuple, the own node's
/// where it has that tuple, else that of the least id.
pub fn the_best_answer_is_chosen()
    ensures { (m : ℕ → ℕ) (rings : List RingId) (own : NodeId) (answer : NodeId × List (RingId × ℕ)) (answers : List (NodeId × List (RingId × ℕ)))
        → AllByRecursion (λ (given : NodeId × List (RingId × ℕ)). is_tuple_of m rings given.1 ≡ true) (answer ∷ answers)
        → IsBestAnswer own (answer ∷ answers) (best_of own answer answers) }
{}
