//! Rounds by hand, computed on the definitions. The functions have empty bodies: their contracts are the rows.

ghost use Rattle.std.specs.Prelude.{◌≡◌, [], ◌∷◌, None, Some};
ghost use Rattle.protocol.specs.Trimming.{least};
ghost use Rattle.trim.specs.Rows.{node, three, two, round_of};

/// One partition of three replicas: the least of the answers, once its quorum has answered, where that is above the trim.
#[tactic(auto, unfolding(protocol::specs::Trimming::least))]
pub fn a_quorum_says_the_least()
    ensures one { least (three 2) (round_of (three 2) 0 ((node 1, 10) ∷ [])) ≡ None }
    ensures another { least (three 2) (round_of (three 2) 0 ((node 1, 10) ∷ (node 2, 7) ∷ [])) ≡ Some 7 }
    ensures too_few { least (three 3) (round_of (three 3) 0 ((node 1, 10) ∷ (node 2, 7) ∷ [])) ≡ None }
    ensures trimmed { least (three 2) (round_of (three 2) 7 ((node 1, 10) ∷ (node 2, 7) ∷ [])) ≡ None }
    ensures again { round_of (three 2) 0 ((node 1, 10) ∷ (node 1, 7) ∷ []) ≡ round_of (three 2) 0 ((node 1, 10) ∷ []) }
    ensures stranger { round_of (three 2) 0 ((node 3, 10) ∷ []) ≡ round_of (three 2) 0 [] }
{}

/// Two partitions: each needs its own quorum.
#[tactic(auto, unfolding(protocol::specs::Trimming::least))]
pub fn each_partition_has_a_quorum()
    ensures one_sided { least two (round_of two 0 ((node 0, 10) ∷ (node 1, 7) ∷ (node 2, 9) ∷ [])) ≡ None }
    ensures both { least two (round_of two 0 ((node 0, 10) ∷ (node 1, 7) ∷ (node 2, 9) ∷ (node 3, 8) ∷ [])) ≡ Some 7 }
{}
