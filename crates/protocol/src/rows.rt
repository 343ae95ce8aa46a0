//! The tables of a ring, computed on rings made by hand.

ghost use Rattle.std.specs.Prelude.{◌≡◌, ◌^◌, [], ◌∷◌};
ghost use Rattle.mrp_types.specs.declared.value.Value.TheVariants.{Skip};
ghost use Rattle.frames.specs.declared.body.Body.TheVariants.{Prepare, Promise, Refuse, Accept, Decide, TrimTo};
ghost use Rattle.protocol.specs.Lines.{Trim};
ghost use Rattle.protocol.specs.Rings.{sent};
ghost use Rattle.protocol.specs.Acceptor.{prepares, accepts};
ghost use Rattle.protocol.specs.Coordinator.{leads};
ghost use Rattle.protocol.specs.Trimming.{answers};
ghost use Rattle.protocol.specs.Example.{three, alone, node, ring_id, fresh_link, opened, led, batch_with, first_submit, second_submit, voted_second, taken_over, alone_levels, asked};

/// A start asks the other acceptors.
pub fn a_start_asks_the_others()
    ensures { (leads (three 0) fresh_link (opened (three 0))).frames ≡ sent (three 0) (node 1) (Prepare ring_id 3 0) ∷ sent (three 0) (node 2) (Prepare ring_id 3 0) ∷ [] }
{}

/// A promise tells the votes that are held.
pub fn a_promise_tells_votes()
    ensures { (prepares (three 1) voted_second (node 2) 5 0).frames ≡ sent (three 1) (node 2) (Promise ring_id 5 0 (2 ^ 40) 0 ((record { lo = 1; hi = 2; ballot = 3; value = batch_with 2 }) ∷ [])) ∷ [] }
{}

/// A lower ballot is refused.
pub fn a_lower_ballot_is_refused()
    ensures { (prepares (three 1) voted_second (node 2) 2 0).frames ≡ sent (three 1) (node 2) (Refuse ring_id 2 3) ∷ [] }
{}

/// Each command that comes alone is proposed at the next instance.
pub fn commands_are_proposed()
    ensures first { first_submit.frames ≡ sent (three 0) (node 1) (Accept ring_id 3 0 1 1 (batch_with 1)) ∷ [] }
    ensures second { second_submit.frames ≡ sent (three 0) (node 1) (Accept ring_id 3 1 2 1 (batch_with 2)) ∷ [] }
{}

/// The second of three votes decides, and the decision goes round.
pub fn a_majority_decides()
    ensures learned { (accepts (three 1) fresh_link (opened (three 1)) 3 0 1 1 (batch_with 1)).learned ≡ (record { lo = 0; hi = 1; value = batch_with 1 }) ∷ [] }
    ensures told { (accepts (three 1) fresh_link (opened (three 1)) 3 0 1 1 (batch_with 1)).frames ≡ sent (three 1) (node 2) (Decide ring_id 0 1 1 (batch_with 1)) ∷ [] }
{}

/// A leader that finds a vote at the second instance alone proposes Skip at the first, and what was voted for at the second.
pub fn a_gap_is_skipped()
    ensures { taken_over.frames ≡ sent (three 1) (node 2) (Accept ring_id 4 0 1 2 Skip) ∷ sent (three 1) (node 2) (Accept ring_id 4 1 2 2 (batch_with 2)) ∷ [] }
{}

/// With one acceptor what is proposed is decided at once, and nothing is sent.
pub fn one_acceptor_decides_at_once()
    ensures learned { alone_levels.learned ≡ (record { lo = 0; hi = 4; value = Skip }) ∷ [] }
    ensures silent { alone_levels.frames ≡ [] }
{}

/// A round ends with the answer that makes a quorum: the least answer is the trim.
pub fn a_round_ends()
    ensures printed { (answers (three 0) fresh_link asked (node 2) 1 3).lines ≡ Trim (node 0) ring_id 3 ∷ [] }
    ensures told { (answers (three 0) fresh_link asked (node 2) 1 3).frames ≡ sent (three 0) (node 1) (TrimTo ring_id 3) ∷ sent (three 0) (node 2) (TrimTo ring_id 3) ∷ [] }
    ensures late { (answers (three 0) fresh_link asked (node 2) 2 3).lines ≡ [] }
{}
