//! Worked rows of a coordinator, computed.
ghost use Rattle.std.specs.Prelude.{◌≡◌, [], ◌∷◌, true};
ghost use Rattle.frames.specs.declared.body.Body.TheVariants.{Prepare, Accept};
ghost use Rattle.vote_state.specs.declared.change.Change.TheVariants.{Promise, Vote, Trim};
ghost use Rattle.protocol.specs.Rings.{sent};
ghost use Rattle.protocol.specs.Ballots.{role_leads};
ghost use Rattle.protocol.specs.Example.{three, node, ring_id, batch_with};
ghost use Rattle.coordinator.specs.Standing.{role_next};
ghost use Rattle.role_laws.specs.Rows.{started, told_trim, submitted};

/// Above a promise of 3 node 2 starts ballot 5, and asks the others from its trim on.
pub fn a_start_takes_the_next_own_ballot()
    ensures changes { started.changes ≡ Promise ring_id 5 ∷ [] }
    ensures frames { started.frames ≡ sent (three 2) (node 0) (Prepare ring_id 5 0) ∷ sent (three 2) (node 1) (Prepare ring_id 5 0) ∷ [] }
{}

/// A promise to the end without votes makes it lead. Its trim is recorded, and nothing is proposed.
pub fn a_promise_tells_a_trim()
    ensures leads { role_leads (three 2) told_trim.part.coordinator.role ≡ true }
    ensures changes { told_trim.changes ≡ Trim ring_id 7 ∷ [] }
    ensures frames { told_trim.frames ≡ [] }
    ensures next { role_next told_trim.part.coordinator.role ≡ 7 }
{}

/// The next command is proposed at the trim.
pub fn a_command_is_proposed_at_the_trim()
    ensures changes { submitted.changes ≡ Vote ring_id (record { lo = 7; hi = 8; ballot = 5; value = batch_with 1 }) ∷ [] }
    ensures frames { submitted.frames ≡ sent (three 2) (node 0) (Accept ring_id 5 7 8 4 (batch_with 1)) ∷ [] }
    ensures next { role_next submitted.part.coordinator.role ≡ 8 }
{}
