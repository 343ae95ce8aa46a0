//! What is known of the images of a journal: laws that name no code.

ghost use Rattle.std.specs.Prelude.{◌≡◌, ℕ, List, Result, Ok};
ghost use Rattle.mrp_types.specs.declared.id.NodeId.{NodeId};
ghost use Rattle.disk_model.specs.declared.area.Area.{Area};
ghost use Rattle.disk_model.specs.declared.areas.Areas.{Areas};
ghost use Rattle.gate_log.specs.Journal.{records_in};
ghost use Rattle.vote_state.specs.State.{State};
ghost use Rattle.vote_journal.specs.declared.fault.OpenFault.{OpenFault};
ghost use Rattle.vote_journal.specs.Journal.{Journal, state_in, state_of, Stands, OpensBy, OpensAgain};

/// Areas that stand for a node's state, as each image of what this node's calls wrote does, are opened with an epoch
/// more: none of their bytes is refused. What is left to refuse is an epoch at its limit, a record of the epoch that
/// would pass the limit, and a want of the disk or of memory.
pub fn what_was_written_is_opened()
    ensures { (id : NodeId) (limit : ℕ) (areas : Areas) (records : List (List ℕ)) (s : State) (result : Result Journal OpenFault) →
        records_in areas ≡ Ok records → state_of id records ≡ Ok s → OpensBy id limit (records_in areas) result → OpensAgain id limit records s result }
{}

/// Areas that hold a journal stand for its state.
pub fn what_stands_is_the_state()
    ensures { (journal : Journal) (areas : Areas) → Stands journal areas → state_in journal.id areas journal.state }
{}
