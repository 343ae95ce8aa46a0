//! A node's step against the ring's machine: whatever happens to a node, as one ring of its deployment sees it, it does deeds
//! that may be done, and its view, its frames and its learn lines are what the faces of the ring say then.
//!
//! Definitions and laws alone: each function has an empty body, and its contract is the law. It holds at an acceptor of the
//! ring, at a member that only learns, and at a node that is no member.
#![tactic(auto)]

ghost use Rattle.std.specs.Prelude.{length, true, ◌<◌, ◌≡◌, ℕ};
ghost use Rattle.mrp_types.specs.declared.id.NodeId.{NodeId};
ghost use Rattle.mrp_types.specs.declared.value.Value.{Value};
ghost use Rattle.mrp_config.specs.Config.{Config};
ghost use Rattle.mrp_config.specs.declared.tables.RingTable.{RingTable};
ghost use Rattle.vote_state.specs.State.{ring_at};
ghost use Rattle.vote_journal.specs.Journal.{Journal};
ghost use Rattle.checkpoint.specs.Checkpoints.{Checkpoints};
ghost use Rattle.ring_safety.specs.Faces.{Face};
ghost use Rattle.ring_safety.specs.Invariant.{Local};
ghost use Rattle.ring_reach.specs.Reach.{seen};
ghost use Rattle.ring_kept.specs.Kept.{KeptTies};
ghost use Rattle.protocol.specs.Node.{Event, View};
ghost use Rattle.protocol.specs.Opening.{opened};
ghost use Rattle.protocol.specs.Parts.{Ring};
ghost use Rattle.protocol.specs.Rings.{is_acceptor, ring_of};
ghost use Rattle.protocol.specs.Step.{step};
ghost use Rattle.ring_tables.specs.Done.{Seats};
ghost use Rattle.ring_tables.specs.Ties.{acceptors};
ghost use Rattle.ring_steps.specs.Stands.{EventSaid, IsTheOnly, StepStands, ViewStands};

/// Whatever happens to a node whose view stands for its face, a frame that was said, a tick or an order to lead: the step leads,
/// by deeds that may be done, to a face for which its view, its frames, its learn lines and its record stand.
pub fn a_step_stands()
    ensures { (config : Config) (ring : Ring) (faces : ℕ → Face Value) (a : ℕ) (start : Face Value) → (is_acceptor ring ≡ true → Seats ring a)
        → ((k : ℕ) → Local (acceptors ring) faces k (faces k)) → Local (acceptors ring) faces a start → (view : View)
        → ViewStands ring (seen faces a start) start view → (event : Event) → EventSaid ring faces event
        → StepStands ring faces a start (step config view event) }
{}

/// A node that opens on a journal that stands for its face has a view that does: it is Idle, and it has learned nothing.
pub fn an_opening_stands()
    ensures { (config : Config) (id : NodeId) (table : RingTable) → IsTheOnly table config.rings → (faces : ℕ → Face Value) (a : ℕ) (start : Face Value)
        (journal : Journal) (checkpoints : Checkpoints) → table.id.0 < length journal.state.rings → KeptTies start (ring_at journal.state table.id)
        → StepStands (ring_of config id table) faces a start (opened config id journal checkpoints) }
{}
