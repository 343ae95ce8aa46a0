//! The acceptor's table and proposing, against the ring's machine: what they do is deeds that may be done, and what they send
//! is what the faces of the ring say by then.
//!
//! Definitions and laws alone: each function has an empty body, and its contract is the law. `specs/Ties` says how what a node
//! keeps of a ring, and what nodes sent and printed, stand for faces of the machine; `specs/Done` says it of a rule on its way.
#![tactic(auto)]

ghost use Rattle.std.specs.Prelude.{List, Some, length, ◌<◌, ◌≡◌, ◌≤◌, ℕ};
ghost use Rattle.mrp_types.specs.declared.id.NodeId.{NodeId};
ghost use Rattle.mrp_types.specs.declared.value.Value.{Value};
ghost use Rattle.range_map.specs.Entries.{value_at};
ghost use Rattle.vote_state.specs.declared.cast.Cast.{Cast};
ghost use Rattle.ring_link.specs.Silence.{Link};
ghost use Rattle.ring_safety.specs.Deeds.{Backing};
ghost use Rattle.ring_safety.specs.Faces.{Face};
ghost use Rattle.ring_reach.specs.Reach.{proposal, seen};
ghost use Rattle.protocol.specs.Acceptor.{accepts, prepares};
ghost use Rattle.protocol.specs.Ballots.{covered_to};
ghost use Rattle.protocol.specs.Leading.{levels};
ghost use Rattle.protocol.specs.Parts.{Part, Ring};
ghost use Rattle.protocol.specs.Proposing.{proposes};
ghost use Rattle.ring_tables.specs.Done.{After, AtAcceptor};
ghost use Rattle.ring_tables.specs.Settled.{RoleSettled};
ghost use Rattle.ring_tables.specs.Ties.{AcceptSaid, Reports, acceptors};

/// The acceptor's rules: a Prepare and an Accept lead, by deeds that may be done, to a face for which the part then stands.
/// The Promise that is sent tells the votes of its page; the Accept that is passed on names votes that were cast; and where
/// its mask is a majority, its range is chosen.
pub fn an_acceptor_promises_and_votes()
    ensures prepare { (ring : Ring) (faces : ℕ → Face Value) (a : ℕ) (f : Face Value) (part : Part) → AtAcceptor ring faces a f part
        → (from : NodeId) (ballot lo : ℕ) → After ring faces a f part.kept f (prepares ring part from ballot lo) }
    ensures accept { (ring : Ring) (faces : ℕ → Face Value) (a : ℕ) (f : Face Value) (part : Part) → AtAcceptor ring faces a f part
        → (link : Link) (ballot lo hi mask : ℕ) (value : Value) → AcceptSaid (acceptors ring) faces ballot lo hi mask value
        → After ring faces a f part.kept f (accepts ring link part ballot lo hi mask value) }
{}

/// Where a majority's promises are reported past an instance that isn't trimmed, each value that agrees with the report there,
/// or any where nothing is reported, is backed: the machine lets it be proposed.
pub fn what_is_due_is_backed()
    ensures { (ring : Ring) (faces : ℕ → Face Value) (a : ℕ) (f : Face Value) (trim ballot : ℕ) (covered : List ℕ) (reports : List (ℕ × Cast))
        → Reports (acceptors ring) (seen faces a f) trim ballot covered reports → length covered ≡ acceptors ring → (i : ℕ) (value : Value) → trim ≤ i
        → i < covered_to ring covered → ((cast : Cast) → value_at i reports ≡ Some cast → value ≡ cast.value)
        → Backing (acceptors ring) faces a f (proposal ballot i value) }
{}

/// Proposing leads, by deeds that may be done, to a face for which the part then stands, and leaves the coordinator settled.
/// The leveller's proposals do so from a coordinator that is settled.
pub fn a_coordinator_proposes()
    ensures propose { (ring : Ring) (faces : ℕ → Face Value) (a : ℕ) (f : Face Value) (part : Part) → AtAcceptor ring faces a f part → (link : Link)
        → After ring faces a f part.kept f (proposes ring link part) }
    ensures settled { (ring : Ring) (faces : ℕ → Face Value) (a : ℕ) (f : Face Value) (part : Part) → AtAcceptor ring faces a f part → (link : Link)
        → RoleSettled ring (proposes ring link part).part.kept.trim (proposes ring link part).part.coordinator.role }
    ensures level { (ring : Ring) (faces : ℕ → Face Value) (a : ℕ) (f : Face Value) (part : Part) → AtAcceptor ring faces a f part
        → RoleSettled ring part.kept.trim part.coordinator.role → (link : Link) → After ring faces a f part.kept f (levels ring link part) }
{}
