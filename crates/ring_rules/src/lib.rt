//! Every rule of a ring at its members, against the ring's machine: what it does is deeds that may be done, what it sends is
//! what the faces of the ring say by then, it leaves the coordinator settled, and it is nothing to any other ring.
//!
//! Definitions and laws alone: each function has an empty body, and its contract is the law. `Ruled` says what a rule makes of
//! a part that stands for a face, `IsOf` that its changes and frames are of its own ring and that it prints nothing as learned.
#![tactic(auto)]

ghost use Rattle.std.specs.Prelude.{List, Option, Some, ◌≡◌, ℕ};
ghost use Rattle.std.specs.List.{AllByRecursion};
ghost use Rattle.mrp_types.specs.declared.id.ClientId.{ClientId};
ghost use Rattle.mrp_types.specs.declared.id.NodeId.{NodeId};
ghost use Rattle.mrp_types.specs.declared.value.Value.{Value};
ghost use Rattle.mrp_types.specs.declared.voted.Decided.{Decided};
ghost use Rattle.mrp_types.specs.declared.voted.Voted.{Voted};
ghost use Rattle.ring_link.specs.Silence.{Link};
ghost use Rattle.ring_safety.specs.Faces.{Face};
ghost use Rattle.ring_reach.specs.Reach.{seen};
ghost use Rattle.protocol.specs.Acceptor.{accepts, fetches, prepares};
ghost use Rattle.protocol.specs.Coordinator.{leads, promised, refused, submits};
ghost use Rattle.protocol.specs.Leading.{levels, resends, starts_on_tick};
ghost use Rattle.protocol.specs.Learner.{chosen, decided};
ghost use Rattle.protocol.specs.Parts.{Part, Ring};
ghost use Rattle.protocol.specs.Rings.{position_of};
ghost use Rattle.protocol.specs.Trimming.{answers, asks_round, trimmed};
ghost use Rattle.ring_tables.specs.Settled.{PartFine};
ghost use Rattle.ring_tables.specs.Ties.{AcceptSaid, IsRangeChosen, PartTies, PromiseSaid, acceptors};
ghost use Rattle.ring_rules.specs.Own.{IsOf};
ghost use Rattle.ring_rules.specs.Ruled.{AtSettled, Ruled};

/// The acceptor's rules: Prepare, Accept, Fetch, and a trim that is told.
pub fn acceptors_rules_stand()
    ensures prepare { (ring : Ring) (faces : ℕ → Face Value) (a : ℕ) (f : Face Value) (part : Part) → AtSettled ring faces a f part
        → (from : NodeId) (ballot lo : ℕ) → Ruled ring faces a f part.kept (prepares ring part from ballot lo) }
    ensures accept { (ring : Ring) (faces : ℕ → Face Value) (a : ℕ) (f : Face Value) (part : Part) → AtSettled ring faces a f part
        → (link : Link) (ballot lo hi mask : ℕ) (value : Value) → AcceptSaid (acceptors ring) faces ballot lo hi mask value
        → Ruled ring faces a f part.kept (accepts ring link part ballot lo hi mask value) }
    ensures fetch { (ring : Ring) (faces : ℕ → Face Value) (a : ℕ) (f : Face Value) (part : Part) → AtSettled ring faces a f part
        → (from : NodeId) (lo : ℕ) → Ruled ring faces a f part.kept (fetches ring part from lo) }
    ensures trimmed { (ring : Ring) (faces : ℕ → Face Value) (a : ℕ) (f : Face Value) (part : Part) → AtSettled ring faces a f part
        → (link : Link) (trim : ℕ) → Ruled ring faces a f part.kept (trimmed ring link part trim) }
{}

/// The coordinator's rules: a Promise and a Refuse that come, an order to lead, a start on a tick, a command, what is sent again,
/// and the leveller's tick.
pub fn coordinators_rules_stand()
    ensures promise { (ring : Ring) (faces : ℕ → Face Value) (a : ℕ) (f : Face Value) (part : Part) → AtSettled ring faces a f part
        → (link : Link) (from : NodeId) (ballot lo hi trim : ℕ) (votes : List Voted)
        → ((k : ℕ) → position_of ring from ≡ Some k → PromiseSaid (faces k) ballot lo hi trim votes)
        → Ruled ring faces a f part.kept (promised ring link part from ballot lo hi trim votes) }
    ensures refuse { (ring : Ring) (faces : ℕ → Face Value) (a : ℕ) (f : Face Value) (part : Part) → AtSettled ring faces a f part
        → (ballot promise : ℕ) → Ruled ring faces a f part.kept (refused ring part ballot promise) }
    ensures lead { (ring : Ring) (faces : ℕ → Face Value) (a : ℕ) (f : Face Value) (part : Part) → AtSettled ring faces a f part
        → (link : Link) → Ruled ring faces a f part.kept (leads ring link part) }
    ensures start { (ring : Ring) (faces : ℕ → Face Value) (a : ℕ) (f : Face Value) (part : Part) → AtSettled ring faces a f part
        → (link : Link) → Ruled ring faces a f part.kept (starts_on_tick ring link part) }
    ensures submit { (ring : Ring) (faces : ℕ → Face Value) (a : ℕ) (f : Face Value) (part : Part) → AtSettled ring faces a f part
        → (link : Link) (hops : ℕ) (client : ClientId) (seq : ℕ) (command : List ℕ) → Ruled ring faces a f part.kept (submits ring link part hops client seq command) }
    ensures resend { (ring : Ring) (faces : ℕ → Face Value) (a : ℕ) (f : Face Value) (part : Part) → AtSettled ring faces a f part
        → (link : Link) → Ruled ring faces a f part.kept (resends ring link part) }
    ensures level { (ring : Ring) (faces : ℕ → Face Value) (a : ℕ) (f : Face Value) (part : Part) → AtSettled ring faces a f part
        → (link : Link) → Ruled ring faces a f part.kept (levels ring link part) }
{}

/// Rounds of trimming: asking one, and an answer.
pub fn rounds_stand()
    ensures ask { (ring : Ring) (faces : ℕ → Face Value) (a : ℕ) (f : Face Value) (part : Part) → AtSettled ring faces a f part
        → (link : Link) (own_safe : Option ℕ) → Ruled ring faces a f part.kept (asks_round ring link part own_safe) }
    ensures answer { (ring : Ring) (faces : ℕ → Face Value) (a : ℕ) (f : Face Value) (part : Part) → AtSettled ring faces a f part
        → (link : Link) (from : NodeId) (number inst : ℕ) → Ruled ring faces a f part.kept (answers ring link part from number inst) }
{}

/// What tells a member that something was decided, whether it is an acceptor or not.
pub fn learners_rules_stand()
    ensures decide { (ring : Ring) (faces : ℕ → Face Value) (a : ℕ) (f : Face Value) (part : Part) → PartTies (acceptors ring) (seen faces a f) f part → PartFine ring part
        → (link : Link) (lo hi left : ℕ) (value : Value) → IsRangeChosen (acceptors ring) (seen faces a f) (record { lo = lo; hi = hi; value = value })
        → Ruled ring faces a f part.kept (decided ring link part lo hi left value) }
    ensures chosen { (ring : Ring) (faces : ℕ → Face Value) (a : ℕ) (f : Face Value) (part : Part) → PartTies (acceptors ring) (seen faces a f) f part → PartFine ring part
        → (ranges : List Decided) → AllByRecursion (IsRangeChosen (acceptors ring) (seen faces a f)) ranges
        → Ruled ring faces a f part.kept (chosen ring part ranges) }
{}

/// Each rule of a ring is of that ring alone: what it records and what it says is nothing to another.
pub fn rules_are_of_one_ring()
    ensures prepare { (ring : Ring) (part : Part) (from : NodeId) (ballot lo : ℕ) → IsOf ring (prepares ring part from ballot lo) }
    ensures accept { (ring : Ring) (link : Link) (part : Part) (ballot lo hi mask : ℕ) (value : Value) → IsOf ring (accepts ring link part ballot lo hi mask value) }
    ensures fetch { (ring : Ring) (part : Part) (from : NodeId) (lo : ℕ) → IsOf ring (fetches ring part from lo) }
    ensures trimmed { (ring : Ring) (link : Link) (part : Part) (trim : ℕ) → IsOf ring (trimmed ring link part trim) }
    ensures promise { (ring : Ring) (link : Link) (part : Part) (from : NodeId) (ballot lo hi trim : ℕ) (votes : List Voted)
        → IsOf ring (promised ring link part from ballot lo hi trim votes) }
    ensures refuse { (ring : Ring) (part : Part) (ballot promise : ℕ) → IsOf ring (refused ring part ballot promise) }
    ensures lead { (ring : Ring) (link : Link) (part : Part) → IsOf ring (leads ring link part) }
    ensures start { (ring : Ring) (link : Link) (part : Part) → IsOf ring (starts_on_tick ring link part) }
    ensures submit { (ring : Ring) (link : Link) (part : Part) (hops : ℕ) (client : ClientId) (seq : ℕ) (command : List ℕ)
        → IsOf ring (submits ring link part hops client seq command) }
    ensures resend { (ring : Ring) (link : Link) (part : Part) → IsOf ring (resends ring link part) }
    ensures level { (ring : Ring) (link : Link) (part : Part) → IsOf ring (levels ring link part) }
    ensures ask { (ring : Ring) (link : Link) (part : Part) (own_safe : Option ℕ) → IsOf ring (asks_round ring link part own_safe) }
    ensures answer { (ring : Ring) (link : Link) (part : Part) (from : NodeId) (number inst : ℕ) → IsOf ring (answers ring link part from number inst) }
    ensures decide { (ring : Ring) (link : Link) (part : Part) (lo hi left : ℕ) (value : Value) → IsOf ring (decided ring link part lo hi left value) }
    ensures chosen { (ring : Ring) (part : Part) (ranges : List Decided) → IsOf ring (chosen ring part ranges) }
{}
