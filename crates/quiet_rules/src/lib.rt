//! Rules of rings are quiet: whatever comes, what a rule of a ring makes delivers and replies nothing, sends no part of a
//! checkpoint, prints but trims and limits of its own node and ring, and leaves the learner. What it decides is learned after it.
//!
//! `specs/Quiet` also has the words for lines in their turn: each deliver line is followed by exactly the reply lines that it
//! owes. Definitions and laws alone: each function has an empty body, and its contract is the law.
#![tactic(auto)]

ghost use Rattle.std.specs.Prelude.{List, Option, ℕ};
ghost use Rattle.mrp_types.specs.declared.id.NodeId.{NodeId};
ghost use Rattle.mrp_types.specs.declared.id.ClientId.{ClientId};
ghost use Rattle.mrp_types.specs.declared.value.Value.{Value};
ghost use Rattle.mrp_types.specs.declared.voted.Voted.{Voted};
ghost use Rattle.mrp_types.specs.declared.voted.Decided.{Decided};
ghost use Rattle.ring_link.specs.Silence.{Link};
ghost use Rattle.protocol.specs.Parts.{Effects, Part, Ring};
ghost use Rattle.protocol.specs.Effects.{no_effects};
ghost use Rattle.protocol.specs.Acceptor.{accepts, fetches, prepares};
ghost use Rattle.protocol.specs.Coordinator.{leads, promised, refused, submits};
ghost use Rattle.protocol.specs.Leading.{levels, resends, starts_on_tick};
ghost use Rattle.protocol.specs.Learner.{chosen, decided};
ghost use Rattle.protocol.specs.Proposing.{proposes_after};
ghost use Rattle.protocol.specs.Trimming.{answers, asks_round, trimmed};
ghost use Rattle.quiet_rules.specs.Quiet.{Quiet};

/// The rules of a ring that frames set off.
pub fn frames_of_a_ring_are_quiet()
    ensures prepare { (ring : Ring) (part : Part) (from : NodeId) (ballot lo : ℕ) → Quiet ring (no_effects part) (prepares ring part from ballot lo) }
    ensures promise { (ring : Ring) (link : Link) (part : Part) (from : NodeId) (ballot lo hi trim : ℕ) (votes : List Voted) → Quiet ring (no_effects part) (promised ring link part from ballot lo hi trim votes) }
    ensures refuse { (ring : Ring) (part : Part) (ballot promise : ℕ) → Quiet ring (no_effects part) (refused ring part ballot promise) }
    ensures accept { (ring : Ring) (link : Link) (part : Part) (ballot lo hi mask : ℕ) (value : Value) → Quiet ring (no_effects part) (accepts ring link part ballot lo hi mask value) }
    ensures decide { (ring : Ring) (link : Link) (part : Part) (lo hi left : ℕ) (value : Value) → Quiet ring (no_effects part) (decided ring link part lo hi left value) }
    ensures fetch { (ring : Ring) (part : Part) (from : NodeId) (lo : ℕ) → Quiet ring (no_effects part) (fetches ring part from lo) }
    ensures chosen { (ring : Ring) (part : Part) (ranges : List Decided) → Quiet ring (no_effects part) (chosen ring part ranges) }
    ensures trimmed { (ring : Ring) (link : Link) (part : Part) (trim : ℕ) → Quiet ring (no_effects part) (trimmed ring link part trim) }
    ensures submit { (ring : Ring) (link : Link) (part : Part) (hops : ℕ) (client : ClientId) (seq : ℕ) (command : List ℕ) → Quiet ring (no_effects part) (submits ring link part hops client seq command) }
    ensures safe { (ring : Ring) (link : Link) (part : Part) (from : NodeId) (number inst : ℕ) → Quiet ring (no_effects part) (answers ring link part from number inst) }
{}

/// The rules of a ring at a tick and on an order to lead, and proposing, which follows each of them.
pub fn ticks_of_a_ring_are_quiet()
    ensures lead { (ring : Ring) (link : Link) (part : Part) → Quiet ring (no_effects part) (leads ring link part) }
    ensures start { (ring : Ring) (link : Link) (part : Part) → Quiet ring (no_effects part) (starts_on_tick ring link part) }
    ensures resend { (ring : Ring) (link : Link) (part : Part) → Quiet ring (no_effects part) (resends ring link part) }
    ensures ask { (ring : Ring) (link : Link) (part : Part) (own_safe : Option ℕ) → Quiet ring (no_effects part) (asks_round ring link part own_safe) }
    ensures level { (ring : Ring) (link : Link) (part : Part) → Quiet ring (no_effects part) (levels ring link part) }
    ensures propose { (ring : Ring) (link : Link) (effects : Effects) → Quiet ring effects (proposes_after ring link effects) }
{}
