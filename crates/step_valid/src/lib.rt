//! What each step records may stand in a record of the journal, and what each step prints as learned has the shape of a
//! learned range.
//!
//! Definitions and laws alone: each function has an empty body, and its contract is the law. Nothing here speaks of ballots
//! that were promised or values that were chosen: `specs/Valid` says what is kept of frames and of views so that ballots and
//! instances stay small enough, values have a spelling, and a batch stands alone.
#![tactic(auto)]

ghost use Rattle.std.specs.Prelude.{List, Option, Some, ◌≡◌, ◌≤◌, ℕ};
ghost use Rattle.std.specs.List.{AllByRecursion};
ghost use Rattle.mrp_types.specs.Entries.{IsEntry};
ghost use Rattle.mrp_types.specs.declared.id.ClientId.{ClientId};
ghost use Rattle.mrp_types.specs.declared.id.NodeId.{NodeId};
ghost use Rattle.mrp_types.specs.declared.id.TheConstants.{END};
ghost use Rattle.mrp_types.specs.declared.value.Value.{Value};
ghost use Rattle.mrp_types.specs.declared.voted.Decided.{Decided};
ghost use Rattle.mrp_types.specs.declared.voted.Voted.{Voted};
ghost use Rattle.mrp_config.specs.Config.{Config};
ghost use Rattle.checkpoint.specs.Checkpoints.{Checkpoints};
ghost use Rattle.vote_journal.specs.Journal.{Journal};
ghost use Rattle.vote_state.specs.State.{IsState};
ghost use Rattle.vote_state.specs.Valid.{IsBallot, IsInst, IsRing, IsVoted};
ghost use Rattle.ring_link.specs.Silence.{Link};
ghost use Rattle.protocol.specs.Acceptor.{accepts, fetches, prepares};
ghost use Rattle.protocol.specs.Coordinator.{leads, promised, refused, submits};
ghost use Rattle.protocol.specs.Leading.{levels, resends, starts_on_tick};
ghost use Rattle.protocol.specs.Learner.{chosen, decided};
ghost use Rattle.protocol.specs.Node.{Event, View};
ghost use Rattle.protocol.specs.Opening.{opened};
ghost use Rattle.protocol.specs.Parts.{Part, Ring};
ghost use Rattle.protocol.specs.Proposing.{proposes};
ghost use Rattle.protocol.specs.Step.{step};
ghost use Rattle.protocol.specs.Trimming.{answers, asks_round, trimmed};
ghost use Rattle.step_valid.specs.Valid.{AreNumbered, EffectsValid, EventValid, MayLearn, MayVote, PartValid, StepValid, ViewValid};

/// The acceptor's rules: from a valid part and a valid frame, what is recorded may stand in a record, what is sent is valid,
/// and the part stays so.
pub fn acceptors_are_valid()
    ensures prepare { (ring : Ring) → IsRing ring.id → (part : Part) → PartValid part → (from : NodeId) (ballot lo : ℕ) → IsBallot ballot
        → EffectsValid (prepares ring part from ballot lo) }
    ensures accept { (ring : Ring) → IsRing ring.id → (link : Link) (part : Part) → PartValid part → (ballot lo hi mask : ℕ) (value : Value) → IsBallot ballot
        → MayVote (record { lo = lo; hi = hi; ballot = ballot; value = value }) → EffectsValid (accepts ring link part ballot lo hi mask value) }
    ensures fetch { (ring : Ring) → IsRing ring.id → (part : Part) → PartValid part → (from : NodeId) (lo : ℕ) → EffectsValid (fetches ring part from lo) }
    ensures trimmed { (ring : Ring) → IsRing ring.id → (link : Link) (part : Part) → PartValid part → (trim : ℕ) → IsInst trim
        → EffectsValid (trimmed ring link part trim) }
{}

/// The coordinator's rules, likewise: a promise, a refusal, a start by order or on a tick, a command, proposing, and what is
/// sent again.
pub fn coordinators_are_valid()
    ensures promise { (ring : Ring) → IsRing ring.id → (link : Link) (part : Part) → PartValid part → (from : NodeId) (ballot lo hi trim : ℕ) (votes : List Voted)
        → IsBallot ballot → IsInst trim → hi ≤ END → AllByRecursion IsVoted votes → EffectsValid (promised ring link part from ballot lo hi trim votes) }
    ensures refuse { (ring : Ring) → IsRing ring.id → (part : Part) → PartValid part → (ballot promise : ℕ) → EffectsValid (refused ring part ballot promise) }
    ensures lead { (ring : Ring) → IsRing ring.id → (link : Link) (part : Part) → PartValid part → EffectsValid (leads ring link part) }
    ensures start { (ring : Ring) → IsRing ring.id → (link : Link) (part : Part) → PartValid part → EffectsValid (starts_on_tick ring link part) }
    ensures submit { (ring : Ring) → IsRing ring.id → (link : Link) (part : Part) → PartValid part → (hops : ℕ) (client : ClientId) (seq : ℕ) (command : List ℕ)
        → IsEntry (record { client = client; seq = seq; command = command }) → EffectsValid (submits ring link part hops client seq command) }
    ensures propose { (ring : Ring) → IsRing ring.id → (link : Link) (part : Part) → PartValid part → EffectsValid (proposes ring link part) }
    ensures resend { (ring : Ring) → IsRing ring.id → (link : Link) (part : Part) → PartValid part → EffectsValid (resends ring link part) }
{}

/// The other rules of a ring, likewise: what tells that something was decided, the leveller, and rounds of trimming.
pub fn other_rules_are_valid()
    ensures decide { (ring : Ring) → IsRing ring.id → (link : Link) (part : Part) → PartValid part → (lo hi left : ℕ) (value : Value)
        → MayLearn (record { lo = lo; hi = hi; value = value }) → EffectsValid (decided ring link part lo hi left value) }
    ensures chosen { (ring : Ring) → IsRing ring.id → (part : Part) → PartValid part → (ranges : List Decided) → AllByRecursion MayLearn ranges
        → EffectsValid (chosen ring part ranges) }
    ensures level { (ring : Ring) → IsRing ring.id → (link : Link) (part : Part) → PartValid part → EffectsValid (levels ring link part) }
    ensures ask { (ring : Ring) → IsRing ring.id → (link : Link) (part : Part) → PartValid part → (own_safe : Option ℕ)
        → ((inst : ℕ) → own_safe ≡ Some inst → IsInst inst) → EffectsValid (asks_round ring link part own_safe) }
    ensures answer { (ring : Ring) → IsRing ring.id → (link : Link) (part : Part) → PartValid part → (from : NodeId) (number inst : ℕ) → IsInst inst
        → EffectsValid (answers ring link part from number inst) }
{}

/// Whatever happens to a node with a valid view: what its step records may stand in a record, its frames are valid, its view
/// stays so, and each learn line names the node, a ring of which it is a member, and a range that isn't empty, ends at the end
/// of all instances at most, and holds a batch only alone.
pub fn a_step_is_valid()
    ensures { (config : Config) → AreNumbered config → (view : View) → ViewValid config view → (event : Event) → EventValid event
        → StepValid config view.id (step config view event) }
{}

/// A node that opens on a journal whose state may stand in records has a valid view, and sends valid frames.
pub fn an_opening_is_valid()
    ensures { (config : Config) (id : NodeId) (journal : Journal) (checkpoints : Checkpoints) → IsState journal.state
        → StepValid config id (opened config id journal checkpoints) }
{}
