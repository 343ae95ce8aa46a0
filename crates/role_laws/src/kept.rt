//! What each row keeps: the conditions that the calls ask of the part, so that a node need only carry them.
ghost use Rattle.std.specs.Prelude.{◌≡◌, ◌++◌, ℕ, List};
ghost use Rattle.mrp_types.specs.declared.id.NodeId.{NodeId};
ghost use Rattle.mrp_types.specs.declared.value.Entry.{Entry};
ghost use Rattle.mrp_types.specs.declared.value.Value.{Value};
ghost use Rattle.mrp_types.specs.declared.members.RingView.{RingView};
ghost use Rattle.vote_state.specs.State.{State};
ghost use Rattle.vote_state.specs.declared.change.Change.{Change};
ghost use Rattle.ring_link.specs.Silence.{Link};
ghost use Rattle.protocol.specs.Parts.{Ring, Role, Part, Effects};
ghost use Rattle.protocol.specs.Effects.{no_effects};
ghost use Rattle.protocol.specs.Learner.{role_without, role_unfinished};
ghost use Rattle.protocol.specs.Acceptor.{idle_below, promises, prepares, accepts, trims_to};
ghost use Rattle.protocol.specs.Ballots.{Page, campaigns, reported};
ghost use Rattle.protocol.specs.Coordinator.{refused};
ghost use Rattle.protocol.specs.Proposing.{proposes};
ghost use Rattle.protocol.specs.Leading.{levels};
ghost use Rattle.ring_view.specs.Views.{Shows};
ghost use Rattle.coordinator.specs.Standing.{HasSeats};
ghost use Rattle.role_laws.specs.Kept.{Records};

/// Whatever a row makes, an Active coordinator has for each acceptor up to where it is covered.
pub fn each_row_keeps_the_seats()
    ensures start { (ring : Ring) (ballot : ℕ) (effects : Effects) → HasSeats ring (campaigns ring ballot effects).part.coordinator.role }
    ensures promise { (ring : Ring) (part : Part) (from : NodeId) (page : Page) → HasSeats ring part.coordinator.role → HasSeats ring (reported ring from page (no_effects part)).part.coordinator.role }
    ensures refuse { (ring : Ring) (part : Part) (ballot promise : ℕ) → HasSeats ring part.coordinator.role → HasSeats ring (refused ring part ballot promise).part.coordinator.role }
    ensures own_promise { (ring : Ring) (promise : ℕ) (role : Role) → HasSeats ring role → HasSeats ring (idle_below promise role) }
    ensures learned { (ring : Ring) (entries : List Entry) (role : Role) → HasSeats ring role → HasSeats ring (role_without entries role) }
    ensures finished { (ring : Ring) (trim : ℕ) (held : List (ℕ × Value)) (role : Role) → HasSeats ring role → HasSeats ring (role_unfinished trim held role) }
    ensures proposing { (ring : Ring) (link : Link) (part : Part) → HasSeats ring part.coordinator.role → HasSeats ring (proposes ring link part).part.coordinator.role }
    ensures levelling { (ring : Ring) (link : Link) (part : Part) → HasSeats ring part.coordinator.role → HasSeats ring (levels ring link part).part.coordinator.role }
{}

/// What a row's part keeps is what the row's changes make of what was kept. So a part that a view, a durable state and the
/// changes of a step show is shown by them and the row's changes.
pub fn each_row_is_shown()
    ensures shown { (view : RingView) (durable : State) (changes : List Change) (ring : Ring) (link : Link) (part : Part) (effects : Effects) → Shows view durable changes ring link part → Records ring part effects
        → Shows view durable (changes ++ effects.changes) ring link effects.part }
    ensures prepare { (ring : Ring) (part : Part) (from : NodeId) (ballot lo : ℕ) → Records ring part (prepares ring part from ballot lo) }
    ensures accept { (ring : Ring) (link : Link) (part : Part) (ballot lo hi mask : ℕ) (value : Value) → Records ring part (accepts ring link part ballot lo hi mask value) }
    ensures trim { (ring : Ring) (part : Part) (trim : ℕ) → Records ring part (trims_to ring trim (no_effects part)) }
    ensures start { (ring : Ring) (part : Part) (ballot : ℕ) → Records ring part (campaigns ring ballot (promises ring ballot (no_effects part))) }
    ensures promise { (ring : Ring) (part : Part) (from : NodeId) (page : Page) → Records ring part (reported ring from page (no_effects part)) }
    ensures refuse { (ring : Ring) (part : Part) (ballot promise : ℕ) → Records ring part (refused ring part ballot promise) }
    ensures proposing { (ring : Ring) (link : Link) (part : Part) → Records ring part (proposes ring link part) }
    ensures levelling { (ring : Ring) (link : Link) (part : Part) → Records ring part (levels ring link part) }
{}
