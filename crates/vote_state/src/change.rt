//! Changes of what an acceptor keeps for good.
ghost use Rattle.std.specs.Prelude.{◌≡◌, ℕ, ◌++◌, List};
ghost use Rattle.std.specs.List.{AllByRecursion};
ghost use Rattle.vote_state.specs.State.{State, IsState, promise_at, trim_at, promise_by, trim_by, promise_after, trim_after, taken};
ghost use Rattle.vote_state.specs.Valid.{IsChange};

use mrp_types::{Ballot, Inst, Items, RingId, Voted};

/// One change.
#[derive(Debug, Drop)]
pub enum Change {
    /// The epoch of the node becomes this.
    Epoch(u32),
    /// The promise of the ring becomes this ballot.
    Promise(RingId, Ballot),
    /// The votes of the ring at each instance of the range become this ballot and value.
    Vote(RingId, Voted),
    /// The trim of the ring becomes this instance, and the votes below it go.
    Trim(RingId, Inst),
}

/// Changes, to be made one after another.
pub type Changes = Items<Change>;

impl Change {
    /// The promise of a ring once this change was made; before it was `promise`.
    pub(crate) fn promise(&self, ring: RingId, promise: Ballot) -> Ballot
        ensures { result ≡ promise_by ring self.now promise }
    {
        match self {
            Change::Promise(other, ballot) if *other == ring => *ballot,
            _ => promise,
        }
    }

    /// The trim of a ring once this change was made; before it was `trim`.
    pub(crate) fn trim(&self, ring: RingId, trim: Inst) -> Inst
        ensures { result ≡ trim_by ring self.now trim }
    {
        match self {
            Change::Trim(other, inst) if *other == ring => *inst,
            _ => trim,
        }
    }
}

/// The laws of lists of changes: one list after another is the two as one, whatever is asked of it.
pub fn changes_add_up()
    ensures taken { (xs ys : List Change) (s : State) → taken (xs ++ ys) s ≡ taken ys (taken xs s) }
    ensures promise { (ring : RingId) (xs ys : List Change) (ballot : ℕ) → promise_after ring (xs ++ ys) ballot ≡ promise_after ring ys (promise_after ring xs ballot) }
    ensures trim { (ring : RingId) (xs ys : List Change) (inst : ℕ) → trim_after ring (xs ++ ys) inst ≡ trim_after ring ys (trim_after ring xs inst) }
{}

/// The laws of what changes leave: a state stays well-formed, and its promises and trims are those
/// that the list says.
pub fn changes_leave()
    ensures formed { (cs : List Change) (s : State) → IsState s → AllByRecursion IsChange cs → IsState (taken cs s) }
    ensures promise { (cs : List Change) (s : State) (ring : RingId) → IsState s → AllByRecursion IsChange cs → promise_at (taken cs s) ring ≡ promise_after ring cs (promise_at s ring) }
    ensures trim { (cs : List Change) (s : State) (ring : RingId) → IsState s → AllByRecursion IsChange cs → trim_at (taken cs s) ring ≡ trim_after ring cs (trim_at s ring) }
{}
