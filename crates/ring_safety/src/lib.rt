//! One ring of acceptors, as a machine of lists and functions: whatever is lost, repeated, reordered or stopped in the
//! middle, one value is chosen at each instance.
//!
//! Definitions and laws alone: each function has an empty body, and its contract is the law. `V` is the type of the
//! values. A world is what any list of events that may happen leaves of the empty world, with n acceptors.
#![tactic(auto)]

ghost use Rattle.std.specs.Prelude.{◌≡◌, ◌++◌, ◌∷◌, [], ℕ, List};
ghost use Rattle.ring_safety.specs.Deeds.{Deed, May, MayAll, done, all_done};
ghost use Rattle.ring_safety.specs.Example.{first_world, second_world, seven, with_state_after, with_state_before};
ghost use Rattle.ring_safety.specs.Faces.{Face};
ghost use Rattle.ring_safety.specs.Invariant.{Local, Sound};
ghost use Rattle.ring_safety.specs.Rules.{Grows, PromiseRule, VoteRule, ProposeRule, ChooseRule, OneValueRule, StaysRule};
ghost use Rattle.ring_safety.specs.Worlds.{World, Event, CanHappen, CanRun, Chosen, durables, empty, happens, run};

/// Each face keeps the promises made in it, and both faces of a node keep, for ever, those that it sent.
pub fn promise<V>()
    ensures { (n : ℕ) (early late : List (Event V)) → CanRun n empty early → CanRun n (run early empty) late
        → PromiseRule (run early empty) (run late (run early empty)) }
{}

/// Held votes were cast, cast votes were proposed, and both faces of a node keep, for ever, the votes that it cast.
pub fn vote<V>()
    ensures { (n : ℕ) (early late : List (Event V)) → CanRun n empty early → CanRun n (run early empty) late
        → VoteRule n (run early empty) (run late (run early empty)) }
{}

/// One value is proposed in a ballot and instance, and a majority's promises stand behind it.
pub fn propose<V>()
    ensures { (n : ℕ) (events : List (Event V)) → CanRun n empty events → ProposeRule n (run events empty) }
{}

/// Where a value is chosen, each proposal there of that ballot or a higher one is for that value, also after any further
/// events.
pub fn choose<V>()
    ensures { (n : ℕ) (early late : List (Event V)) → CanRun n empty early → CanRun n (run early empty) late
        → ChooseRule n (run early empty) (run late (run early empty)) }
{}

/// Two values that are chosen at one instance are equal, also where the second is chosen after any further events.
pub fn one_value<V>()
    ensures { (n : ℕ) (early late : List (Event V)) → CanRun n empty early → CanRun n (run early empty) late
        → OneValueRule n (run early empty) (run late (run early empty)) }
{}

/// What durable faces said, their promises and their trims only grow, and what is chosen stays chosen.
pub fn stays<V>()
    ensures { (n : ℕ) (early late : List (Event V)) → CanRun n empty early → CanRun n (run early empty) late
        → StaysRule n (run early empty) (run late (run early empty)) }
{}

/// Deeds that may be done keep the invariant of a face where each durable face keeps its own, and a deed takes back nothing
/// that was said, and lowers neither the promise nor the trim.
pub fn deeds_keep_the_invariant<V>()
    ensures keep { (n : ℕ) (faces : ℕ → Face V) → ((k : ℕ) → Local n faces k (faces k)) → (a : ℕ) (f : Face V) → Local n faces a f → (deeds : List (Deed V))
        → MayAll n faces a f deeds → Local n faces a (all_done deeds f) }
    ensures grow { (n : ℕ) (faces : ℕ → Face V) (a : ℕ) (f : Face V) (d : Deed V) → May n faces a f d → Grows f (done d f) }
{}

/// In the empty world both faces of each node keep the invariant, and whatever events may happen leave it so: such a world is
/// sound.
pub fn what_may_happen_is_sound<V>()
    ensures at_first { (n : ℕ) → Sound {V = V} n empty }
    ensures onward { (n : ℕ) (w : World V) → Sound n w → (events : List (Event V)) → CanRun n w events → Sound n (run events w) }
{}

/// A sound world, and what any events that may happen leave of it, keep all the rules above. So who carries that a world is
/// sound needs to know nothing of the events before.
pub fn sound_worlds_keep_the_rules<V>()
    ensures promise { (n : ℕ) (w : World V) → Sound n w → (events : List (Event V)) → CanRun n w events → PromiseRule w (run events w) }
    ensures vote { (n : ℕ) (w : World V) → Sound n w → (events : List (Event V)) → CanRun n w events → VoteRule n w (run events w) }
    ensures propose { (n : ℕ) (w : World V) → Sound n w → ProposeRule n w }
    ensures choose { (n : ℕ) (w : World V) → Sound n w → (events : List (Event V)) → CanRun n w events → ChooseRule n w (run events w) }
    ensures one_value { (n : ℕ) (w : World V) → Sound n w → (events : List (Event V)) → CanRun n w events → OneValueRule n w (run events w) }
    ensures stays { (n : ℕ) (w : World V) → Sound n w → (events : List (Event V)) → CanRun n w events → StaysRule n w (run events w) }
{}

/// Events that may happen, and one more that may happen then, may happen in turn. So a world grows event by event.
pub fn one_more_event<V>()
    ensures can { (n : ℕ) (w : World V) (events : List (Event V)) (e : Event V) → CanRun n w events → CanHappen n (run events w) e → CanRun n w (events ++ e ∷ []) }
    ensures world { (w : World V) (events : List (Event V)) (e : Event V) → run (events ++ e ∷ []) w ≡ happens e (run events w) }
{}

/// Two lists of deeds that may be done in turn may be done as one. So the deeds of a step may be told part by part.
pub fn deeds_in_turn<V>()
    ensures may { (n : ℕ) (faces : ℕ → Face V) (a : ℕ) (f : Face V) (first second : List (Deed V)) → MayAll n faces a f first
        → MayAll n faces a (all_done first f) second → MayAll n faces a f (first ++ second) }
    ensures done { (f : Face V) (first second : List (Deed V)) → all_done (first ++ second) f ≡ all_done second (all_done first f) }
{}

/// The laws are not about nothing: a run of three acceptors in which a value is chosen after a crash with the state
/// before, and then, with another leader that adopts it, after a crash with the state after.
pub fn a_value_is_chosen()
    ensures first { CanRun 3 empty with_state_before }
    ensures chosen_first { Chosen 3 (durables first_world) (seven 1) }
    ensures second { CanRun 3 first_world with_state_after }
    ensures chosen_second { Chosen 3 (durables second_world) (seven 5) }
{}
