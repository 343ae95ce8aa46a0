//! Deeds in a row: what a node of a ring reaches by them, votes and proposals over whole ranges of instances, and a node's
//! step as an event of the ring's machine.
//!
//! Definitions and laws alone: each function has an empty body, and its contract is the law.
#![tactic(auto)]

ghost use Rattle.std.specs.Prelude.{◌≡◌, ℕ, ◌+◌, ◌<◌, ◌≤◌, Some};
ghost use Rattle.quorums.specs.Groups.{Has};
ghost use Rattle.ring_safety.specs.Deeds.{Backing, IsPromised, IsProposed};
ghost use Rattle.ring_safety.specs.Faces.{Face, Promise, Proposal, owner};
ghost use Rattle.ring_safety.specs.Invariant.{Local, Sound};
ghost use Rattle.ring_safety.specs.Rules.{Grows};
ghost use Rattle.ring_safety.specs.Worlds.{World, durables};
ghost use Rattle.ring_reach.specs.Lifts.{HasStepped, WasStopped};
ghost use Rattle.ring_reach.specs.Reach.{Proposing, Reaches, Voting, proposal, seen};
ghost use Rattle.ring_reach.specs.Silent.{Silently};

/// What is reached by deeds that may be done, one after another: nothing that was said is lost, the invariant is kept, and a
/// node may go on from there.
pub fn deeds_lead_on<V>()
    ensures grow { (n : ℕ) (faces : ℕ → Face V) (a : ℕ) (f g : Face V) → Reaches n faces a f g → Grows f g }
    ensures keep { (n : ℕ) (faces : ℕ → Face V) (a : ℕ) → ((k : ℕ) → Local n faces k (faces k)) → (f g : Face V) → Local n faces a f → Reaches n faces a f g
        → Local n faces a g }
    ensures follow { (n : ℕ) (faces : ℕ → Face V) (a : ℕ) (f g h : Face V) → Reaches n faces a f g → Reaches n faces a g h → Reaches n faces a f h }
{}

/// What a node sees in a step, of all others what they said durably and of itself what it has said by then, it may rest on.
pub fn what_is_seen_is_known<V>()
    ensures proposed { (n : ℕ) (faces : ℕ → Face V) (a : ℕ) (f : Face V) (p : Proposal V) → Has (seen faces a f (owner n p.ballot)).proposals p
        → IsProposed n faces f p }
    ensures promised { (n : ℕ) (faces : ℕ → Face V) (a : ℕ) (f : Face V) (k : ℕ) (p : Promise V) → Has (seen faces a f k).promises p
        → IsPromised faces a f k p }
{}

/// A range of any size may be voted for, in the ballot that is promised and from the trim on, where each instance of it was
/// proposed: then the votes stand there, the others stay, and the node leads what it led.
pub fn a_range_may_be_voted_for<V>()
    ensures { (n : ℕ) (faces : ℕ → Face V) (a size : ℕ) (f : Face V) (ballot lo : ℕ) (value : V) → f.promise ≡ ballot → f.trim ≤ lo
        → ((i : ℕ) → lo ≤ i → i < lo + size → IsProposed n faces f (proposal ballot i value)) → Voting n faces a f ballot lo size value }
{}

/// A range of any size may be proposed, in the ballot that is led and promised, from the next instance and the trim on, where
/// each instance of it is backed: then it is proposed and voted for, and the next instance isn't past its end.
pub fn a_range_may_be_proposed<V>()
    ensures { (n : ℕ) (faces : ℕ → Face V) (a size : ℕ) (f : Face V) (ballot next lo : ℕ) (value : V) → f.leads ≡ Some (record { ballot = ballot; next = next })
        → next ≤ lo → f.promise ≡ ballot → f.trim ≤ lo → ((i : ℕ) → lo ≤ i → i < lo + size → Backing n faces a f (proposal ballot i value))
        → Proposing n faces a f ballot lo size value }
{}

/// What a node reaches from its durable face is an event of a sound world: a step that ends well, after which all see what it
/// saw, or one that is stopped, of which nobody can tell.
pub fn a_step_is_an_event<V>()
    ensures ended { (n : ℕ) (w : World V) → Sound n w → (a : ℕ) (g : Face V) → Reaches n (durables w) a (w a).durable g → HasStepped n w a g }
    ensures stopped { (n : ℕ) (w : World V) → Sound n w → (a : ℕ) (g : Face V) → Reaches n (durables w) a (w a).durable g → WasStopped n w a g }
{}

/// What a step may do may also be done with nothing told to others: the same face is reached but for promises, of which each new
/// one with a page that isn't empty is of a ballot that the node owns. So a step that is stopped, of which no frame was sent,
/// leaves no promise behind that others could miss.
pub fn a_stopped_step_tells_nothing<V>()
    ensures { (n : ℕ) (faces : ℕ → Face V) (a : ℕ) → ((k : ℕ) → Local n faces k (faces k)) → (f : Face V) → Local n faces a f → (g : Face V)
        → Reaches n faces a f g → Silently n faces a f g }
{}
