//! The rules of a ring in every run of a whole system without bytes: whatever is lost, repeated or reordered, whichever step is
//! stopped and whichever of the two states a restart finds, over every ring of every valid deployment.
//!
//! Definitions and laws alone: each function has an empty body, and its contract is the law. `specs/Histories` says what counts
//! as done in a run, `specs/Votes` what a cast vote, a proposal and a chosen value are, and `specs/Rules` has the rules, each of
//! an earlier and a later history of a run, or of one. `specs/Standing` says how such a history stands for a world of the ring's
//! machine.
#![tactic(auto)]

ghost use Rattle.std.specs.Prelude.{List, ◌≡◌};
ghost use Rattle.mrp_types.specs.declared.value.Value.{Value};
ghost use Rattle.mrp_config.specs.Config.{Config};
ghost use Rattle.mrp_config.specs.Valid.{IsValid};
ghost use Rattle.mrp_config.specs.declared.tables.RingTable.{RingTable};
ghost use Rattle.quorums.specs.Groups.{Has};
ghost use Rattle.ring_safety.specs.Worlds as machine;
ghost use Rattle.bare_world.specs.Runs.{MayRun, run};
ghost use Rattle.bare_world.specs.Worlds.{Happening, nothing};
ghost use Rattle.ring_runs.specs.Histories.{History, at_first, history};
ghost use Rattle.ring_runs.specs.Lines.{LearnLinesKeepF1};
ghost use Rattle.ring_runs.specs.Rules.{ChooseRule, DoneRule, LearnRule, OneValueRule, PromiseRule, ProposeRule, StartRule, VoteRule};
ghost use Rattle.ring_runs.specs.Standing.{Tied};

/// The world of a history is the one that the run reaches.
pub fn histories_are_runs()
    ensures { (config : Config) (h : History) (xs : List Happening) → (history config xs h).world ≡ run config xs h.world }
{}

/// Every history that a run reaches stands for a world of the ring's machine that events reach which may happen, and in which
/// both faces of each node keep the invariant; what follows stands for a later such world.
pub fn runs_stand_for_the_machine()
    ensures reached { (config : Config) (table : RingTable) → IsValid config → Has config.rings table → (xs : List Happening) → MayRun config nothing xs → Tied config table machine.empty (history config xs at_first) }
    ensures onward { (config : Config) (table : RingTable) → IsValid config → Has config.rings table → (from : machine.World Value) (early : History)
        → (t : Tied config table from early) → (xs : List Happening) → MayRun config early.world xs → Tied config table t.machine_world (history config xs early) }
{}

/// Promise: in every possible state an acceptor keeps what it promised in a frame, for ever: its promise is at least that ballot,
/// and on the page, from the trim told on, it casts and holds no vote of a lower ballot above the one told.
pub fn promise()
    ensures { (config : Config) (table : RingTable) → IsValid config → Has config.rings table → (xs ys : List Happening) → MayRun config nothing xs
        → MayRun config (history config xs at_first).world ys → PromiseRule table (history config xs at_first) (history config ys (history config xs at_first)) }
{}

/// Vote: each vote cast or held was proposed; each bit of an Accept frame stands for votes cast on its whole range; held votes are
/// of ballots at most the promise and not below the trim; and a cast vote is kept in every possible state, for ever.
pub fn vote()
    ensures { (config : Config) (table : RingTable) → IsValid config → Has config.rings table → (xs ys : List Happening) → MayRun config nothing xs
        → MayRun config (history config xs at_first).world ys → VoteRule table (history config xs at_first) (history config ys (history config xs at_first)) }
{}

/// What counts as done: the work of each step that ended well is, and each vote that an opening read was cast. A promise and a trim
/// that were recorded so, or read, are kept in every possible state, for ever.
pub fn what_is_done_is_kept()
    ensures { (config : Config) (table : RingTable) → IsValid config → Has config.rings table → (xs ys : List Happening) → MayRun config nothing xs
        → MayRun config (history config xs at_first).world ys → DoneRule table (history config xs at_first) (history config ys (history config xs at_first)) }
{}

/// Start: a promise that a done work has recorded, as the start of a ballot does, or that an opening has read, forbids what a sent
/// one does: from then on its acceptor casts no vote of a lower ballot.
pub fn start()
    ensures { (config : Config) (table : RingTable) → IsValid config → Has config.rings table → (xs ys : List Happening) → MayRun config nothing xs
        → MayRun config (history config xs at_first).world ys → StartRule table (history config xs at_first) (history config ys (history config xs at_first)) }
{}

/// Propose: in one ballot and instance all proposals have one value; and a majority of acceptors has sent promises of the ballot, of
/// its owner this is its start, whose pages hold the instance and whose trims aren't above it, and the value is that of the
/// highest vote of a lower ballot that they report there, where they report one. A vote that a member reports was cast by it, or,
/// of the owner alone, recorded by its step that was stopped.
pub fn propose()
    ensures { (config : Config) (table : RingTable) → IsValid config → Has config.rings table → (xs : List Happening) → MayRun config nothing xs → ProposeRule table (history config xs at_first) }
{}

/// Choose: where a value is chosen, each proposal at that instance of that ballot or a higher one is for it, also later.
pub fn choose()
    ensures { (config : Config) (table : RingTable) → IsValid config → Has config.rings table → (xs ys : List Happening) → MayRun config nothing xs
        → MayRun config (history config xs at_first).world ys → ChooseRule table (history config xs at_first) (history config ys (history config xs at_first)) }
{}

/// One value: two values that are chosen at one instance are equal, also where one is chosen later.
pub fn one_value()
    ensures { (config : Config) (table : RingTable) → IsValid config → Has config.rings table → (xs ys : List Happening) → MayRun config nothing xs
        → MayRun config (history config xs at_first).world ys → OneValueRule table (history config xs at_first) (history config ys (history config xs at_first)) }
{}

/// Learn: each value of a Decide or a Chosen frame, in a learner, and of a learn line is chosen at each of its instances: a majority
/// of the ring's acceptors has cast it there in one ballot.
pub fn learn()
    ensures { (config : Config) (table : RingTable) → IsValid config → Has config.rings table → (xs : List Happening) → MayRun config nothing xs → LearnRule table (history config xs at_first) }
{}

/// F1: each learn line of every run names a node and a ring of which that is a member, has a range that isn't empty, ends at the
/// end of all instances at most and has a batch only alone, and has the value of each earlier learn line of the ring that covers
/// an instance of it.
pub fn learn_lines_are_faithful()
    ensures { (config : Config) → IsValid config → (xs : List Happening) → MayRun config nothing xs → LearnLinesKeepF1 config (run config xs nothing).lines }
{}
