//! The ten safe rules of every run of a valid deployment. Promise, Start, Vote, Propose, Choose and Learn are laws of `ring_runs`,
//! by these names; Ask, Save, Trim and Restore are here, and all ten together.
//!
//! Definitions and laws alone: each function has an empty body, and its contract is the law. A run is a list of happenings
//! from the world in which no node has opened yet, as `IsRun` of `line_runs` says; one on disks is as `IsRun` of `world_model` says.
#![tactic(auto)]

ghost use Rattle.std.specs.Prelude.{List, ◌++◌};
ghost use Rattle.std.specs.List.{AllByRecursion};
ghost use Rattle.mrp_config.specs.Config.{Config};
ghost use Rattle.mrp_config.specs.Valid.{IsValid};
ghost use Rattle.bare_world.specs.Worlds.{Happening};
ghost use Rattle.world_model.specs.Runs as disks;
ghost use Rattle.line_runs.specs.Laws.{IsRun};
ghost use Rattle.disk_runs.specs.Runs.{Fits};
ghost use Rattle.safe_rules.specs.Rules.{AreSafe, AskRule, KeepsSafeRules, RestoreRule, SaveRule, TrimRule};

/// Ask: each entry of a proposed value was asked by its client under its number, on the ring that orders it, and no number is above
/// the client's last one. Each number that was answered has its place in the book, and so have, of each concerned partition, all
/// places of its rings before it.
pub fn ask()
    ensures { (c : Config) (hs : List Happening) → IsRun c hs → AskRule c hs }
{}

/// Save: a checkpoint that a disk may stand for, or that a frame names or carries, has a valid tuple below which every place is in
/// the book, and its bytes are the written state there. What a replica told in a frame, or in a begin or saved line, is reached by
/// the newest checkpoint of each state that its disk may stand for.
pub fn save()
    ensures { (c : Config) (hs : List Happening) → IsRun c hs → SaveRule c hs }
{}

/// Trim: a trim that a disk may stand for or that a frame tells is 0, or a partition subscribes to the ring and in each that does a
/// trim quorum of replicas have a checkpoint that reaches it, in every state that their disks may stand for.
pub fn trim()
    ensures { (c : Config) (hs : List Happening) → IsRun c hs → TrimRule c hs }
{}

/// Restore: an answer that names an attempt was sent after the attempt began. A ready replica stands at a valid tuple below which
/// every place is in the book, and keeps the state there.
pub fn restore()
    ensures { (c : Config) (hs : List Happening) → IsRun c hs → RestoreRule c hs }
{}

/// All ten, of every run: what was promised, started, voted and chosen in a first part of it stays so through the rest.
pub fn every_run_keeps_the_safe_rules()
    ensures { (c : Config) (first more : List Happening) → IsRun c (first ++ more) → KeepsSafeRules c first more }
{}

/// And of every run on disks, whatever images crashes leave: its worlds are tied to those of a run that keeps the rules.
pub fn every_run_on_disks_keeps_the_safe_rules()
    ensures { (config : Config) → IsValid config → (xs ys : List disks.Happening) → disks.IsRun config xs → disks.MayRun config ys (disks.run_of config xs).world → AllByRecursion (Fits config) xs
        → AllByRecursion (Fits config) ys → AreSafe config (disks.run_of config xs).world (disks.ran_from config ys (disks.run_of config xs).world).world }
{}
