//! Records and learn lines of every run: in the world without bytes, whatever happens, each record may stand in a journal and
//! each learn line has its shape.
//!
//! Definitions and laws alone: each function has an empty body, and its contract is the law.
#![tactic(auto)]

ghost use Rattle.std.specs.Prelude.{List};
ghost use Rattle.mrp_config.specs.Config.{Config};
ghost use Rattle.mrp_config.specs.Valid.{IsValid};
ghost use Rattle.bare_world.specs.Runs.{MayHappen, MayRun, run};
ghost use Rattle.bare_world.specs.Worlds.{Happening, World, happens, nothing};
ghost use Rattle.step_valid.specs.Valid.{AreNumbered};
ghost use Rattle.valid_runs.specs.Worlds.{WorldValid};

/// A valid deployment numbers its rings below 16, as records do.
pub fn a_valid_deployment_has_numbers()
    ensures { (config : Config) → IsValid config → AreNumbered config }
{}

/// A world that is valid stays so, whatever may happen next.
pub fn valid_worlds_go_on()
    ensures { (config : Config) → AreNumbered config → (h : Happening) (w : World) → WorldValid config w → MayHappen config w h
        → WorldValid config (happens config h w) }
{}

/// Every run of a valid deployment from nothing: what each step that ended well has recorded may stand in a record, so may the
/// states of every disk, each frame is valid, and each learn line names a node and a ring of which it is a member, and has a
/// range that isn't empty, ends at the end of all instances at most, and holds a batch only alone.
pub fn every_run_is_valid()
    ensures { (config : Config) → IsValid config → (hs : List Happening) → MayRun config nothing hs → WorldValid config (run config hs nothing) }
{}
