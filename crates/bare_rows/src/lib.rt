//! A worked run of the whole system without bytes, of a deployment of three acceptors: a vote that a device failure stops, a
//! restart that finds it on the disk, and another leader that decides the value. So the rules of every run are about something.
//! Nothing stands on it.
#![tactic(auto)]

ghost use Rattle.std.specs.Prelude.{List, ◌≡◌};
ghost use Rattle.mrp_types.specs.declared.value.Value.{Value};
ghost use Rattle.mrp_config.specs.Valid.{IsValid};
ghost use Rattle.bare_world.specs.Runs.{MayRun, run};
ghost use Rattle.bare_world.specs.Worlds.{Happening, nothing};
ghost use Rattle.ring_runs.specs.Histories.{at_first, history};
ghost use Rattle.ring_runs.specs.Votes.{IsChosen};
ghost use Rattle.bare_rows.specs.Row.{all_lines, batch, config, happenings, table};

/// The deployment is valid.
pub fn the_deployment_is_valid()
    ensures { IsValid config }
{}

/// The run may happen, and these are all its lines.
pub fn the_run_may_happen()
    ensures may { MayRun config nothing happenings }
    ensures prints { (run config happenings nothing).lines ≡ all_lines }
{}

/// The value whose first vote was stopped is chosen, as the rules of every run say of a learn line; and whatever happens then, no
/// other value is ever chosen there.
pub fn the_value_is_chosen()
    ensures chosen { IsChosen table (history config happenings at_first) 0 batch }
    ensures stays { (more : List Happening) → MayRun config (history config happenings at_first).world more → (value : Value)
        → IsChosen table (history config more (history config happenings at_first)) 0 value → batch ≡ value }
{}
