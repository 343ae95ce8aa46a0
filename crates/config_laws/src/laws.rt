//! Which tables are accepted, and what the commands of a valid deployment concern.

ghost use Rattle.std.specs.Prelude.{◌≡◌, ℕ, Ok};
ghost use Rattle.std.specs.Int.{bit_at};
ghost use Rattle.command_codec.specs.declared.command.Command.{Command};
ghost use Rattle.mrp_config.specs.Config.{Config, partition_at};
ghost use Rattle.mrp_config.specs.Routing.{mask_of, concerned_of, route_of};
ghost use Rattle.mrp_config.specs.Walk.{config_of};
ghost use Rattle.mrp_config.specs.Valid.{IsValid, concerns_at, IsRouteOf};
ghost use Rattle.config_laws.specs.Tables.{described};

/// The table that describes a valid deployment is accepted, and gives that deployment.
pub fn what_is_valid_is_accepted()
    ensures { (config : Config) → IsValid config → config_of (described config) ≡ Ok config }
{}

/// A bit of what `concerned` answers is set exactly where the partition with that number is there and the command
/// concerns it.
pub fn bits_name_what_is_concerned()
    ensures { (config : Config) → IsValid config → (command : Command) (id : ℕ) → bit_at (mask_of command config.partitions) id ≡ concerns_at command (partition_at config.partitions id) }
{}

/// The ring that orders a command is one to which each concerned partition subscribes: the home ring of one
/// partition, the least common ring of several. There is none exactly where no partition is concerned or no ring is
/// common.
pub fn routes_are_common_rings()
    ensures { (config : Config) → IsValid config → (command : Command) → IsRouteOf (concerned_of command config.partitions) (route_of (concerned_of command config.partitions)) }
{}
