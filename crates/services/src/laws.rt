//! The parts of a replica and the fold's step.

ghost use Rattle.std.specs.Prelude.{◌≡◌, ◌+◌, ◌<◌, List, IsTrue, false, nat_lt};
ghost use Rattle.command_codec.specs.declared.command.Command.{Command};
ghost use Rattle.command_codec.specs.declared.reply.TableEntry.{TableEntry};
ghost use Rattle.plain_model.specs.Replicas.{LogState, effect_of, has_no_room};
ghost use Rattle.services.specs.Parts.{Part, Logs, Table, is_for, effect_on, part_size, growth_of};

/// A command on logs does with them what the fold's step does, and leaves the table; one on keys does with the table what the step
/// does, and leaves the logs.
pub fn commands_keep_to_their_part()
    ensures logs { (command : Command) (logs : List LogState) (table : List TableEntry) → IsTrue (is_for command (Logs logs)) →
        effect_of command logs table ≡ record { logs = (effect_on command (Logs logs)).logs; table = table; reply = (effect_on command (Logs logs)).reply } }
    ensures table { (command : Command) (logs : List LogState) (table : List TableEntry) → IsTrue (is_for command (Table table)) →
        effect_of command logs table ≡ record { logs = logs; table = (effect_on command (Table table)).table; reply = (effect_on command (Table table)).reply } }
{}

/// Where logs and table have room, a command leaves them without exactly where the written bytes of both and the growth of its part
/// are more than 67,108,864.
pub fn growth_decides_room()
    ensures logs { (command : Command) (logs : List LogState) (table : List TableEntry) → has_no_room logs table ≡ false → IsTrue (is_for command (Logs logs)) →
        has_no_room (effect_of command logs table).logs (effect_of command logs table).table ≡ nat_lt 67108864 (part_size (Logs logs) + part_size (Table table) + growth_of command (Logs logs)) }
    ensures table { (command : Command) (logs : List LogState) (table : List TableEntry) → has_no_room logs table ≡ false → IsTrue (is_for command (Table table)) →
        has_no_room (effect_of command logs table).logs (effect_of command logs table).table ≡ nat_lt 67108864 (part_size (Logs logs) + part_size (Table table) + growth_of command (Table table)) }
{}
