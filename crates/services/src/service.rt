//! The trait.

ghost use Rattle.std.specs.Prelude.{◌≡◌, ◌≤◌, ◌++◌, IfOk, OnOk, IsTrue};
ghost use Rattle.command_codec.specs.Valid.{IsCommand};
ghost use Rattle.command_codec.specs.Replies.{IsReply};
ghost use Rattle.services.specs.Parts.{Part, is_for, effect_on, after, part_bytes, part_size, growth_of};

use command_codec::{Command, Reply};
use mrp_types::{Memory, Octets};

/// The most bytes that the services of a partition have in its written state.
pub const ROOM: u64 = 67_108_864;

/// A service: a part of a replica's state, and what commands make of it.
pub trait Service {
    /// What it holds, as the fold's state has it.
    ghost part: { Self → Part };

    /// Takes a command and says what is replied, as the fold's step does. After `Memory` nothing is said of what it holds.
    fn apply(&mut self, command: &Command) -> Result<Reply, Memory>
        requires valid { IsCommand command.now }
        requires concerned { IsTrue (is_for command.now (part self.old)) }
        requires room { growth_of command.now (part self.old) ≤ ROOM }
        ensures state { OnOk result (part self.new ≡ after command.now (part self.old)) }
        ensures reply { IfOk result (λ reply. reply ≡ (effect_on command.now (part self.old)).reply) }
        ensures spelled { IfOk result IsReply };

    /// By how many bytes `apply` of the command would raise the size, 0 where it would not, and one more than [`ROOM`] where a log
    /// would be longer than 2^63.
    fn growth(&self, command: &Command) -> u64
        requires { IsCommand command.now }
        ensures { result ≡ growth_of command.now (part self.now) };

    /// How many bytes `write_state` writes.
    fn size(&self) -> u64
        ensures { result ≡ part_size (part self.now) };

    /// Writes the service's section of the state. After `Memory` nothing is said of what was written.
    fn write_state(&self, to: &mut Octets) -> Result<(), Memory>
        ensures { OnOk result (to.new ≡ to.old ++ part_bytes (part self.now)) };
}
