//! Services that take commands where there is room.

ghost use Rattle.std.specs.Prelude.{◌≡◌, ◌≤◌, IfOk, OnOk, IsTrue};
ghost use Rattle.command_codec.specs.Valid.{IsCommand};
ghost use Rattle.command_codec.specs.Replies.{IsReply};
ghost use Rattle.services.specs.Parts.{is_for};
ghost use Rattle.replica_state.specs.Held.{part_after, reply_after};

use command_codec::{Command, Reply};
use mrp_types::Memory;
use services::{ROOM, Service};

/// Has the service take the command where its growth has room beside so many bytes; else nothing changes, and the reply is Limit.
pub fn take<S: Service>(service: &mut S, used: u64, command: &Command) -> Result<Reply, Memory>
    requires valid { IsCommand command.now }
    requires concerned { IsTrue (is_for command.now (S.part service.old)) }
    requires used { used ≤ ROOM }
    ensures state { OnOk result (S.part service.new ≡ part_after used command.now (S.part service.old)) }
    ensures reply { IfOk result (λ reply. reply ≡ reply_after used command.now (S.part service.old)) }
    ensures spelled { IfOk result IsReply }
{
    if ROOM - used < service.growth(command) {
        return Ok(Reply::Limit);
    }
    service.apply(command)
}
