//! Sessions by their clients.

ghost use Rattle.std.specs.Prelude.{◌≡◌, ◌<◌, ◌^◌, ◌++◌, [], length, IfOk, OnOk, OnErr};
ghost use Rattle.std.specs.Option.{option_map};
ghost use Rattle.plain_model.specs.Replicas.{session_at, with_session};
ghost use Rattle.plain_model.specs.StateBytes.{session_bytes, sessions_bytes};
ghost use Rattle.state_laws.specs.States.{AreSessions};
ghost use Rattle.replica_state.specs.Held.{session_of, sessions_in};

use command_codec::writing::{put_u8, put_u16, put_u32, put_u64};
use mrp_types::{ClientId, Memory, Octets};
use std::collections::BTreeMap;

/// A client's greatest number, and the bytes of the reply to it.
#[derive(Debug, Drop)]
pub struct Kept {
    pub seq: u64,
    pub reply: Octets,
}

/// What is kept of each client, by its number.
pub type Sessions = BTreeMap<u8, Kept>;

/// What is kept of a client.
pub fn find(sessions: &Sessions, client: ClientId) -> Option<&Kept>
    ensures { option_map (λ kept. session_of (client.0, kept.now)) result ≡ session_at client (sessions_in sessions.now.entries) }
{
    sessions.get(&client.0)
}

/// Keeps a number of a client and the reply's bytes in the place of what was kept of it. Without memory nothing changes.
pub fn keep(sessions: &mut Sessions, client: ClientId, kept: Kept) -> Result<(), Memory>
    ensures ok { OnOk result (sessions_in sessions.new.entries ≡ with_session (session_of (client.0, kept)) (sessions_in sessions.old.entries)) }
    ensures err { OnErr result (sessions.new.entries ≡ sessions.old.entries) }
{
    sessions.insert(client.0, kept)?;
    Ok(())
}

/// Writes the sessions by client, behind their number.
pub fn write_sessions(sessions: &Sessions, to: &mut Octets) -> Result<(), Memory>
    requires { AreSessions 0 (sessions_in sessions.now.entries) }
    ensures { OnOk result (to.new ≡ to.old ++ sessions_bytes (sessions_in sessions.now.entries)) }
{
    put_u16(to, sessions.len() as u16)?;
    for (client, kept) in sessions {
        put_session(to, *client, kept)?;
    }
    Ok(())
}

fn put_session(to: &mut Octets, client: u8, kept: &Kept) -> Result<(), Memory>
    requires { length kept.now.reply < 2 ^ 32 }
    ensures { OnOk result (to.new ≡ to.old ++ session_bytes (session_of (client, kept.now))) }
{
    put_u8(to, client)?;
    put_u64(to, kept.seq)?;
    put_u32(to, kept.reply.len() as u32)?;
    to.extend(kept.reply.bytes())
}
