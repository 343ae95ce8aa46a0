//! What calls give.

ghost use Rattle.command_codec.specs.Replies.{IsReply};

use crate::cases::{NoCase, read_asked, read_bytes, read_entry, read_partition};
use command_codec::{Reply, write_reply};
use mrp_config::Deployment;
use mrp_types::Octets;
use replica_state::{ReplicaState, looks};
use services::StateFault;
use std::alloc::Global;
use text_lines::{Words, put_hex, put_number, put_word};

/// What a line gives, behind a space.
pub fn answer(
    alloc: Global,
    deployment: &Deployment,
    state: &mut Option<ReplicaState>,
    line: &[u8],
    out: &mut Octets,
) -> Result<(), NoCase> {
    let mut words = Words::new(line);
    let call = words.word()?;
    if call == b"new".as_slice() {
        return begin(alloc, deployment, state, &mut words, out);
    }
    if call == b"read".as_slice() {
        return read(alloc, deployment, state, &mut words, out);
    }
    let Some(state) = state else {
        return Err(NoCase);
    };
    call_on(alloc, state, call, &mut words, out)
}

fn begin(
    alloc: Global,
    deployment: &Deployment,
    state: &mut Option<ReplicaState>,
    words: &mut Words<'_>,
    out: &mut Octets,
) -> Result<(), NoCase> {
    let p = read_partition(deployment, words)?;
    words.end()?;
    *state = Some(ReplicaState::new(alloc, deployment, p)?);
    Ok(put_word(out, b"ok")?)
}

fn read(
    alloc: Global,
    deployment: &Deployment,
    state: &mut Option<ReplicaState>,
    words: &mut Words<'_>,
    out: &mut Octets,
) -> Result<(), NoCase> {
    let p = read_partition(deployment, words)?;
    let bytes = read_bytes(alloc, words)?;
    match ReplicaState::read(alloc, deployment, p, bytes.bytes()) {
        Ok(found) => {
            let same = found.write()?.bytes() == bytes.bytes();
            *state = Some(found);
            if same {
                return Ok(put_word(out, b"ok")?);
            }
            Ok(put_word(out, b"otherwise")?)
        }
        Err(StateFault::BadState(at)) => {
            put_word(out, b"fault")?;
            Ok(put_number(out, at as u64)?)
        }
        Err(StateFault::Memory) => Err(NoCase),
    }
}

/// A call on the state.
fn call_on(
    alloc: Global,
    state: &mut ReplicaState,
    call: &[u8],
    words: &mut Words<'_>,
    out: &mut Octets,
) -> Result<(), NoCase> {
    match call {
        b"apply" => apply(alloc, state, words, out),
        b"look" => look(alloc, state, words, out),
        b"state" => {
            words.end()?;
            Ok(put_hex(out, state.write()?.bytes())?)
        }
        _ => Err(NoCase),
    }
}

fn apply(
    alloc: Global,
    state: &mut ReplicaState,
    words: &mut Words<'_>,
    out: &mut Octets,
) -> Result<(), NoCase> {
    let entry = read_entry(alloc, words)?;
    match state.apply(&entry)? {
        None => Ok(put_word(out, b"none")?),
        Some(reply) => show(alloc, &reply, out),
    }
}

/// A command that only looks and concerns the partition is one to ask.
fn look(
    alloc: Global,
    state: &mut ReplicaState,
    words: &mut Words<'_>,
    out: &mut Octets,
) -> Result<(), NoCase> {
    let command = read_asked(alloc, words)?;
    if !looks(&command) || !state.is_concerned(&command) {
        return Err(NoCase);
    }
    let reply = state.look(&command)?;
    show(alloc, &reply, out)
}

fn show(alloc: Global, reply: &Reply, out: &mut Octets) -> Result<(), NoCase>
    requires { IsReply reply.now }
{
    Ok(put_hex(out, write_reply(alloc, reply)?.bytes())?)
}
