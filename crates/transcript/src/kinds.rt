//! The words of each kind of line, behind the first one.

ghost use Rattle.std.specs.Prelude.{◌≡◌};
ghost use Rattle.transcript.specs.Words.{Gives, Reads};
ghost use Rattle.transcript.specs.Reading.{learn_at, deliver_at, reply_at, answer_at, busy_at, begin_at, chose_at, restore_at, saved_at, trim_at, refuse_at, limit_line, limit_of, limit_at, cause_at, down_at, up_at, state_of, state_at, frame_of, frame_at, last_at};

use crate::words::{read_count, read_hex, read_id, read_party, read_tuple, read_value, read_word};
use crate::{Cause, Line, LineKind, ShownFrame, ShownState};
use mrp_types::{ClientId, NodeId, RingId};
use std::alloc::Global;
use text_lines::Words;

#[tactic(auto, unfolding(crate::specs::Reading::learn_at))]
pub fn read_learn(alloc: Global, words: &mut Words<'_>) -> Result<Line, LineKind>
    ensures { Reads (λ l. l) (learn_at words.old) result words.new }
{
    let node = NodeId(read_id(words)?);
    let ring = RingId(read_id(words)?);
    let lo = read_count(words)?;
    let hi = read_count(words)?;
    let value = read_value(alloc, words)?;
    Ok(Line::Learn {
        node,
        ring,
        lo,
        hi,
        value,
    })
}

#[tactic(auto, unfolding(crate::specs::Reading::deliver_at))]
pub fn read_deliver(words: &mut Words<'_>) -> Result<Line, LineKind>
    ensures { Gives (λ l. l) (deliver_at words.old) result words.new }
{
    let node = NodeId(read_id(words)?);
    let ring = RingId(read_id(words)?);
    let inst = read_count(words)?;
    Ok(Line::Deliver { node, ring, inst })
}

#[tactic(auto, unfolding(crate::specs::Reading::reply_at))]
pub fn read_reply(alloc: Global, words: &mut Words<'_>) -> Result<Line, LineKind>
    ensures { Reads (λ l. l) (reply_at words.old) result words.new }
{
    let node = NodeId(read_id(words)?);
    let ring = RingId(read_id(words)?);
    let inst = read_count(words)?;
    let index = read_count(words)?;
    let client = ClientId(read_id(words)?);
    let seq = read_count(words)?;
    let reply = read_hex(alloc, words)?;
    Ok(Line::Reply {
        node,
        ring,
        inst,
        index,
        client,
        seq,
        reply,
    })
}

#[tactic(auto, unfolding(crate::specs::Reading::answer_at))]
pub fn read_answer(alloc: Global, words: &mut Words<'_>) -> Result<Line, LineKind>
    ensures { Reads (λ l. l) (answer_at words.old) result words.new }
{
    let client = ClientId(read_id(words)?);
    let seq = read_count(words)?;
    let reply = read_hex(alloc, words)?;
    Ok(Line::Answer { client, seq, reply })
}

#[tactic(auto, unfolding(crate::specs::Reading::busy_at))]
pub fn read_busy(words: &mut Words<'_>) -> Result<Line, LineKind>
    ensures { Gives (λ l. l) (busy_at words.old) result words.new }
{
    let client = ClientId(read_id(words)?);
    let seq = read_count(words)?;
    Ok(Line::Busy { client, seq })
}

#[tactic(auto, unfolding(crate::specs::Reading::begin_at))]
pub fn read_begin(alloc: Global, words: &mut Words<'_>) -> Result<Line, LineKind>
    ensures { Reads (λ l. l) (begin_at words.old) result words.new }
{
    let node = NodeId(read_id(words)?);
    let epoch = read_count(words)?;
    let attempt = read_count(words)?;
    let tuple = read_tuple(alloc, words)?;
    Ok(Line::Begin {
        node,
        epoch,
        attempt,
        tuple,
    })
}

#[tactic(auto, unfolding(crate::specs::Reading::chose_at))]
pub fn read_chose(alloc: Global, words: &mut Words<'_>) -> Result<Line, LineKind>
    ensures { Reads (λ l. l) (chose_at words.old) result words.new }
{
    let node = NodeId(read_id(words)?);
    let epoch = read_count(words)?;
    let attempt = read_count(words)?;
    let tuple = read_tuple(alloc, words)?;
    let from = NodeId(read_id(words)?);
    Ok(Line::Chose {
        node,
        epoch,
        attempt,
        tuple,
        from,
    })
}

#[tactic(auto, unfolding(crate::specs::Reading::restore_at))]
pub fn read_restore(alloc: Global, words: &mut Words<'_>) -> Result<Line, LineKind>
    ensures { Reads (λ l. l) (restore_at words.old) result words.new }
{
    let node = NodeId(read_id(words)?);
    let tuple = read_tuple(alloc, words)?;
    Ok(Line::Restore { node, tuple })
}

#[tactic(auto, unfolding(crate::specs::Reading::saved_at))]
pub fn read_saved(alloc: Global, words: &mut Words<'_>) -> Result<Line, LineKind>
    ensures { Reads (λ l. l) (saved_at words.old) result words.new }
{
    let node = NodeId(read_id(words)?);
    let tuple = read_tuple(alloc, words)?;
    Ok(Line::Saved { node, tuple })
}

#[tactic(auto, unfolding(crate::specs::Reading::trim_at))]
pub fn read_trim(words: &mut Words<'_>) -> Result<Line, LineKind>
    ensures { Gives (λ l. l) (trim_at words.old) result words.new }
{
    let node = NodeId(read_id(words)?);
    let ring = RingId(read_id(words)?);
    let inst = read_count(words)?;
    Ok(Line::Trim { node, ring, inst })
}

#[tactic(auto, unfolding(crate::specs::Reading::refuse_at))]
pub fn read_refuse(words: &mut Words<'_>) -> Result<Line, LineKind>
    ensures { Gives (λ l. l) (refuse_at words.old) result words.new }
{
    let node = NodeId(read_id(words)?);
    let epoch = read_count(words)?;
    let attempt = read_count(words)?;
    let answered = read_count(words)?;
    let needed = read_count(words)?;
    Ok(Line::Refuse {
        node,
        epoch,
        attempt,
        answered,
        needed,
    })
}

/// What a limit is of; a ring by its number.
#[derive(Clone, Copy, Debug)]
pub enum Limit {
    Ballot(u8),
    Instance(u8),
    Attempt,
}

#[tactic(auto, unfolding(crate::specs::Reading::limit_of))]
fn read_limit_of(words: &mut Words<'_>) -> Result<Limit, LineKind>
    ensures { Gives (λ l. l) (limit_of words.old) result words.new }
{
    let word = read_word(words)?;
    if word == b"ballot".as_slice() {
        let ring = read_id(words)?;
        return Ok(Limit::Ballot(ring));
    }
    if word == b"instance".as_slice() {
        let ring = read_id(words)?;
        return Ok(Limit::Instance(ring));
    }
    if word == b"attempt".as_slice() {
        return Ok(Limit::Attempt);
    }
    Err(LineKind::Word)
}

fn line_of_limit(node: u8, limit: Limit) -> Line
    ensures { result ≡ limit_line (node, limit) }
{
    let node = NodeId(node);
    match limit {
        Limit::Ballot(ring) => Line::BallotLimit {
            node,
            ring: RingId(ring),
        },
        Limit::Instance(ring) => Line::InstanceLimit {
            node,
            ring: RingId(ring),
        },
        Limit::Attempt => Line::AttemptLimit { node },
    }
}

#[tactic(auto, unfolding(crate::specs::Reading::limit_at))]
pub fn read_limit(words: &mut Words<'_>) -> Result<Line, LineKind>
    ensures { Gives (λ l. l) (limit_at words.old) result words.new }
{
    let node = read_id(words)?;
    let limit = read_limit_of(words)?;
    Ok(line_of_limit(node, limit))
}

#[tactic(auto, unfolding(crate::specs::Reading::cause_at))]
fn read_cause(words: &mut Words<'_>) -> Result<Cause, LineKind>
    ensures { Gives (λ c. c) (cause_at words.old) result words.new }
{
    let word = read_word(words)?;
    if word == b"crash".as_slice() {
        return Ok(Cause::Crash);
    }
    if word == b"disk".as_slice() {
        return Ok(Cause::Disk);
    }
    if word == b"full".as_slice() {
        return Ok(Cause::Full);
    }
    Err(LineKind::Word)
}

#[tactic(auto, unfolding(crate::specs::Reading::down_at))]
pub fn read_down(words: &mut Words<'_>) -> Result<Line, LineKind>
    ensures { Gives (λ l. l) (down_at words.old) result words.new }
{
    let node = NodeId(read_id(words)?);
    let cause = read_cause(words)?;
    Ok(Line::Down { node, cause })
}

#[tactic(auto, unfolding(crate::specs::Reading::up_at))]
pub fn read_up(words: &mut Words<'_>) -> Result<Line, LineKind>
    ensures { Gives (λ l. l) (up_at words.old) result words.new }
{
    let node = NodeId(read_id(words)?);
    let epoch = read_count(words)?;
    Ok(Line::Up { node, epoch })
}

#[tactic(auto, unfolding(crate::specs::Reading::state_of))]
fn read_shown_state(alloc: Global, words: &mut Words<'_>) -> Result<Option<ShownState>, LineKind>
    ensures { Reads (λ s. s) (state_of words.old) result words.new }
{
    if words.is_next(b"-") {
        read_word(words)?;
        return Ok(None);
    }
    let tuple = read_tuple(alloc, words)?;
    let bytes = read_hex(alloc, words)?;
    Ok(Some(ShownState { tuple, bytes }))
}

#[tactic(auto, unfolding(crate::specs::Reading::state_at))]
pub fn read_state(alloc: Global, words: &mut Words<'_>) -> Result<Line, LineKind>
    ensures { Reads (λ l. l) (state_at words.old) result words.new }
{
    let node = NodeId(read_id(words)?);
    let shown = read_shown_state(alloc, words)?;
    Ok(Line::State { node, shown })
}

#[tactic(auto, unfolding(crate::specs::Reading::frame_of))]
fn read_shown_frame(alloc: Global, words: &mut Words<'_>) -> Result<Option<ShownFrame>, LineKind>
    ensures { Reads (λ s. s) (frame_of words.old) result words.new }
{
    if words.is_next(b"none") {
        read_word(words)?;
        return Ok(None);
    }
    let from = read_party(words)?;
    let to = read_party(words)?;
    let bytes = read_hex(alloc, words)?;
    Ok(Some(ShownFrame { from, to, bytes }))
}

#[tactic(auto, unfolding(crate::specs::Reading::frame_at))]
pub fn read_frame(alloc: Global, words: &mut Words<'_>) -> Result<Line, LineKind>
    ensures { Reads (λ l. l) (frame_at words.old) result words.new }
{
    let number = read_count(words)?;
    let shown = read_shown_frame(alloc, words)?;
    Ok(Line::Frame { number, shown })
}

#[tactic(auto, unfolding(crate::specs::Reading::last_at))]
pub fn read_end(words: &mut Words<'_>) -> Result<Line, LineKind>
    ensures { Gives (λ l. l) (last_at words.old) result words.new }
{
    let events = read_count(words)?;
    Ok(Line::End { events })
}
