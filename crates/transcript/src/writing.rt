//! Lines as text.

ghost use Rattle.std.specs.Prelude.{◌≡◌, ◌++◌, ◌∷◌, map, IfOk, OnOk};
ghost use Rattle.std.specs.Fmt.{decimal};
ghost use Rattle.std.specs.List.{flat_map};
ghost use Rattle.text_lines.specs.Text.{set_off, spaced, joined};
ghost use Rattle.transcript.specs.declared.line.Line.TheVariants.{Answer, BallotLimit, InstanceLimit};
ghost use Rattle.transcript.specs.Spelling.{line_bytes, line_words, value_text, tuple_text, party_text, cause_text, state_words, frame_words};

use crate::{Cause, Instances, Line, ShownFrame, ShownState};
use mrp_types::{ClientId, Memory, NodeId, Octets, Party, RingId, Value};
use std::alloc::Global;
use text_lines::{put_decimal, put_hex, put_number, put_word};

/// The one spelling of a line.
pub fn write_line(alloc: Global, line: &Line) -> Result<Octets, Memory>
    ensures { IfOk result (λ bytes. bytes ≡ line_bytes line.now) }
{
    let mut out = Octets::new(alloc);
    put_line(&mut out, line)?;
    Ok(out)
}

/// Adds a line to the text so far. After a refusal nothing is said of what the text is.
pub fn put_line(out: &mut Octets, line: &Line) -> Result<(), Memory>
    ensures { OnOk result (out.new ≡ out.old ++ line_bytes line.now) }
{
    put_words(out, line)?;
    out.push(b'\n')
}

// Adds the words of a line.
fn put_words(out: &mut Octets, line: &Line) -> Result<(), Memory>
    ensures { OnOk result (out.new ≡ out.old ++ joined (line_words line.now)) }
{
    match line {
        Line::Learn {
            node,
            ring,
            lo,
            hi,
            value,
        } => {
            put_head(
                out,
                b"learn",
                &[u64::from(node.0), u64::from(ring.0), *lo, *hi],
            )?;
            put_value(out, value)
        }
        Line::Deliver { node, ring, inst } => put_head(
            out,
            b"deliver",
            &[u64::from(node.0), u64::from(ring.0), *inst],
        ),
        Line::Reply {
            node,
            ring,
            inst,
            index,
            client,
            seq,
            reply,
        } => {
            put_head(
                out,
                b"reply",
                &[
                    u64::from(node.0),
                    u64::from(ring.0),
                    *inst,
                    *index,
                    u64::from(client.0),
                    *seq,
                ],
            )?;
            put_hex(out, reply.bytes())
        }
        Line::Answer { client, seq, reply } => put_answer(out, *client, *seq, reply),
        Line::Busy { client, seq } => put_head(out, b"busy", &[u64::from(client.0), *seq]),
        Line::Begin {
            node,
            epoch,
            attempt,
            tuple,
        } => {
            put_head(out, b"begin", &[u64::from(node.0), *epoch, *attempt])?;
            put_tuple(out, tuple)
        }
        Line::Chose {
            node,
            epoch,
            attempt,
            tuple,
            from,
        } => {
            put_head(out, b"chose", &[u64::from(node.0), *epoch, *attempt])?;
            put_tuple(out, tuple)?;
            put_number(out, u64::from(from.0))
        }
        Line::Restore { node, tuple } => {
            put_head(out, b"restore", &[u64::from(node.0)])?;
            put_tuple(out, tuple)
        }
        Line::Saved { node, tuple } => {
            put_head(out, b"saved", &[u64::from(node.0)])?;
            put_tuple(out, tuple)
        }
        Line::Trim { node, ring, inst } => put_head(
            out,
            b"trim",
            &[u64::from(node.0), u64::from(ring.0), *inst],
        ),
        Line::Refuse {
            node,
            epoch,
            attempt,
            answered,
            needed,
        } => put_head(
            out,
            b"refuse",
            &[u64::from(node.0), *epoch, *attempt, *answered, *needed],
        ),
        Line::BallotLimit { node, ring } => put_ballot_limit(out, *node, *ring),
        Line::InstanceLimit { node, ring } => put_instance_limit(out, *node, *ring),
        Line::AttemptLimit { node } => {
            put_head(out, b"limit", &[u64::from(node.0)])?;
            put_word(out, b"attempt")
        }
        Line::Down { node, cause } => {
            put_head(out, b"down", &[u64::from(node.0)])?;
            put_cause(out, *cause)
        }
        Line::Up { node, epoch } => put_head(out, b"up", &[u64::from(node.0), *epoch]),
        Line::State { node, shown } => {
            put_head(out, b"state", &[u64::from(node.0)])?;
            put_state(out, shown)
        }
        Line::Frame { number, shown } => {
            put_head(out, b"frame", &[*number])?;
            put_frame(out, shown)
        }
        Line::End { events } => put_head(out, b"end", &[*events]),
    }
}

// Adds each of the numbers in decimal, after this byte.
fn put_each(out: &mut Octets, byte: u8, numbers: &[u64]) -> Result<(), Memory>
    ensures { OnOk result (out.new ≡ out.old ++ flat_map (set_off byte) (map decimal numbers.now)) }
{
    for number in numbers {
        out.push(byte)?;
        put_decimal(out, *number)?;
    }
    Ok(())
}

// Adds the first word of a line, and numbers behind it.
fn put_head(out: &mut Octets, word: &[u8], numbers: &[u64]) -> Result<(), Memory>
    ensures { OnOk result (out.new ≡ out.old ++ (word.now ++ flat_map spaced (map decimal numbers.now))) }
{
    out.extend(word)?;
    put_each(out, b' ', numbers)
}

fn put_answer(out: &mut Octets, client: ClientId, seq: u64, reply: &Octets) -> Result<(), Memory>
    ensures { OnOk result (out.new ≡ out.old ++ joined (line_words (Answer client seq reply.now))) }
{
    put_head(out, b"answer", &[u64::from(client.0), seq])?;
    put_hex(out, reply.bytes())
}

fn put_ballot_limit(out: &mut Octets, node: NodeId, ring: RingId) -> Result<(), Memory>
    ensures { OnOk result (out.new ≡ out.old ++ joined (line_words (BallotLimit node ring))) }
{
    put_head(out, b"limit", &[u64::from(node.0)])?;
    put_word(out, b"ballot")?;
    put_number(out, u64::from(ring.0))
}

fn put_instance_limit(out: &mut Octets, node: NodeId, ring: RingId) -> Result<(), Memory>
    ensures { OnOk result (out.new ≡ out.old ++ joined (line_words (InstanceLimit node ring))) }
{
    put_head(out, b"limit", &[u64::from(node.0)])?;
    put_word(out, b"instance")?;
    put_number(out, u64::from(ring.0))
}

fn put_value(out: &mut Octets, value: &Value) -> Result<(), Memory>
    ensures { OnOk result (out.new ≡ out.old ++ spaced (value_text value.now)) }
{
    match value {
        Value::Skip => put_word(out, b"skip"),
        Value::Batch(batch) => put_hex(out, batch.bytes()),
    }
}

// Adds the instances with commas between.
fn put_tuple(out: &mut Octets, tuple: &Instances) -> Result<(), Memory>
    ensures { OnOk result (out.new ≡ out.old ++ spaced (tuple_text tuple.now)) }
{
    let Some((first, others)) = tuple.items().split_first() else {
        return out.push(b' ');
    };
    put_number(out, *first)?;
    put_each(out, b',', others)
}

fn put_cause(out: &mut Octets, cause: Cause) -> Result<(), Memory>
    ensures { OnOk result (out.new ≡ out.old ++ spaced (cause_text cause)) }
{
    match cause {
        Cause::Crash => put_word(out, b"crash"),
        Cause::Disk => put_word(out, b"disk"),
        Cause::Full => put_word(out, b"full"),
    }
}

fn put_state(out: &mut Octets, shown: &Option<ShownState>) -> Result<(), Memory>
    ensures { OnOk result (out.new ≡ out.old ++ flat_map spaced (state_words shown.now)) }
{
    match shown {
        None => put_word(out, b"-"),
        Some(shown) => {
            put_tuple(out, &shown.tuple)?;
            put_hex(out, shown.bytes.bytes())
        }
    }
}

fn put_frame(out: &mut Octets, shown: &Option<ShownFrame>) -> Result<(), Memory>
    ensures { OnOk result (out.new ≡ out.old ++ flat_map spaced (frame_words shown.now)) }
{
    match shown {
        None => put_word(out, b"none"),
        Some(shown) => {
            put_party(out, shown.from)?;
            put_party(out, shown.to)?;
            put_hex(out, shown.bytes.bytes())
        }
    }
}

fn put_party(out: &mut Octets, party: Party) -> Result<(), Memory>
    ensures { OnOk result (out.new ≡ out.old ++ spaced (party_text party)) }
{
    match party {
        Party::Node(node) => put_name(out, b'n', node.0),
        Party::Client(client) => put_name(out, b'c', client.0),
    }
}

// Adds a space, a letter and a number behind it.
fn put_name(out: &mut Octets, letter: u8, number: u8) -> Result<(), Memory>
    ensures { OnOk result (out.new ≡ out.old ++ spaced (letter ∷ decimal number)) }
{
    out.push(b' ')?;
    out.push(letter)?;
    put_decimal(out, u64::from(number))
}
