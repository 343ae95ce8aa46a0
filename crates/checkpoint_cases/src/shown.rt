//! How what calls give is spelled.

use checkpoint_disk::{Checkpoints, PartAnswer};
use disk_model::Area;
use mrp_types::{Memory, Octets, RingId, Tuple};
use text_lines::{put_bytes, put_decimal, put_number, put_word};

fn put_pair(out: &mut Octets, ring: RingId, number: u64) -> Result<(), Memory> {
    put_decimal(out, u64::from(ring.0))?;
    out.push(b':')?;
    put_decimal(out, number)
}

fn put_tuple(out: &mut Octets, tuple: &Tuple) -> Result<(), Memory> {
    let mut before = b' ';
    for pair in tuple.pairs() {
        out.push(before)?;
        put_pair(out, pair.0, pair.1)?;
        before = b',';
    }
    Ok(())
}

/// The newest checkpoint and where it stands, or that there is none.
pub fn show_newest(out: &mut Octets, checkpoints: &Checkpoints) -> Result<(), Memory> {
    let (Some((area, tuple_at, state_at)), Some((tuple, state))) = (
        checkpoints.place(),
        checkpoints.newest(),
    ) else {
        put_word(out, b"none")?;
        put_number(out, checkpoints.generation())?;
        return out.push(b',');
    };
    put_number(out, u64::from(area.number()))?;
    put_number(out, checkpoints.generation())?;
    put_number(out, tuple_at)?;
    put_number(out, state_at)?;
    put_tuple(out, &tuple)?;
    put_bytes(out, state)?;
    out.push(b',')
}

/// The damaged place of an area.
pub fn show_damaged(out: &mut Octets, area: Area, at: u64) -> Result<(), Memory> {
    put_word(out, b"damaged")?;
    put_number(out, u64::from(area.number()))?;
    put_number(out, at)?;
    out.push(b',')
}

/// A word, and the newest tuple behind it.
pub fn show_newer(out: &mut Octets, word: &[u8], tuple: &Tuple) -> Result<(), Memory> {
    put_word(out, word)?;
    put_tuple(out, tuple)?;
    out.push(b',')
}

/// What is answered to who asks for a part.
pub fn show_part(out: &mut Octets, answer: &PartAnswer) -> Result<(), Memory> {
    match answer {
        PartAnswer::Part { total, bytes } => {
            put_word(out, b"part")?;
            put_number(out, *total)?;
            put_bytes(out, bytes.bytes())?;
            out.push(b',')
        }
        PartAnswer::Gone(newer) => show_newer(out, b"gone", newer),
        PartAnswer::Unknown => put_word(out, b"unknown,"),
    }
}
