//! Text that is written in pieces.

ghost use Rattle.std.specs.Prelude.{◌≡◌, ◌<◌, [], length, IfOk, OnErr, OnOk};
ghost use Rattle.outside.specs.Counts.{CountsFault};
ghost use Rattle.outside.specs.Writing.{HandsOn};

use crate::source::PIECE;
use crate::{Refused, Sink, write_all};
use mrp_types::Octets;
use std::alloc::{AllocError, Global};

// How many bytes there is room for, so that what is added last seldom moves the others.
const ROOM: usize = 98_304;

/// An empty text with the room of a piece.
pub fn new_piece(alloc: Global) -> Result<Octets, AllocError>
    ensures { IfOk result (λ text. text ≡ []) }
{
    Ok(Octets::from_vec(Vec::with_capacity(alloc, ROOM)?))
}

/// Writes the text that is held, where it has 64 KiB or more; then none is held. Where the write fails all of it is still
/// held, and the sink has taken a front of it.
pub fn write_piece<O: Sink>(sink: &mut O, held: &mut Octets) -> Result<(), Refused>
    ensures bytes { HandsOn (O.taken sink.old) (O.taken sink.new) held.old held.new result }
    ensures few { OnOk result (length held.new < 65536) }
    ensures waits { length held.old < 65536 → (result ≡ Ok tt) × (held.new ≡ held.old) }
    ensures kept { OnErr result (held.new ≡ held.old) }
    ensures fault { CountsFault result (O.faults sink.old) (O.faults sink.new) }
{
    if held.len() < PIECE {
        return Ok(());
    }
    write_all(sink, held.bytes())?;
    held.clear();
    Ok(())
}
