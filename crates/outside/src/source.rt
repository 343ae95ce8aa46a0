//! Where bytes come from.

ghost use Rattle.std.specs.Prelude.{◌≡◌, ◌+◌, ◌<◌, ◌≤◌, ◌^◌, ℕ, List, length, IfOk, Option, None, true};
ghost use Rattle.std.specs.Io.{ReadsAtMost};
ghost use Rattle.std.specs.Io.KnownBytes.{ReadConsumes};
ghost use Rattle.outside.specs.Counts.{rise, CountsFault, is_failed};
ghost use Rattle.outside.specs.Reading.{ReadsFront, PieceComes};

use crate::Refused;
use mrp_types::Octets;
use std::alloc::{AllocError, Global};
use std::io::Read;

/// Gives bytes, piece by piece.
pub trait Source {
    /// The bytes that are left, where the source tells them.
    ghost left: { Self → Option (List ℕ) };

    /// How many reads have failed. It stands still at 2^64 - 1, and standing there counts as rising.
    ghost faults: { Self → ℕ };

    /// How many reads have been made, likewise.
    ghost reads: { Self → ℕ };

    /// Moves the first of the bytes that are left into the front of `into`, and answers how many: 0 for a
    /// non-empty `into` is the end.
    fn read(&mut self, into: &mut [u8]) -> Result<usize, Refused>
        ensures bound { ReadsAtMost result into.new }
        ensures bytes { ReadConsumes (left self.old) (left self.new) result into.new }
        ensures fault { CountsFault result (faults self.old) (faults self.new) }
        ensures counted { reads self.new ≡ rise (reads self.old) };
}

// So much is asked of a source at once, and written to a sink.
pub(crate) const PIECE: usize = 65_536;

/// The bytes that the source has, or the first `most` of them. No byte after these is read, and each read but the last
/// takes at least one.
pub fn read_front<I: Source>(alloc: Global, source: &mut I, most: usize) -> Result<Octets, Refused>
    requires { most < 2 ^ 63 }
    ensures { ReadsFront most (I.left source.old) (I.left source.new) (I.faults source.old) (I.faults source.new)
        (I.reads source.old) (I.reads source.new) result }
{
    let mut piece = zeros(alloc, PIECE)?;
    read_pieces(alloc, source, most, &mut piece)
}

// The front of what the source has, read by way of a buffer.
fn read_pieces<I: Source>(
    alloc: Global,
    source: &mut I,
    most: usize,
    piece: &mut [u8],
) -> Result<Octets, Refused>
    requires fits { most < 2 ^ 63 }
    requires room { 0 < length piece.old }
    ensures { ReadsFront most (I.left source.old) (I.left source.new) (I.faults source.old) (I.faults source.new)
        (I.reads source.old) (I.reads source.new) result }
{
    let mut bytes = Vec::new(alloc);
    for _turn in 0..most {
        let room = piece.len().min(most - bytes.len());
        if read_piece(source, &mut piece[..room], &mut bytes)? == 0 {
            return Ok(Octets::from_vec(bytes));
        }
        if bytes.len() >= most {
            return Ok(Octets::from_vec(bytes));
        }
    }
    Ok(Octets::from_vec(bytes))
}

// One read, whose bytes are added to those so far; answers how many came.
fn read_piece<I: Source>(
    source: &mut I,
    piece: &mut [u8],
    bytes: &mut Vec<u8>,
) -> Result<usize, Refused>
    ensures { PieceComes (length piece.old) (I.left source.old) (I.left source.new) (I.faults source.old)
        (I.faults source.new) (I.reads source.old) (I.reads source.new) bytes.old.items bytes.new.items result }
{
    let taken = source.read(piece)?;
    bytes.extend_from_slice(&piece[..taken])?;
    Ok(taken)
}

// A buffer of this length.
fn zeros(alloc: Global, len: usize) -> Result<Vec<u8>, AllocError>
    ensures { IfOk result (λ buffer. length buffer.items ≡ len) }
{
    vec![in alloc; 0; len]
}

/// The source of a real reader. It doesn't tell what is left; over no reader each read fails.
#[derive(Drop)]
pub struct ReadSource<R: Read + Drop> {
    from: Option<R>,
    faults: u64,
    reads: u64,
}

impl<R: Read + Drop> ReadSource<R> {
    /// Reads from `from`. `None` stands for what could not be opened. No read was made, and none failed.
    pub fn new(from: Option<R>) -> Self
        ensures from { result.from ≡ from }
        ensures faults { result.faults ≡ 0 }
        ensures reads { result.reads ≡ 0 }
    {
        ReadSource {
            from,
            faults: 0,
            reads: 0,
        }
    }
}

impl<R: Read + Drop> Source for ReadSource<R> {
    ghost left = { λ _. None };

    ghost faults = { λ source. source.faults };

    ghost reads = { λ source. source.reads };

    fn read(&mut self, into: &mut [u8]) -> Result<usize, Refused>
        ensures bound { ReadsAtMost result into.new }
        ensures bytes { ReadConsumes None None result into.new }
        ensures fault { CountsFault result self.old.faults self.new.faults }
        ensures counted { self.new.reads ≡ rise self.old.reads }
        ensures nothing { self.old.from ≡ None → is_failed result ≡ true }
        ensures still { self.old.from ≡ None → self.new.from ≡ None }
    {
        self.reads = self.reads.saturating_add(1);
        if let Some(from) = &mut self.from {
            if let Ok(taken) = from.read(into) {
                return Ok(taken);
            }
        }
        self.faults = self.faults.saturating_add(1);
        Err(Refused::Failed)
    }
}
