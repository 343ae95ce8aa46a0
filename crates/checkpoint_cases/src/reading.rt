//! What lines say.

ghost use Rattle.std.specs.Prelude.{◌≤◌, ◌^◌};

use disk_model::Image;
use mrp_types::{END, Memory, RingId, Tuple};
use std::alloc::{AllocError, AllocFailed, Global};
use text_lines::{TextFault, Words};

/// The most that a number of calls or of bytes may be.
const MOST: u64 = 1_000_000;

/// The line is no case, or memory is wanting.
#[derive(Drop)]
pub struct NoCase;

impl From<TextFault> for NoCase {
    fn from(_: TextFault) -> Self {
        NoCase
    }
}

impl From<Memory> for NoCase {
    fn from(_: Memory) -> Self {
        NoCase
    }
}

impl From<AllocError> for NoCase {
    fn from(_: AllocError) -> Self {
        NoCase
    }
}

impl<T: Drop> From<AllocFailed<T>> for NoCase {
    fn from(_: AllocFailed<T>) -> Self {
        NoCase
    }
}

/// A number of calls or of bytes.
pub fn read_count(words: &mut Words<'_>) -> Result<u32, NoCase> {
    Ok(words.number_within(0, MOST)? as u32)
}

/// The image that KEEP and BYTE name.
pub fn read_fill(alloc: Global, words: &mut Words<'_>) -> Result<Image, NoCase> {
    let keep = read_count(words)?;
    match words.hex(alloc)?.bytes() {
        [byte] => Ok(Image::Fill { keep, byte: *byte }),
        _ => Err(NoCase),
    }
}

/// A tuple of ring 0, or of the rings 0 and 5.
pub fn read_tuple(words: &mut Words<'_>) -> Result<Tuple, NoCase> {
    let mut numbers = Words::split(words.word()?, b',');
    let first = numbers.number_within(0, END)?;
    if numbers.end().is_ok() {
        return Ok(of_one(first));
    }
    let second = numbers.number_within(0, END)?;
    numbers.end()?;
    Ok(of_two(first, second))
}

fn of_one(first: u64) -> Tuple
    requires { first ≤ 2 ^ 40 }
{
    Tuple::from_pairs(&[(RingId(0), first)])
}

fn of_two(first: u64, second: u64) -> Tuple
    requires first { first ≤ 2 ^ 40 }
    requires second { second ≤ 2 ^ 40 }
{
    Tuple::from_pairs(&[(RingId(0), first), (RingId(5), second)])
}
