//! Where bytes go.

ghost use Rattle.std.specs.Prelude.{◌≡◌, ◌+◌, ◌<◌, ◌≤◌, ℕ, List, Option, None, length, take, IfOk};
ghost use Rattle.std.specs.Io.{WritesAtMost};
ghost use Rattle.std.specs.Io.KnownBytes.{WriteAppends};
ghost use Rattle.outside.specs.Counts.{CountsFault};
ghost use Rattle.outside.specs.Writing.{WritesAll};

use crate::Refused;
use std::io::Write;

/// Takes bytes, piece by piece.
pub trait Sink {
    /// The bytes taken so far, where the sink tells them.
    ghost taken: { Self → Option (List ℕ) };

    /// How many writes have failed. It stands still at 2^64 - 1, and standing there counts as rising.
    ghost faults: { Self → ℕ };

    /// Takes the front of `from`, and answers how many bytes. Taking none of a non-empty `from` is a failure.
    fn write(&mut self, from: &[u8]) -> Result<usize, Refused>
        ensures bound { WritesAtMost result from.now }
        ensures bytes { WriteAppends (taken self.old) (taken self.new) result from.now }
        ensures some { 0 < length from.now → IfOk result (λ n. 0 < n) }
        ensures fault { CountsFault result (faults self.old) (faults self.new) };
}

/// Writes all of the bytes. After a refusal the sink has taken a front of them.
pub fn write_all<O: Sink>(sink: &mut O, bytes: &[u8]) -> Result<(), Refused>
    ensures bytes { WritesAll (O.taken sink.old) (O.taken sink.new) bytes.now result }
    ensures fault { CountsFault result (O.faults sink.old) (O.faults sink.new) }
{
    let mut done = 0;
    for _turn in 0..bytes.len() {
        if done == bytes.len() {
            return Ok(());
        }
        done += sink.write(&bytes[done..])?;
    }
    Ok(())
}

/// The sink of a real writer. It doesn't tell what was taken.
#[derive(Drop)]
pub struct WriteSink<W: Write + Drop> {
    to: W,
    faults: u64,
}

impl<W: Write + Drop> WriteSink<W> {
    /// Writes to `to`. No write failed.
    pub fn new(to: W) -> Self
        ensures to { result.to ≡ to }
        ensures faults { result.faults ≡ 0 }
    {
        WriteSink { to, faults: 0 }
    }
}

impl<W: Write + Drop> Sink for WriteSink<W> {
    ghost taken = { λ _. None };

    ghost faults = { λ sink. sink.faults };

    fn write(&mut self, from: &[u8]) -> Result<usize, Refused> {
        if let Ok(taken) = self.to.write(from) {
            if taken > 0 || from.is_empty() {
                return Ok(taken);
            }
        }
        self.faults = self.faults.saturating_add(1);
        Err(Refused::Failed)
    }
}
