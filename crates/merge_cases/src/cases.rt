//! Cases of merges.

ghost use Rattle.std.specs.Prelude.{◌≤◌, IsTrue, IfOk};
ghost use Rattle.mrp_types.specs.Tuples.{IsTuple};
ghost use Rattle.command_codec.specs.Parts.{IsSpelled};

use command_codec::is_batch;
use mrp_types::limits::VALUE;
use mrp_types::{END, Inst, Memory, Payload, RingId, RoundSizes, Value};
use ring_learner::RingLearner;
use std::alloc::{AllocFailed, Global};
use text_lines::{TextFault, Words};

/// The most learned ranges of a ring.
const RANGES: u64 = 1_000;

/// A batch of one command, but for the number of the command.
const BATCH: [u8; 20] = [
    1, 0, 1, 1, 0, 0, 0, 0, 0, 0, 0, 0, 0, 6, 1, 0, 0, 2, 111, 107,
];

/// The place of the last byte of that number.
const NUMBER: usize = 11;

/// The line is no case, or memory is wanting.
#[derive(Drop)]
pub struct NoCase;

impl From<TextFault> for NoCase {
    fn from(_: TextFault) -> Self {
        NoCase
    }
}

impl From<Memory> for NoCase {
    fn from(_: Memory) -> Self {
        NoCase
    }
}

impl<T: Drop> From<AllocFailed<T>> for NoCase {
    fn from(_: AllocFailed<T>) -> Self {
        NoCase
    }
}

/// A merge, and what was learned.
#[derive(Drop)]
pub struct Case {
    pub calls: u64,
    pub rounds: RoundSizes,
    pub pairs: Vec<(RingId, Inst)>,
    pub learners: Vec<RingLearner>,
}

/// Skip, or the batch of this number.
fn value_of(alloc: Global, number: u64) -> Result<Value, NoCase>
    requires { number ≤ 255 }
    ensures { IfOk result (λ value. IsSpelled value) }
{
    if number == 0 {
        return Ok(Value::Skip);
    }
    let mut bytes = BATCH;
    bytes[NUMBER] = number as u8;
    let payload = Payload::from_slice(alloc, &bytes)?;
    if payload.bytes().len() > VALUE || !is_batch(payload.bytes()) {
        return Err(NoCase);
    }
    Ok(Value::Batch(payload))
}

fn learn_range(
    alloc: Global,
    words: &mut Words<'_>,
    learner: &mut RingLearner,
) -> Result<(), NoCase> {
    let lo = words.number_within(0, END)?;
    let hi = words.number_within(0, END)?;
    let value = value_of(alloc, words.number_within(0, 255)?)?;
    learner.learn(lo, hi, &value)?;
    Ok(())
}

fn read_learner(alloc: Global, words: &mut Words<'_>) -> Result<RingLearner, NoCase> {
    let mut learner = RingLearner::new(alloc, 0);
    for _range in 0..words.number_within(0, RANGES)? {
        learn_range(alloc, words, &mut learner)?;
    }
    Ok(learner)
}

fn read_ring(alloc: Global, words: &mut Words<'_>, case: &mut Case) -> Result<(), NoCase> {
    let ring = RingId(words.number_within(0, 255)? as u8);
    let size = words.number_within(1, 1_024)? as u16;
    if size == 0 {
        return Err(NoCase);
    }
    case.rounds.set(ring, size);
    case.pairs.push((ring, words.number_within(0, END)?))?;
    case.learners.push(read_learner(alloc, words)?)?;
    Ok(())
}

/// The case of a line.
pub fn read_case(alloc: Global, line: &[u8]) -> Result<Case, NoCase> {
    let mut words = Words::new(line);
    let mut case = Case {
        calls: words.number()?,
        rounds: RoundSizes::same(1),
        pairs: Vec::new(alloc),
        learners: Vec::new(alloc),
    };
    for _ring in 0..16 {
        if words.end().is_ok() {
            break;
        }
        read_ring(alloc, &mut words, &mut case)?;
    }
    Ok(case)
}

/// Whether these pairs make a tuple.
pub fn is_tuple(pairs: &[(RingId, Inst)]) -> bool
    ensures { IsTrue result → IsTuple pairs.now }
{
    if pairs.is_empty() || pairs.len() > 16 {
        return false;
    }
    let mut least = 0;
    for i in 0..pairs.len() {
        let (ring, next) = pairs[i];
        if ring.0 < least || ring.0 > 15 || next > END {
            return false;
        }
        least = ring.0 + 1;
    }
    true
}
