//! Which frames have a spelling.

ghost use Rattle.std.specs.Prelude.{◌≡◌, ◌↔◌, ◌≤◌, ◌<◌, ◌-◌, min, length, IsTrue, true};
ghost use Rattle.mrp_types.specs.Tuples.{IsTuple};
ghost use Rattle.mrp_types.specs.Values.{is_skip as is_skip_lem};
ghost use Rattle.frames.specs.Ranges.{nothing_before, may_skip};
ghost use Rattle.frames.specs.Valid.{IsFrame, MaySend, IsBody, IsRange, IsValueOf, IsBehind, IsBallot, AreVotes, AreRanges};

use crate::bodies::{REPLY, length_of_part};
use crate::lists::{Before, is_skip};
use crate::reading::MOST;
use crate::sizes::frame_size;
use crate::{Body, Frame};
use command_codec::is_batch;
use mrp_types::limits::{LAST_BALLOT, LAST_NODE, LAST_RING, VALUE};
use mrp_types::{Ballot, Decided, END, Entry, Inst, Octets, Party, RingId, Tuple, Value, Voted};

// The most ranges of a list.
const RANGES: usize = 65_535;

impl Frame {
    /// Whether the frame has a spelling: rings below 16, ballots below 2^48, ranges that aren't empty, in order and
    /// maximal, batches for one instance each, lengths in their limits, a sender that may say it, and at most 32,768
    /// bytes in all. Commands and replies aren't looked into.
    pub fn is_valid(&self) -> bool
        ensures { IsTrue result ↔ IsFrame self.now }
    {
        may_send(self.from, &self.body) && is_body(&self.body) && frame_size(self) <= MOST
    }
}

fn may_send(from: Party, body: &Body) -> bool
    ensures { IsTrue result ↔ MaySend from body.now }
{
    match (from, body) {
        (Party::Node(node), _) => node.0 <= LAST_NODE,
        (Party::Client(_), Body::Submit { hops, .. }) => *hops == 0,
        _ => false,
    }
}

fn is_body(body: &Body) -> bool
    ensures { IsTrue result ↔ IsBody body.now }
{
    match body {
        Body::Submit {
            ring,
            hops,
            seq,
            command,
            ..
        } => is_ring(*ring)
            && *hops <= 1
            && *seq >= 1
            && *seq <= Entry::LAST_SEQ
            && command.len() <= Entry::COMMAND,
        Body::Prepare { ring, ballot, lo } => is_ring(*ring) && *ballot <= LAST_BALLOT && *lo < END,
        Body::Promise {
            ring,
            ballot,
            lo,
            hi,
            trim,
            votes,
        } => {
            is_ring(*ring)
                && *ballot <= LAST_BALLOT
                && is_range(*lo, *hi)
                && *trim < END
                && are_votes(votes.items())
        }
        Body::Refuse {
            ring,
            ballot,
            promise,
        } => is_ring(*ring) && *ballot <= LAST_BALLOT && *promise <= LAST_BALLOT,
        Body::Accept {
            ring,
            ballot,
            lo,
            hi,
            value,
            ..
        } => {
            is_ring(*ring)
                && *ballot <= LAST_BALLOT
                && is_range(*lo, *hi)
                && is_value_of(*lo, *hi, value)
        }
        Body::Decide {
            ring,
            lo,
            hi,
            value,
            ..
        } => is_ring(*ring) && is_range(*lo, *hi) && is_value_of(*lo, *hi, value),
        Body::Fetch { ring, lo } => is_ring(*ring) && *lo < END,
        Body::Chosen { ring, ranges } => is_ring(*ring) && are_ranges(ranges.items()),
        Body::Trimmed { ring, inst } => is_ring(*ring) && *inst < END,
        Body::AskSafe { ring, .. } => is_ring(*ring),
        Body::Safe { ring, inst, .. } => is_ring(*ring) && *inst < END,
        Body::TrimTo { ring, inst } => is_ring(*ring) && *inst < END,
        Body::AskCheckpoint { .. } => true,
        Body::HaveCheckpoint { tuple, .. } => is_tuple(tuple.tuple()),
        Body::AskPart { tuple, .. } => is_tuple(tuple.tuple()),
        Body::Part {
            tuple,
            offset,
            total,
            bytes,
            ..
        } => is_tuple(tuple.tuple()) && is_part(*offset, *total, bytes),
        Body::Gone { asked, newer, .. } => is_tuple(asked.tuple()) && is_tuple(newer.tuple()),
        Body::Reply { reply, .. } => reply.len() <= REPLY,
        Body::Hello => true,
    }
}

/// Whether a tuple names a ring, as each one does; its rings are in order too.
fn is_tuple(tuple: &Tuple) -> bool
    ensures { IsTrue result ↔ IsTuple tuple.now }
{
    !tuple.pairs().is_empty()
}

fn is_part(offset: u64, total: u64, bytes: &Octets) -> bool
    ensures { IsTrue result ↔ ((1 ≤ length bytes.now) × (length bytes.now ≡ min 16384 (total - offset))) }
{
    bytes.len() >= 1 && bytes.len() == length_of_part(offset, total)
}

fn is_ring(ring: RingId) -> bool
    ensures { IsTrue result ↔ (ring.0 < 16) }
{
    ring.0 <= LAST_RING
}

fn is_range(lo: Inst, hi: Inst) -> bool
    ensures { IsTrue result ↔ IsRange lo hi }
{
    lo < hi && hi <= END
}

fn is_value_of(lo: Inst, hi: Inst, value: &Value) -> bool
    requires { lo < hi }
    ensures { IsTrue result ↔ IsValueOf lo hi value.now }
{
    match value {
        Value::Skip => true,
        Value::Batch(batch) => {
            batch.bytes().len() <= VALUE && is_batch(batch.bytes()) && hi - lo == 1
        }
    }
}

fn are_votes(votes: &[Voted]) -> bool
    ensures { IsTrue result ↔ ((length votes.now ≤ 65535) × AreVotes nothing_before votes.now) }
{
    votes.len() <= RANGES && follow_as_votes(votes)
}

fn follow_as_votes(votes: &[Voted]) -> bool
    ensures { IsTrue result ↔ AreVotes nothing_before votes.now }
{
    let mut before = Before::none();
    for vote in votes {
        if !is_vote(before, vote) {
            return false;
        }
        before = Before::after_vote(vote);
    }
    true
}

fn is_vote(before: Before, vote: &Voted) -> bool
    ensures { IsTrue result ↔ (IsBehind before vote.now.lo vote.now.hi vote.now.ballot vote.now.value × IsBallot vote.now.ballot) }
{
    is_behind(before, vote.lo, vote.hi, vote.ballot, &vote.value) && vote.ballot <= LAST_BALLOT
}

fn are_ranges(ranges: &[Decided]) -> bool
    ensures { IsTrue result ↔ ((1 ≤ length ranges.now) × (length ranges.now ≤ 65535) × AreRanges nothing_before ranges.now) }
{
    !ranges.is_empty() && ranges.len() <= RANGES && follow_as_ranges(ranges)
}

fn follow_as_ranges(ranges: &[Decided]) -> bool
    ensures { IsTrue result ↔ AreRanges nothing_before ranges.now }
{
    let mut before = Before::none();
    for decided in ranges {
        if !is_behind(before, decided.lo, decided.hi, 0, &decided.value) {
            return false;
        }
        before = Before::after_decided(decided);
    }
    true
}

/// Whether a range stands behind the one before it, and isn't one with it.
fn is_behind(before: Before, lo: Inst, hi: Inst, ballot: Ballot, value: &Value) -> bool
    ensures { IsTrue result ↔ IsBehind before lo hi ballot value.now }
{
    before.end <= lo
        && is_range(lo, hi)
        && is_value_of(lo, hi, value)
        && is_apart(before, lo, ballot, value)
}

fn is_apart(before: Before, lo: Inst, ballot: Ballot, value: &Value) -> bool
    ensures { IsTrue result ↔ (is_skip_lem value.now ≡ true → may_skip before lo ballot ≡ true) }
{
    !is_skip(value) || before.may_skip(lo, ballot)
}
