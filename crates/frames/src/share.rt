//! Equal frames.

ghost use Rattle.std.specs.Prelude.{◌≡◌, IfOk};

use crate::{Body, BoxedTuple, Frame};
use mrp_types::{Decided, Memory, Octets, Ranges, Voted, Votes};
use std::alloc::Global;

impl Frame {
    /// An equal frame, whose payloads are shared and not copied.
    pub fn share(&self, alloc: Global) -> Result<Self, Memory>
        ensures { IfOk result (λ frame. frame ≡ self.now) }
    {
        let body = share_body(alloc, &self.body)?;
        Ok(Frame {
            from: self.from,
            body,
        })
    }
}

fn share_body(alloc: Global, body: &Body) -> Result<Body, Memory>
    ensures { IfOk result (λ copy. copy ≡ body.now) }
{
    match body {
        Body::Submit {
            ring,
            hops,
            client,
            seq,
            command,
        } => Ok(Body::Submit {
            ring: *ring,
            hops: *hops,
            client: *client,
            seq: *seq,
            command: Octets::from_slice(alloc, command.bytes())?,
        }),
        Body::Prepare { ring, ballot, lo } => Ok(Body::Prepare {
            ring: *ring,
            ballot: *ballot,
            lo: *lo,
        }),
        Body::Promise {
            ring,
            ballot,
            lo,
            hi,
            trim,
            votes,
        } => Ok(Body::Promise {
            ring: *ring,
            ballot: *ballot,
            lo: *lo,
            hi: *hi,
            trim: *trim,
            votes: share_votes(alloc, votes.items())?,
        }),
        Body::Refuse {
            ring,
            ballot,
            promise,
        } => Ok(Body::Refuse {
            ring: *ring,
            ballot: *ballot,
            promise: *promise,
        }),
        Body::Accept {
            ring,
            ballot,
            lo,
            hi,
            mask,
            value,
        } => Ok(Body::Accept {
            ring: *ring,
            ballot: *ballot,
            lo: *lo,
            hi: *hi,
            mask: *mask,
            value: value.share()?,
        }),
        Body::Decide {
            ring,
            lo,
            hi,
            left,
            value,
        } => Ok(Body::Decide {
            ring: *ring,
            lo: *lo,
            hi: *hi,
            left: *left,
            value: value.share()?,
        }),
        Body::Fetch { ring, lo } => Ok(Body::Fetch {
            ring: *ring,
            lo: *lo,
        }),
        Body::Chosen { ring, ranges } => Ok(Body::Chosen {
            ring: *ring,
            ranges: share_ranges(alloc, ranges.items())?,
        }),
        Body::Trimmed { ring, inst } => Ok(Body::Trimmed {
            ring: *ring,
            inst: *inst,
        }),
        Body::AskSafe { ring, round } => Ok(Body::AskSafe {
            ring: *ring,
            round: *round,
        }),
        Body::Safe { ring, round, inst } => Ok(Body::Safe {
            ring: *ring,
            round: *round,
            inst: *inst,
        }),
        Body::TrimTo { ring, inst } => Ok(Body::TrimTo {
            ring: *ring,
            inst: *inst,
        }),
        Body::AskCheckpoint { epoch, attempt } => Ok(Body::AskCheckpoint {
            epoch: *epoch,
            attempt: *attempt,
        }),
        Body::HaveCheckpoint {
            epoch,
            attempt,
            tuple,
        } => Ok(Body::HaveCheckpoint {
            epoch: *epoch,
            attempt: *attempt,
            tuple: BoxedTuple::new(alloc, *tuple.tuple())?,
        }),
        Body::AskPart {
            epoch,
            attempt,
            tuple,
            offset,
        } => Ok(Body::AskPart {
            epoch: *epoch,
            attempt: *attempt,
            tuple: BoxedTuple::new(alloc, *tuple.tuple())?,
            offset: *offset,
        }),
        Body::Part {
            epoch,
            attempt,
            tuple,
            offset,
            total,
            bytes,
        } => Ok(Body::Part {
            epoch: *epoch,
            attempt: *attempt,
            tuple: BoxedTuple::new(alloc, *tuple.tuple())?,
            offset: *offset,
            total: *total,
            bytes: Octets::from_slice(alloc, bytes.bytes())?,
        }),
        Body::Gone {
            epoch,
            attempt,
            asked,
            newer,
        } => Ok(Body::Gone {
            epoch: *epoch,
            attempt: *attempt,
            asked: BoxedTuple::new(alloc, *asked.tuple())?,
            newer: BoxedTuple::new(alloc, *newer.tuple())?,
        }),
        Body::Reply {
            client,
            seq,
            partition,
            reply,
        } => Ok(Body::Reply {
            client: *client,
            seq: *seq,
            partition: *partition,
            reply: Octets::from_slice(alloc, reply.bytes())?,
        }),
        Body::Hello => Ok(Body::Hello),
    }
}

fn share_votes(alloc: Global, votes: &[Voted]) -> Result<Votes, Memory>
    ensures { IfOk result (λ copy. copy ≡ votes.now) }
{
    let mut copy = Votes::new(alloc);
    for vote in votes {
        copy.push(vote.share()?)?;
    }
    Ok(copy)
}

fn share_ranges(alloc: Global, ranges: &[Decided]) -> Result<Ranges, Memory>
    ensures { IfOk result (λ copy. copy ≡ ranges.now) }
{
    let mut copy = Ranges::new(alloc);
    for decided in ranges {
        copy.push(Decided {
            lo: decided.lo,
            hi: decided.hi,
            value: decided.value.share()?,
        })?;
    }
    Ok(copy)
}
