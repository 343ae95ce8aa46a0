//! What frames say.

use crate::BoxedTuple;
use mrp_types::{Ballot, ClientId, Inst, Octets, PartitionId, Ranges, RingId, Value, Votes};

/// The 19 kinds of frames. Ballots are below 2^48, instances and trims below the end of all instances; a range ends
/// there at the latest and isn't empty.
#[derive(Debug, Drop)]
pub enum Body {
    /// A client's command for a ring's coordinator.
    Submit {
        ring: RingId,
        /// How often it was passed on: at most once, and then a node sends it.
        hops: u8,
        client: ClientId,
        /// The client's number for it, from 1 to 2^63 - 1.
        seq: u64,
        /// At most `Entry::COMMAND` bytes, which aren't looked into.
        command: Octets,
    },
    /// Asks for a promise, and for the votes from `lo` on.
    Prepare {
        ring: RingId,
        ballot: Ballot,
        lo: Inst,
    },
    /// A promise, with a page of the acceptor's votes: those from `lo` on and below `hi`.
    Promise {
        ring: RingId,
        ballot: Ballot,
        lo: Inst,
        hi: Inst,
        trim: Inst,
        votes: Votes,
    },
    /// A ballot isn't taken, since the acceptor promised a higher one.
    Refuse {
        ring: RingId,
        ballot: Ballot,
        promise: Ballot,
    },
    /// Asks for a vote for each instance of a range.
    Accept {
        ring: RingId,
        ballot: Ballot,
        lo: Inst,
        hi: Inst,
        /// A bit for the position of each acceptor that voted so.
        mask: u8,
        value: Value,
    },
    /// A value is decided for each instance of a range.
    Decide {
        ring: RingId,
        lo: Inst,
        hi: Inst,
        /// How often it is still to be passed on.
        left: u8,
        value: Value,
    },
    /// Asks for what is decided from `lo` on.
    Fetch {
        ring: RingId,
        lo: Inst,
    },
    /// A page of what is decided, one range at least.
    Chosen {
        ring: RingId,
        ranges: Ranges,
    },
    /// What was asked for is trimmed: nothing below `inst` is kept.
    Trimmed {
        ring: RingId,
        inst: Inst,
    },
    /// Asks for the least instance that a replica may need.
    AskSafe {
        ring: RingId,
        round: u64,
    },
    /// The least instance that a replica may need.
    Safe {
        ring: RingId,
        round: u64,
        inst: Inst,
    },
    /// Nothing below `inst` is to be kept.
    TrimTo {
        ring: RingId,
        inst: Inst,
    },
    /// Asks for the newest checkpoint.
    AskCheckpoint {
        epoch: u32,
        attempt: u32,
    },
    /// The newest checkpoint's tuple.
    HaveCheckpoint {
        epoch: u32,
        attempt: u32,
        tuple: BoxedTuple,
    },
    /// Asks for a part of the checkpoint of a tuple.
    AskPart {
        epoch: u32,
        attempt: u32,
        tuple: BoxedTuple,
        /// In bytes.
        offset: u64,
    },
    /// A part of a checkpoint: up to 16,384 of its bytes from an offset on, all that are there.
    Part {
        epoch: u32,
        attempt: u32,
        tuple: BoxedTuple,
        offset: u64,
        /// How many bytes the checkpoint has.
        total: u64,
        bytes: Octets,
    },
    /// The checkpoint that was asked for is gone; a newer one is there.
    Gone {
        epoch: u32,
        attempt: u32,
        asked: BoxedTuple,
        newer: BoxedTuple,
    },
    /// A partition's reply to a client's command.
    Reply {
        client: ClientId,
        seq: u64,
        partition: PartitionId,
        /// At most 16,384 bytes, which aren't looked into.
        reply: Octets,
    },
    /// A node is there.
    Hello,
}
