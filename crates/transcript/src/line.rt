//! One line of a transcript.

use crate::Instances;
use mrp_types::{ClientId, Inst, NodeId, Octets, Party, RingId, Value};

/// What happened, as it is printed. A tuple of a partition stands as its instances alone, by ring.
#[derive(Debug, Drop)]
pub enum Line {
    /// A node learned a value for the instances from `lo` on and below `hi`.
    Learn {
        node: NodeId,
        ring: RingId,
        lo: Inst,
        hi: Inst,
        value: Value,
    },
    /// A replica delivered the batch of an instance.
    Deliver {
        node: NodeId,
        ring: RingId,
        inst: Inst,
    },
    /// Its reply to an entry of that batch: the entry's index, counted from 0, its client and number.
    Reply {
        node: NodeId,
        ring: RingId,
        inst: Inst,
        index: u64,
        client: ClientId,
        seq: u64,
        reply: Octets,
    },
    /// What a client is answered to its command of this number.
    Answer {
        client: ClientId,
        seq: u64,
        reply: Octets,
    },
    /// A client asks while its command of this number has no answer.
    Busy {
        client: ClientId,
        seq: u64,
    },
    /// An attempt of recovery begins, with the node's own newest checkpoint.
    Begin {
        node: NodeId,
        epoch: u64,
        attempt: u64,
        tuple: Instances,
    },
    /// An attempt has chosen a checkpoint of a node.
    Chose {
        node: NodeId,
        epoch: u64,
        attempt: u64,
        tuple: Instances,
        from: NodeId,
    },
    /// A replica goes on from a checkpoint.
    Restore {
        node: NodeId,
        tuple: Instances,
    },
    /// A replica saved a checkpoint.
    Saved {
        node: NodeId,
        tuple: Instances,
    },
    /// A round of trimming ended: all below the instance may go.
    Trim {
        node: NodeId,
        ring: RingId,
        inst: Inst,
    },
    /// An attempt of recovery ended with too few answers.
    Refuse {
        node: NodeId,
        epoch: u64,
        attempt: u64,
        answered: u64,
        needed: u64,
    },
    /// No ballot above those seen is left for a node to start.
    BallotLimit {
        node: NodeId,
        ring: RingId,
    },
    /// A coordinator is at the end of all instances.
    InstanceLimit {
        node: NodeId,
        ring: RingId,
    },
    /// No number is left for a further attempt of recovery.
    AttemptLimit {
        node: NodeId,
    },
    /// A node went down.
    Down {
        node: NodeId,
        cause: Cause,
    },
    /// A node has opened.
    Up {
        node: NodeId,
        epoch: u64,
    },
    /// The state of a node; none where it is no ready replica.
    State {
        node: NodeId,
        shown: Option<ShownState>,
    },
    /// A frame of the system by its number, counted from 0; none where no frame has the number.
    Frame {
        number: u64,
        shown: Option<ShownFrame>,
    },
    /// The schedule ended after so many events.
    End {
        events: u64,
    },
}

/// Why a node went down.
#[derive(Clone, Copy, Debug, PartialEq, Eq)]
pub enum Cause {
    /// It was stopped, between two steps or by a fuse.
    Crash,
    /// A call of its disk failed.
    Disk,
    /// Its journal has no room, or its epoch is the last one.
    Full,
}

/// A replica's state as it is shown: its tuple, and the state's bytes.
#[derive(Debug, Drop)]
pub struct ShownState {
    pub tuple: Instances,
    pub bytes: Octets,
}

/// A frame as it is shown: who sent it, who is to have it, and its bytes.
#[derive(Debug, Drop)]
pub struct ShownFrame {
    pub from: Party,
    pub to: Party,
    pub bytes: Octets,
}
