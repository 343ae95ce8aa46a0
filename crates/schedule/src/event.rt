//! The events of a schedule.

use command_codec::Command;
use disk_model::Image;
use mrp_types::{ClientId, Items, NodeId, RingId};

/// What happens next.
#[derive(Debug, Drop)]
pub enum ScheduleEvent {
    /// A client asks a command.
    Ask { client: ClientId, command: Command },
    /// Up to so many times, the frame at the cursor is delivered and the cursor moves on.
    Flow { count: u32 },
    /// The cursor passes up to so many frames, which nobody gets.
    Lose { count: u32 },
    /// The frame of this number is delivered, where there is one; the cursor stays.
    Deliver { frame: u64 },
    /// The frame of this number is printed, or that there is none; nothing moves.
    List { frame: u64 },
    /// A tick at each node that is up, by id, and then at each client, by id.
    TickAll,
    /// A tick at one node.
    TickNode { node: NodeId },
    /// A tick at one client.
    TickClient { client: ClientId },
    /// A node is told to lead a ring of which it is an acceptor.
    Lead { node: NodeId, ring: RingId },
    /// A node that is up stops.
    Crash { node: NodeId },
    /// A node that is down opens on an image of its disk.
    Restart { node: NodeId, image: Image },
    /// After so many more calls that change it, all calls of a node's disk fail.
    Fuse { node: NodeId, calls: u32 },
    /// After so many more calls that change a node's disk, one such call fails.
    Fail { node: NodeId, calls: u32 },
    /// After so many more reads of a node's disk, one read fails.
    FailRead { node: NodeId, calls: u32 },
    /// The state of a node is printed.
    Show { node: NodeId },
}

/// Events in order.
pub type Schedule = Items<ScheduleEvent>;
