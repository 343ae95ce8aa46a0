//! How long and how great what deployments, commands, replies, frames and lines hold may be.

use crate::Ballot;

/// The most nodes; nodes have numbers below this.
pub const NODES: usize = 32;

/// The greatest number of a node.
pub const LAST_NODE: u8 = 31;

/// The most rings; rings have numbers below this.
pub const RINGS: usize = 16;

/// The greatest number of a ring.
pub const LAST_RING: u8 = 15;

/// The most bytes of a key.
pub const KEY: usize = 256;

/// The most bytes of a stored value.
pub const STORED: usize = 2_048;

/// The most bytes of a value that an instance decides.
pub const VALUE: usize = 8_192;

/// The most logs that a command names; logs have numbers below this.
pub const LOGS: u8 = 64;

/// The greatest number of a log.
pub const LAST_LOG: u8 = LOGS - 1;

/// The most positions of a reply.
pub const POSITIONS: usize = 255;

/// The most table entries of a reply.
pub const ENTRIES: usize = 65_535;

/// The greatest ballot.
pub const LAST_BALLOT: Ballot = (1 << 48) - 1;

/// The most bytes of a configuration.
pub const CONFIGURATION: usize = 1_048_576;

/// The most events of a schedule.
pub const EVENTS: u32 = 1 << 20;

/// The most bytes of a schedule.
pub const SCHEDULE: usize = 67_108_864;
