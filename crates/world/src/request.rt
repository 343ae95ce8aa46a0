//! What a client's number stands for.

use mrp_types::ClientId;

/// A client and its number for a command.
#[derive(Clone, Copy, Debug, PartialEq, Eq, PartialOrd, Ord)]
pub struct Request {
    pub client: ClientId,
    pub seq: u64,
}
