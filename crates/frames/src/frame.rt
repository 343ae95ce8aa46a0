//! A frame.

use crate::Body;
use mrp_types::Party;

/// Who sends a frame, and what it says. Only a `Submit` that wasn't passed on yet has a client as its sender.
#[derive(Debug, Drop)]
pub struct Frame {
    pub from: Party,
    pub body: Body,
}
