//! Frames on their way out.

use crate::Frame;
use mrp_types::{Items, Party};

/// A frame, and who is to have it.
#[derive(Debug, Drop)]
pub struct Sent {
    pub to: Party,
    pub frame: Frame,
}

/// Frames in the order in which they were added.
pub type Frames = Items<Sent>;
