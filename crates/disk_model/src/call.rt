//! A call of a disk that took effect.
use crate::{Area, Octets};

/// A call that changed what a disk holds, or what of it a crash leaves.
#[derive(Drop, Debug)]
pub enum Call {
    Write { area: Area, at: u64, bytes: Octets },
    Cut { area: Area, len: u64 },
    Sync,
}
