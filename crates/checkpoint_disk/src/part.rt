//! What is answered to who asks for a part of a checkpoint.

use mrp_types::{Octets, Tuple};

/// A part of a checkpoint's state: how many bytes the state has, and those from the offset on, at most 16,384; or that
/// the checkpoint of this newer tuple took its place; or that none such is known.
#[derive(Drop, Debug)]
pub enum PartAnswer {
    Part { total: u64, bytes: Octets },
    Gone(Tuple),
    Unknown,
}
