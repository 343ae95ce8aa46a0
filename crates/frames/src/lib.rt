//! The frames that nodes and clients send one another, as bytes: each frame has one spelling.
#![tactic(auto)]

mod bodies;
mod body;
mod boxed;
mod fault;
mod frame;
mod lists;
mod reading;
mod sent;
mod share;
mod sizes;
mod valid;
mod writing;

pub use body::Body;
pub use boxed::BoxedTuple;
pub use fault::FrameFault;
pub use frame::Frame;
pub use reading::{kind_of, read};
pub use sent::{Frames, Sent};
pub use sizes::{decided_size, vote_size};
pub use writing::write;
