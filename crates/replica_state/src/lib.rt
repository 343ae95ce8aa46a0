//! What a replica keeps: for each client its greatest number with the reply to it, the logs of its partition, and its table.
//! Entries are applied as the fold's step of an entry does, and the whole has bytes that are read back.
#![tactic(auto)]

mod concern;
mod parts;
mod reading;
mod room;
mod sessions;
mod state;
mod tables;

pub use concern::looks;
pub use state::ReplicaState;
