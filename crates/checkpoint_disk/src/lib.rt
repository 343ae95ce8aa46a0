//! The newest checkpoint of a node, on the pair of areas that holds it.
#![tactic(auto)]

mod checkpoints;
mod fault;
pub mod laws;
mod part;
mod reading;
mod saving;
mod tuples;

pub use checkpoints::Checkpoints;
pub use fault::SaveFault;
pub use part::PartAnswer;
