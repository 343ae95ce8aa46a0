//! A log of records in a pair of areas: each operation leaves the records before or after, at each moment.
#![tactic(auto)]

mod body;
mod content;
mod fault;
pub mod laws;
mod log;
pub mod rows;
mod walking;

pub use body::Body;
pub use fault::LogFault;
pub use log::GateLog;
