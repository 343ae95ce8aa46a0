//! Shared logs: a service whose part of the state is the logs of a partition. Appends, reads and trims cost the same whatever a log's
//! length; a trim costs what it drops.
#![tactic(auto)]

mod dlog;
mod log;
mod logs;
mod reading;

pub use dlog::DLog;
