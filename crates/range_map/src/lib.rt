//! Runs of instances: a map from instances to values whose cost follows the number of its runs and
//! not the number of its instances.
#![tactic(auto)]

mod cover;
mod edits;
mod map;
mod run;
mod same;

pub use map::RangeMap;
pub use same::Same;
