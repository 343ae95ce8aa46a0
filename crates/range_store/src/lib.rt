//! The partitioned map: a service whose part of the state is the table of a partition, keys with their values in order of keys. A
//! scan costs what it replies and a look-up.
#![tactic(auto)]

mod map;
mod page;
mod reading;
mod store;

pub use store::RangeStore;
