//! Values by hand of the definitions that contracts cite, each as a law that the checker computes: the code of the crates below gives
//! what these definitions give, so it gives these values.
#![tactic(auto)]

pub mod codecs;
pub mod records;
pub mod routes;
pub mod tables;
pub mod tuples;
pub mod votes;
pub mod words;
