//! The pair of areas that holds a node's newest checkpoint, as definitions.
//!
//! Definitions and laws alone: each function has an empty body, and its contract is the law.
#![tactic(auto)]

pub mod laws;
pub mod rows;
