//! The whole system as definitions: nodes on disks that may fail, the frames between them, and what a schedule prints.
//!
//! Definitions and laws alone: each function has an empty body, and its contract is the law.
#![tactic(auto)]

pub mod laws;
pub mod rows;
