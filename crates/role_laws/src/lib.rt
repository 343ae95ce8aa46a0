//! What the rows of a ring's tables keep, and worked rows of a coordinator: laws alone, each function has an empty body and
//! its contract is the law. Nothing stands on it.
#![tactic(auto)]

pub mod kept;
pub mod rows;
