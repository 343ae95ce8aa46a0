//! Levelling: a slow ring skips instances, so that it keeps the pace of the others.
#![tactic(auto)]

mod leveller;

pub use leveller::Leveller;
