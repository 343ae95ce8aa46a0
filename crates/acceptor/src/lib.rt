//! The acceptor of a ring: what it records and answers, row by row as `protocol` has them.
//!
//! An acceptor has nothing of its own: it reads a durable state and the changes that a step made so far, and adds changes
//! and frames. `ring_view` says how these stand for what `protocol`'s part keeps.
#![tactic(auto)]

mod acceptor;
mod pages;

pub use acceptor::Acceptor;
