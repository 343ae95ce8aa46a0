//! A ready replica: it takes what was learned, place after place in the one order of the places of its rings, applies the
//! entries of each batch in order, and tells each of its deliveries and replies.
//!
//! `specs/Readied.antt` says for which service of a node of `protocol` it stands.
#![tactic(auto)]

mod batch;
mod learned;
mod ready;

pub use learned::Learned;
pub use ready::Ready;

#[cfg(test)]
mod tests;
