//! A round by which the leader of a ring finds out what may be trimmed: each subscribed partition has to answer by a quorum of its
//! own, and the least of all answers may go.
//!
//! `specs/Rounds.antt` says for which rounds of `protocol` a round of this crate stands. It keeps who has answered and the least
//! answer, and takes no memory.
#![tactic(auto)]

mod round;
mod rows;
mod subscribers;

pub use round::TrimRound;
pub use rows::{a_quorum_says_the_least, each_partition_has_a_quorum};
