//! A client: it asks one command at a time, sends it again to one acceptor after another until it is answered, and joins what
//! the partitions reply.
//!
//! Each call makes of a core what the client's rule of `protocol` makes of each client that the core stands for:
//! `specs/Clients.antt` says which these are, `specs/Calls.antt` what a call answers then. Of the ticks and of the tries a core
//! keeps only what is left of them, so that they have no greatest number.
#![tactic(auto)]

mod asking;
mod client;
mod copies;
mod fitting;
mod missing;
mod parts;
mod waiting;

pub use asking::{Answer, AskFault, ReplyFault, Submit};
pub use client::ClientCore;
