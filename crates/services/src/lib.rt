//! What every service of a replica does: it holds a part of the replica's state, takes commands as the fold's step on lists does, and
//! writes its section of the state.
//!
//! `specs/Parts.antt` has the parts, and what a command makes of one. The trait's clauses are its laws, which each service proves;
//! `laws` says that the parts of a replica, each with its commands, make the fold's step.
#![tactic(auto)]

mod fault;
mod laws;
mod service;

pub use fault::StateFault;
pub use laws::{commands_keep_to_their_part, growth_decides_room};
pub use service::{ROOM, Service};
