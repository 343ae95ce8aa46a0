//! The system of one ring: what happens at each event, and what is printed.
//!
//! `specs/System.antt` has the rules of the step, `specs/Order.antt` what its lines are good for, `specs/Built.antt`
//! for which deployments and events it is built so far.
#![tactic(auto)]

mod built;
mod laws;
mod learner;
mod request;
mod rows;
mod seat;
mod world;

pub use built::{built_ring, built_rings_are_rings, first_unbuilt};
pub use laws::{deliveries_are_in_turn, lines_are_faithful, ready_lines_are_faithful};
pub use learner::Learned;
pub use request::Request;
pub use rows::{
    alone_row, asked_again, clients_count, each_size, first_row, listed_row, lost_row,
    never_proposed, no_event, reordered, twice, two_row,
};
pub use seat::Seat;
pub use world::World;
