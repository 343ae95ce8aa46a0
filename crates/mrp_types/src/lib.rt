//! The names, values and places that every part of the system speaks of.
#![tactic(auto)]

mod id;
mod items;
pub mod limits;
mod members;
mod memory;
mod octets;
mod payload;
mod place;
mod rounds;
mod seats;
mod tuple;
mod tuple_laws;
mod value;
mod voted;

pub use id::{Ballot, ClientId, END, Inst, LogId, NodeId, PartitionId, Party, RingId, majority};
pub use items::Items;
pub use members::{Members, RingView};
pub use memory::Memory;
pub use octets::Octets;
pub use payload::Payload;
pub use place::{Place, place_before, places_are_in_one_order};
pub use rounds::RoundSizes;
pub use seats::Seats;
pub use tuple::{Order, Tuple};
pub use tuple_laws::{
    moves_keep_tuples_valid, past_adds_the_next_place, past_leaves_the_others,
    the_next_place_is_an_entry, the_next_place_is_first, valid_tuples_are_fronts,
    valid_tuples_are_reached, valid_tuples_stand_in_one_order,
};
pub use value::{Entry, Value};
pub use voted::{Decided, Ranges, Voted, Votes};
