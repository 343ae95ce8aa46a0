//! What is known of each deployment that is accepted, and which are: laws of the walk over its table, that name no
//! code.
#![tactic(auto)]

mod laws;

pub use laws::{bits_name_what_is_concerned, routes_are_common_rings, what_is_valid_is_accepted};
