//! The walk over the tables that a deployment's text is: what the values of their keys are. Each reader answers what its
//! definition gives: the value, or the first fault.
#![tactic(auto)]

mod address;
mod fault;
mod faults;
mod hex_text;
mod lists;
mod names;
mod numbers;
mod tables;
mod values;

pub use address::read_address;
pub use fault::ConfigFault;
pub use faults::unknown_id;
pub use hex_text::read_hex;
pub use lists::{read_logs, read_rings, read_seats};
pub use names::judge_names;
pub use numbers::{read_id, read_number, read_quorum};
pub use tables::read_tables;
pub use values::value_at;
