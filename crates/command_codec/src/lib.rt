//! Commands, batches and replies as bytes: each value has one spelling.
//!
//! `specs/Spelling.antt` and `specs/Replies.antt` have the spellings as functions of the value, `specs/Grammar.antt`
//! has the reading, field by field from the left. The modules `reading`, `parts` and `writing`
//! have the fields for other crates; `mrp_types::limits` has how long and how great they may be.
#![tactic(auto)]

mod batch;
mod batch_reading;
mod batch_test;
mod command;
mod command_reading;
mod fault;
mod joining;
mod lists;
mod order;
pub mod parts;
pub mod reading;
mod reply;
mod reply_reading;
pub mod writing;

pub use batch::write_batch;
pub use batch_reading::read_batch;
pub use batch_test::is_batch;
pub use command::{Command, write_command};
pub use command_reading::read_command;
pub use fault::CodecFault;
pub use joining::join;
pub use lists::{Entries, LogPositions, Logs, TableEntries};
pub use reply::{LogPosition, Reply, TableEntry, write_reply};
pub use reply_reading::read_reply;
