//! An acceptor's journal on a disk: opened with an epoch more, records of changes added, compacted to one record. At
//! each moment a crash leaves the state before or after.
//!
//! `specs/Journal.antt` has the state that records stand for and the calls of each operation. Each list of changes has
//! one spelling as a record of format 2, which is written, and one of format 1, which is only read: `specs/Spelling.antt`
//! has the spellings as functions of the value, `specs/Grammar.antt` the reading, field by field from the left.
#![tactic(auto)]

mod compacting;
mod epochs;
mod fault;
mod journal;
mod judging;
mod laws;
mod opening;
mod record;
mod record_reading;

pub use epochs::do_epochs_rise;
pub use fault::{JournalFault, OpenFault};
pub use journal::VoteJournal;
pub use laws::{what_stands_is_the_state, what_was_written_is_opened};
pub use record::{First, write_changes, write_first};
pub use record_reading::{read_changes, read_first};
