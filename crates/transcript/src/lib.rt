//! The lines that the system prints, and their spelling both ways.
#![tactic(auto)]

mod fault;
mod fields;
mod instances;
mod kinds;
mod laws;
mod line;
mod lines;
mod reading;
mod rows;
mod words;
mod writing;

pub use fault::{LineFault, LineKind};
pub use instances::Instances;
pub use laws::{
    lines_are_read, one_spelling_a_line, transcripts_are_read, what_is_read_is_a_transcript,
    what_is_read_is_spelled_so,
};
pub use line::{Cause, Line, ShownFrame, ShownState};
pub use lines::Lines;
pub use reading::read_line;
pub use rows::{first_faults, lines_of_each_kind};
pub use writing::{put_line, write_line};
