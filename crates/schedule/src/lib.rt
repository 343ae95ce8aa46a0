//! Schedules: the events that happen to a system, a line each; and a client's command, one line.
#![tactic(auto)]

mod asking;
mod commands;
mod event;
mod fault;
mod fields;
mod generating;
mod kinds;
mod laws;
mod names;
mod reading;
mod routing;
mod rows;
mod words;
mod writing;

pub use asking::read_ask;
pub use event::{Schedule, ScheduleEvent};
pub use fault::{FaultKind, ScheduleFault};
pub use generating::generate;
pub use laws::generated_schedules_may_be;
pub use reading::read;
pub use rows::{events_of_each_kind, first_faults, texts_of_clients};
pub use writing::{put_event, write};
