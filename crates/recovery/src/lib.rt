//! An attempt of recovery: who has answered with which tuple, which checkpoint is chosen, and the bytes of it that came.
//!
//! `specs/Attempts.antt` has what an attempt makes of what it is told, and `specs/Steps.antt` what a node does with a turn of it: the
//! laws say that this is the protocol's recovery. Only the bytes of a part take memory.
#![tactic(auto)]

mod answers;
mod attempt;
mod laws;
mod rows;
mod turns;

pub use attempt::Recovery;
pub use laws::{
    a_begun_attempt_is_the_protocols, a_gone_checkpoint_is_the_protocols, a_part_is_the_protocols,
    a_tick_is_the_protocols, an_answer_is_the_protocols,
    what_a_call_leaves_stands_for_the_protocols,
};
pub use rows::{
    a_newer_checkpoint_begins_anew, parts_come_in_order, some_answers_are_not_counted,
    the_greatest_tuple_is_chosen, ticks_say_the_first_that_applies,
    turns_say_the_first_that_applies,
};
pub use turns::{Missing, Turn};
