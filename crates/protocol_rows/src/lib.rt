//! Worked schedules and the lines that they print, each as a law that the checker computes.
#![tactic(auto)]

pub mod checkpoint_of_another;
pub mod compacted;
pub mod compaction_stopped_after;
pub mod compaction_stopped_before;
pub mod delivered_again;
pub mod failed_calls;
pub mod faithful_lines;
pub mod fetched;
pub mod gone_checkpoint;
pub mod last_answer;
pub mod late_answers;
pub mod levelled;
pub mod newer_leader;
pub mod no_event;
pub mod no_quorum;
pub mod one_command;
pub mod one_state;
pub mod ordinary_run;
pub mod stopped_vote;
pub mod suspected_leader;
pub mod told_trim;
pub mod trim_frames;
pub mod trim_round;
pub mod trimmed_too_far;
pub mod two_leaders;
