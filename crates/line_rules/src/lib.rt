//! The rules of faithful lines, F1 to F9: what a whole system may print, judged by its lines alone.
//!
//! `specs/Rules.antt` has the rules, each a statement of a line and the lines before it, `specs/Scanners.antt` and
//! `specs/Owed.antt` what they read of these lines, `specs/Tests.antt` a test for each rule, `specs/Conditions.antt` its conditions one by one, and `specs/Verdict.antt` the first
//! line at fault with the least rule that it breaks. `rows` has worked lines.
//!
//! Definitions and laws alone: each function has an empty body, and its contract is the law.
#![tactic(auto)]

mod laws;
mod rows;

pub use laws::{
    answered_commands_stay, conditions_make_tests, deliveries_follow_one_order,
    fronts_are_faithful, lines_only_grow, one_book, one_line_more, tests_decide_rules,
    verdicts_tell_what_is_faithful,
};
pub use rows::{
    a_run_is_faithful, broken_lines, two_coordinators_are_faithful, two_partitions_are_faithful,
};
