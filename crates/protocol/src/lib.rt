//! The protocol as definitions: what a node does with an event, table by table, and what a client does.
//!
//! Definitions and laws alone: each function has an empty body, and its contract is the law. The tables of a ring stand in
//! `specs/Rings`, `Learner`, `Acceptor`, `Coordinator` and `Trimming`, those of a node in `Merging`, `Recovery`, `Tick`
//! and `Step`; `Client` has the client's, `Parts` and `Node` what they keep.
#![tactic(auto)]

mod client_rows;
mod laws;
mod rows;

pub use client_rows::{
    a_busy_client, a_joined_answer, a_scan, an_ask, three_tries, two_commands, what_is_missing,
};
pub use laws::{
    a_round_says_the_least_answer, a_start_takes_the_least_ballot, coverage_is_a_majority,
    learned_ranges_are_maximal, members_are_acceptors_and_then_replicas, nodes_are_put_by_id,
    pages_are_longest_prefixes, runs_of_due_skips_are_longest, the_best_answer_is_chosen,
    the_first_value_stays, the_higher_vote_stands,
};
pub use rows::{
    a_gap_is_skipped, a_lower_ballot_is_refused, a_majority_decides, a_promise_tells_votes,
    a_round_ends, a_start_asks_the_others, commands_are_proposed, one_acceptor_decides_at_once,
};
