//! What lines of a system have to say, whatever made them: definitions and laws that know no ballot and no frame.
//!
//! `specs/Lines.antt` has the book of lines. `specs/Fold.antt` says what a partition's entries mean, over plain lists: which count, what the logs
//! and the table hold, what is replied, the state, and a client's answer. `specs/Replicas.antt` has the same as a
//! replica keeps it, entry by entry, `specs/StateBytes.antt` its written form, `specs/Pages.antt` what a page is, and
//! `specs/Tuples.antt` how far a partition has come. `rows` has worked examples.
#![tactic(auto)]

mod fold_laws;
mod known_laws;
mod rows;
mod size_laws;
mod tuple_laws;

ghost use Rattle.std.specs.Prelude.{◌≡◌, ◌++◌, List, ℕ, Some};
ghost use Rattle.mrp_types.specs.declared.value.Value.{Value};
ghost use Rattle.mrp_types.specs.declared.id.RingId.{RingId};
ghost use Rattle.transcript.specs.declared.line.Line.{Line};
ghost use Rattle.plain_model.specs.Lines.{book};

pub use fold_laws::{
    replicas_keep_what_the_lists_say, replicas_reply_what_the_lists_say,
    states_are_what_replicas_keep,
};
pub use known_laws::entries_below_stay;
pub use rows::{
    a_larger_state, a_next_place, a_page, a_replica, a_state, a_state_read, a_state_written,
    a_tuple_at, an_answer, an_append, five_places, its_replies, no_room, no_room_for_values,
    no_states, other_answers, the_fold, the_replies, what_is_left, what_is_not_known,
    what_stands_below, which_are_valid,
};
pub use size_laws::{pages_are_longest_fronts, pages_are_short, sizes_are_written_bytes};
pub use tuple_laws::{
    tuples_of_places_are_valid, what_comes_before_is_below, what_is_below_comes_before,
};

/// The book only grows: what it has of an instance stays, whatever lines come.
pub fn the_book_only_grows()
    ensures { (before more : List Line) (ring : RingId) (inst : ℕ) (value : Value) →
        book before ring inst ≡ Some value → book (before ++ more) ring inst ≡ Some value }
{}
