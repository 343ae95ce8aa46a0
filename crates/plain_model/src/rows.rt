//! Worked examples, computed by the definitions.

ghost use Rattle.std.specs.Prelude.{◌≡◌, ◌++◌, [], ◌∷◌, ℕ, true, false, Some, None, Ok, Err, take, map, codes};
ghost use Rattle.command_codec.specs.declared.command.Command.TheVariants.{Get};
ghost use Rattle.command_codec.specs.declared.fault.CodecFault.TheVariants.{Short, BadField, Left};
ghost use Rattle.command_codec.specs.Replies.{has_more};
ghost use Rattle.command_codec.specs.Spelling.{command_bytes};
ghost use Rattle.command_codec.specs.Grammar.{key_of};
ghost use Rattle.plain_model.specs.Replicas.{empty_replica, page_of};
ghost use Rattle.plain_model.specs.StateBytes.{state_bytes, state_of, read_state, whole_state};
ghost use Rattle.plain_model.specs.Fold.{replica_after, answer_of, entries_below};
ghost use Rattle.plain_model.specs.Tuples.{first_tuple, next_place, past_many, is_tuple_of, tuple_at};
ghost use Rattle.plain_model.specs.Rows.{ring, place, twos, ones, alone, lower, upper, both_parts, client, hi, hi_reply, hi_state, hi_replica, after, mixed, mixed_replica, mixed_replies, swap_over, swapped, swapped_replies, places_and_bytes, replies_in, asked, asked_by, scan_all, a_book, insert_a, full_replica, after_full, eight, keys_in};

/// A value appended to an empty log: its reply.
pub fn an_append()
    ensures { (after alone (hi ∷ [])).replies ≡ (0, hi, hi_reply) ∷ [] }
{}

/// What the replica keeps then.
pub fn a_state()
    ensures { (after alone (hi ∷ [])).replica ≡ hi_replica }
{}

/// The written state.
pub fn a_state_written()
    ensures { state_bytes hi_replica ≡ hi_state }
{}

/// A state is read back, and what follows it stays unread.
pub fn a_state_read()
    ensures { read_state alone (hi_state ++ 7 ∷ 8 ∷ []) ≡ Ok (hi_replica, 7 ∷ 8 ∷ []) }
{}

/// A byte too many, a byte too few, and the state of another partition.
pub fn no_states()
    ensures { whole_state alone (hi_state ++ 7 ∷ []) ∷ whole_state alone (take 55 hi_state) ∷ whole_state upper hi_state ∷ [] ≡ Err (Left 56) ∷ Err (Short 48) ∷ Err (BadField 27) ∷ [] }
{}

/// What a replica keeps of entries that it takes one by one.
pub fn a_replica()
    ensures { (after alone mixed).replica ≡ mixed_replica }
{}

/// What it replies to them.
pub fn its_replies()
    ensures { places_and_bytes (after alone mixed).replies ≡ mixed_replies }
{}

/// The plain lists of these entries say the same of what is kept.
pub fn the_fold()
    ensures { replica_after alone mixed ≡ mixed_replica }
{}

/// And of what is replied.
pub fn the_replies()
    ensures { replies_in alone [] mixed ≡ mixed_replies }
{}

/// A swap as it is written.
pub fn a_swap_written()
    ensures { command_bytes (swap_over (codes "2")) ≡ 10 ∷ 0 ∷ 1 ∷ 97 ∷ 0 ∷ 1 ∷ 50 ∷ 0 ∷ 1 ∷ 51 ∷ [] }
{}

/// What an empty partition replies to an insert, to swaps and to a read of what they leave.
pub fn swaps()
    ensures { places_and_bytes (after lower swapped).replies ≡ swapped_replies }
{}

/// The plain lists say the same.
pub fn swaps_by_the_lists()
    ensures { replies_in lower [] swapped ≡ swapped_replies }
{}

/// Where a log would grow past its limit the reply is Limit, and it is kept with its number; the log stays as it was.
pub fn no_room()
    ensures { after_full.replica.sessions ≡ record { client = client 0; seq = 1; reply = 9 ∷ [] } ∷ [] }
{}

/// The log of that replica.
pub fn no_room_for_values()
    ensures { after_full.replica.logs ≡ full_replica.logs }
{}

/// A reply has as many entries as fit, and says that others are left.
pub fn a_page()
    ensures { keys_in (page_of eight) ∷ keys_in (page_of (take 7 eight)) ∷ [] ≡ map key_of (take 7 eight) ∷ map key_of (take 7 eight) ∷ [] }
{}

/// Whether others are left.
pub fn what_is_left()
    ensures { has_more (page_of eight) ∷ has_more (page_of (take 7 eight)) ∷ [] ≡ true ∷ false ∷ [] }
{}

/// A written state of several sessions, values and keys is read back.
pub fn a_larger_state()
    ensures { state_of alone (state_bytes mixed_replica) ≡ Some mixed_replica }
{}

/// Two instances a round: after five places of rings 0 and 2 the next one is the fourth of ring 0.
pub fn five_places()
    ensures { past_many twos 5 (first_tuple (ring 0 ∷ ring 2 ∷ [])) ≡ (ring 0, 3) ∷ (ring 2, 2) ∷ [] }
{}

/// The place that comes next.
pub fn a_next_place()
    ensures { next_place twos ((ring 0, 4) ∷ (ring 2, 3) ∷ []) ∷ [] ≡ (ring 2, 3) ∷ [] }
{}

/// The tuple of a place.
pub fn a_tuple_at()
    ensures { tuple_at twos (ring 0 ∷ ring 2 ∷ []) (place 2 3) ≡ (ring 0, 4) ∷ (ring 2, 3) ∷ [] }
{}

/// A tuple that five places leave, and one that leaves a place out.
pub fn which_are_valid()
    ensures { is_tuple_of twos (ring 0 ∷ ring 2 ∷ []) ((ring 0, 3) ∷ (ring 2, 2) ∷ []) ∷ is_tuple_of twos (ring 0 ∷ ring 2 ∷ []) ((ring 0, 3) ∷ (ring 2, 1) ∷ []) ∷ [] ≡ true ∷ false ∷ [] }
{}

/// The entries below a tuple, in the one order.
pub fn what_stands_below()
    ensures { entries_below ones a_book ((ring 0, 2) ∷ (ring 2, 1) ∷ []) ≡ Some (insert_a ∷ asked_by 2 1 scan_all ∷ asked_by 1 2 (Get (codes "z")) ∷ []) }
{}

/// A place that isn't in the book leaves nothing known.
pub fn what_is_not_known()
    ensures { entries_below ones a_book ((ring 0, 2) ∷ (ring 2, 2) ∷ []) ≡ None }
{}

/// A scan of both partitions is answered with the entries of both.
pub fn an_answer()
    ensures { answer_of both_parts a_book (client 2) 1 ≡ Some (8 ∷ 0 ∷ 0 ∷ 2 ∷ 0 ∷ 1 ∷ 97 ∷ 0 ∷ 1 ∷ 49 ∷ 0 ∷ 1 ∷ 122 ∷ 0 ∷ 1 ∷ 50 ∷ []) }
{}

/// A command of one partition, and one that nobody asked.
pub fn other_answers()
    ensures { answer_of both_parts a_book (client 1) 2 ∷ answer_of both_parts a_book (client 9) 1 ∷ [] ≡ Some (2 ∷ 0 ∷ 1 ∷ 50 ∷ []) ∷ None ∷ [] }
{}
