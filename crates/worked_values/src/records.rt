//! Records of a journal, both ways, and their first faults.

ghost use Rattle.std.specs.Prelude.{◌≡◌, [], ◌∷◌, true, false, length, map, Ok, Err};
ghost use Rattle.std.specs.List.{AllByRecursion};
ghost use Rattle.command_codec.specs.declared.fault.CodecFault.TheVariants.{BadField};
ghost use Rattle.vote_journal.specs.Epochs.{epochs_rise};
ghost use Rattle.vote_journal.specs.Grammar.{changes_of, first_of};
ghost use Rattle.vote_journal.specs.Journal.{opened_end};
ghost use Rattle.vote_journal.specs.Spelling.{first_bytes, record_bytes};
ghost use Rattle.vote_state.specs.State.{nothing_kept};
ghost use Rattle.vote_state.specs.declared.change.Change.TheVariants.{Epoch, Promise, Vote};
ghost use Rattle.mrp_types.specs.declared.value.Value.TheVariants.{Batch};
ghost use Rattle.worked_values.specs.Ids.{node, ring};
ghost use Rattle.worked_values.specs.Records.{IsNoFirst, IsNoRecord, compacted, no_firsts, no_records, three_changes, three_changes_bytes, two_votes, vote_up_to};

/// Records as they are written.
#[tactic(auto, unfolding(command_codec::specs::Fields::u16_bytes, command_codec::specs::Fields::u32_bytes, command_codec::specs::Fields::u64_bytes))]
pub fn written_records()
    ensures first { first_bytes (node 0) (Epoch 1 ∷ []) ≡ 6 ∷ 0 ∷ 0 ∷ 0 ∷ 2 ∷ 5 ∷ 0 ∷ 1 ∷ 0 ∷ 0 ∷ 0 ∷ 1 ∷ [] }
    ensures later { record_bytes three_changes ≡ three_changes_bytes }
{}

/// How long the area is after a first opening, and how long records are: of a promise and of two votes, and what a compaction writes
/// behind each; the two votes are three ranges then.
#[tactic(auto, unfolding(command_codec::specs::Fields::u16_bytes, command_codec::specs::Fields::u32_bytes, command_codec::specs::Fields::u64_bytes, range_map::specs::Entries::spread_over, vote_state::specs::Ranges::ranges_of))]
pub fn lengths_of_records()
    ensures opened { opened_end (node 0) [] nothing_kept ≡ 34 }
    ensures promise { length (record_bytes (Promise (ring 1) 4 ∷ [])) ≡ 15 }
    ensures promised { length (compacted (Promise (ring 1) 4 ∷ [])) ≡ 22 }
    ensures votes { length (record_bytes two_votes) ≡ 63 }
    ensures voted { length (compacted two_votes) ≡ 99 }
{}

/// Records of both formats as they are read.
#[tactic(auto, unfolding(command_codec::specs::Reader::bytes_at, command_codec::specs::Reader::number_at, command_codec::specs::Reader::within, command_codec::specs::Reader::length_at, command_codec::specs::Reader::string_that, command_codec::specs::Reader::string_at, command_codec::specs::Parts::value_at, command_codec::specs::Grammar::entry_at, command_codec::specs::Grammar::batch_at, vote_journal::specs::Grammar::epoch_at, vote_journal::specs::Grammar::promise_at, vote_journal::specs::Grammar::vote_at, vote_journal::specs::Grammar::trim_at, vote_journal::specs::Grammar::change_of_kind, vote_journal::specs::Grammar::change_at, vote_journal::specs::Grammar::numbered_at, vote_journal::specs::Grammar::first_at))]
pub fn read_records()
    ensures older_first { first_of (5 ∷ 3 ∷ 1 ∷ 0 ∷ 0 ∷ 0 ∷ 9 ∷ []) ≡ Ok (record { node = node 3; changes = Epoch 9 ∷ [] }) }
    ensures newer_first { first_of (6 ∷ 0 ∷ 0 ∷ 0 ∷ 2 ∷ 5 ∷ 3 ∷ 1 ∷ 0 ∷ 0 ∷ 0 ∷ 9 ∷ []) ≡ Ok (record { node = node 3; changes = Epoch 9 ∷ [] }) }
    ensures older { changes_of (1 ∷ 0 ∷ 0 ∷ 0 ∷ 9 ∷ []) ≡ Ok (Epoch 9 ∷ []) }
    ensures newer { changes_of (6 ∷ 0 ∷ 0 ∷ 0 ∷ 1 ∷ 1 ∷ 0 ∷ 0 ∷ 0 ∷ 9 ∷ []) ≡ Ok (Epoch 9 ∷ []) }
    ensures three { changes_of three_changes_bytes ≡ Ok three_changes }
    ensures none { changes_of [] ≡ Ok [] }
{}

/// A vote for a batch, of one instance and of two.
#[tactic(auto, unfolding(command_codec::specs::Reader::bytes_at, command_codec::specs::Reader::number_at, command_codec::specs::Reader::within, command_codec::specs::Reader::length_at, command_codec::specs::Reader::string_that, command_codec::specs::Reader::string_at, command_codec::specs::Parts::value_at, command_codec::specs::Grammar::entry_at, command_codec::specs::Grammar::batch_at, vote_journal::specs::Grammar::epoch_at, vote_journal::specs::Grammar::promise_at, vote_journal::specs::Grammar::vote_at, vote_journal::specs::Grammar::trim_at, vote_journal::specs::Grammar::change_of_kind, vote_journal::specs::Grammar::change_at, vote_journal::specs::Grammar::numbered_at, vote_journal::specs::Grammar::first_at))]
pub fn a_batch_has_one_instance()
    ensures one { changes_of (vote_up_to 6 (0 ∷ 14 ∷ 1 ∷ 0 ∷ 1 ∷ 0 ∷ 0 ∷ 0 ∷ 0 ∷ 0 ∷ 0 ∷ 0 ∷ 0 ∷ 1 ∷ 0 ∷ 0 ∷ [])) ≡ Ok (Vote (ring 0) (record { lo = 5; hi = 6; ballot = 3; value = Batch (1 ∷ 0 ∷ 1 ∷ 0 ∷ 0 ∷ 0 ∷ 0 ∷ 0 ∷ 0 ∷ 0 ∷ 0 ∷ 1 ∷ 0 ∷ 0 ∷ []) }) ∷ []) }
    ensures two { changes_of (vote_up_to 7 (0 ∷ 14 ∷ 1 ∷ 0 ∷ 1 ∷ 0 ∷ 0 ∷ 0 ∷ 0 ∷ 0 ∷ 0 ∷ 0 ∷ 0 ∷ 1 ∷ 0 ∷ 0 ∷ [])) ≡ Err (BadField 28) }
{}

/// The first fault of bytes that are no record, and no first one.
#[tactic(auto, unfolding(command_codec::specs::Reader::bytes_at, command_codec::specs::Reader::number_at, command_codec::specs::Reader::within, command_codec::specs::Reader::length_at, command_codec::specs::Reader::string_that, command_codec::specs::Reader::string_at, command_codec::specs::Parts::value_at, command_codec::specs::Grammar::entry_at, command_codec::specs::Grammar::batch_at, vote_journal::specs::Grammar::epoch_at, vote_journal::specs::Grammar::promise_at, vote_journal::specs::Grammar::vote_at, vote_journal::specs::Grammar::trim_at, vote_journal::specs::Grammar::change_of_kind, vote_journal::specs::Grammar::change_at, vote_journal::specs::Grammar::numbered_at, vote_journal::specs::Grammar::first_at))]
pub fn first_faults()
    ensures later { AllByRecursion IsNoRecord no_records }
    ensures first { AllByRecursion IsNoFirst no_firsts }
{}

/// Epochs that rise, from one below the first of them on.
pub fn epochs_in_order()
    ensures rising { map (λ before. epochs_rise before (Epoch 2 ∷ Promise (ring 0) 1 ∷ Epoch 3 ∷ [])) (1 ∷ 2 ∷ 3 ∷ []) ≡ true ∷ false ∷ false ∷ [] }
    ensures again { epochs_rise 1 (Epoch 2 ∷ Promise (ring 0) 1 ∷ Epoch 3 ∷ Epoch 3 ∷ []) ≡ false }
{}
