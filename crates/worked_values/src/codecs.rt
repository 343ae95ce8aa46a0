//! A batch, replies of several partitions, and a frame.

ghost use Rattle.std.specs.Prelude.{◌≡◌, Ok};
ghost use Rattle.std.specs.List.{AllByRecursion};
ghost use Rattle.command_codec.specs.Grammar.{batch_of};
ghost use Rattle.frames.specs.Grammar.{read_of};
ghost use Rattle.frames.specs.Spelling.{decided_size, vote_size};
ghost use Rattle.worked_values.specs.Codecs.{IsJoined, decide, decide_bytes, joinings, two_entries, two_entries_bytes};
ghost use Rattle.worked_values.specs.Votes.{skip};
ghost use Rattle.mrp_types.specs.declared.value.Value.TheVariants.{Skip};

/// The entries of a batch.
#[tactic(auto, unfolding(command_codec::specs::Reader::bytes_at, command_codec::specs::Reader::number_at, command_codec::specs::Reader::within, command_codec::specs::Reader::length_at, command_codec::specs::Reader::string_that, command_codec::specs::Reader::string_at, command_codec::specs::Parts::value_at, command_codec::specs::Grammar::entry_at, command_codec::specs::Grammar::batch_at))]
pub fn a_batch()
    ensures { batch_of two_entries_bytes ≡ Ok two_entries }
{}

/// Replies that are joined.
#[tactic(auto, unfolding(command_codec::specs::Fields::u16_bytes, command_codec::specs::Fields::u32_bytes, command_codec::specs::Fields::u64_bytes))]
pub fn joined_replies()
    ensures { AllByRecursion IsJoined joinings }
{}

/// The frame of a decided batch.
#[tactic(auto, unfolding(command_codec::specs::Reader::bytes_at, command_codec::specs::Reader::number_at, command_codec::specs::Reader::within, command_codec::specs::Reader::length_at, command_codec::specs::Reader::string_that, command_codec::specs::Reader::string_at, command_codec::specs::Parts::value_at, command_codec::specs::Grammar::entry_at, command_codec::specs::Grammar::batch_at, frames::specs::Grammar::decide_at, frames::specs::Grammar::body_of_kind, frames::specs::Grammar::party_at, frames::specs::Grammar::frame_of_kind, frames::specs::Grammar::kind_at))]
pub fn a_frame()
    ensures { read_of decide_bytes ≡ Ok decide }
{}

/// How many bytes a vote and a decided range of Skip take.
pub fn sizes()
    ensures vote { vote_size (skip 0 4 1) ≡ 27 }
    ensures decided { decided_size (record { lo = 0; hi = 4; value = Skip }) ≡ 19 }
{}
