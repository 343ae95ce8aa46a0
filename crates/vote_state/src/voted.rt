//! Votes as ranges of instances.
ghost use Rattle.std.specs.Prelude.{◌≡◌, [], List, ℕ};
ghost use Rattle.range_map.specs.Entries.{IsIncreasingFrom};
ghost use Rattle.vote_state.specs.declared.cast.Cast.{Cast};
ghost use Rattle.mrp_types.specs.declared.voted.Voted.{Voted};
ghost use Rattle.vote_state.specs.Ranges.{ranges_of, AreMaximalRanges, votes_of_ranges};

/// The laws of votes as ranges: the maximal ranges of votes are one list alone, and voting for them
/// one after another makes these votes again.
pub fn ranges_stand_for_votes()
    ensures maximal { (votes : List (ℕ × Cast)) → IsIncreasingFrom 0 votes → AreMaximalRanges votes (ranges_of votes) }
    ensures only { (votes : List (ℕ × Cast)) (ranges : List Voted) → IsIncreasingFrom 0 votes → AreMaximalRanges votes ranges → ranges ≡ ranges_of votes }
    ensures again { (votes : List (ℕ × Cast)) → IsIncreasingFrom 0 votes → votes_of_ranges (ranges_of votes) [] ≡ votes }
{}
