//! Which run holds an instance.
ghost use Rattle.std.specs.Prelude.{◌≡◌, ℕ, ◌<◌, ◌≤◌, MatchOption, IsSome, ⊤};
ghost use Rattle.range_map.specs.Runs.{run_from, IsPlacedFrom, IsLastUpTo, IsFirstWithin, IsCover, IsBare};
ghost use Rattle.range_map.specs.declared.run.Run.{Run};

use crate::run::Run;
use std::collections::BTreeMap;

/// The last run that begins at `i` or before.
fn last_up_to<T>(runs: &BTreeMap<u64, Run<T>>, i: u64) -> Option<(u64, &Run<T>)>
    ensures { MatchOption result
        ((a : ℕ) (r : Run T) → run_from runs.now.entries a ≡ Some r → i < a)
        (λ found. IsLastUpTo (run_from runs.now.entries) i found.0 found.1.now) }
{
    let Some((lo, run)) = runs.range(..=i).next_back() else {
        return None;
    };
    Some((*lo, run))
}

/// The run that holds `i`.
pub fn covering<T>(runs: &BTreeMap<u64, Run<T>>, i: u64) -> Option<(u64, &Run<T>)>
    requires { IsPlacedFrom 0 runs.now.entries }
    ensures { MatchOption result
        (IsBare (run_from runs.now.entries) i)
        (λ found. IsCover (run_from runs.now.entries) i found.0 found.1.now) }
{
    let Some((lo, run)) = last_up_to(runs, i) else {
        return None;
    };
    if i < run.end { Some((lo, run)) } else { None }
}

/// The first run that begins in a range.
pub fn first_within<T>(runs: &BTreeMap<u64, Run<T>>, lo: u64, hi: u64) -> Option<(u64, &Run<T>)>
    requires { lo ≤ hi }
    ensures { MatchOption result
        ((a : ℕ) → lo ≤ a → a < hi → run_from runs.now.entries a ≡ None)
        (λ found. IsFirstWithin (run_from runs.now.entries) lo hi found.0 found.1.now) }
{
    let Some((first, run)) = runs.range(lo..hi).next() else {
        return None;
    };
    Some((*first, run))
}

/// The first instance of a range at which a run begins.
pub fn first_begin<T>(runs: &BTreeMap<u64, Run<T>>, lo: u64, hi: u64) -> Option<u64>
    requires { lo ≤ hi }
    ensures begins { MatchOption result
        ((a : ℕ) → lo ≤ a → a < hi → run_from runs.now.entries a ≡ None)
        (λ first. IsSome (run_from runs.now.entries first)) }
    ensures in_range { MatchOption result ⊤ (λ first. (lo ≤ first) × (first < hi)) }
    ensures first { MatchOption result ⊤
        (λ first. (a : ℕ) → lo ≤ a → a < first → run_from runs.now.entries a ≡ None) }
{
    let Some((first, _)) = first_within(runs, lo, hi) else {
        return None;
    };
    Some(first)
}
