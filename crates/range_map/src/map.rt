//! The map.
ghost use Rattle.std.specs.Prelude.{◌≡◌, ℕ, ◌<◌, ◌≤◌, [], List, nat_le, nat_lt, ◌&&◌, if◌then◌else◌, IsNone, IfSome, MatchOption, OnOk, ◌↔◌};
ghost use Rattle.std.specs.Option.{option_copied};
ghost use Rattle.range_map.specs.Entries.{value_at, IsIncreasingFrom, entries_from, with_range, IsNextGap, IsNextHeld, IsNextRun, IsRunRound};

use crate::cover::{covering, first_within};
use crate::edits::{drop_passed, replace_range};
use crate::run::Run;
use crate::same::Same;
use mrp_types::{END, Inst, Memory};
use std::alloc::Global;
use std::collections::BTreeMap;
use std::marker::Model;

/// A finite map from instances to values. It is kept as its longest runs of equal values, each by
/// the instance where it begins, so one run may have any number of instances.
#[derive(Drop)]
pub struct RangeMap<T> {
    runs: BTreeMap<u64, Run<T>>,
    /// Nothing is held below this instance, also where a run begins below it.
    floor: u64,
}

impl<T> Model for RangeMap<T> {
    ghost use Rattle.std.specs.Prelude.{ℕ, List};
    ghost use Rattle.range_map.specs.Entries.{entries_from};
    ghost use Rattle.range_map.specs.Runs.{entries_of, IsMaximal};

    ghost Value = { List (ℕ × T) };

    ghost view = { λ m. entries_from m.floor (entries_of m.runs.entries) };

    ghost invariant = { λ m. IsMaximal m.runs.entries };
}

impl<T: Same + Drop> RangeMap<T> {
    /// A map that holds nothing. It takes memory from `alloc` as it grows.
    pub fn new(alloc: Global) -> RangeMap<T>
        ensures { result ≡ [] }
    {
        RangeMap {
            runs: BTreeMap::new(alloc),
            floor: 0,
        }
    }

    /// What an instance holds; `None` where it holds nothing.
    pub fn get(&self, i: Inst) -> Option<&T>
        ensures value { option_copied result ≡ value_at i self.now }
        ensures ordered { IsIncreasingFrom 0 self.now }
    {
        if i < self.floor {
            return None;
        }
        let Some((_, run)) = covering(&self.runs, i) else {
            return None;
        };
        Some(&run.value)
    }

    /// Has each instance from `lo` on and below `hi` hold `value`, whatever it held. The cost
    /// follows the number of runs that the range meets. After `Memory` the map is spent.
    pub fn set_range(&mut self, lo: Inst, hi: Inst, value: T) -> Result<(), Memory>
        requires range { lo < hi }
        requires end { hi ≤ END }
        ensures value { OnOk result ((i : ℕ) → value_at i self.new
            ≡ (if nat_le lo i && nat_lt i hi then Some value else value_at i self.old)) }
        ensures entries { OnOk result (self.new ≡ with_range lo hi value self.old) }
        ensures ordered { IsIncreasingFrom 0 self.new }
    {
        match replace_range(&mut self.runs, self.floor, lo, hi, value) {
            Ok(floor) => {
                self.floor = floor;
                Ok(())
            }
            Err(memory) => {
                self.runs.clear();
                Err(memory)
            }
        }
    }

    /// Drops what the instances below `i` hold.
    pub fn cut_below(&mut self, i: Inst)
        ensures entries { self.new ≡ entries_from i self.old }
        ensures value { (j : ℕ) → value_at j self.new ≡ (if nat_le i j then value_at j self.old else None) }
        ensures ordered { IsIncreasingFrom 0 self.new }
    {
        if self.floor < i {
            self.floor = i;
            drop_passed(&mut self.runs, i);
        }
    }

    /// The least instance from `from` on that holds nothing; that may be past all ranges.
    pub fn next_gap(&self, from: Inst) -> Inst
        ensures { IsNextGap self.now from result }
    {
        let mut gap = from;
        if gap < self.floor {
            return gap;
        }
        while let Some((_, run)) = covering(&self.runs, gap) {
            gap = run.end;
        }
        gap
    }

    /// The least instance from `from` on that holds something; `None` where there is none.
    pub fn next_after(&self, from: Inst) -> Option<Inst>
        ensures { MatchOption result
            ((i : ℕ) → from ≤ i → value_at i self.now ≡ None)
            (λ next. IsNextHeld self.now from next) }
    {
        let Some((next, _, _)) = self.first_run(from) else {
            return None;
        };
        Some(next)
    }

    /// The first range from `from` on of instances that hold one value: its first instance, the first one past it, and
    /// the value; `None` where nothing is held from there on.
    pub fn first_run(&self, from: Inst) -> Option<(Inst, Inst, &T)>
        ensures { MatchOption result
            ((i : ℕ) → from ≤ i → value_at i self.now ≡ None)
            (λ run. IsNextRun self.now from run.0 run.1 run.2.now) }
    {
        let start = from.max(self.floor);
        if let Some((_, run)) = covering(&self.runs, start) {
            return Some((start, run.end, &run.value));
        }
        if END <= start {
            return None;
        }
        let Some((first, run)) = first_within(&self.runs, start, END) else {
            return None;
        };
        Some((first, run.end, &run.value))
    }

    /// The longest range round `i` of instances that hold what `i` holds, as its first instance and
    /// the first one past it; `None` where `i` holds nothing.
    pub fn run_at(&self, i: Inst) -> Option<(Inst, Inst)>
        ensures none { IsNone result ↔ (value_at i self.now ≡ None) }
        ensures run { IfSome result (λ run. IsRunRound self.now i run.0 run.1) }
    {
        if i < self.floor {
            return None;
        }
        let Some((lo, run)) = covering(&self.runs, i) else {
            return None;
        };
        let begin = lo.max(self.floor);
        let end = run.end;
        Some((begin, end))
    }
}
