//! Changes of the runs of a map.
ghost use Rattle.std.specs.Prelude.{◌≡◌, ℕ, ◌<◌, ◌≤◌, ◌^◌, OnOk, IfOk};
ghost use Rattle.range_map.specs.Runs.{run_from, IsPlacedFrom, IsMaximal, Cuts, Joins, Clears, Sets, Settles, Drops, Replaces};
ghost use Rattle.range_map.specs.declared.run.Run.{Run};

use crate::cover::{covering, first_begin};
use crate::run::Run;
use crate::same::Same;
use mrp_types::Memory;
use std::collections::BTreeMap;

/// Parts the run that crosses `at`, so that one begins there.
fn cut_at<T: Same + Drop>(runs: &mut BTreeMap<u64, Run<T>>, at: u64) -> Result<(), Memory>
    requires { IsPlacedFrom 0 runs.old.entries }
    ensures { OnOk result (Cuts at runs.old.entries runs.new.entries) }
{
    let Some((lo, run)) = covering(runs, at) else {
        return Ok(());
    };
    if lo == at {
        return Ok(());
    }
    let head = Run {
        end: at,
        value: run.value.share()?,
    };
    let tail = Run {
        end: run.end,
        value: run.value.share()?,
    };
    runs.insert(lo, head)?;
    runs.insert(at, tail)?;
    Ok(())
}

/// Makes one run of the two that touch at `at`, where they hold one value.
fn join_at<T: Same + Drop>(runs: &mut BTreeMap<u64, Run<T>>, at: u64) -> Result<(), Memory>
    requires { IsPlacedFrom 0 runs.old.entries }
    ensures { OnOk result (Joins at runs.old.entries runs.new.entries) }
{
    if at == 0 {
        return Ok(());
    }
    let Some((lo, left)) = covering(runs, at - 1) else {
        return Ok(());
    };
    let Some(right) = runs.get(&at) else {
        return Ok(());
    };
    if !left.value.same(&right.value) {
        return Ok(());
    }
    let whole = Run {
        end: right.end,
        value: left.value.share()?,
    };
    runs.remove(&at);
    runs.insert(lo, whole)?;
    Ok(())
}

/// Drops the runs that begin in a range.
fn clear_range<T: Drop>(runs: &mut BTreeMap<u64, Run<T>>, lo: u64, hi: u64)
    requires { lo ≤ hi }
    ensures { Clears lo hi runs.old.entries runs.new.entries }
{
    while let Some(first) = first_begin(runs, lo, hi) {
        runs.remove(&first);
    }
}

/// Has a range hold `value`, whatever it held.
fn put<T: Same + Drop>(
    runs: &mut BTreeMap<u64, Run<T>>,
    lo: u64,
    hi: u64,
    value: T,
) -> Result<(), Memory>
    requires maximal { IsMaximal runs.old.entries }
    requires range { lo < hi }
    requires end { hi ≤ 2 ^ 40 }
    ensures { OnOk result (Sets lo hi value runs.old.entries runs.new.entries) }
{
    cut_at(runs, lo)?;
    cut_at(runs, hi)?;
    clear_range(runs, lo, hi);
    runs.insert(lo, Run { end: hi, value })?;
    join_at(runs, lo)?;
    join_at(runs, hi)?;
    Ok(())
}

/// Drops what the runs hold below `floor`.
fn settle<T: Same + Drop>(runs: &mut BTreeMap<u64, Run<T>>, floor: u64) -> Result<(), Memory>
    requires { IsMaximal runs.old.entries }
    ensures { OnOk result (Settles floor runs.old.entries runs.new.entries) }
{
    cut_at(runs, floor)?;
    clear_range(runs, 0, floor);
    Ok(())
}

/// Has a range hold `value`, where the runs are seen from `floor` on. Answers from where they are
/// seen then.
pub fn replace_range<T: Same + Drop>(
    runs: &mut BTreeMap<u64, Run<T>>,
    floor: u64,
    lo: u64,
    hi: u64,
    value: T,
) -> Result<u64, Memory>
    requires maximal { IsMaximal runs.old.entries }
    requires range { lo < hi }
    requires end { hi ≤ 2 ^ 40 }
    ensures { IfOk result (λ next. Replaces floor lo hi value runs.old.entries next runs.new.entries) }
{
    if floor <= lo {
        put(runs, lo, hi, value)?;
        return Ok(floor);
    }
    settle(runs, floor)?;
    put(runs, lo, hi, value)?;
    Ok(0)
}

/// Frees the runs that end at `floor` or before.
pub fn drop_passed<T: Drop>(runs: &mut BTreeMap<u64, Run<T>>, floor: u64)
    requires { IsMaximal runs.old.entries }
    ensures kept { Drops floor runs.old.entries runs.new.entries }
    ensures freed { (a : ℕ) (run : Run T) → run_from runs.new.entries a ≡ Some run → floor < run.end }
{
    while let Some((_, run)) = runs.first_key_value() {
        if floor < run.end {
            break;
        }
        runs.pop_first();
    }
}
