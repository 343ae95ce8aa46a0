//! Ranges of which what is held stays.
ghost use Rattle.std.specs.Prelude.{◌≡◌, ℕ, ◌<◌, ◌≤◌, MatchOption, None, IfOk, OnOk};
ghost use Rattle.range_map.specs.Entries.{value_at, IsIncreasingFrom};
ghost use Rattle.protocol.specs.Learner.{first_of, with_met, is_held};
ghost use Rattle.ring_learner.specs.Filled.{Fills};

use mrp_types::{END, Inst, Memory, Value};
use range_map::{RangeMap, Same};

/// Whether each instance of a range is held.
pub fn holds(held: &RangeMap<Value>, lo: Inst, hi: Inst) -> bool
    requires { IsIncreasingFrom 0 held.now }
    ensures { result ≡ is_held lo hi held.now }
{
    let mut at = lo;
    while at < hi {
        let Some((_, end)) = held.run_at(at) else {
            return false;
        };
        at = end;
    }
    true
}

/// Where nothing is held any more or something is held again, from a gap at `at` on: at `hi` at the latest.
pub fn gap_end<T: Same + Drop>(held: &RangeMap<T>, at: Inst, hi: Inst) -> Inst
    requires gap { value_at at held.now ≡ None }
    requires range { at < hi }
    ensures past { at < result }
    ensures up_to { result ≤ hi }
    ensures bare { (i : ℕ) → at ≤ i → i < result → value_at i held.now ≡ None }
{
    let Some(next) = held.next_after(at) else {
        return hi;
    };
    next.min(hi)
}

/// Passes the run that is held at `at`, or has the gap there hold `value`. Answers where it ends.
fn fill_one(held: &mut RangeMap<Value>, at: Inst, hi: Inst, value: &Value) -> Result<Inst, Memory>
    requires ordered { IsIncreasingFrom 0 held.old }
    requires range { at < hi }
    requires end { hi ≤ END }
    ensures past { IfOk result (λ next. at < next) }
    ensures fills { IfOk result (λ next. Fills first_of value.now at next hi held.old held.new) }
{
    if let Some((_, end)) = held.run_at(at) {
        return Ok(end);
    }
    let end = gap_end(held, at, hi);
    held.set_range(at, end, value.share()?)?;
    Ok(end)
}

/// Has each instance of a range that holds nothing hold `value`.
pub fn fill(held: &mut RangeMap<Value>, lo: Inst, hi: Inst, value: &Value) -> Result<(), Memory>
    requires ordered { IsIncreasingFrom 0 held.old }
    requires end { hi ≤ END }
    ensures { OnOk result (held.new ≡ with_met first_of lo hi value.now held.old) }
{
    let mut at = lo;
    while at < hi {
        at = fill_one(held, at, hi, value)?;
    }
    Ok(())
}
