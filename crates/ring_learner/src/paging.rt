//! Pages of what is held.
ghost use Rattle.std.specs.Prelude.{◌≡◌, ◌<◌, [], ◌∷◌, MatchOption, IfOk};
ghost use Rattle.command_codec.specs.Parts.{IsSpelled};
ghost use Rattle.range_map.specs.Entries.{entries_from};
ghost use Rattle.protocol.specs.Learner.{learned_ranges};
ghost use Rattle.protocol.specs.Acceptor.{ranges_page};
ghost use Rattle.ring_learner.specs.Filled.{AreLearned};

use frames::decided_size;
use mrp_types::{Decided, Inst, Memory, Ranges, Value};
use range_map::RangeMap;
use std::alloc::Global;

/// How many bytes the ranges of a page may take.
const PAGE_ROOM: usize = 24_576;

/// The first of the maximal ranges of what is held from `from` on; `None` where nothing is.
fn next_range(held: &RangeMap<Value>, from: Inst) -> Result<Option<Decided>, Memory>
    requires { AreLearned held.now }
    ensures { IfOk result (λ next. MatchOption next
        (learned_ranges (entries_from from held.now) ≡ [])
        (λ range. (from < range.hi) × IsSpelled range.value × (learned_ranges (entries_from from held.now) ≡ range ∷ learned_ranges (entries_from range.hi held.now)))) }
{
    let Some((lo, end, value)) = held.first_run(from) else {
        return Ok(None);
    };
    let hi = match value {
        Value::Skip => end,
        Value::Batch(_) => lo + 1,
    };
    let value = value.share()?;
    Ok(Some(Decided { lo, hi, value }))
}

/// The longest front of these ranges from `lo` on that has room in a page.
pub fn page_of(alloc: Global, held: &RangeMap<Value>, lo: Inst) -> Result<Ranges, Memory>
    requires { AreLearned held.now }
    ensures { IfOk result (λ page. page ≡ ranges_page (learned_ranges (entries_from lo held.now))) }
{
    let mut page = Ranges::new(alloc);
    let mut room = PAGE_ROOM;
    let mut at = lo;
    while let Some(range) = next_range(held, at)? {
        let size = decided_size(&range);
        if room < size {
            return Ok(page);
        }
        room -= size;
        at = range.hi;
        page.push(range)?;
    }
    Ok(page)
}
