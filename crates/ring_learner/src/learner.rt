//! The learner of a ring.
ghost use Rattle.std.specs.Prelude.{◌≡◌, ℕ, ◌≤◌, ◌↔◌, [], None, max, MatchOption, IfOk, OnOk, OnErr, IfSome, IsNone};
ghost use Rattle.std.specs.Option.{option_copied};
ghost use Rattle.command_codec.specs.Parts.{IsSpelled};
ghost use Rattle.range_map.specs.Entries.{IsRunRound, IsNextHeld, entries_from};
ghost use Rattle.protocol.specs.Learner.{value_in, is_news, with_range_learned, with_base, lowered, is_held, first_gap, learned_ranges};
ghost use Rattle.protocol.specs.Acceptor.{ranges_page};
ghost use Rattle.ring_learner.specs.Filled.{AreLearned};

use crate::filling::{fill, holds};
use crate::paging::page_of;
use mrp_types::{END, Inst, Memory, Ranges, Value};
use range_map::RangeMap;
use std::alloc::Global;
use std::marker::Model;

/// The values that were learned of a ring, at each instance the first, and the instance below which none is taken.
#[derive(Drop)]
pub struct RingLearner {
    alloc: Global,
    base: Inst,
    held: RangeMap<Value>,
}

impl Model for RingLearner {
    ghost use Rattle.protocol.specs.Parts.{Learner};
    ghost use Rattle.ring_learner.specs.Filled.{AreLearned};

    ghost Value = { Learner };

    ghost view = { λ l. record { base = l.base; held = l.held } };

    ghost invariant = { λ l. AreLearned l.held };
}

impl RingLearner {
    /// Nothing is learned, and nothing below `base` will be.
    pub fn new(alloc: Global, base: Inst) -> RingLearner
        ensures { result ≡ record { base = base; held = [] } }
    {
        RingLearner {
            alloc,
            base,
            held: RangeMap::new(alloc),
        }
    }

    /// Takes the value at each instance of the range that isn't below the base and isn't held; what is held stays.
    /// Answers whether there was such an instance. The cost follows the number of runs that the range meets. After
    /// `Memory` nothing is held any more.
    pub fn learn(&mut self, lo: Inst, hi: Inst, value: &Value) -> Result<bool, Memory>
        requires end { hi ≤ END }
        requires value { IsSpelled value.now }
        ensures news { IfOk result (λ news. news ≡ is_news (record { lo = lo; hi = hi; value = value.now }) self.old) }
        ensures learner { OnOk result (self.new ≡ with_range_learned (record { lo = lo; hi = hi; value = value.now }) self.old) }
        ensures spent { OnErr result (self.new ≡ record { base = self.old.base; held = [] }) }
    {
        let from = lo.max(self.base);
        if holds(&self.held, from, hi) {
            return Ok(false);
        }
        if let Err(memory) = fill(&mut self.held, from, hi, value) {
            self.held = RangeMap::new(self.alloc);
            return Err(memory);
        }
        Ok(true)
    }

    /// Makes the base the lesser of the two; what is held stays.
    pub fn lower(&mut self, base: Inst)
        ensures { self.new ≡ lowered base self.old }
    {
        self.base = self.base.min(base);
    }

    /// What was learned at an instance; `None` where nothing is held.
    pub fn at(&self, i: Inst) -> Option<&Value>
        ensures value { option_copied result ≡ value_in self.now i }
        ensures learned { AreLearned self.now.held }
    {
        self.held.get(i)
    }

    /// The longest range round `i` of instances that hold what `i` holds, as its first instance and the first one past
    /// it; `None` where `i` holds nothing.
    pub fn run_at(&self, i: Inst) -> Option<(Inst, Inst)>
        ensures none { IsNone result ↔ (value_in self.now i ≡ None) }
        ensures run { IfSome result (λ run. IsRunRound self.now.held i run.0 run.1) }
        ensures learned { AreLearned self.now.held }
    {
        self.held.run_at(i)
    }

    /// Whether each instance from `lo` on and below `hi` is held. The cost follows the number of runs in the range.
    pub fn holds(&self, lo: Inst, hi: Inst) -> bool
        ensures held { result ≡ is_held lo hi self.now.held }
        ensures learned { AreLearned self.now.held }
    {
        holds(&self.held, lo, hi)
    }

    /// The first instance from `from` on that isn't held; that may be the end of all instances.
    pub fn first_gap(&self, from: Inst) -> Inst
        ensures gap { result ≡ first_gap from self.now.held }
        ensures learned { AreLearned self.now.held }
    {
        self.held.next_gap(from)
    }

    /// The first instance from `from` on that is held; `None` where none is.
    pub fn first_held(&self, from: Inst) -> Option<Inst>
        ensures held { MatchOption result ((i : ℕ) → from ≤ i → value_in self.now i ≡ None) (λ next. IsNextHeld self.now.held from next) }
        ensures learned { AreLearned self.now.held }
    {
        self.held.next_after(from)
    }

    /// Drops what is held below an instance, and makes the base the greater of the two.
    pub fn drop_below(&mut self, i: Inst)
        ensures { self.new ≡ with_base i self.old }
    {
        self.base = self.base.max(i);
        self.held.cut_below(i);
    }

    /// What is held from `lo` on as maximal ranges: neighbours of Skip are one, a batch has a range of its own. Their
    /// longest front whose spellings take at most 24,576 bytes.
    pub fn page(&self, lo: Inst) -> Result<Ranges, Memory>
        ensures { IfOk result (λ page. page ≡ ranges_page (learned_ranges (entries_from lo self.now.held))) }
    {
        page_of(self.alloc, &self.held, lo)
    }
}
