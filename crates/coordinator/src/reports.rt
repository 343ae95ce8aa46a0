//! The votes that acceptors report to a ballot.
ghost use Rattle.std.specs.Prelude.{◌≡◌, ℕ, ◌<◌, ◌≤◌, ◌^◌, max, nat_lt, if◌then◌else◌, true, false, Some, [], OnOk, IfOk};
ghost use Rattle.std.specs.Option.{option_copied};
ghost use Rattle.std.specs.List.{AllByRecursion};
ghost use Rattle.range_map.specs.Entries.{value_at, IsIncreasingFrom};
ghost use Rattle.vote_state.specs.Ranges.{cast_of};
ghost use Rattle.vote_state.specs.Valid.{IsVoted};
ghost use Rattle.protocol.specs.Learner.{with_met};
ghost use Rattle.protocol.specs.Ballots.{higher, with_reports};
ghost use Rattle.protocol.specs.Proposing.{reported_to, first_where, is_batch};
ghost use Rattle.ring_learner.specs.Filled.{Fills};

use mrp_types::{Ballot, Inst, Memory, Value, Voted};
use range_map::{RangeMap, Same};
use ring_learner::gap_end;
use std::alloc::Global;
use std::marker::Model;

/// What is reported at an instance.
#[derive(Drop)]
pub struct Report {
    pub ballot: Ballot,
    pub value: Value,
}

impl Model for Report {
    ghost use Rattle.vote_state.specs.declared.cast.Cast.{Cast};

    ghost Value = { Cast };

    ghost view = { λ r. record { ballot = r.ballot; value = r.value } };
}

impl Report {
    /// What a vote reports at each instance of its range.
    fn of(vote: &Voted) -> Result<Report, Memory>
        ensures { IfOk result (λ report. report ≡ cast_of vote.now) }
    {
        Ok(Report {
            ballot: vote.ballot,
            value: vote.value.share()?,
        })
    }
}

impl Same for Report {
    fn same(&self, other: &Self) -> bool {
        self.ballot == other.ballot && self.value.same(&other.value)
    }

    fn share(&self) -> Result<Self, Memory> {
        Ok(Report {
            ballot: self.ballot,
            value: self.value.share()?,
        })
    }
}

/// The reported vote of the highest ballot at each instance.
#[derive(Drop)]
pub struct Reports {
    alloc: Global,
    casts: RangeMap<Report>,
    /// The first instance past all of them.
    end: Inst,
}

impl Model for Reports {
    ghost use Rattle.std.specs.Prelude.{◌≡◌, ℕ, List};
    ghost use Rattle.range_map.specs.Entries.{IsIncreasingFrom};
    ghost use Rattle.vote_state.specs.declared.cast.Cast.{Cast};
    ghost use Rattle.protocol.specs.Proposing.{reported_to};

    ghost Value = { List (ℕ × Cast) };

    ghost view = { λ r. r.casts };

    ghost invariant = { λ r. (r.end ≡ reported_to r.casts) × IsIncreasingFrom 0 r.casts };
}

impl Reports {
    /// Nothing is reported.
    pub fn new(alloc: Global) -> Reports
        ensures { result ≡ [] }
    {
        Reports {
            alloc,
            casts: RangeMap::new(alloc),
            end: 0,
        }
    }

    /// What is reported at an instance.
    pub fn at(&self, inst: Inst) -> Option<&Report>
        ensures value { option_copied result ≡ value_at inst self.now }
        ensures ordered { IsIncreasingFrom 0 self.now }
    {
        self.casts.get(inst)
    }

    /// The first instance past all reports.
    pub fn end(&self) -> Inst
        ensures { result ≡ reported_to self.now }
    {
        self.end
    }

    /// The first instance from `from` on and below `bound` at which a batch is reported, else `bound`. The cost follows
    /// the number of runs in between.
    #[tactic(auto, using(crate::proofs::Reporting::batch_found, crate::proofs::Reporting::skips_passed, crate::proofs::Reporting::none_found, crate::proofs::Reporting::first_past))]
    pub fn first_batch(&self, from: Inst, bound: Inst) -> Inst
        ensures { result ≡ first_where is_batch from bound self.now }
    {
        let mut at = from;
        while at < bound {
            let Some((lo, hi, cast)) = self.casts.first_run(at) else {
                return bound;
            };
            match cast.value {
                Value::Batch(_) => return lo.min(bound),
                Value::Skip => at = hi,
            }
        }
        bound
    }

    /// Takes votes from an instance on, one after another: at each instance the one of the higher ballot stands. After
    /// `Memory` nothing is reported any more.
    pub fn add(&mut self, from: Inst, votes: &[Voted]) -> Result<(), Memory>
        requires { AllByRecursion IsVoted votes.now }
        ensures { OnOk result (self.new ≡ with_reports from votes.now self.old) }
    {
        for vote in votes {
            self.add_one(vote.lo.max(from), vote)?;
        }
        Ok(())
    }

    #[tactic(auto, using(crate::proofs::Reporting::reports_end))]
    fn add_one(&mut self, lo: Inst, vote: &Voted) -> Result<(), Memory>
        requires { vote.now.hi ≤ 2 ^ 40 }
        ensures { OnOk result (self.new ≡ with_met higher lo vote.now.hi (cast_of vote.now) self.old) }
    {
        if let Err(memory) = raise(&mut self.casts, lo, vote) {
            self.casts = RangeMap::new(self.alloc);
            self.end = 0;
            return Err(memory);
        }
        self.end = end_after(self.end, lo, vote.hi);
        Ok(())
    }
}

/// Where all reports end once a range is reported that isn't empty.
fn end_after(end: Inst, lo: Inst, hi: Inst) -> Inst
    ensures { result ≡ (if nat_lt lo hi then max end hi else end) }
{
    if lo < hi {
        return end.max(hi);
    }
    end
}

/// Whether nothing or a vote of a lower ballot is reported at an instance.
#[tactic(auto, using(crate::proofs::Reporting::lower_gives_way, crate::proofs::Reporting::none_gives_way, crate::proofs::Reporting::higher_stays))]
fn is_lower(casts: &RangeMap<Report>, at: Inst, vote: &Voted) -> bool
    ensures raised { result ≡ true → higher (value_at at casts.now) (cast_of vote.now) ≡ cast_of vote.now }
    ensures stays { result ≡ false → value_at at casts.now ≡ Some (higher (value_at at casts.now) (cast_of vote.now)) }
{
    match casts.get(at) {
        Some(report) => report.ballot < vote.ballot,
        None => true,
    }
}

/// Where what is reported at an instance ends, or the gap there, at `hi` at the latest.
fn piece_end(casts: &RangeMap<Report>, at: Inst, hi: Inst) -> Inst
    requires { at < hi }
    ensures past { at < result }
    ensures up_to { result ≤ hi }
    ensures equal { (i : ℕ) → at ≤ i → i < result → value_at i casts.now ≡ value_at at casts.now }
{
    let Some((_, end)) = casts.run_at(at) else {
        return gap_end(casts, at, hi);
    };
    end.min(hi)
}

/// Passes what is reported at `at`, or has the vote stand there. Answers where it ends.
#[tactic(auto, using(ring_learner::proofs::FilledLemmas::piece_passed, ring_learner::proofs::FilledLemmas::piece_set))]
fn raise_one(casts: &mut RangeMap<Report>, at: Inst, vote: &Voted) -> Result<Inst, Memory>
    requires ordered { IsIncreasingFrom 0 casts.old }
    requires range { at < vote.now.hi }
    requires end { vote.now.hi ≤ 2 ^ 40 }
    ensures past { IfOk result (λ next. at < next) }
    ensures fills { IfOk result (λ next. Fills higher (cast_of vote.now) at next vote.now.hi casts.old casts.new) }
{
    let end = piece_end(casts, at, vote.hi);
    if !is_lower(casts, at, vote) {
        return Ok(end);
    }
    casts.set_range(at, end, Report::of(vote)?)?;
    Ok(end)
}

/// Has the vote stand from `lo` on at each instance of its range where none of its ballot or a higher one is reported.
fn raise(casts: &mut RangeMap<Report>, lo: Inst, vote: &Voted) -> Result<(), Memory>
    requires ordered { IsIncreasingFrom 0 casts.old }
    requires end { vote.now.hi ≤ 2 ^ 40 }
    ensures raised { OnOk result (casts.new ≡ with_met higher lo vote.now.hi (cast_of vote.now) casts.old) }
    ensures ordered { OnOk result (IsIncreasingFrom 0 casts.new) }
{
    let mut at = lo;
    while at < vote.hi {
        at = raise_one(casts, at, vote)?;
    }
    Ok(())
}
