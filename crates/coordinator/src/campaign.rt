//! A ballot that was started.
ghost use Rattle.std.specs.Prelude.{◌≡◌, ℕ, ◌+◌, ◌<◌, ◌≤◌, ◌^◌, ◌/◌, ◌++◌, ◌∷◌, [], suc, nat_le, nat_lt, min, max, length, not, ◌||◌, Option, List, None, Some, false, IfOk, IfSome, OnOk, OnErr, slice_index};
ghost use Rattle.std.specs.List.{AllByRecursion};
ghost use Rattle.mrp_types.specs.Entries.{IsEntry};
ghost use Rattle.range_map.specs.Entries.{value_at, IsIncreasingFrom};
ghost use Rattle.vote_state.specs.Valid.{IsVoted};
ghost use Rattle.mrp_types.specs.declared.voted.Decided.{Decided};
ghost use Rattle.vote_state.specs.declared.change.Change.{Change};
ghost use Rattle.frames.specs.declared.sent.Sent.{Sent};
ghost use Rattle.ring_link.specs.Silence.{Link};
ghost use Rattle.skip_leveller.specs.Levelling.{answer_of};
ghost use Rattle.protocol.specs.Parts.{Ring, Part, Effects};
ghost use Rattle.protocol.specs.Learner.{first_gap, still_pending, unfinished};
ghost use Rattle.protocol.specs.Ballots.{reached_by, with_page};
ghost use Rattle.protocol.specs.Coordinator.{is_pending, most_pending, with_pending};
ghost use Rattle.protocol.specs.Proposing.{due_by, reported_to, run_within, gaps_to, fresh_choice, fresh_entries, unproposed, choice, with_outstanding, with_proposed, with_fresh, after_offer, vote_of, offers, proposes_after};
ghost use Rattle.protocol.specs.Leading.{levels_by, with_tick_taken};
ghost use Rattle.ring_view.specs.Views.{IsViewOf};
ghost use Rattle.ring_learner.specs.Filled.{AreLearned};
ghost use Rattle.coordinator.specs.Offers.{IsWithin, IsSeated, choice_from, end_of, Behind, Made};

use crate::asking::own_mask;
use crate::covered::covered_to;
use crate::queue::Queue;
use crate::reports::Reports;
use command_codec::write_batch;
use frames::Frames;
use mrp_types::{
    Ballot, ClientId, Decided, END, Entry, Inst, Memory, Ranges, RingView, Value, Voted,
};
use ring_learner::RingLearner;
use ring_view::pass_vote;
use skip_leveller::Leveller;
use std::alloc::Global;
use std::marker::Model;
use vote_state::{Change, Changes};

/// How many instances a run of due Skips has at most.
const LONGEST_RUN: u64 = 65_536;

/// What is proposed next.
#[derive(Drop)]
pub struct Offer {
    pub range: Decided,
    /// How many of the waiting commands a fresh batch has; 0 for any other value.
    pub taken: usize,
}

/// A ballot that its coordinator started.
#[derive(Drop)]
pub struct Campaign {
    alloc: Global,
    ballot: Ballot,
    /// The next instance to be proposed at.
    next: Inst,
    /// For each position, up to where its acceptor's votes are reported.
    covered: Vec<Inst>,
    reports: Reports,
    /// The proposals of which an instance is neither learned nor trimmed, in order.
    outstanding: Vec<Decided>,
    queue: Queue,
    leveller: Leveller,
}

impl Model for Campaign {
    ghost use Rattle.std.specs.List.{AllByRecursion};
    ghost use Rattle.protocol.specs.Parts as parts;
    ghost use Rattle.coordinator.specs.Offers.{IsWithin};

    ghost Value = { parts.Campaign };

    ghost view = { λ c. record { ballot = c.ballot; next = c.next; covered = c.covered.items; reports = c.reports; outstanding = c.outstanding.items; pending = c.queue; leveller = c.leveller } };

    ghost invariant = { λ c. AllByRecursion IsWithin c.covered.items };
}

impl Campaign {
    /// A ballot of which nothing is proposed and for which nothing waits.
    pub fn new(
        alloc: Global,
        ballot: Ballot,
        next: Inst,
        covered: Vec<Inst>,
        reports: Reports,
        leveller: Leveller,
    ) -> Campaign
        requires { AllByRecursion IsWithin covered.items }
        ensures { result ≡ record { ballot = ballot; next = next; covered = covered.items; reports = reports; outstanding = []; pending = []; leveller = leveller } }
    {
        Campaign {
            alloc,
            ballot,
            next,
            covered,
            reports,
            outstanding: Vec::new(alloc),
            queue: Queue::new(alloc),
            leveller,
        }
    }

    pub fn ballot(&self) -> Ballot
        ensures { result ≡ self.now.ballot }
    {
        self.ballot
    }

    pub fn next(&self) -> Inst
        ensures { result ≡ self.now.next }
    {
        self.next
    }

    /// For each position, up to where it is covered.
    pub fn covered(&self) -> &[Inst]
        ensures { result.now ≡ self.now.covered }
    {
        self.covered.as_slice()
    }

    /// The proposals that aren't finished, in order.
    pub fn outstanding(&self) -> &[Decided]
        ensures { result.now ≡ self.now.outstanding }
    {
        self.outstanding.as_slice()
    }

    /// Up to where a majority is covered.
    #[tactic(auto, using(crate::proofs::Covering::reached_within))]
    fn covered_to(&self) -> Inst
        ensures reached { result ≡ reached_by (length self.now.covered / 2 + 1) self.now.covered self.now.covered }
        ensures within { result ≤ 2 ^ 40 }
    {
        covered_to(self.covered.as_slice())
    }

    /// Whether a majority is covered to the end of all instances.
    pub fn leads(&self) -> bool
        ensures { result ≡ nat_le END (reached_by (length self.now.covered / 2 + 1) self.now.covered self.now.covered) }
    {
        END <= self.covered_to()
    }

    // ---- what comes to it

    /// Takes the votes of a position from where it is covered on; it is covered to `hi` then. After `Memory` the ballot is
    /// spent.
    pub fn report(&mut self, position: usize, hi: Inst, votes: &[Voted]) -> Result<(), Memory>
        requires seat { position < length self.old.covered }
        requires end { hi ≤ END }
        requires votes { AllByRecursion IsVoted votes.now }
        ensures { OnOk result (self.new ≡ with_page position (slice_index self.old.covered position) (record { ballot = self.old.ballot; lo = 0; hi = hi; votes = votes.now }) self.old) }
    {
        self.reports.add(self.covered[position], votes)?;
        self.covered[position] = hi;
        Ok(())
    }

    /// Whether the command of this client and number waits.
    pub fn has(&self, client: ClientId, seq: u64) -> bool
        ensures { (command : List ℕ) → result ≡ is_pending (record { client = client; seq = seq; command = command }) self.now.pending }
    {
        self.queue.has(client, seq)
    }

    /// Whether as many commands wait as may.
    pub fn is_full(&self) -> bool
        ensures { result ≡ nat_le most_pending (length self.now.pending) }
    {
        self.queue.is_full()
    }

    /// Has a command wait that doesn't yet. Without memory nothing is changed.
    pub fn push(&mut self, entry: Entry) -> Result<(), Memory>
        requires entry { IsEntry entry }
        requires new { is_pending entry self.old.pending ≡ false }
        ensures ok { OnOk result (self.new ≡ with_pending entry self.old) }
        ensures err { OnErr result (self.new ≡ self.old) }
    {
        self.queue.push(entry)
    }

    /// Drops the commands that wait and are among these. Without memory nothing is changed.
    pub fn take_out(&mut self, entries: &[Entry]) -> Result<(), Memory>
        ensures ok { OnOk result (self.new ≡ record self.old { pending = still_pending entries.now self.old.pending }) }
        ensures err { OnErr result (self.new ≡ self.old) }
    {
        self.queue.take_out(entries)
    }

    /// Drops the proposals of which each instance is learned or below the trim.
    pub fn drop_finished(&mut self, trim: Inst, learner: &RingLearner)
        ensures { self.new ≡ record self.old { outstanding = unfinished trim learner.now.held self.old.outstanding } }
    {
        retain_unfinished(&mut self.outstanding, trim, learner);
    }

    // ---- what is proposed

    /// Whether fewer proposals than the window are outstanding.
    fn has_room(&self, window: u8) -> bool
        ensures { result ≡ nat_lt (length self.now.outstanding) window }
    {
        self.outstanding.len() < usize::from(window)
    }

    /// The next instance rises to the trim and passes over what is learned.
    fn advance(&mut self, trim: Inst, learner: &RingLearner)
        ensures learned { AreLearned learner.now.held }
        ensures unlearned { value_at self.new.next learner.now.held ≡ None }
        ensures risen { self.old.next ≤ self.new.next }
        ensures next { self.new ≡ record self.old { next = first_gap (max self.old.next trim) learner.now.held } }
    {
        self.next = learner.first_gap(self.next.max(trim));
    }

    /// The due value at the next instance; `None` where a fresh one is due.
    fn due(&self, leads: bool) -> Result<Option<Value>, Memory>
        requires { self.now.next < END }
        ensures ordered { IsIncreasingFrom 0 self.now.reports }
        ensures due { IfOk result (λ due. due ≡ due_by (value_at self.now.next self.now.reports) (not leads || nat_lt (suc self.now.next) (reported_to self.now.reports))) }
    {
        if let Some(report) = self.reports.at(self.next) {
            return Ok(Some(report.value.share()?));
        }
        if !leads || self.next + 1 < self.reports.end() {
            return Ok(Some(Value::Skip));
        }
        Ok(None)
    }

    /// Up to where Skip can be due without a report.
    fn gaps_to(&self, covered: Inst) -> Inst
        ensures { result ≡ gaps_to (nat_le END covered) (reported_to self.now.reports) covered }
    {
        if END <= covered {
            return self.reports.end().min(covered);
        }
        covered
    }

    /// Where the run of due Skips from the next instance on ends.
    #[tactic(auto, using(crate::proofs::Reporting::learned_found, crate::proofs::Reporting::none_found))]
    fn run_end(&self, covered: Inst, learner: &RingLearner) -> Inst
        requires { self.now.next < END }
        ensures { result ≡ run_within self.now.next (min (self.now.next + 65536) (gaps_to (nat_le END covered) (reported_to self.now.reports) covered)) self.now learner.now.held }
    {
        let bound = self.gaps_to(covered).min(self.next + LONGEST_RUN);
        let end = self.reports.first_batch(self.next, bound);
        match learner.first_held(self.next) {
            Some(held) => held.min(end),
            None => end,
        }
    }

    /// A fresh batch of the waiting commands; `None` where none waits that isn't proposed.
    fn fresh(&self) -> Result<Option<Offer>, Memory>
        requires { self.now.next < END }
        ensures chosen { IfOk result (λ offer. choice_from offer ≡ fresh_choice self.now.next (fresh_entries self.now.pending)) }
        ensures taken { IfOk result (λ offer. IfSome offer (λ o. o.taken ≤ length (unproposed self.now.pending))) }
        ensures past { IfOk result (λ offer. IfSome offer (λ o. self.now.next < o.range.hi)) }
    {
        let entries = self.queue.fresh()?;
        if entries.is_empty() {
            return Ok(None);
        }
        let value = Value::Batch(write_batch(self.alloc, entries.items())?);
        let range = Decided {
            lo: self.next,
            hi: self.next + 1,
            value,
        };
        Ok(Some(Offer {
            range,
            taken: entries.len(),
        }))
    }

    /// The offer of a due value.
    fn offer_of(&self, covered: Inst, learner: &RingLearner, value: Value) -> Offer
        requires { self.now.next < END }
        ensures value { result.range.value ≡ value }
        ensures begin { result.range.lo ≡ self.now.next }
        ensures taken { result.taken ≡ 0 }
        ensures end { result.range.hi ≡ end_of self.now.next (run_within self.now.next (min (self.now.next + 65536) (gaps_to (nat_le END covered) (reported_to self.now.reports) covered)) self.now learner.now.held) value }
    {
        let hi = match &value {
            Value::Skip => self.run_end(covered, learner),
            Value::Batch(_) => self.next + 1,
        };
        let range = Decided {
            lo: self.next,
            hi,
            value,
        };
        Offer { range, taken: 0 }
    }

    /// What is proposed at the next instance, while there is room and a majority is covered past it.
    fn choose(&self, window: u8, learner: &RingLearner) -> Result<Option<Offer>, Memory>
        requires learned { AreLearned learner.now.held }
        requires unlearned { value_at self.now.next learner.now.held ≡ None }
        ensures chosen { IfOk result (λ offer. (ring : Ring) → IsSeated ring window self.now → choice_from offer ≡ choice ring self.now learner.now.held) }
        ensures range { IfOk result (λ offer. IfSome offer (λ o. (self.now.next < o.range.hi) × (self.now.next < END))) }
        ensures taken { IfOk result (λ offer. IfSome offer (λ o. o.taken ≤ length (unproposed self.now.pending))) }
    {
        if !self.has_room(window) {
            return Ok(None);
        }
        let covered = self.covered_to();
        if covered <= self.next {
            return Ok(None);
        }
        let Some(value) = self.due(END <= covered)? else {
            return self.fresh();
        };
        Ok(Some(self.offer_of(covered, learner, value)))
    }

    /// In a ring of one acceptor a proposal is never outstanding.
    fn keep(&mut self, acceptors: u8, range: &Decided) -> Result<(), Memory>
        ensures kept { OnOk result ((ring : Ring) → acceptors ≡ length ring.acceptors → self.new ≡ record self.old { outstanding = with_outstanding ring range.now self.old.outstanding }) }
        ensures next { OnOk result (self.new.next ≡ self.old.next) }
        ensures pending { OnOk result (self.new.pending ≡ self.old.pending) }
    {
        if acceptors <= 1 {
            return Ok(());
        }
        self.outstanding.push(share(range)?)?;
        Ok(())
    }

    /// A fresh batch has this many of the waiting commands; any other value has none.
    #[tactic(auto, using(crate::proofs::Counting::none_proposed, crate::proofs::Counting::one_started))]
    fn spend(&mut self, taken: usize)
        requires { taken ≤ length (unproposed self.old.pending) }
        ensures { self.new ≡ record self.old { pending = with_proposed taken self.old.pending; leveller = with_fresh taken self.old.leveller } }
    {
        if taken == 0 {
            return;
        }
        self.queue.propose(taken);
        self.leveller.started(1);
    }

    /// After a proposal the next instance passes its range.
    fn count(&mut self, acceptors: u8, offer: &Offer) -> Result<(), Memory>
        requires { offer.now.taken ≤ length (unproposed self.old.pending) }
        ensures counted { OnOk result ((ring : Ring) → acceptors ≡ length ring.acceptors → self.new ≡ after_offer ring offer.now.range offer.now.taken self.old) }
        ensures passed { OnOk result (self.new.next ≡ offer.now.range.hi) }
    {
        self.keep(acceptors, &offer.range)?;
        self.spend(offer.taken);
        self.next = offer.range.hi;
        Ok(())
    }

    /// A proposal: the own vote, then Accept with the own bit to the next acceptor.
    fn offer(
        &mut self,
        view: &RingView,
        offer: Offer,
        changes: &mut Changes,
        out: &mut Frames,
        learned: &mut Ranges,
    ) -> Result<(), Memory>
        requires { offer.taken ≤ length (unproposed self.old.pending) }
        ensures made { OnOk result ((ring : Ring) (link : Link) (effects : Effects) (changes_before : List Change) (frames_before : List Sent) (learned_before : List Decided) → IsViewOf view.now ring link
            → Behind effects changes_before changes.old frames_before out.old learned_before learned.old
            → Made (offers ring link self.old offer.range offer.taken effects) self.new changes_before changes.new frames_before out.new learned_before learned.new) }
        ensures counted { OnOk result ((ring : Ring) → length view.now.acceptors ≡ length ring.acceptors → self.new ≡ after_offer ring offer.range offer.taken self.old) }
        ensures passed { OnOk result (self.new.next ≡ offer.range.hi) }
    {
        let ballot = self.ballot;
        self.count(view.acceptors.len(), &offer)?;
        let range = offer.range;
        let recorded = voted(ballot, &range)?;
        changes.push(Change::Vote(view.ring, recorded))?;
        let vote = voted(ballot, &range)?;
        let decided = pass_vote(view, vote, own_mask(view), out)?;
        if !decided {
            return Ok(());
        }
        learned.push(range)
    }

    /// Proposes as long as something is due. After `Memory` the lists are spent.
    pub fn propose(
        &mut self,
        view: &RingView,
        window: u8,
        trim: Inst,
        learner: &RingLearner,
        changes: &mut Changes,
        out: &mut Frames,
        learned: &mut Ranges,
    ) -> Result<(), Memory>
        ensures { OnOk result ((ring : Ring) (link : Link) (effects : Effects) (changes_before : List Change) (frames_before : List Sent) (learned_before : List Decided) → IsViewOf view.now ring link
            → IsSeated ring window self.old → effects.part.kept.trim ≡ trim → effects.part.learner.held ≡ learner.now.held
            → Made effects self.old changes_before changes.old frames_before out.old learned_before learned.old
            → Made (proposes_after ring link effects) self.new changes_before changes.new frames_before out.new learned_before learned.new) }
    {
        self.advance(trim, learner);
        while let Some(offer) = self.choose(window, learner)? {
            self.offer(view, offer, changes, out, learned)?;
            self.advance(trim, learner);
        }
        Ok(())
    }

    /// One tick of the leveller: Skip for the instances that are missing, where it says so and there is room. After
    /// `Memory` the lists are spent.
    pub fn level(
        &mut self,
        view: &RingView,
        window: u8,
        trim: Inst,
        learner: &RingLearner,
        changes: &mut Changes,
        out: &mut Frames,
        learned: &mut Ranges,
    ) -> Result<(), Memory>
        ensures { OnOk result ((ring : Ring) (link : Link) (part : Part) → IsViewOf view.now ring link
            → IsSeated ring window self.old → part.kept.trim ≡ trim → part.learner.held ≡ learner.now.held
            → Made (levels_by ring link part (with_tick_taken self.old) (answer_of self.old.leveller)) self.new changes.old changes.new out.old out.new learned.old learned.new) }
    {
        let Some(missing) = self.leveller.tick() else {
            return Ok(());
        };
        if !self.has_room(window) || END <= self.next {
            return Ok(());
        }
        let range = Decided {
            lo: self.next,
            hi: END.min(self.next + missing),
            value: Value::Skip,
        };
        self.offer(view, Offer { range, taken: 0 }, changes, out, learned)?;
        self.propose(view, window, trim, learner, changes, out, learned)
    }
}

/// Drops the proposals of which each instance is learned or below the trim.
fn retain_unfinished(outstanding: &mut Vec<Decided>, trim: Inst, learner: &RingLearner)
    ensures { outstanding.new.items ≡ unfinished trim learner.now.held outstanding.old.items }
{
    outstanding.retain(|range| !learner.holds(trim.max(range.lo), range.hi));
}

/// An equal range, whose value is shared.
fn share(range: &Decided) -> Result<Decided, Memory>
    ensures { IfOk result (λ shared. shared ≡ range.now) }
{
    Ok(Decided {
        lo: range.lo,
        hi: range.hi,
        value: range.value.share()?,
    })
}

/// The vote of a ballot for a range.
fn voted(ballot: Ballot, range: &Decided) -> Result<Voted, Memory>
    ensures { IfOk result (λ vote. vote ≡ vote_of ballot range.now) }
{
    Ok(Voted {
        lo: range.lo,
        hi: range.hi,
        ballot,
        value: range.value.share()?,
    })
}
