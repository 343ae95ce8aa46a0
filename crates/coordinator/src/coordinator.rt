//! The coordinator of a ring.
ghost use Rattle.std.specs.Prelude.{◌≡◌, ◌≢◌, ◌↔◌, ℕ, ◌<◌, ◌≤◌, ◌^◌, ◌++◌, List, max, nat_lt, nat_le, length, slice_index, Some, Ok, Err, true, false, if◌then◌else◌, IfOk, OnOk, OnErr, MatchOption};
ghost use Rattle.std.specs.List.{AllByRecursion};
ghost use Rattle.mrp_types.specs.Entries.{IsEntry};
ghost use Rattle.command_codec.specs.Parts.{IsSpelled};
ghost use Rattle.plain_model.specs.Fold.{entries_of_value};
ghost use Rattle.mrp_types.specs.declared.voted.Voted.{Voted};
ghost use Rattle.range_map.specs.Entries.{entries_from};
ghost use Rattle.vote_state.specs.declared.ring.RingState.{RingState};
ghost use Rattle.vote_state.specs.State.{IsState, trim_at, votes_at, trim_by, trim_after};
ghost use Rattle.vote_state.specs.Valid.{IsVoted};
ghost use Rattle.ring_link.specs.Silence.{Link};
ghost use Rattle.protocol.specs.Parts.{Ring, Campaign, Active, Part};
ghost use Rattle.protocol.specs.Rings.{position_of};
ghost use Rattle.protocol.specs.Effects.{no_effects};
ghost use Rattle.protocol.specs.Learner.{idle, role_unfinished, role_without};
ghost use Rattle.protocol.specs.Acceptor.{promises, idle_below};
ghost use Rattle.protocol.specs.Ballots.{is_active, role_leads, greatest_seen, own_ballot, least_above, new_campaign, campaigns, reported, covered_at_start, counts};
ghost use Rattle.protocol.specs.Coordinator.{refused, is_pending, most_pending, with_pending};
ghost use Rattle.protocol.specs.Proposing.{proposes};
ghost use Rattle.protocol.specs.Leading.{resends, levels};
ghost use Rattle.ring_view.specs.Kept.{OnlyRaises};
ghost use Rattle.ring_view.specs.Views.{IsViewOf, Shows};
ghost use Rattle.coordinator.specs.Standing.{led_in, with_table, role_next, Leads, Begins, Makes};
ghost use Rattle.coordinator.specs.Offers.{IsWithin};
ghost use Rattle.coordinator.specs.declared.coordinator.SubmitFault.TheVariants.{NotLeading, QueueFull};

use crate::asking::{accept_again, prepare, prepare_again, prepare_others};
use crate::campaign::Campaign;
use crate::reports::Reports;
use command_codec::{Entries, read_batch};
use frames::Frames;
use mrp_types::{
    Ballot, ClientId, END, Entry, Inst, Memory, NodeId, Octets, Ranges, RingId, RingView, Value,
    Voted,
};
use ring_learner::RingLearner;
use skip_leveller::Leveller;
use std::alloc::Global;
use std::marker::Model;
use vote_state::{Change, Changes, Durable};

/// No ballot is started from here on.
const BALLOTS: Ballot = 1 << 48;

/// Why a command isn't taken.
#[derive(Debug, Drop)]
pub enum SubmitFault {
    /// No ballot of this coordinator is covered to the end of all instances by a majority.
    NotLeading,
    /// 1,024 commands wait, and this one isn't among them.
    QueueFull,
    /// There was no memory; nothing was changed.
    Memory,
}

/// The coordinator of a ring: Idle, or Active with a ballot. A coordinator is for one ring, one own node and the same
/// acceptors at each call.
#[derive(Drop)]
pub struct Coordinator {
    alloc: Global,
    window: u8,
    lambda: u16,
    delta: u16,
    top: Ballot,
    campaign: Option<Campaign>,
}

impl Model for Coordinator {
    ghost use Rattle.coordinator.specs.Standing.{Led, role_of};

    ghost Value = { Led };

    ghost view = { λ c. record { window = c.window; lambda = c.lambda; delta = c.delta; table = record { top = c.top; role = role_of c.campaign } } };
}

impl Coordinator {
    /// An Idle coordinator that saw no Refuse. `window` is how many proposals may be outstanding, `lambda` and `delta` are
    /// those of the leveller.
    pub fn idle(alloc: Global, window: u8, lambda: u16, delta: u16) -> Coordinator
        ensures { result ≡ record { window = window; lambda = lambda; delta = delta; table = idle } }
    {
        Coordinator {
            alloc,
            window,
            lambda,
            delta,
            top: 0,
            campaign: None,
        }
    }

    /// Whether a majority is covered to the end of all instances in its ballot.
    pub fn leads(&self) -> bool
        ensures { (ring : Ring) (part : Part) → Leads self.now ring part → result ≡ role_leads ring part.coordinator.role }
    {
        match &self.campaign {
            Some(campaign) => campaign.leads(),
            None => false,
        }
    }

    /// The greatest ballot seen in a Refuse.
    pub fn top(&self) -> Ballot
        ensures { result ≡ self.now.table.top }
    {
        self.top
    }

    /// Whether it isn't Idle.
    pub fn is_active(&self) -> bool
        ensures { result ≡ is_active self.now.table }
    {
        self.campaign.is_some()
    }

    /// The next instance to be proposed at; 0 while it is Idle.
    pub fn next(&self) -> Inst
        ensures { result ≡ role_next self.now.table.role }
    {
        match &self.campaign {
            Some(campaign) => campaign.next(),
            None => 0,
        }
    }

    /// Starts the least ballot above promise and `top` that the own node owns. False where that isn't below 2^48; then
    /// nothing is changed. After `Memory` the lists are spent.
    pub fn start_ballot(
        &mut self,
        view: &RingView,
        durable: &Durable,
        changes: &mut Changes,
        out: &mut Frames,
    ) -> Result<bool, Memory>
        requires { trim_after view.now.ring changes.old (trim_at durable.now view.now.ring) ≤ END }
        ensures told { IfOk result (λ started. (ring : Ring) (link : Link) (part : Part) (position : ℕ) → Shows view.now durable.now changes.old ring link part → Leads self.old ring part
            → position_of ring ring.own ≡ Some position → started ≡ nat_lt (own_ballot ring part position) (2 ^ 48)) }
        ensures not_started { OnOk result (result ≡ Ok false → (self.new ≡ self.old) × (changes.new ≡ changes.old) × (out.new ≡ out.old)) }
        ensures started { OnOk result (result ≡ Ok true → (ring : Ring) (link : Link) (part : Part) (position : ℕ) → Shows view.now durable.now changes.old ring link part → Leads self.old ring part
            → IsState durable.now → OnlyRaises ring.id (trim_at durable.now ring.id) changes.old → position_of ring ring.own ≡ Some position
            → Begins (campaigns ring (own_ballot ring part position) (promises ring (own_ballot ring part position) (no_effects part))) self.old self.new changes.old changes.new out.old out.new) }
    {
        let floor = self.floor(view, durable, changes);
        let Some(ballot) = own_ballot(view, floor) else {
            return Ok(false);
        };
        let trim = durable.trim_after(changes.items(), view.ring);
        let from = kept_from(changes.items(), view.ring);
        let campaign = self.campaign_of(view, durable, ballot, trim, from)?;
        self.campaign = Some(campaign);
        changes.push(Change::Promise(view.ring, ballot))?;
        prepare_others(view, ballot, trim, out)?;
        Ok(true)
    }

    /// The greatest ballot seen: the own promise or `top`.
    fn floor(&self, view: &RingView, durable: &Durable, changes: &Changes) -> Ballot
        ensures { (ring : Ring) (link : Link) (part : Part) → Shows view.now durable.now changes.now ring link part → self.now.table ≡ part.coordinator → result ≡ greatest_seen part }
    {
        durable
            .promise_after(changes.items(), view.ring)
            .max(self.top)
    }

    /// A new ballot from the trim on, with the own votes from `from` on reported.
    fn campaign_of(
        &self,
        view: &RingView,
        durable: &Durable,
        ballot: Ballot,
        trim: Inst,
        from: Inst,
    ) -> Result<Campaign, Memory>
        requires { trim ≤ END }
        ensures { IfOk result (λ campaign. (ring : Ring) (link : Link) (kept : RingState) → IsViewOf view.now ring link → self.now.lambda ≡ ring.lambda → self.now.delta ≡ ring.delta
            → IsState durable.now → kept.trim ≡ trim → kept.votes ≡ entries_from from (votes_at durable.now view.now.ring) → campaign ≡ new_campaign ring ballot kept) }
    {
        let votes = durable.votes(view.ring, from)?;
        let mut reports = Reports::new(self.alloc);
        reports.add(0, votes.items())?;
        let covered = covered_at_start(self.alloc, view, trim)?;
        let leveller = Leveller::new(self.lambda, self.delta);
        Ok(Campaign::new(self.alloc, ballot, trim, covered, reports, leveller))
    }

    /// Promise of an acceptor: a page of its votes. It counts where it is of the current ballot and begins where the
    /// acceptor is covered to, or before, and goes past it. Its trim is taken by the acceptor before. After `Memory` the
    /// coordinator is spent.
    pub fn on_promise(
        &mut self,
        view: &RingView,
        from: NodeId,
        ballot: Ballot,
        lo: Inst,
        hi: Inst,
        votes: &[Voted],
        out: &mut Frames,
    ) -> Result<(), Memory>
        requires end { hi ≤ END }
        requires votes { AllByRecursion IsVoted votes.now }
        ensures { OnOk result ((ring : Ring) (link : Link) (part : Part) → IsViewOf view.now ring link → Leads self.old ring part
            → (self.new ≡ with_table (reported ring from (record { ballot = ballot; lo = lo; hi = hi; votes = votes.now }) (no_effects part)).part.coordinator self.old)
            × (out.new ≡ out.old ++ (reported ring from (record { ballot = ballot; lo = lo; hi = hi; votes = votes.now }) (no_effects part)).frames)) }
    {
        let Some(campaign) = &mut self.campaign else {
            return Ok(());
        };
        let Some(position) = view.acceptors.position(from) else {
            return Ok(());
        };
        let position = usize::from(position);
        if !counts(campaign, position, ballot, lo, hi) {
            return Ok(());
        }
        campaign.report(position, hi, votes)?;
        prepare(view, from, ballot, hi, out)
    }

    /// Refuse: `top` rises to the promise that it tells; where it names the current ballot the coordinator becomes Idle.
    #[tactic(auto, unfolding(protocol::specs::Coordinator::refused))]
    pub fn on_refuse(&mut self, ballot: Ballot, promise: Ballot)
        ensures { (ring : Ring) (part : Part) → self.old.table ≡ part.coordinator → self.new ≡ with_table (refused ring part ballot promise).part.coordinator self.old }
    {
        self.top = self.top.max(promise);
        if let Some(campaign) = &self.campaign
            && campaign.ballot() == ballot
        {
            self.campaign = None;
        }
    }

    /// The own acceptor promised a ballot: a coordinator of a lower one becomes Idle.
    pub fn on_promised(&mut self, promise: Ballot)
        ensures { self.new ≡ led_in (idle_below promise self.old.table.role) self.old }
    {
        if let Some(campaign) = &self.campaign
            && campaign.ballot() < promise
        {
            self.campaign = None;
        }
    }

    /// Drops the commands that wait and that a learned value holds. Without memory nothing is changed.
    pub fn on_learned(&mut self, value: &Value) -> Result<(), Memory>
        requires { IsSpelled value.now }
        ensures ok { OnOk result (self.new ≡ led_in (role_without (entries_of_value value.now) self.old.table.role) self.old) }
        ensures err { OnErr result (self.new ≡ self.old) }
    {
        let Some(campaign) = &mut self.campaign else {
            return Ok(());
        };
        let entries = entries_of(self.alloc, value)?;
        campaign.take_out(entries.items())
    }

    /// Drops the proposals of which each instance is learned or below the trim.
    pub fn drop_finished(&mut self, trim: Inst, learner: &RingLearner)
        ensures { self.new ≡ led_in (role_unfinished trim learner.now.held self.old.table.role) self.old }
    {
        let Some(campaign) = &mut self.campaign else {
            return;
        };
        campaign.drop_finished(trim, learner);
    }

    /// Has a command wait; one that waits already changes nothing.
    pub fn submit(&mut self, client: ClientId, seq: u64, command: &[u8]) -> Result<(), SubmitFault>
        requires { IsEntry (record { client = client; seq = seq; command = command.now }) }
        ensures not_leading { (ring : Ring) (part : Part) → Leads self.old ring part → (result ≡ Err NotLeading) ↔ (role_leads ring part.coordinator.role ≡ false) }
        ensures queue_full { (ring : Ring) (part : Part) (campaign : Campaign) → Leads self.old ring part → role_leads ring part.coordinator.role ≡ true → part.coordinator.role ≡ Active campaign
            → (result ≡ Err QueueFull) ↔ ((is_pending (record { client = client; seq = seq; command = command.now }) campaign.pending ≡ false) × (1024 ≤ length campaign.pending)) }
        ensures ok { OnOk result ((campaign : Campaign) → self.old.table.role ≡ Active campaign → self.new ≡ led_in
            (Active (if is_pending (record { client = client; seq = seq; command = command.now }) campaign.pending then campaign else with_pending (record { client = client; seq = seq; command = command.now }) campaign)) self.old) }
        ensures err { OnErr result (self.new ≡ self.old) }
    {
        if !self.leads() {
            return Err(SubmitFault::NotLeading);
        }
        let Some(campaign) = &mut self.campaign else {
            return Err(SubmitFault::NotLeading);
        };
        take(self.alloc, campaign, client, seq, command)
    }

    /// Proposes as long as something is due and the window has room. After `Memory` the lists are spent.
    pub fn propose(
        &mut self,
        view: &RingView,
        durable: &Durable,
        learner: &RingLearner,
        changes: &mut Changes,
        out: &mut Frames,
        learned: &mut Ranges,
    ) -> Result<(), Memory>
        ensures { OnOk result ((ring : Ring) (link : Link) (part : Part) → Shows view.now durable.now changes.old ring link part → Leads self.old ring part → part.learner ≡ learner.now
            → Makes (proposes ring link part) self.old self.new changes.old changes.new out.old out.new learned.old learned.new) }
    {
        let Some(campaign) = &mut self.campaign else {
            return Ok(());
        };
        let trim = durable.trim_after(changes.items(), view.ring);
        campaign.propose(view, self.window, trim, learner, changes, out, learned)
    }

    /// What a resend beat asks of an Active coordinator: Prepare again to the acceptors that aren't covered to the end, then
    /// Accept with the own bit for each outstanding proposal, from the trim on.
    pub fn resend(
        &self,
        view: &RingView,
        durable: &Durable,
        changes: &Changes,
        out: &mut Frames,
    ) -> Result<(), Memory>
        ensures { OnOk result ((ring : Ring) (link : Link) (part : Part) → Shows view.now durable.now changes.now ring link part → Leads self.now ring part
            → out.new ≡ out.old ++ (resends ring link part).frames) }
    {
        let Some(campaign) = &self.campaign else {
            return Ok(());
        };
        let trim = durable.trim_after(changes.items(), view.ring);
        prepare_again(view, campaign.ballot(), campaign.covered(), out)?;
        accept_again(view, campaign.ballot(), trim, campaign.outstanding(), out)
    }

    /// A tick of the leveller, while the coordinator leads: Skip for the instances that are missing to the pace. After
    /// `Memory` the lists are spent.
    pub fn level(
        &mut self,
        view: &RingView,
        durable: &Durable,
        learner: &RingLearner,
        changes: &mut Changes,
        out: &mut Frames,
        learned: &mut Ranges,
    ) -> Result<(), Memory>
        ensures { OnOk result ((ring : Ring) (link : Link) (part : Part) → Shows view.now durable.now changes.old ring link part → Leads self.old ring part → part.learner ≡ learner.now
            → Makes (levels ring link part) self.old self.new changes.old changes.new out.old out.new learned.old learned.new) }
    {
        let Some(campaign) = &mut self.campaign else {
            return Ok(());
        };
        if !campaign.leads() {
            return Ok(());
        }
        let trim = durable.trim_after(changes.items(), view.ring);
        campaign.level(view, self.window, trim, learner, changes, out, learned)
    }
}

/// Whether a page is of this ballot, begins where the position is covered to, or before, and goes past it.
fn counts(campaign: &Campaign, position: usize, ballot: Ballot, lo: Inst, hi: Inst) -> bool
    ensures seat { result ≡ true → position < length campaign.now.covered }
    ensures counts { (votes : List Voted) → position < length campaign.now.covered
        → result ≡ counts (record { ballot = ballot; lo = lo; hi = hi; votes = votes }) campaign.now.ballot (slice_index campaign.now.covered position) }
{
    let Some(covered) = campaign.covered().get(position) else {
        return false;
    };
    ballot == campaign.ballot() && lo <= *covered && *covered < hi
}

/// The commands of a value: those of a batch, and none of a Skip.
fn entries_of(alloc: Global, value: &Value) -> Result<Entries, Memory>
    requires { IsSpelled value.now }
    ensures { IfOk result (λ entries. entries ≡ entries_of_value value.now) }
{
    match value {
        Value::Skip => Ok(Entries::new(alloc)),
        Value::Batch(batch) => match read_batch(alloc, batch.bytes()) {
            Ok(entries) => Ok(entries),
            Err(_) => Err(Memory),
        },
    }
}

/// Has a command wait, where it doesn't yet and there is room.
fn take(
    alloc: Global,
    campaign: &mut Campaign,
    client: ClientId,
    seq: u64,
    command: &[u8],
) -> Result<(), SubmitFault>
    requires { IsEntry (record { client = client; seq = seq; command = command.now }) }
    ensures leading { result ≢ Err NotLeading }
    ensures queue_full { (result ≡ Err QueueFull) ↔ ((is_pending (record { client = client; seq = seq; command = command.now }) campaign.old.pending ≡ false) × (1024 ≤ length campaign.old.pending)) }
    ensures ok { OnOk result (campaign.new ≡ (if is_pending (record { client = client; seq = seq; command = command.now }) campaign.old.pending
        then campaign.old else with_pending (record { client = client; seq = seq; command = command.now }) campaign.old)) }
    ensures err { OnErr result (campaign.new ≡ campaign.old) }
{
    if campaign.has(client, seq) {
        return Ok(());
    }
    if campaign.is_full() {
        return Err(SubmitFault::QueueFull);
    }
    let Ok(command) = Octets::from_slice(alloc, command) else {
        return Err(SubmitFault::Memory);
    };
    let entry = Entry {
        client,
        seq,
        command,
    };
    if campaign.push(entry).is_err() {
        return Err(SubmitFault::Memory);
    }
    Ok(())
}

/// The least ballot above a floor that the own node owns; `None` where it isn't below 2^48.
fn own_ballot(view: &RingView, floor: Ballot) -> Option<Ballot>
    ensures { (ring : Ring) (link : Link) (position : ℕ) → IsViewOf view.now ring link → position_of ring ring.own ≡ Some position
        → MatchOption result (2 ^ 48 ≤ least_above floor (length ring.acceptors) position)
        (λ ballot. (ballot ≡ least_above floor (length ring.acceptors) position) × (ballot < 2 ^ 48)) }
{
    let Some(position) = view.acceptors.position(view.own) else {
        return None;
    };
    if BALLOTS <= floor {
        return None;
    }
    let ballot = least_above(floor, u64::from(view.acceptors.len()), u64::from(position));
    if BALLOTS <= ballot {
        return None;
    }
    Some(ballot)
}

/// The least number above a floor that leaves this rest by `n`.
fn least_above(floor: u64, n: u64, rest: u64) -> u64
    requires floor { floor < 2 ^ 48 }
    requires n { n < 256 }
    requires rest { rest < n }
    ensures { result ≡ least_above floor n rest }
{
    floor + 1 + (rest + n - (floor + 1) % n) % n
}

/// The own position is covered to the end of all instances, all others to where the ballot begins.
fn covered_at_start(alloc: Global, view: &RingView, next: Inst) -> Result<Vec<Inst>, Memory>
    requires { next ≤ END }
    ensures covered { IfOk result (λ covered. (ring : Ring) (link : Link) → IsViewOf view.now ring link → covered.items ≡ covered_at_start ring next) }
    ensures within { IfOk result (λ covered. AllByRecursion IsWithin covered.items) }
{
    let mut covered = Vec::new(alloc);
    for node in view.acceptors.items() {
        covered.push(if *node == view.own { END } else { next })?;
    }
    Ok(covered)
}

/// From where on the kept votes of a ring stay by these changes: the last trim among them, else 0.
fn kept_from(changes: &[Change], ring: RingId) -> Inst
    ensures { result ≡ trim_after ring changes.now 0 }
{
    let mut from = 0;
    for change in changes {
        from = trim_told(change, ring, from);
    }
    from
}

/// The trim of a ring that a change tells, else `before`.
fn trim_told(change: &Change, ring: RingId, before: Inst) -> Inst
    ensures { result ≡ trim_by ring change.now before }
{
    match change {
        Change::Trim(other, inst) if *other == ring => *inst,
        _ => before,
    }
}
