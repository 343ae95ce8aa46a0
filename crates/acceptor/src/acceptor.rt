//! The rows of an acceptor's table.
ghost use Rattle.std.specs.Prelude.{◌≡◌, ◌++◌, IfOk, OnOk};
ghost use Rattle.vote_state.specs.Ranges.{are_held};
ghost use Rattle.vote_state.specs.State.{trim_at, has_vote};
ghost use Rattle.range_map.specs.Entries.{entries_from};
ghost use Rattle.ring_link.specs.Silence.{Link};
ghost use Rattle.protocol.specs.Parts.{Ring, Part};
ghost use Rattle.protocol.specs.Rings.{is_node, owner_of};
ghost use Rattle.protocol.specs.Effects.{no_effects};
ghost use Rattle.protocol.specs.Learner.{learned_ranges};
ghost use Rattle.protocol.specs.Acceptor.{prepares, accepts, trims_to, fetches, ranges_page, refuses, tells_trim, promises_anew, votes_anew};
ghost use Rattle.ring_view.specs.Kept.{OnlyRaises};
ghost use Rattle.ring_view.specs.Views.{IsViewOf, Shows, Adds, where_decided};
ghost use Rattle.acceptor.specs.Votes.{takes_votes};

use crate::pages::page_of;
use frames::{Body, Frames};
use mrp_types::{Ballot, Inst, Memory, NodeId, Ranges, RingView, Value, Voted};
use ring_view::{own_bit, owner, pass_vote, send};
use std::alloc::Global;
use vote_state::{Change, Changes, Durable};

/// The acceptor of a ring. Its calls read the promise and the trim as the changes that are in the list already leave
/// them, and the votes as they are kept: while no vote of the ring is in the list they are the part's too. After
/// `Memory` the lists are spent.
pub struct Acceptor;

impl Acceptor {
    /// Prepare: the start of a ballot by its owner, who asks for the votes from `lo` on. The ballot becomes the promise,
    /// and the owner is sent a page of votes; below the promise it is refused.
    pub fn on_prepare(
        alloc: Global,
        view: &RingView,
        durable: &Durable,
        from: NodeId,
        ballot: Ballot,
        lo: Inst,
        changes: &mut Changes,
        out: &mut Frames,
    ) -> Result<(), Memory>
        ensures { OnOk result ((ring : Ring) (link : Link) (part : Part) → Shows view.now durable.now changes.old ring link part
            → OnlyRaises ring.id (trim_at durable.now ring.id) changes.old
            → Adds (prepares ring part from ballot lo) changes.old changes.new out.old out.new) }
    {
        if !owns(view, from, ballot) {
            return Ok(());
        }
        let promise = durable.promise_after(changes.items(), view.ring);
        if ballot < promise {
            return refuse(view, Some(from), ballot, promise, out);
        }
        let trim = durable.trim_after(changes.items(), view.ring);
        changes.push(Change::Promise(view.ring, ballot))?;
        let votes = durable.votes(view.ring, lo.max(trim))?;
        let (page, hi) = page_of(alloc, votes.items())?;
        let body = Body::Promise {
            ring: view.ring,
            ballot,
            lo,
            hi,
            trim,
            votes: page,
        };
        send(view, Some(from), body, out)
    }

    /// Accept: what a ballot's owner asks the acceptors to vote for, with a bit for each that did. Answers whether the own
    /// bit was added and the bits are a majority then, so that the range is decided.
    pub fn on_accept(
        view: &RingView,
        durable: &Durable,
        ballot: Ballot,
        lo: Inst,
        hi: Inst,
        mask: u8,
        value: &Value,
        changes: &mut Changes,
        out: &mut Frames,
    ) -> Result<bool, Memory>
        ensures added { OnOk result ((ring : Ring) (link : Link) (part : Part) → Shows view.now durable.now changes.old ring link part
            → OnlyRaises ring.id (trim_at durable.now ring.id) changes.old
            → Adds (accepts ring link part ballot lo hi mask value.now) changes.old changes.new out.old out.new) }
        ensures decided { IfOk result (λ decided. (ring : Ring) (link : Link) (part : Part) → Shows view.now durable.now changes.old ring link part
            → OnlyRaises ring.id (trim_at durable.now ring.id) changes.old
            → (accepts ring link part ballot lo hi mask value.now).learned ≡ where_decided decided (record { lo = lo; hi = hi; value = value.now })) }
    {
        let Some(bit) = own_bit(view) else {
            return Ok(false);
        };
        let promised = durable.promise_after(changes.items(), view.ring);
        if ballot < promised {
            refuse(view, owner(view, ballot), ballot, promised, out)?;
            return Ok(false);
        }
        let trim = durable.trim_after(changes.items(), view.ring);
        if lo < trim {
            tell_trim(view, owner(view, ballot), trim, out)?;
            return Ok(false);
        }
        if mask & bit != 0 {
            return Ok(false);
        }
        let value = value.share()?;
        let vote = Voted {
            lo,
            hi,
            ballot,
            value,
        };
        promise_anew(view, promised, ballot, changes)?;
        vote_anew(view, durable, &vote, changes)?;
        pass_vote(view, vote, mask | bit, out)
    }

    /// A trim that was told: one above the own trim becomes the own one.
    pub fn on_trim(
        view: &RingView,
        durable: &Durable,
        trim: Inst,
        changes: &mut Changes,
    ) -> Result<(), Memory>
        ensures { OnOk result ((ring : Ring) (link : Link) (part : Part) → Shows view.now durable.now changes.old ring link part
            → changes.new ≡ changes.old ++ (trims_to ring trim (no_effects part)).changes) }
    {
        if trim <= durable.trim_after(changes.items(), view.ring) {
            return Ok(());
        }
        changes.push(Change::Trim(view.ring, trim))
    }

    /// Fetch: a node asks for what was learned from `lo` on. `page` is what the learner's page from there is; the node is
    /// sent it, or the trim, where it asks below.
    pub fn on_fetch(
        view: &RingView,
        durable: &Durable,
        from: NodeId,
        lo: Inst,
        page: Ranges,
        changes: &Changes,
        out: &mut Frames,
    ) -> Result<(), Memory>
        ensures { OnOk result ((ring : Ring) (link : Link) (part : Part) → Shows view.now durable.now changes.now ring link part
            → page ≡ ranges_page (learned_ranges (entries_from lo part.learner.held))
            → Adds (fetches ring part from lo) changes.now changes.now out.old out.new) }
    {
        let trim = durable.trim_after(changes.items(), view.ring);
        if lo < trim {
            return tell_trim(view, Some(from), trim, out);
        }
        if page.is_empty() {
            return Ok(());
        }
        let body = Body::Chosen {
            ring: view.ring,
            ranges: page,
        };
        send(view, Some(from), body, out)
    }

    /// Whether the ballot is at least the promise, and `lo` at least the trim.
    pub fn would_vote(view: &RingView, durable: &Durable, ballot: Ballot, lo: Inst) -> bool
        ensures { result ≡ takes_votes durable.now view.now.ring ballot lo }
    {
        durable.promise(view.ring) <= ballot && durable.trim(view.ring) <= lo
    }
}

/// Whether a node owns a ballot.
fn owns(view: &RingView, node: NodeId, ballot: Ballot) -> bool
    ensures { (ring : Ring) (link : Link) → IsViewOf view.now ring link → result ≡ is_node node (owner_of ring ballot) }
{
    match owner(view, ballot) {
        Some(owner) => node == owner,
        None => false,
    }
}

/// Tells a node that its ballot is below the promise.
fn refuse(
    view: &RingView,
    to: Option<NodeId>,
    ballot: Ballot,
    promise: Ballot,
    out: &mut Frames,
) -> Result<(), Memory>
    ensures { OnOk result ((ring : Ring) (link : Link) (part : Part) → IsViewOf view.now ring link → part.kept.promise ≡ promise
        → out.new ≡ out.old ++ (refuses ring to ballot part).frames) }
{
    let body = Body::Refuse {
        ring: view.ring,
        ballot,
        promise,
    };
    send(view, to, body, out)
}

/// Tells a node that what it asks for is below the trim.
fn tell_trim(
    view: &RingView,
    to: Option<NodeId>,
    trim: Inst,
    out: &mut Frames,
) -> Result<(), Memory>
    ensures { OnOk result ((ring : Ring) (link : Link) (part : Part) → IsViewOf view.now ring link → part.kept.trim ≡ trim
        → out.new ≡ out.old ++ (tells_trim ring to part).frames) }
{
    let body = Body::Trimmed {
        ring: view.ring,
        inst: trim,
    };
    send(view, to, body, out)
}

/// Records a promise that isn't there yet.
fn promise_anew(
    view: &RingView,
    promise: Ballot,
    ballot: Ballot,
    changes: &mut Changes,
) -> Result<(), Memory>
    ensures { OnOk result ((ring : Ring) (link : Link) (part : Part) → IsViewOf view.now ring link → part.kept.promise ≡ promise
        → changes.new ≡ changes.old ++ (promises_anew ring ballot (no_effects part)).changes) }
{
    if ballot == promise {
        return Ok(());
    }
    changes.push(Change::Promise(view.ring, ballot))
}

/// Records a vote that isn't there yet.
fn vote_anew(
    view: &RingView,
    durable: &Durable,
    vote: &Voted,
    changes: &mut Changes,
) -> Result<(), Memory>
    ensures { OnOk result ((ring : Ring) (link : Link) (part : Part) → IsViewOf view.now ring link
        → are_held vote.now part.kept.votes ≡ has_vote durable.now ring.id vote.now
        → changes.new ≡ changes.old ++ (votes_anew ring vote.now (no_effects part)).changes) }
{
    if durable.has_vote(view.ring, vote) {
        return Ok(());
    }
    changes.push(Change::Vote(view.ring, vote.share()?))
}
