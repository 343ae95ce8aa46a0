//! What acceptors are asked, and asked again.
ghost use Rattle.std.specs.Prelude.{◌≡◌, ◌++◌, [], nat_lt, if◌then◌else◌, Some, OnOk, IfOk};
ghost use Rattle.frames.specs.declared.body.Body.TheVariants.{Prepare};
ghost use Rattle.ring_link.specs.Silence.{Link};
ghost use Rattle.protocol.specs.Parts.{Ring};
ghost use Rattle.protocol.specs.Rings.{other_acceptors, next_acceptor, sends, sends_each};
ghost use Rattle.protocol.specs.Proposing.{own_mask};
ghost use Rattle.protocol.specs.Leading.{prepares_again, accepts_again};
ghost use Rattle.ring_view.specs.Views.{IsViewOf};

use frames::{Body, Frames};
use mrp_types::{Ballot, Decided, END, Inst, Memory, NodeId, RingView};
use ring_view::{own_bit, send};

/// The mask of the own vote alone.
pub fn own_mask(view: &RingView) -> u8
    ensures { (ring : Ring) (link : Link) → IsViewOf view.now ring link → result ≡ own_mask ring }
{
    own_bit(view).unwrap_or(0)
}

/// Asks an acceptor for its votes from `lo` on; nothing at the end of all instances.
pub fn prepare(
    view: &RingView,
    node: NodeId,
    ballot: Ballot,
    lo: Inst,
    out: &mut Frames,
) -> Result<(), Memory>
    ensures { OnOk result ((ring : Ring) (link : Link) → IsViewOf view.now ring link
        → out.new ≡ out.old ++ (if nat_lt lo END then sends ring (Some node) (Prepare ring.id ballot lo) else [])) }
{
    if END <= lo {
        return Ok(());
    }
    let body = Body::Prepare {
        ring: view.ring,
        ballot,
        lo,
    };
    send(view, Some(node), body, out)
}

/// Asks all other acceptors as listed.
pub fn prepare_others(
    view: &RingView,
    ballot: Ballot,
    lo: Inst,
    out: &mut Frames,
) -> Result<(), Memory>
    ensures { OnOk result ((ring : Ring) (link : Link) → IsViewOf view.now ring link → out.new ≡ out.old ++ sends_each ring (other_acceptors ring) (Prepare ring.id ballot lo)) }
{
    for node in view.acceptors.items() {
        let body = Body::Prepare {
            ring: view.ring,
            ballot,
            lo,
        };
        send(view, Some(*node), body, out)?;
    }
    Ok(())
}

/// Prepare again, from where each acceptor is covered to, to those that aren't covered to the end.
pub fn prepare_again(
    view: &RingView,
    ballot: Ballot,
    covered: &[Inst],
    out: &mut Frames,
) -> Result<(), Memory>
    ensures { OnOk result ((ring : Ring) (link : Link) → IsViewOf view.now ring link → out.new ≡ out.old ++ prepares_again ring ballot ring.acceptors covered.now) }
{
    let nodes = view.acceptors.items();
    for (index, node) in nodes.iter().enumerate() {
        let Some(lo) = covered.get(index) else {
            return Ok(());
        };
        prepare(view, *node, ballot, *lo, out)?;
    }
    Ok(())
}

/// Accept again with the own bit for each of these proposals, from the trim on.
pub fn accept_again(
    view: &RingView,
    ballot: Ballot,
    trim: Inst,
    outstanding: &[Decided],
    out: &mut Frames,
) -> Result<(), Memory>
    ensures { OnOk result ((ring : Ring) (link : Link) → IsViewOf view.now ring link
        → out.new ≡ out.old ++ accepts_again ring (next_acceptor ring link) ballot trim outstanding.now) }
{
    for range in outstanding {
        let body = Body::Accept {
            ring: view.ring,
            ballot,
            lo: range.lo.max(trim),
            hi: range.hi,
            mask: own_mask(view),
            value: range.value.share()?,
        };
        send(view, view.next_acceptor, body, out)?;
    }
    Ok(())
}
