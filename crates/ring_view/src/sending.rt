//! To whom frames go.
ghost use Rattle.std.specs.Prelude.{◌≡◌, ◌++◌, ◌==◌, ◌||◌, OnOk};
ghost use Rattle.ring_link.specs.Silence.{Link};
ghost use Rattle.protocol.specs.Parts.{Ring};
ghost use Rattle.protocol.specs.Rings.{owner_of, sends, is_beyond as is_fetch_beyond};
ghost use Rattle.ring_view.specs.Views.{IsViewOf};

use frames::{Body, Frame, Frames, Sent};
use mrp_types::{Ballot, END, Memory, NodeId, Party, RingView};

/// The acceptor that owns a ballot; ballot 0 is nobody's.
pub fn owner(view: &RingView, ballot: Ballot) -> Option<NodeId>
    ensures { (ring : Ring) (link : Link) → IsViewOf view.now ring link → result ≡ owner_of ring ballot }
{
    let count = view.acceptors.len();
    if ballot == 0 {
        return None;
    }
    if count == 0 {
        return None;
    }
    view.acceptors.at((ballot % u64::from(count)) as u8)
}

/// Whether it is a Fetch for the end of all instances.
fn is_beyond(body: &Body) -> bool
    ensures { result ≡ is_fetch_beyond body.now }
{
    match body {
        Body::Fetch { lo, .. } => END <= *lo,
        _ => false,
    }
}

/// Whether a frame isn't sent.
fn stays(own: NodeId, to: NodeId, body: &Body) -> bool
    ensures { result ≡ (to.0 == own.0 || is_fetch_beyond body.now) }
{
    to == own || is_beyond(body)
}

/// Adds a frame of the own node, if it is to go to another one; a Fetch for the end of all instances isn't sent.
pub fn send(view: &RingView, to: Option<NodeId>, body: Body, out: &mut Frames) -> Result<(), Memory>
    ensures { OnOk result ((ring : Ring) (link : Link) → IsViewOf view.now ring link → out.new ≡ out.old ++ sends ring to body) }
{
    let Some(to) = to else {
        return Ok(());
    };
    if stays(view.own, to, &body) {
        return Ok(());
    }
    out.push(Sent {
        to: Party::Node(to),
        frame: Frame {
            from: Party::Node(view.own),
            body,
        },
    })
}
