//! Votes that go round a ring.
ghost use Rattle.std.specs.Prelude.{◌≡◌, ◌<◌, ◌^◌, ◌++◌, nat_le, count_ones, OnOk, IfOk, IfSome};
ghost use Rattle.std.specs.Option.{option_map};
ghost use Rattle.mrp_types.specs.Seats.{seat_of};
ghost use Rattle.ring_link.specs.Silence.{Link};
ghost use Rattle.protocol.specs.Parts.{Ring, Part};
ghost use Rattle.protocol.specs.Rings.{position_of, majority_of, bit_of};
ghost use Rattle.protocol.specs.Effects.{no_effects};
ghost use Rattle.protocol.specs.Learner.{decided_of};
ghost use Rattle.protocol.specs.Acceptor.{decides_or_forwards, first_decide};
ghost use Rattle.ring_view.specs.Views.{IsViewOf, where_decided};

use crate::sending::send;
use frames::{Body, Frames};
use mrp_types::{Decided, Memory, RingView, Voted, majority};

/// The bit of a position.
fn bit(position: usize) -> u8
    requires { position < 8 }
    ensures { result ≡ 2 ^ position }
{
    1 << position
}

/// The own position; `None` at a node that is no acceptor.
fn own_position(view: &RingView) -> Option<usize>
    ensures first { result ≡ seat_of view.now.own view.now.acceptors }
    ensures few { IfSome result (λ position. position < 8) }
{
    let own = view.own;
    let nodes = view.acceptors.items();
    nodes.iter().position(|node| *node == own)
}

/// The bit of the own position in a mask of votes; `None` at a node that is no acceptor.
pub fn own_bit(view: &RingView) -> Option<u8>
    ensures { (ring : Ring) (link : Link) → IsViewOf view.now ring link → result ≡ option_map bit_of (position_of ring ring.own) }
{
    let Some(position) = own_position(view) else {
        return None;
    };
    Some(bit(position))
}

/// Whether the bits of a mask are those of a majority.
pub fn is_majority(view: &RingView, mask: u8) -> bool
    ensures { (ring : Ring) (link : Link) → IsViewOf view.now ring link → result ≡ nat_le (majority_of ring) (count_ones mask) }
{
    u32::from(majority(view.acceptors.len())) <= mask.count_ones()
}

/// Sends what is decided round to all other members.
fn send_decided(view: &RingView, range: Decided, out: &mut Frames) -> Result<(), Memory>
    ensures { OnOk result ((ring : Ring) (link : Link) → IsViewOf view.now ring link → out.new ≡ out.old ++ first_decide ring link range) }
{
    if view.members < 2 {
        return Ok(());
    }
    let body = Body::Decide {
        ring: view.ring,
        lo: range.lo,
        hi: range.hi,
        left: view.members - 2,
        value: range.value,
    };
    send(view, view.next_member, body, out)
}

/// What follows a vote with these bits: with a majority it is decided, which all other members are told; else the next
/// acceptor is asked. Answers whether it is decided.
pub fn pass_vote(view: &RingView, vote: Voted, mask: u8, out: &mut Frames) -> Result<bool, Memory>
    ensures frames { OnOk result ((ring : Ring) (link : Link) (part : Part) → IsViewOf view.now ring link
        → out.new ≡ out.old ++ (decides_or_forwards ring link mask vote (no_effects part)).frames) }
    ensures decided { IfOk result (λ decided. (ring : Ring) (link : Link) (part : Part) → IsViewOf view.now ring link
        → (decides_or_forwards ring link mask vote (no_effects part)).learned ≡ where_decided decided (decided_of vote)) }
{
    let Voted {
        lo,
        hi,
        ballot,
        value,
    } = vote;
    if is_majority(view, mask) {
        send_decided(view, Decided { lo, hi, value }, out)?;
        return Ok(true);
    }
    let body = Body::Accept {
        ring: view.ring,
        ballot,
        lo,
        hi,
        mask,
        value,
    };
    send(view, view.next_acceptor, body, out)?;
    Ok(false)
}
