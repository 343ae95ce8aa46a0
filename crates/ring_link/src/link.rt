//! Suspicion, and the successor in a ring.
ghost use Rattle.std.specs.Prelude.{◌≡◌, ◌-◌, ◌+◌, ◌<◌, ℕ, ◌==◌, List, [], ◌∷◌, ◌++◌, ◌≤◌, find, map, replicate, drop, length, IsNone, ◌↔◌};
ghost use Rattle.std.specs.Option.{SomeIff};
ghost use Rattle.std.specs.List.{position_or_len};
ghost use Rattle.ring_link.specs.Silence.{Event, Tick, Heard, is_suspected_after, is_next, successor_by, link_after, longer, with_tick, with_heard, is_silent};

use mrp_types::NodeId;
use std::marker::Model;

/// How many node numbers there are.
const NODES: usize = 256;

/// For how many ticks each node was silent. A node is suspected where `suspect` ticks or more
/// passed since a frame of it was heard, or since the start.
#[derive(Drop)]
pub struct RingLink {
    suspect: u16,
    quiet: [u16; NODES],
}

impl Model for RingLink {
    ghost use Rattle.std.specs.Prelude.{◌≡◌, length};
    ghost use Rattle.ring_link.specs.Silence.{Link};

    ghost Value = { Link };

    ghost view = { λ l. record { suspect = l.suspect; quiet = l.quiet } };

    ghost invariant = { λ l. length l.quiet ≡ 256 };
}

/// Makes every silence longer by a tick; a count stands still at its type's end.
fn grow(quiet: &mut [u16])
    ensures { quiet.new ≡ map longer quiet.old }
{
    for count in quiet.iter_mut() {
        *count = count.saturating_add(1);
    }
}

/// No silence yet.
fn no_silence() -> [u16; NODES]
    ensures { result ≡ replicate 256 0 }
{
    [0; NODES]
}

impl RingLink {
    /// Nothing was heard yet, and no tick has passed. `suspect` is in ticks; where it is 0 every
    /// node is suspected always.
    pub fn new(suspect: u16) -> RingLink
        ensures { result ≡ link_after suspect [] }
    {
        RingLink {
            suspect,
            quiet: no_silence(),
        }
    }

    /// Tells that a frame of `node` was heard.
    pub fn heard(&mut self, node: NodeId)
        ensures counted { (suspect : ℕ) (events : List Event) → self.old ≡ link_after suspect events
            → self.new ≡ link_after suspect (events ++ Heard node.0 ∷ []) }
        ensures kept { self.new ≡ with_heard node.0 self.old }
    {
        self.quiet[usize::from(node.0)] = 0;
    }

    /// Tells that a tick passed.
    pub fn tick(&mut self)
        ensures counted { (suspect : ℕ) (events : List Event) → self.old ≡ link_after suspect events
            → self.new ≡ link_after suspect (events ++ Tick ∷ []) }
        ensures kept { self.new ≡ with_tick self.old }
    {
        grow(&mut self.quiet);
    }

    /// Whether `node` is suspected.
    pub fn is_suspected(&self, node: NodeId) -> bool
        ensures counted { (suspect : ℕ) (events : List Event) → self.now ≡ link_after suspect events
            → result ≡ is_suspected_after suspect events node.0 }
        ensures kept { result ≡ is_silent self.now node.0 }
    {
        self.suspect <= self.quiet[usize::from(node.0)]
    }

    /// The first of `nodes` that is another node and isn't suspected.
    fn first_heard(&self, nodes: &[NodeId], own: NodeId) -> Option<NodeId>
        ensures counted { (suspect : ℕ) (events : List Event) → self.now ≡ link_after suspect events
            → result ≡ find (is_next (is_suspected_after suspect events) own) nodes.now }
        ensures kept { result ≡ find (is_next (is_silent self.now) own) nodes.now }
    {
        for node in nodes {
            if *node == own {
                continue;
            }
            if !self.is_suspected(*node) {
                return Some(*node);
            }
        }
        None
    }

    /// The next node after `own` in the cyclic order of a ring that isn't `own` itself and isn't
    /// suspected; `None` where there is no such node. Where `own` isn't listed the order begins at
    /// its first node.
    pub fn successor(&self, order: &[NodeId], own: NodeId) -> Option<NodeId>
        ensures counted { (suspect : ℕ) (events : List Event) → self.now ≡ link_after suspect events
            → result ≡ successor_by (is_suspected_after suspect events) order.now own }
        ensures kept { result ≡ successor_by (is_silent self.now) order.now own }

        // `None` exactly where no node of the list is another one that isn't suspected.
        ensures none { IsNone result ↔ (find (is_next (is_silent self.now) own) order.now ≡ None) }
    {
        let at = place_of(order, own);
        if let Some(node) = self.first_heard(past(order, at), own) {
            return Some(node);
        }
        self.first_heard(&order[..at], own)
    }
}

/// Where a node stands in a list; the list's length where it isn't listed.
fn place_of(order: &[NodeId], own: NodeId) -> usize
    ensures place { result ≡ position_or_len (λ n. n.0 == own.0) order.now }
    ensures within { result ≤ length order.now }
{
    for (at, node) in order.iter().enumerate() {
        if *node == own {
            return at;
        }
    }
    order.len()
}

/// What stands past a place of a list.
fn past(order: &[NodeId], at: usize) -> &[NodeId]
    ensures { result.now ≡ drop (at + 1) order.now }
{
    if at < order.len() {
        return &order[at + 1..];
    }
    &order[order.len()..]
}

/// How many nodes a Decide still has to go to, once it was passed on: `None` where it has gone to
/// all.
pub fn pass_on(left: u8) -> Option<u8>
    ensures { SomeIff result (0 < left) (left - 1) }
{
    left.checked_sub(1)
}
