//! Tuples: where a replica stands in each of its rings.

ghost use Rattle.std.specs.Prelude.{◌≡◌, ◌≤◌, ◌<◌, ◌+◌, ◌^◌, ◌↔◌, ◌++◌, ◌∷◌, [], length, List, ℕ, true, IsTrue};
ghost use Rattle.mrp_types.specs.Rounds.{size_of};
ghost use Rattle.mrp_types.specs.Tuples.{IsTuple};
ghost use Rattle.mrp_types.specs.Moves.{place_of, first_tuple, earlier as earlier_lem, next_place as next_place_lem, moved_one as moved_one_lem, moved_past, past, is_last_before as is_last_before_lem, are_lasts_before as are_lasts_before_lem, is_valid_tuple, rings_of, entry_at, order_of, IsReached, IsOrderOf};

use crate::limits::RINGS;
use crate::{Inst, Place, RingId, RoundSizes, place_before};
use std::marker::Model;

/// How two tuples of the same rings stand to one another.
#[derive(Clone, Copy, Debug, PartialEq, Eq)]
pub enum Order {
    Before,
    Same,
    After,
}

/// For each of 1 to 16 rings, in increasing order, the next instance. Contracts see the list of the pairs.
#[derive(Clone, Copy, Debug, PartialEq, Eq)]
pub struct Tuple {
    count: u8,
    pairs: [(RingId, Inst); RINGS],
}

impl Model for Tuple {
    ghost use Rattle.std.specs.Prelude.{List, ◌≤◌, ◌≡◌, take, length, ℕ};
    ghost use Rattle.std.proofs.Common.{arith, length-take-le};
    ghost use Rattle.mrp_types.specs.Tuples.{filled, IsTuple};
    ghost use Rattle.mrp_types.specs.declared.id.RingId.{RingId};

    ghost Value = { List (RingId × ℕ) };

    ghost view = { λ t. take t.count t.pairs };

    ghost invariant = { λ t. (t.count ≤ 16) × (length t.pairs ≡ 16) × (filled (take t.count t.pairs) ≡ t.pairs) × IsTuple (take t.count t.pairs) };

    ghost inverse = { λ pairs. record { count = length pairs; pairs = filled pairs } };

    ghost inverse_ok = { λ t h i. record {
      count = length-take-le t.count t.pairs (omega (arith, h.0, h.1)) i;
      pairs = h.2 i;
    } };
}

impl Tuple {
    /// The tuple of nothing, of 1 to 16 increasing rings below 16.
    pub fn zero(rings: &[RingId]) -> Self
        requires { IsTuple (first_tuple rings.now) }
        ensures { result ≡ first_tuple rings.now }
    {
        let mut kept = [(RingId(0), 0); RINGS];
        for i in 0..rings.len() {
            kept[i] = (rings[i], 0);
        }
        Tuple {
            count: rings.len() as u8,
            pairs: kept,
        }
    }

    /// These pairs: 1 to 16, with increasing rings below 16 and instances at most the end.
    #[tactic(auto, using(crate::proofs::TupleLemmas::one_more))]
    pub fn from_pairs(pairs: &[(RingId, Inst)]) -> Self
        requires { IsTuple pairs.now }
        ensures { result ≡ pairs.now }
    {
        let mut kept = [(RingId(0), 0); RINGS];
        for i in 0..pairs.len() {
            kept[i] = pairs[i];
        }
        Tuple {
            count: pairs.len() as u8,
            pairs: kept,
        }
    }

    /// The pairs in order.
    pub fn pairs(&self) -> &[(RingId, Inst)]
        ensures pairs { result.now ≡ self.now }
        ensures tuple { IsTuple self.now }
    {
        &self.pairs[..usize::from(self.count)]
    }

    /// The next instance of a ring, none where the ring isn't one of the tuple's.
    pub fn get(&self, ring: RingId) -> Option<Inst>
        ensures { result ≡ entry_at ring self.now }
    {
        entry_of(self.pairs(), ring)
    }

    /// Whether the places below the tuple are the first places of its rings, as many as there are, in the order of
    /// these rounds.
    pub fn is_valid(&self, m: &RoundSizes) -> bool
        ensures test { result ≡ is_valid_tuple (size_of m.now) self.now }
        ensures reached { IsTrue result ↔ IsReached (size_of m.now) self.now }
    {
        let next = first_of(m, self.pairs());
        are_lasts_before(m, as_place(next), self.pairs())
    }

    /// The first place of its rings that isn't below the tuple.
    pub fn next_place(&self, m: &RoundSizes) -> Place
        requires { is_valid_tuple (size_of m.now) self.now ≡ true }
        ensures { result ≡ place_of (next_place_lem (size_of m.now) self.now) }
    {
        as_place(first_of(m, self.pairs()))
    }

    /// Moves the tuple past its next place, which has to be below the end.
    pub fn advance(&mut self, m: &RoundSizes)
        requires valid { is_valid_tuple (size_of m.now) self.old ≡ true }
        requires room { (next_place_lem (size_of m.now) self.old).1 < 2 ^ 40 }
        ensures { self.new ≡ past (size_of m.now) self.old }
    {
        let next = first_of(m, self.pairs());
        *self = moved(self.pairs(), next);
    }

    /// The order of the first two entries that differ, of two tuples of the same rings. For two valid tuples of the same
    /// round sizes it says which of them has come further.
    pub fn compare(&self, other: &Tuple) -> Order
        requires { rings_of self.now ≡ rings_of other.now }
        ensures first { result ≡ order_of self.now other.now }
        ensures further { (m : ℕ → ℕ) → is_valid_tuple m self.now ≡ true → is_valid_tuple m other.now ≡ true → IsOrderOf self.now other.now result }
    {
        order_between(self.pairs(), other.pairs())
    }
}

fn as_place(pair: (RingId, Inst)) -> Place
    ensures { result ≡ place_of pair }
{
    Place {
        ring: pair.0,
        inst: pair.1,
    }
}

fn entry_of(pairs: &[(RingId, Inst)], ring: RingId) -> Option<Inst>
    ensures { result ≡ entry_at ring pairs.now }
{
    for pair in pairs {
        if pair.0.0 == ring.0 {
            return Some(pair.1);
        }
    }
    None
}

// The earliest of the places at which rings go on, the first of two that are one.
fn first_of(m: &RoundSizes, pairs: &[(RingId, Inst)]) -> (RingId, Inst)
    requires { 1 ≤ length pairs.now }
    ensures { result ≡ next_place_lem (size_of m.now) pairs.now }
{
    let last = pairs.len() - 1;
    let mut first = pairs[last];
    for i in (0..last).rev() {
        first = earlier(m, pairs[i], first);
    }
    first
}

fn earlier(m: &RoundSizes, a: (RingId, Inst), b: (RingId, Inst)) -> (RingId, Inst)
    ensures { result ≡ earlier_lem (size_of m.now) a b }
{
    if place_before(m, as_place(b), as_place(a)) {
        b
    } else {
        a
    }
}

// Whether the last place of each ring below the tuple comes before this place.
fn are_lasts_before(m: &RoundSizes, next: Place, pairs: &[(RingId, Inst)]) -> bool
    ensures { result ≡ are_lasts_before_lem (size_of m.now) next pairs.now }
{
    for pair in pairs {
        if !is_last_before(m, next, *pair) {
            return false;
        }
    }
    true
}

fn is_last_before(m: &RoundSizes, next: Place, pair: (RingId, Inst)) -> bool
    ensures { result ≡ is_last_before_lem (size_of m.now) next pair.0 pair.1 }
{
    if pair.1 == 0 {
        return true;
    }
    let last = (pair.0, pair.1 - 1);
    place_before(m, as_place(last), next)
}

// These pairs, moved past a place.
#[tactic(auto, using(crate::proofs::TupleLemmas::length_moved, crate::proofs::TupleLemmas::moved_more))]
fn moved(pairs: &[(RingId, Inst)], place: (RingId, Inst)) -> Tuple
    requires tuple { IsTuple (moved_past place pairs.now) }
    requires room { place.1 < 2 ^ 40 }
    ensures { result ≡ moved_past place pairs.now }
{
    let mut kept = [(RingId(0), 0); RINGS];
    for i in 0..pairs.len() {
        kept[i] = moved_one(pairs[i], place);
    }
    Tuple {
        count: pairs.len() as u8,
        pairs: kept,
    }
}

fn moved_one(pair: (RingId, Inst), place: (RingId, Inst)) -> (RingId, Inst)
    requires { place.1 < 2 ^ 40 }
    ensures { result ≡ moved_one_lem place pair }
{
    if pair.0.0 == place.0.0 {
        (pair.0, place.1 + 1)
    } else {
        pair
    }
}

fn order_between(own: &[(RingId, Inst)], others: &[(RingId, Inst)]) -> Order
    requires { length own.now ≡ length others.now }
    ensures { result ≡ order_of own.now others.now }
{
    for i in 0..own.len() {
        if own[i].1 < others[i].1 {
            return Order::Before;
        }
        if others[i].1 < own[i].1 {
            return Order::After;
        }
    }
    Order::Same
}
