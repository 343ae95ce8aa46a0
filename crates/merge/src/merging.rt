//! The merge.
ghost use Rattle.std.specs.Prelude.{◌≡◌, ◌+◌, ◌*◌, ◌≤◌, length, take, true};
ghost use Rattle.mrp_types.specs.Rounds.{size_of};
ghost use Rattle.mrp_types.specs.Moves.{is_valid_tuple, rings_of};
ghost use Rattle.merge.specs.Merged.{Merges, HasRoom, behind as behind_lem, runs_passed};

use crate::passing::pass;
use crate::{Next, Runs};
use mrp_types::limits::RINGS;
use mrp_types::{Inst, RingId, RoundSizes, Tuple};
use std::marker::Model;

/// Where a learner of several rings stands: it takes the places of its rings one after the other, in the one order of all
/// places.
#[derive(Drop)]
pub struct Merge {
    tuple: Tuple,
    rounds: RoundSizes,
}

impl Model for Merge {
    ghost use Rattle.std.specs.Prelude.{◌≡◌, true};
    ghost use Rattle.mrp_types.specs.Rounds.{size_of};
    ghost use Rattle.mrp_types.specs.Moves.{is_valid_tuple};
    ghost use Rattle.merge.specs.Merged.{Merging};

    ghost Value = { Merging };

    ghost view = { λ m. record { tuple = m.tuple; sizes = m.rounds } };

    ghost invariant = { λ m. is_valid_tuple (size_of m.rounds) m.tuple ≡ true };
}

/// These pairs, and others behind them.
fn padded(pairs: &[(RingId, Inst)]) -> [(RingId, Inst); RINGS]
    requires { length pairs.now ≤ 16 }
    ensures { take (length pairs.now) result ≡ pairs.now }
{
    let mut kept = [(RingId(0), 0); RINGS];
    for i in 0..pairs.len() {
        kept[i] = pairs[i];
    }
    kept
}

/// Where a merge stands that stops there.
fn behind(m: &RoundSizes, stop: Tuple, next: Next) -> Tuple
    requires valid { is_valid_tuple (size_of m.now) stop ≡ true }
    requires room { HasRoom (size_of m.now) next stop }
    ensures valid { is_valid_tuple (size_of m.now) result ≡ true }
    ensures rings { rings_of result ≡ rings_of stop }
    ensures behind { result ≡ behind_lem (size_of m.now) next stop }
{
    let Next::Deliver(_) = next else {
        return stop;
    };
    let mut tuple = stop;
    tuple.advance(m);
    tuple
}

impl Merge {
    /// A merge that goes on behind the places below a valid tuple.
    pub fn at(t: Tuple, m: &RoundSizes) -> Merge
        requires { is_valid_tuple (size_of m.now) t ≡ true }
        ensures { result ≡ record { tuple = t; sizes = m.now } }
    {
        Merge {
            tuple: t,
            rounds: *m,
        }
    }

    /// Passes the learned skips that come next in the one order of the places of its rings, and then gives the next place,
    /// which has a batch, and stands behind it; or the ring of the next place, where nothing is learned there. The cost
    /// follows the number of rings, and not how many skips are passed.
    pub fn next<R: Runs>(&mut self, runs: &mut R) -> Next
        requires { length (R.maps runs.old) ≡ length self.old.tuple }
        ensures merges { Merges (size_of self.old.sizes) (R.maps runs.old) self.old.tuple result self.new.tuple }
        ensures rings { rings_of self.new.tuple ≡ rings_of self.old.tuple }
        ensures sizes { self.new.sizes ≡ self.old.sizes }
        ensures maps { R.maps runs.new ≡ R.maps runs.old }
        ensures few { R.looks runs.new ≤ R.looks runs.old + length self.old.tuple + 1 }
        ensures bound { R.looks runs.new ≤ R.looks runs.old + 4 * length self.old.tuple * (runs_passed (R.maps runs.old) self.old.tuple self.new.tuple + 1) }
    {
        let count = self.tuple.pairs().len();
        let mut ahead = padded(self.tuple.pairs());
        let next = pass(&self.rounds, &mut ahead[..count], runs);
        self.tuple = behind(&self.rounds, Tuple::from_pairs(&ahead[..count]), next);
        next
    }

    /// The next instance of each of its rings: what is passed is below them.
    pub fn tuple(&self) -> Tuple
        ensures tuple { result ≡ self.now.tuple }
        ensures valid { is_valid_tuple (size_of self.now.sizes) result ≡ true }
    {
        self.tuple
    }
}
