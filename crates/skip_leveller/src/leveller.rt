//! The leveller of one ballot of one ring.
ghost use Rattle.std.specs.Prelude.{◌≡◌, ◌*◌, [], ◌∷◌, ◌++◌, List, ℕ};
ghost use Rattle.skip_leveller.specs.Levelling.{Call, Started, Tick, levelling_after, answer_after, with_started, with_tick, answer_of};

use std::marker::Model;

/// Says at each delta-th tick how many instances the ring is short of its pace, which is `lambda`
/// instances a tick. A leveller belongs to one ballot: a new ballot begins with a new one.
#[derive(Clone, Copy)]
pub struct Leveller {
    lambda: u16,
    delta: u16,
    ticks: u16,
    shortfall: u32,
}

impl Model for Leveller {
    ghost use Rattle.std.specs.Prelude.{◌*◌, ◌≤◌, ◌<◌};
    ghost use Rattle.skip_leveller.specs.Levelling.{Levelling, period};

    ghost Value = { Levelling };

    ghost view = { λ l. record { lambda = l.lambda; delta = l.delta; ticks = l.ticks; shortfall = l.shortfall } };

    ghost invariant = { λ l. (l.ticks < period l.delta) × (l.shortfall ≤ l.lambda * l.delta) };

    ghost inverse = { λ v. record { lambda = v.lambda; delta = v.delta; ticks = v.ticks; shortfall = v.shortfall } };
}

/// How many instances are due from one levelling to the next.
fn due(lambda: u16, delta: u16) -> u32
    ensures { result ≡ lambda * delta }
{
    u32::from(lambda) * u32::from(delta)
}

impl Leveller {
    /// A leveller that was told nothing yet. `lambda` is the pace in instances a tick; the ring is
    /// levelled at every `delta`-th tick. Where either is 0 nothing is ever short.
    pub fn new(lambda: u16, delta: u16) -> Leveller
        ensures { result ≡ levelling_after lambda delta [] }
    {
        Leveller {
            lambda,
            delta,
            ticks: 0,
            shortfall: due(lambda, delta),
        }
    }

    /// Tells that `n` instances were started with fresh values.
    pub fn started(&mut self, n: u32)
        ensures counted { (lambda delta : ℕ) (calls : List Call) → self.old ≡ levelling_after lambda delta calls
            → self.new ≡ levelling_after lambda delta (calls ++ Started n ∷ []) }
        ensures kept { self.new ≡ with_started n self.old }
    {
        self.shortfall = self.shortfall.saturating_sub(n);
    }

    /// Tells that a tick passed, and answers how many instances are to be skipped: at each
    /// delta-th tick what was not started of the instances due since the last such tick.
    /// `None` where this isn't a delta-th tick, and where the ring isn't short.
    pub fn tick(&mut self) -> Option<u64>
        // By the calls so far.
        ensures answer { (lambda delta : ℕ) (calls : List Call) → self.old ≡ levelling_after lambda delta calls
            → result ≡ answer_after lambda delta calls }
        ensures counted { (lambda delta : ℕ) (calls : List Call) → self.old ≡ levelling_after lambda delta calls
            → self.new ≡ levelling_after lambda delta (calls ++ Tick ∷ []) }

        // By what is kept.
        ensures answer_kept { result ≡ answer_of self.old }
        ensures kept { self.new ≡ with_tick self.old }
    {
        self.advance()
    }

    /// The tick by what is kept.
    fn advance(&mut self) -> Option<u64>
        ensures answer_kept { result ≡ answer_of self.old }
        ensures kept { self.new ≡ with_tick self.old }
    {
        if self.ticks + 1 < self.delta {
            self.ticks += 1;
            return None;
        }
        let missing = self.shortfall;
        self.ticks = 0;
        self.shortfall = due(self.lambda, self.delta);
        if missing == 0 {
            return None;
        }
        Some(u64::from(missing))
    }
}
