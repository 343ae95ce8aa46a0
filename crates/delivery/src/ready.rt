//! The ready replica.
ghost use Rattle.std.specs.Prelude.{◌≡◌, ◌≤◌, ◌<◌, ◌+◌, ◌^◌, ◌++◌, ◌∷◌, [], length, true, IfOk, OnOk};
ghost use Rattle.std.specs.List.{AllByRecursion};
ghost use Rattle.mrp_types.specs.Rounds.{size_of};
ghost use Rattle.mrp_types.specs.Entries.{IsEntry};
ghost use Rattle.mrp_types.specs.Tuples.{IsTuple};
ghost use Rattle.mrp_types.specs.Moves.{is_valid_tuple, rings_of, count_below};
ghost use Rattle.mrp_config.specs.Config.{Config};
ghost use Rattle.transcript.specs.declared.line.Line.TheVariants.{Deliver as Delivered};
ghost use Rattle.plain_model.specs.Fold.{known_entries};
ghost use Rattle.plain_model.specs.Replicas.{applies};
ghost use Rattle.plain_model.specs.StateBytes.{state_bytes};
ghost use Rattle.merge.specs.Merged.{learned_at, Merges};
ghost use Rattle.protocol.specs.Node.{StepSoFar, Service, Ready as IsReady, with_stage};
ghost use Rattle.protocol.specs.Merging.{merges as merges_lem};
ghost use Rattle.delivery.specs.Told.{Told, pair_of};
ghost use Rattle.delivery.specs.Readied.{Fits, with_all, IsBehind};

use crate::Learned;
use crate::batch::{Delivery, entries_in, take_entries};
use crate::learned::Looks;
use command_codec::Entries;
use frames::Frames;
use merge::{Merge, Next};
use mrp_types::{Memory, NodeId, Octets, Place, RoundSizes, Tuple};
use replica_state::ReplicaState;
use std::alloc::Global;
use std::marker::Model;
use transcript::{Line, Lines};

/// A replica that has a state: where its merge stands, what it keeps, and how many batches it delivered since its last
/// checkpoint.
#[derive(Drop)]
pub struct Ready {
    alloc: Global,
    state: ReplicaState,
    merge: Merge,
    delivered: u64,
}

impl Model for Ready {
    ghost use Rattle.std.specs.Prelude.{◌≤◌};
    ghost use Rattle.mrp_types.specs.Moves.{count_below};
    ghost use Rattle.delivery.specs.Readied.{Readied};

    ghost Value = { Readied };

    ghost view = { λ r. record {
      partition = r.state.partition;
      sizes = r.merge.sizes;
      standing = record { tuple = r.merge.tuple; replica = r.state.replica; delivered = r.delivered };
    } };

    ghost invariant = { λ r. r.delivered ≤ count_below r.merge.tuple };
}

impl Ready {
    /// A replica that goes on behind the places below a valid tuple, from the state there.
    pub fn at(alloc: Global, tuple: Tuple, rounds: &RoundSizes, state: ReplicaState) -> Ready
        requires { is_valid_tuple (size_of rounds.now) tuple ≡ true }
        ensures { result ≡ record { partition = state.partition; sizes = rounds.now; standing = record { tuple = tuple; replica = state.replica; delivered = 0 } } }
    {
        Ready {
            alloc,
            state,
            merge: Merge::at(tuple, rounds),
            delivered: 0,
        }
    }

    /// Takes what was learned of its rings, place after place, up to the first place at which nothing is learned. Of a batch
    /// it tells that it was delivered, and then the reply to each of its entries that has one. After `Memory` the replica is
    /// spent.
    pub fn merge<L: Learned>(
        &mut self,
        own: NodeId,
        learned: &L,
        lines: &mut Lines,
        replies: &mut Frames,
    ) -> Result<(), Memory>
        requires { length (L.maps learned.now) ≡ length self.old.standing.tuple }
        ensures merges { OnOk result ((config : Config) (service : Service) (a : StepSoFar) → Fits config service a.view own (L.maps learned.now) self.old →
            merges_lem config (with_all lines.old replies.old (with_stage service (IsReady self.old.standing) a)) ≡ with_all lines.new replies.new (with_stage service (IsReady self.new.standing) a)) }
        ensures partition { OnOk result (self.new.partition ≡ self.old.partition) }
        ensures sizes { OnOk result (self.new.sizes ≡ self.old.sizes) }
        ensures rings { OnOk result (rings_of self.new.standing.tuple ≡ rings_of self.old.standing.tuple) }
    {
        'places: loop {
            let Next::Deliver(place) = self.pass(learned) else {
                return Ok(());
            };
            let entries = self.entries_at(learned, place)?;
            self.deliver(own, place, &entries, lines, replies)?;
        }
    }

    /// Passes the skips that come next, and then the next place where it has a batch.
    fn pass<L: Learned>(&mut self, learned: &L) -> Next
        requires { length (L.maps learned.now) ≡ length self.old.standing.tuple }
        ensures merges { Merges (size_of self.old.sizes) (L.maps learned.now) self.old.standing.tuple result self.new.standing.tuple }
        ensures rest { self.new ≡ record self.old { standing = record self.old.standing { tuple = self.new.standing.tuple } } }
        ensures rings { rings_of self.new.standing.tuple ≡ rings_of self.old.standing.tuple }
        ensures tuple { IsTuple self.old.standing.tuple }
        ensures few { count_below self.new.standing.tuple ≤ 2 ^ 44 }
        ensures behind { IsBehind self.new.standing result }
    {
        let mut looks = Looks::new(learned);
        self.tuple();
        let next = self.merge.next(&mut looks);
        self.tuple();
        next
    }

    /// The entries of what was learned at a place of its rings.
    fn entries_at<L: Learned>(&self, learned: &L, place: Place) -> Result<Entries, Memory>
        requires { length (L.maps learned.now) ≡ length self.now.standing.tuple }
        ensures entries { IfOk result (λ entries. entries ≡ known_entries (learned_at (rings_of self.now.standing.tuple) (L.maps learned.now) (pair_of place))) }
        ensures valid { IfOk result (λ entries. AllByRecursion IsEntry entries) }
    {
        let tuple = self.tuple();
        let pairs = tuple.pairs();
        for i in 0..pairs.len() {
            if pairs[i].0.0 == place.ring.0 {
                return entries_in(self.alloc, learned.learner(i as u8).at(place.inst));
            }
        }
        Ok(Entries::new(self.alloc))
    }

    /// Tells that the batch of a place is delivered, applies its entries in order, and tells their replies.
    fn deliver(
        &mut self,
        own: NodeId,
        place: Place,
        entries: &Entries,
        lines: &mut Lines,
        replies: &mut Frames,
    ) -> Result<(), Memory>
        requires valid { AllByRecursion IsEntry entries.now }
        requires behind { self.old.standing.delivered < count_below self.old.standing.tuple }
        requires few { count_below self.old.standing.tuple ≤ 2 ^ 44 }
        ensures ready { OnOk result (self.new ≡ record self.old {
          standing = record self.old.standing {
            replica = (applies self.old.partition self.old.standing.replica entries.now).replica;
            delivered = self.old.standing.delivered + 1;
          };
        }) }
        ensures told { OnOk result (Told (record { own = own; partition = self.old.partition.id; place = place }) (applies self.old.partition self.old.standing.replica entries.now).replies
            (lines.old ++ Delivered own place.ring place.inst ∷ []) lines.new replies.old replies.new) }
    {
        lines.push(Line::Deliver {
            node: own,
            ring: place.ring,
            inst: place.inst,
        })?;
        let at = Delivery {
            own,
            partition: self.state.partition(),
            place,
        };
        take_entries(
            self.alloc,
            &at,
            &mut self.state,
            entries.items(),
            lines,
            replies,
        )?;
        self.delivered += 1;
        Ok(())
    }

    /// The next instance of each of its rings.
    pub fn tuple(&self) -> Tuple
        ensures tuple { result ≡ self.now.standing.tuple }
        ensures valid { is_valid_tuple (size_of self.now.sizes) result ≡ true }
        ensures pairs { IsTuple result }
    {
        let tuple = self.merge.tuple();
        tuple.pairs();
        tuple
    }

    /// How many batches were delivered since the last checkpoint.
    pub fn delivered(&self) -> u64
        ensures { result ≡ self.now.standing.delivered }
    {
        self.delivered
    }

    /// A checkpoint was saved.
    pub fn saved(&mut self)
        ensures { self.new ≡ record self.old { standing = record self.old.standing { delivered = 0 } } }
    {
        self.delivered = 0;
    }

    /// The bytes of the state.
    pub fn write(&self) -> Result<Octets, Memory>
        ensures { IfOk result (λ bytes. bytes ≡ state_bytes self.now.standing.replica) }
    {
        self.state.write()
    }
}
