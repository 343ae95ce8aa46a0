//! Laws: an attempt, and what a node does with what it says, is the protocol's recovery. The functions have empty bodies: their
//! contracts are the laws.

ghost use Rattle.std.specs.Prelude.{◌≡◌, ◌+◌, ℕ, true, false, Bool, List, if◌then◌else◌};
ghost use Rattle.mrp_types.specs.declared.id.NodeId.{NodeId};
ghost use Rattle.mrp_types.specs.declared.id.RingId.{RingId};
ghost use Rattle.mrp_config.specs.Config.{Config};
ghost use Rattle.plain_model.specs.Tuples.{round_sizes, is_tuple_of};
ghost use Rattle.protocol.specs.Node.{StepSoFar, View, Service, Attempt, Recovering};
ghost use Rattle.protocol.specs.Recovery.{answered_by, takes_part, takes_gone, recovery_ticks, begins_next, epoch_of, own_tuple};
ghost use Rattle.recovery.specs.Attempts.{Trying, begun, heard, is_heard, parted, is_parted, gone, is_gone, ticked};
ghost use Rattle.recovery.specs.Steps.{StandsFor, left_of, goes_on, does_on_tick, asks_all};
ghost use Rattle.recovery.specs.Turns.{turn_of, tick_turn};

/// A new attempt of the protocol: its line, the asks, and then what the begun attempt says, in a service that counts it.
pub fn a_begun_attempt_is_the_protocols()
    ensures { (config : Config) (service : Service) (a : StepSoFar) (r : Trying) → r ≡ begun config service.partition a.view.id (epoch_of a.view) (service.attempts + 1) (own_tuple a.view service) →
        begins_next config service a ≡ goes_on config (record service { attempts = service.attempts + 1 }) r.attempt r (turn_of r) (asks_all service (service.attempts + 1) a) }
{}

/// An answer with a valid tuple of the partition: where it counts the attempt says what to do, else nothing is done.
pub fn an_answer_is_the_protocols()
    ensures { (config : Config) (service : Service) (a : StepSoFar) (r : Trying) (attempt : Attempt) (from : NodeId) (epoch number : ℕ) (tuple : List (RingId × ℕ)) →
        StandsFor config service a.view r attempt → is_tuple_of (round_sizes config) service.partition.rings tuple ≡ true →
        answered_by config service attempt from epoch number tuple a
        ≡ (if is_heard from epoch number r then goes_on config service attempt (heard from epoch number tuple r) (turn_of (heard from epoch number tuple r)) a else a) }
{}

/// A part of the choice, while not all bytes are there.
pub fn a_part_is_the_protocols()
    ensures { (config : Config) (service : Service) (a : StepSoFar) (r : Trying) (attempt : Attempt) (from : NodeId) (epoch number : ℕ) (tuple : List (RingId × ℕ)) (offset total : ℕ) (bytes : List ℕ) →
        StandsFor config service a.view r attempt → r.whole ≡ false →
        takes_part config service attempt from epoch number tuple offset total bytes a
        ≡ (if is_parted from epoch number tuple offset r then goes_on config service attempt (parted from epoch number tuple offset total bytes r) (turn_of (parted from epoch number tuple offset total bytes r)) a else a) }
{}

/// The chosen checkpoint is gone, and the newer tuple is a valid one of the partition.
pub fn a_gone_checkpoint_is_the_protocols()
    ensures { (config : Config) (service : Service) (a : StepSoFar) (r : Trying) (attempt : Attempt) (from : NodeId) (epoch number : ℕ) (asked newer : List (RingId × ℕ)) →
        StandsFor config service a.view r attempt → is_tuple_of (round_sizes config) service.partition.rings newer ≡ true →
        takes_gone config service attempt from epoch number asked newer a
        ≡ (if is_gone from epoch number asked newer r then goes_on config service attempt (gone from epoch number asked newer r) (turn_of (gone from epoch number asked newer r)) a else a) }
{}

/// A tick of an attempt that isn't whole, and the attempt stands for the protocol's after it.
pub fn a_tick_is_the_protocols()
    ensures step { (config : Config) (again : Bool) (service : Service) (a : StepSoFar) (r : Trying) (attempt : Attempt) →
        StandsFor config service a.view r attempt → r.whole ≡ false →
        recovery_ticks config again service (Recovering attempt) a
        ≡ does_on_tick config service (record attempt { ticks = attempt.ticks + 1 }) (tick_turn again (ticked r)) a }
    ensures stands { (config : Config) (service : Service) (a : StepSoFar) (r : Trying) (attempt : Attempt) →
        StandsFor config service a.view r attempt → StandsFor config service a.view (ticked r) (record attempt { ticks = attempt.ticks + 1 }) }
{}

/// What a call leaves stands for what the protocol's rule leaves: of a begun attempt, of an answer, a part and a checkpoint that is gone.
pub fn what_a_call_leaves_stands_for_the_protocols()
    ensures begun { (config : Config) (service : Service) (view : View) (number : ℕ) (r : Trying) → r ≡ begun config service.partition view.id (epoch_of view) number (own_tuple view service) →
        StandsFor config service view r r.attempt }
    ensures heard { (config : Config) (service : Service) (view : View) (r : Trying) (attempt : Attempt) (from : NodeId) (epoch number : ℕ) (tuple : List (RingId × ℕ)) →
        StandsFor config service view r attempt → StandsFor config service view (heard from epoch number tuple r) (left_of (heard from epoch number tuple r) attempt) }
    ensures parted { (config : Config) (service : Service) (view : View) (r : Trying) (attempt : Attempt) (from : NodeId) (epoch number : ℕ) (tuple : List (RingId × ℕ)) (offset total : ℕ) (bytes : List ℕ) →
        StandsFor config service view r attempt → StandsFor config service view (parted from epoch number tuple offset total bytes r) (left_of (parted from epoch number tuple offset total bytes r) attempt) }
    ensures gone { (config : Config) (service : Service) (view : View) (r : Trying) (attempt : Attempt) (from : NodeId) (epoch number : ℕ) (asked newer : List (RingId × ℕ)) →
        StandsFor config service view r attempt → StandsFor config service view (gone from epoch number asked newer r) (left_of (gone from epoch number asked newer r) attempt) }
{}
