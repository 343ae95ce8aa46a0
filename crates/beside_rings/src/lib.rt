//! What a node does besides the rules of its rings: merging, recovery, asking for what is missing, greeting. None of it
//! touches what the node keeps of a ring, nor what it records.
//!
//! Definitions and laws alone: each function has an empty body, and its contract is the law. `Untouched` says what such a
//! rule leaves alone: the parts but for the bases of their learners, the journal and the changes. What it adds are frames and
//! lines that say nothing of promises, votes and decisions.
#![tactic(auto)]

ghost use Rattle.std.specs.Prelude.{Bool, List, Option, ℕ};
ghost use Rattle.mrp_types.specs.declared.id.NodeId.{NodeId};
ghost use Rattle.mrp_types.specs.declared.id.RingId.{RingId};
ghost use Rattle.mrp_config.specs.Config.{Config};
ghost use Rattle.protocol.specs.Merging.{merges};
ghost use Rattle.protocol.specs.Node.{StepSoFar, Attempt, Service};
ghost use Rattle.protocol.specs.Recovery.{answered_by, begins, safe_of, takes_gone, takes_part, tells_checkpoint, tells_part};
ghost use Rattle.protocol.specs.Step.{recovers_if_trimmed, tells_safe};
ghost use Rattle.protocol.specs.Tick.{asks_on_beat, recovery_ticks_at};
ghost use Rattle.beside_rings.specs.Beside.{Untouched};

/// A ready replica that takes place after place of what was learned touches no ring.
pub fn merging_touches_no_ring()
    ensures { (config : Config) (a : StepSoFar) → Untouched a (merges config a) }
{}

/// Recovery touches no ring: an attempt that begins, an answer, a part, a checkpoint that is gone, a tick of an attempt, and
/// a trim below which a replica waits.
pub fn recovery_touches_no_ring()
    ensures begin { (config : Config) (service : Service) (a : StepSoFar) → Untouched a (begins config service a) }
    ensures answer { (config : Config) (service : Service) (attempt : Attempt) (from : NodeId) (epoch number : ℕ) (tuple : List (RingId × ℕ)) (a : StepSoFar)
        → Untouched a (answered_by config service attempt from epoch number tuple a) }
    ensures part { (config : Config) (service : Service) (attempt : Attempt) (from : NodeId) (epoch number : ℕ) (tuple : List (RingId × ℕ)) (offset total : ℕ)
        (bytes : List ℕ) (a : StepSoFar) → Untouched a (takes_part config service attempt from epoch number tuple offset total bytes a) }
    ensures gone { (config : Config) (service : Service) (attempt : Attempt) (from : NodeId) (epoch number : ℕ) (asked newer : List (RingId × ℕ)) (a : StepSoFar)
        → Untouched a (takes_gone config service attempt from epoch number asked newer a) }
    ensures tick { (config : Config) (again : Bool) (service : Option Service) (a : StepSoFar) → Untouched a (recovery_ticks_at config again service a) }
    ensures recovers_if_trimmed { (config : Config) (id : RingId) (trim : ℕ) (a : StepSoFar) → Untouched a (recovers_if_trimmed config id trim a) }
{}

/// Asking and telling touch no ring: what a beat asks for, greeting, and what a replica tells of its newest checkpoint. What it
/// tells to be safe of a ring is an instance.
pub fn asking_touches_no_ring()
    ensures beat { (config : Config) (turn : ℕ) (a : StepSoFar) → Untouched a (asks_on_beat config turn a) }
    ensures safe { (from : NodeId) (id : RingId) (round : ℕ) (a : StepSoFar) → Untouched a (tells_safe from id round (safe_of a.view id a.view.service) a) }
    ensures checkpoint { (service : Service) (from : NodeId) (epoch number : ℕ) (a : StepSoFar) → Untouched a (tells_checkpoint service from epoch number a) }
    ensures part { (config : Config) (service : Service) (from : NodeId) (epoch number : ℕ) (tuple : List (RingId × ℕ)) (offset : ℕ) (a : StepSoFar)
        → Untouched a (tells_part config service from epoch number tuple offset a) }
{}
