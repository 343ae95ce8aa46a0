//! Deliveries, attempts and trims in every run of a valid deployment: what each line needs of the lines before it, and what
//! stays true of each disk, frame and replica, whatever is lost, repeated, reordered or stopped in the middle.
//!
//! Definitions and laws alone: each function has an empty body, and its contract is the law. A run is a list of happenings
//! from the world in which no node has opened yet, as `IsRun` says. Of the rings it takes that their learn lines keep their
//! rule, F1, in every run (`ring_runs`). The lines before a line are `latest_first before`, where `before` are those that were
//! printed before it, in order.
#![tactic(auto)]

ghost use Rattle.std.specs.Prelude.{◌≡◌, ◌≤◌, ℕ, Bool, true, List, ◌∷◌, ◌++◌, Option, Some};
ghost use Rattle.mrp_types.specs.declared.id.NodeId.{NodeId};
ghost use Rattle.mrp_types.specs.declared.id.RingId.{RingId};
ghost use Rattle.mrp_config.specs.Config.{Config, has_ring, partition_of};
ghost use Rattle.mrp_config.specs.Valid.{IsValid};
ghost use Rattle.mrp_config.specs.declared.tables.PartitionTable.{PartitionTable};
ghost use Rattle.frames.specs.declared.body.Body.{Body};
ghost use Rattle.frames.specs.declared.body.Body.TheVariants.{Gone, HaveCheckpoint, Safe};
ghost use Rattle.frames.specs.declared.sent.Sent.{Sent};
ghost use Rattle.quorums.specs.Groups.{Has};
ghost use Rattle.plain_model.specs.Tuples.{round_sizes, is_tuple_of, instances};
ghost use Rattle.protocol.specs.Lines.{Line, Begin, Chose, Deliver, Refuse, Restore, Saved, Trim};
ghost use Rattle.protocol.specs.Node.{Ready, Service, Standing, View};
ghost use Rattle.vote_state.specs.State.{trim_at};
ghost use Rattle.bare_world.specs.Worlds.{Happening, Possible, Up, nothing};
ghost use Rattle.bare_world.specs.Runs.{run};
ghost use Rattle.faithful.specs.Rules.{AllKnown, Begins, Chooses, Delivers, Refuses, Restores, Saves, Trims};
ghost use Rattle.faithful.specs.Scanners.{Reaches, entry_of, some_reaches, told};
ghost use Rattle.recovery_lines.specs.Ties.{IsAnswer, IsCovered, IsFit, TellsSafe, TellsTuple, newest_of};
ghost use Rattle.line_runs.specs.Invariant.{latest_first, node};
ghost use Rattle.line_runs.specs.Laws.{HaveOneValue, IsHeld, IsPossible, IsRun, KeepsTold, NodeSent, RestoresSince, StartsPast, host_of, lines_of, trim_told, ReachesTold, checkpoints_of};

/// Rule F2. A node delivers only while it is ready, the place that it delivers holds a batch, and from the place where it
/// stood only skips lie before it: so a replica goes through the one order of its rings without a gap, and never back. A save
/// is of a tuple that the replica has reached so, and lies after each that it told before.
pub fn deliveries_and_saves()
    ensures delivers { (c : Config) (hs : List Happening) → IsRun c hs → (before after : List Line) (x : NodeId) (ring : RingId) (inst : ℕ)
        → lines_of c hs ≡ before ++ Deliver x ring inst ∷ after → Delivers c (latest_first before) x ring inst }
    ensures saves { (c : Config) (hs : List Happening) → IsRun c hs → (before after : List Line) (x : NodeId) (printed : List ℕ)
        → lines_of c hs ≡ before ++ Saved x printed ∷ after → Saves c (latest_first before) x printed }
{}

/// Rule F6. A choice is of the attempt that is going on, of a tuple that another replica or the node itself told, and reaches
/// each trim, of every ring of the partition, whose line stands before the attempt's begin line. A restore is of the tuple
/// chosen last, at a node that isn't ready.
pub fn choices_and_restores()
    ensures chooses { (c : Config) (hs : List Happening) → IsRun c hs → (before after : List Line) (x : NodeId) (epoch attempt : ℕ) (printed : List ℕ) (from : NodeId)
        → lines_of c hs ≡ before ++ Chose x epoch attempt printed from ∷ after → Chooses c (latest_first before) x epoch attempt printed from }
    ensures restores { (c : Config) (hs : List Happening) → IsRun c hs → (before after : List Line) (x : NodeId) (printed : List ℕ)
        → lines_of c hs ≡ before ++ Restore x printed ∷ after → Restores c (latest_first before) x printed }
{}

/// Rule F6 in the headline's words: each recovery starts at or past every trim, of every ring of its partition, that was made
/// before it began. So what it needs was trimmed by nobody by then. Of lines: it starts past each trim whose line stands before its
/// attempt's begin line, and past all that the lines before that line cover, also where the trim's step was stopped and its line
/// never printed. Of worlds: an attempt that began in the second part of a run starts at or past each trim that some disk may
/// stand for, and each that a frame tells, in the world that the first part leaves.
pub fn recoveries_start_past_trims()
    ensures lines { (c : Config) (hs : List Happening) → IsRun c hs → (before after : List Line) (x : NodeId) (printed : List ℕ)
        → lines_of c hs ≡ before ++ Restore x printed ∷ after → StartsPast c (latest_first before) x printed }
    ensures disks { (c : Config) (first second : List Happening) → IsRun c (first ++ second) → (x : NodeId) (p : PartitionTable) (printed : List ℕ) → RestoresSince c first second x p printed
        → (n : ℕ) (s : Possible) → IsPossible (host_of c first n) s → (ring : RingId) → has_ring p.rings ring.0 ≡ true → trim_at s.state ring ≤ entry_of p.rings ring printed }
    ensures frames { (c : Config) (first second : List Happening) → IsRun c (first ++ second) → (x : NodeId) (p : PartitionTable) (printed : List ℕ) → RestoresSince c first second x p printed
        → (sent : Sent) (from to : NodeId) (body : Body) (ring : RingId) (trim : ℕ) → Has (run c first nothing).frames sent → NodeSent sent from to body → trim_told body ≡ Some (ring, trim)
        → has_ring p.rings ring.0 ≡ true → trim ≤ entry_of p.rings ring printed }
{}

/// Rule F7. A trim line names a node and a ring of the deployment. Where it is printed some partition subscribes to the ring, and
/// in each that does a trim quorum of replicas have told an entry of the ring that reaches the trim.
pub fn trim_lines()
    ensures { (c : Config) (hs : List Happening) → IsRun c hs → (before after : List Line) (x : NodeId) (ring : RingId) (inst : ℕ)
        → lines_of c hs ≡ before ++ Trim x ring inst ∷ after → Trims c (latest_first before) x ring inst }
{}

/// Rule F8. An attempt begins in the epoch of the node's last up line, with a number that none of its attempts had, and with a
/// valid tuple that reaches each that the node told before and below which every place is in the book.
pub fn attempts_begin()
    ensures { (c : Config) (hs : List Happening) → IsRun c hs → (before after : List Line) (x : NodeId) (epoch attempt : ℕ) (printed : List ℕ)
        → lines_of c hs ≡ before ++ Begin x epoch attempt printed ∷ after → Begins c (latest_first before) x epoch attempt printed }
{}

/// Rule F9. An attempt is refused only where it has made no choice, with its partition's recovery quorum as what was needed and
/// fewer answers than that.
pub fn attempts_are_refused()
    ensures { (c : Config) (hs : List Happening) → IsRun c hs → (before after : List Line) (x : NodeId) (epoch attempt answered needed : ℕ)
        → lines_of c hs ≡ before ++ Refuse x epoch attempt answered needed ∷ after → Refuses c (latest_first before) x epoch attempt answered needed }
{}

/// The safe rule Trim. Each trim that some disk may stand for, and each that a frame tells, is covered, whether its line was
/// printed or the step was stopped before: it is 0, or a trim quorum of each subscribed partition has told an entry that reaches
/// it. What is covered is held: in each such partition a trim quorum of replicas have, in every state that their disks may stand
/// for, a checkpoint that reaches it. For what a replica told is reached by its newest checkpoint for ever.
pub fn trims_are_covered()
    ensures disks { (c : Config) (hs : List Happening) → IsRun c hs → (n : ℕ) (s : Possible) → IsPossible (host_of c hs n) s → (ring : RingId)
        → IsCovered c (latest_first (lines_of c hs)) ring (trim_at s.state ring) }
    ensures frames { (c : Config) (hs : List Happening) → IsRun c hs → (sent : Sent) (from to : NodeId) (body : Body) (ring : RingId) (trim : ℕ) → Has (run c hs nothing).frames sent
        → NodeSent sent from to body → trim_told body ≡ Some (ring, trim) → IsCovered c (latest_first (lines_of c hs)) ring trim }
    ensures held { (c : Config) (hs : List Happening) → IsRun c hs → (ring : RingId) (inst : ℕ) → IsCovered c (latest_first (lines_of c hs)) ring inst → IsHeld c hs ring inst }
    ensures kept { (c : Config) (hs : List Happening) → IsRun c hs → (n : ℕ) (s : Possible) (p : PartitionTable) (ring : RingId) (inst : ℕ) → IsPossible (host_of c hs n) s
        → partition_of c.partitions (node n) ≡ Some p → some_reaches p.rings ring inst (told n (latest_first (lines_of c hs))) ≡ true → inst ≤ entry_of p.rings ring (newest_of p s.newest) }
{}

/// The safe rule Save, but for the bytes. In each state that a replica's disk may stand for the newest tuple is a valid one, all
/// below it is in the book, and it reaches every tuple that the node told. Below each tuple that a begin or saved line tells every
/// place is in the book. A checkpoint that a frame from node to node names or carries was told by its node, is a valid tuple of
/// that node's partition, and every place below it is in the book. What a replica told, in a line or in a frame, is reached by the
/// newest checkpoint of each of its possible states.
pub fn checkpoints_are_kept()
    ensures disks { (c : Config) (hs : List Happening) → IsRun c hs → (n : ℕ) (s : Possible) (p : PartitionTable) → IsPossible (host_of c hs n) s → partition_of c.partitions (node n) ≡ Some p
        → KeepsTold c (latest_first (lines_of c hs)) n p s }
    ensures told { (c : Config) (hs : List Happening) → IsRun c hs → (x : NodeId) (p : PartitionTable) (k : List (RingId × ℕ)) → partition_of c.partitions x ≡ Some p
        → is_tuple_of (round_sizes c) p.rings k ≡ true → Has (told x.0 (latest_first (lines_of c hs))) (instances k) → AllKnown (latest_first (lines_of c hs)) k }
    ensures frames { (c : Config) (hs : List Happening) → IsRun c hs → (sent : Sent) (from to : NodeId) (body : Body) (x : NodeId) (tuple : List (RingId × ℕ)) → Has (run c hs nothing).frames sent
        → NodeSent sent from to body → Has (checkpoints_of from to body) (x, tuple) → TellsTuple c (latest_first (lines_of c hs)) x tuple × AllKnown (latest_first (lines_of c hs)) tuple }
    ensures reached { (c : Config) (hs : List Happening) → IsRun c hs → (n : ℕ) (s : Possible) (p : PartitionTable) → IsPossible (host_of c hs n) s → partition_of c.partitions (node n) ≡ Some p
        → ReachesTold c hs (node n) p s }
{}

/// The safe rule Restore, but for the bytes. An answer that names an attempt was told by its sender, after the attempt began: it
/// reaches all that the sender had told by then. A frame that says that a checkpoint is gone names a newer one that its sender
/// told. An answer to a round of trimming comes from a replica of a subscribed partition, and names 0 or an entry that it told.
/// A ready replica stands at a valid tuple below which every place is in the book, at or past its newest checkpoint.
pub fn recoveries_are_safe()
    ensures answers { (c : Config) (hs : List Happening) → IsRun c hs → (sent : Sent) (from to : NodeId) (epoch attempt : ℕ) (tuple : List (RingId × ℕ)) → Has (run c hs nothing).frames sent
        → NodeSent sent from to (HaveCheckpoint epoch attempt tuple) → IsAnswer (latest_first (lines_of c hs)) to.0 epoch attempt from.0 (instances tuple) }
    ensures newer { (c : Config) (hs : List Happening) → IsRun c hs → (sent : Sent) (from to : NodeId) (epoch attempt : ℕ) (asked newer : List (RingId × ℕ)) → Has (run c hs nothing).frames sent
        → NodeSent sent from to (Gone epoch attempt asked newer) → Has (told from.0 (latest_first (lines_of c hs))) (instances newer) }
    ensures safe { (c : Config) (hs : List Happening) → IsRun c hs → (sent : Sent) (from to : NodeId) (ring : RingId) (round inst : ℕ) → Has (run c hs nothing).frames sent
        → NodeSent sent from to (Safe ring round inst) → TellsSafe c (latest_first (lines_of c hs)) ring (from, inst) }
    ensures valid { (c : Config) (hs : List Happening) → IsRun c hs → (n : ℕ) (view : View) (service : Service) (standing : Standing) → host_of c hs n ≡ Up view → view.service ≡ Some service
        → service.stage ≡ Ready standing → is_tuple_of (round_sizes c) service.partition.rings standing.tuple ≡ true }
    ensures known { (c : Config) (hs : List Happening) → IsRun c hs → (n : ℕ) (view : View) (service : Service) (standing : Standing) → host_of c hs n ≡ Up view → view.service ≡ Some service
        → service.stage ≡ Ready standing → AllKnown (latest_first (lines_of c hs)) standing.tuple }
    ensures onward { (c : Config) (hs : List Happening) → IsRun c hs → (n : ℕ) (view : View) (service : Service) (standing : Standing) → host_of c hs n ≡ Up view → view.service ≡ Some service
        → service.stage ≡ Ready standing → Reaches (instances standing.tuple) (newest_of service.partition view.checkpoints.newest) }
{}

/// What is used of a deployment is so of every valid one: quorums meet, a partition has a ring, and a node is a replica of one
/// partition at most.
pub fn valid_deployments_fit()
    ensures { (c : Config) → IsValid c → IsFit c }
{}

/// One value of all learn lines: two learn lines of a ring that cover an instance have the same value, whoever printed them.
pub fn learn_lines_have_one_value()
    ensures { (c : Config) (hs : List Happening) → IsRun c hs → HaveOneValue (lines_of c hs) }
{}
