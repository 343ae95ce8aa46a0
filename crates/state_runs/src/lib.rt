//! States and replies in every run of a valid deployment: what replicas keep, save, send, reply and show is what the fold says of
//! the entries of the book, whatever is lost, repeated, reordered or stopped in the middle.
//!
//! Definitions and laws alone: each function has an empty body, and its contract is the law. A run is a list of happenings
//! from the world in which no node has opened yet, as `IsRun` says. What bytes and replies have to do with lines is said in
//! `state_steps`. The lines before a line are `latest_first before`, where `before` are those that were printed before it, in order.
#![tactic(auto)]

ghost use Rattle.std.specs.Prelude.{◌≡◌, ◌++◌, ◌∷◌, ℕ, List, [], Option, Some};
ghost use Rattle.mrp_types.specs.declared.id.NodeId.{NodeId};
ghost use Rattle.mrp_types.specs.declared.id.ClientId.{ClientId};
ghost use Rattle.mrp_types.specs.declared.id.PartitionId.{PartitionId};
ghost use Rattle.mrp_types.specs.declared.id.RingId.{RingId};
ghost use Rattle.mrp_config.specs.Config.{Config, partition_of};
ghost use Rattle.mrp_config.specs.declared.tables.PartitionTable.{PartitionTable};
ghost use Rattle.frames.specs.declared.body.Body.TheVariants.{Part, Reply};
ghost use Rattle.frames.specs.declared.sent.Sent.{Sent};
ghost use Rattle.checkpoint.specs.Checkpoints.{Checkpoint};
ghost use Rattle.quorums.specs.Groups.{Has};
ghost use Rattle.transcript.specs.declared.line.ShownState.{ShownState};
ghost use Rattle.protocol.specs.Lines.{Line, State};
ghost use Rattle.protocol.specs.Node.{Choice, Standing};
ghost use Rattle.bare_world.specs.Worlds.{Happening, Possible, nothing};
ghost use Rattle.bare_world.specs.Runs.{run};
ghost use Rattle.line_rules.specs.Owed.{owed};
ghost use Rattle.line_rules.specs.Rules.{F3, F4, IsInTurn};
ghost use Rattle.line_runs.specs.Invariant.{latest_first, node};
ghost use Rattle.line_runs.specs.Laws.{IsPossible, IsRun, host_of, lines_of};
ghost use Rattle.state_steps.specs.Folded.{AreGathered, IsStateAt};
ghost use Rattle.state_steps.specs.States.{IsCheckpointAt};
ghost use Rattle.state_runs.specs.Invariant.{KeepsStates};
ghost use Rattle.state_runs.specs.Laws.{HasChosen, IsReady, IsUnlisted, SentPart, SentReply};

/// Every run of a valid deployment keeps states: nothing is owed, each node that is up keeps what the fold says, the newest
/// checkpoint of each state that a disk may stand for is the state at its tuple, and each frame that was ever sent is the fold's.
pub fn every_run_keeps_states()
    ensures { (c : Config) (hs : List Happening) → IsRun c hs → KeepsStates c (run c hs nothing) }
{}

/// Rule F3. Each reply line is the next of those that are owed, and no other line stands while one is owed; nothing is owed at the
/// end of a run. So each deliver line is followed by exactly the reply lines that it owes, each with the fold's reply. The names of
/// a line fit the deployment, but for those of a frame, which is listed by whoever asks for it.
pub fn replies_are_the_folds()
    ensures rule { (c : Config) (hs : List Happening) → IsRun c hs → (before after : List Line) (l : Line) → IsUnlisted l → lines_of c hs ≡ before ++ l ∷ after → F3 c (latest_first before) l }
    ensures turn { (c : Config) (hs : List Happening) → IsRun c hs → (before after : List Line) (l : Line) → lines_of c hs ≡ before ++ l ∷ after → IsInTurn c (latest_first before) l }
    ensures paid { (c : Config) (hs : List Happening) → IsRun c hs → owed c (latest_first (lines_of c hs)) ≡ [] }
{}

/// Rule F4. A state line with bytes is of a ready node, at a tuple that it has reached by skips, and the bytes are the written state
/// that the entries below the tuple leave, all of which are in the book. One without bytes is of a node that isn't ready.
pub fn states_are_the_folds()
    ensures { (c : Config) (hs : List Happening) → IsRun c hs → (before after : List Line) (x : NodeId) (shown : Option ShownState) → lines_of c hs ≡ before ++ State x shown ∷ after
        → F4 c (latest_first before) (State x shown) }
{}

/// A checkpoint that a replica's disk may stand for is at a valid tuple, its bytes are those of the state there, and they are read
/// back as it. A Part frame has the length of the state at its tuple, and the bytes from its offset on. The bytes that a replica
/// has so far of a checkpoint that it chose are none, or a front of the state at its tuple.
pub fn checkpoints_are_states()
    ensures disks { (c : Config) (hs : List Happening) → IsRun c hs → (n : ℕ) (s : Possible) (p : PartitionTable) (newest : Checkpoint) → IsPossible (host_of c hs n) s → partition_of c.partitions (node n) ≡ Some p
        → s.newest ≡ Some newest → IsCheckpointAt c (latest_first (lines_of c hs)) p newest }
    ensures frames { (c : Config) (hs : List Happening) → IsRun c hs → (sent : Sent) (epoch attempt : ℕ) (tuple : List (RingId × ℕ)) (offset total : ℕ) (bytes : List ℕ) → Has (run c hs nothing).frames sent
        → sent.frame.body ≡ Part epoch attempt tuple offset total bytes → SentPart c (latest_first (lines_of c hs)) sent tuple offset total bytes }
    ensures gathered { (c : Config) (hs : List Happening) → IsRun c hs → (n : ℕ) (p : PartitionTable) (choice : Choice) → HasChosen c hs n p choice
        → AreGathered c (latest_first (lines_of c hs)) p choice.tuple choice.bytes }
{}

/// A ready replica keeps what the fold keeps of the entries below its tuple, all of which are in the book. So two ready replicas of
/// one partition at one tuple keep the same, at one time or one later than the other: also one that was restored and one that never
/// stopped.
pub fn replicas_are_the_folds()
    ensures state { (c : Config) (hs : List Happening) → IsRun c hs → (n : ℕ) (p : PartitionTable) (standing : Standing) → IsReady c hs n p standing
        → IsStateAt c (latest_first (lines_of c hs)) p standing.tuple standing.replica }
    ensures alike { (c : Config) (first second : List Happening) → IsRun c (first ++ second) → (n m : ℕ) (p : PartitionTable) (one other : Standing) → IsReady c first n p one → IsReady c (first ++ second) m p other
        → one.tuple ≡ other.tuple → one.replica ≡ other.replica }
{}

/// Each Reply frame that was ever sent is a node's, and carries what the fold replies to the client's entry of this number at a
/// place of the node's partition, after the entries before it.
pub fn sent_replies_are_the_folds()
    ensures { (c : Config) (hs : List Happening) → IsRun c hs → (sent : Sent) (client : ClientId) (seq : ℕ) (partition : PartitionId) (bytes : List ℕ) → Has (run c hs nothing).frames sent
        → sent.frame.body ≡ Reply client seq partition bytes → SentReply c (latest_first (lines_of c hs)) sent client seq partition bytes }
{}
