//! Answers in every run of a valid deployment: what a client holds of the partitions' replies, and what it answers, is what the
//! book says, and stays so as the book grows.
//!
//! Definitions and laws alone: each function has an empty body, and its contract is the law. A run is a list of happenings
//! from the world in which no node has opened yet, as `IsRun` says.
#![tactic(auto)]

ghost use Rattle.std.specs.Prelude.{◌≡◌, ◌++◌, ◌∷◌, ℕ, List, Option, Some, true};
ghost use Rattle.mrp_types.specs.declared.id.ClientId.{ClientId};
ghost use Rattle.mrp_types.specs.declared.place.Place.{Place};
ghost use Rattle.mrp_types.specs.declared.value.Entry.{Entry};
ghost use Rattle.mrp_types.specs.declared.value.Value.TheVariants.{Batch};
ghost use Rattle.mrp_types.specs.Book.{Learning, book_of};
ghost use Rattle.command_codec.specs.declared.command.Command.{Command};
ghost use Rattle.command_codec.specs.declared.reply.Reply.{Reply};
ghost use Rattle.mrp_config.specs.declared.tables.PartitionTable.{PartitionTable};
ghost use Rattle.mrp_config.specs.Config.{Config, has_ring};
ghost use Rattle.mrp_config.specs.Valid.{IsValid};
ghost use Rattle.mrp_config.specs.Routing.{concerned_of};
ghost use Rattle.quorums.specs.Groups.{Has};
ghost use Rattle.plain_model.specs.Lines.{learnings};
ghost use Rattle.plain_model.specs.Fold.{answer_of, entries_below, reply_to};
ghost use Rattle.plain_model.specs.Replicas.{entries_of_batch};
ghost use Rattle.plain_model.specs.Tuples.{round_sizes, tuple_at};
ghost use Rattle.protocol.specs.Lines.{Line, Answer};
ghost use Rattle.protocol.specs.Client.{Asked};
ghost use Rattle.bare_world.specs.Worlds.{Happening, nothing};
ghost use Rattle.bare_world.specs.Runs.{run};
ghost use Rattle.ask_laws.specs.Asks.{asked_in};
ghost use Rattle.line_rules.specs.Rules.{Answers};
ghost use Rattle.line_runs.specs.Invariant.{latest_first};
ghost use Rattle.line_runs.specs.Laws.{IsRun, lines_of};
ghost use Rattle.answer_laws.specs.Answering.{RepliesTo, AreInPlace};
ghost use Rattle.answer_runs.specs.Answers.{AreParts, RepliesOfFold};

/// Each Reply frame that was ever sent carries what its partition replies by the book to the client's number.
pub fn frames_carry_replies()
    ensures { (c : Config) (hs : List Happening) → IsRun c hs → RepliesOfFold c (run c hs nothing) }
{}

/// Rule F5. An answer line is of a client of the deployment, and its bytes are the answer of the book of the lines before it: at
/// the first place that has the client's number the replies of all concerned partitions, joined.
pub fn answers_are_the_folds()
    ensures { (c : Config) (hs : List Happening) → IsRun c hs → (before after : List Line) (client : ClientId) (seq : ℕ) (bytes : List ℕ)
        → lines_of c hs ≡ before ++ Answer client seq bytes ∷ after → Answers c (latest_first before) client seq bytes }
{}

/// What a client holds of replies is for the number that it waits for alone: in the order of the partitions, of concerned ones, one
/// of each at most, and each is what this partition replies to the number by the book.
pub fn parts_are_the_folds()
    ensures { (c : Config) (hs : List Happening) → IsRun c hs → (client : ClientId) (a : Asked) → ((run c hs nothing).clients client.0).asked ≡ Some a
        → AreParts (RepliesTo c (learnings (lines_of c hs)) client a.seq) (concerned_of a.command c.partitions) a.parts }
{}

/// An answered command stays decided: however the run goes on, the answer of the book to the number is the one that was given.
pub fn answers_stay()
    ensures { (c : Config) (first second : List Happening) → IsRun c (first ++ second) → (client : ClientId) (seq : ℕ) (bytes : List ℕ)
        → Has (lines_of c first) (Answer client seq bytes) → answer_of c (learnings (lines_of c (first ++ second))) client seq ≡ Some bytes }
{}

/// Two answers to one number are one.
pub fn two_answers_are_one()
    ensures { (c : Config) (hs : List Happening) → IsRun c hs → (client : ClientId) (seq : ℕ) (one other : List ℕ)
        → Has (lines_of c hs) (Answer client seq one) → Has (lines_of c hs) (Answer client seq other) → one ≡ other }
{}

/// The safe rule Ask, of answers. A number that was answered is of a command that the client took under it, and its first entry
/// stands at one place in the book: each concerned partition subscribes to the ring of this place, has all its places before it in
/// the book, and no entry before it has this number of the client or a greater one.
pub fn answered_numbers_are_in_place()
    ensures { (c : Config) (hs : List Happening) → IsRun c hs → (client : ClientId) (seq : ℕ) (bytes : List ℕ) → Has (lines_of c hs) (Answer client seq bytes)
        → (command : Command) × (asked_in c hs client.0 seq ≡ Some command) × AreInPlace c (learnings (lines_of c hs)) client seq command }
{}

/// What a partition replies to an entry where it stands in the book, at a place of one of its rings before which all its places are
/// in the book, is what it replies to the number of this entry.
pub fn replies_given_are_replies()
    ensures { (c : Config) (known : List Learning) (p : PartitionTable) (place : Place) (batch : List ℕ) (below front rest : List Entry) (e : Entry) (reply : Reply) → IsValid c → Has c.partitions p
        → has_ring p.rings place.ring.0 ≡ true → book_of known place.ring place.inst ≡ Some (Batch batch) → entries_below (round_sizes c) known (tuple_at (round_sizes c) p.rings place) ≡ Some below
        → entries_of_batch batch ≡ front ++ e ∷ rest → reply_to p (below ++ front) e ≡ Some reply → RepliesTo c known e.client e.seq p reply }
{}
