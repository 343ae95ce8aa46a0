//! Written states and replies. A replica that given entries leave of an empty one writes a state that is read back as it was,
//! and its replies are replies that have a spelling of at most 16,384 bytes.
//!
//! Entries are given where they are those of a batch of bytes. That the values of a run are such batches is no law of this crate:
//! it is left to the laws of runs, and stands here as the premise `AreOfBytes` of a book.
//!
//! The functions of this crate have empty bodies: their contracts are the laws.
#![tactic(auto)]

ghost use Rattle.std.specs.List.{AllByRecursion};
ghost use Rattle.std.specs.Prelude.{◌≡◌, ◌<◌, ◌^◌, ◌++◌, ◌∷◌, length, List, ℕ, Ok, Some, true};
ghost use Rattle.mrp_config.specs.declared.tables.PartitionTable.{PartitionTable};
ghost use Rattle.hex.specs.Hex.{IsBytes};
ghost use Rattle.mrp_types.specs.declared.id.RingId.{RingId};
ghost use Rattle.mrp_types.specs.declared.value.Entry.{Entry};
ghost use Rattle.mrp_types.specs.Book.{Learning};
ghost use Rattle.mrp_config.specs.Config.{Config};
ghost use Rattle.mrp_config.specs.Valid.{IsValid, IsPartition, IncreasesFrom, numbers_of_rings};
ghost use Rattle.plain_model.specs.Rows.{alone, hi};
ghost use Rattle.plain_model.specs.Tuples.{round_sizes, next_place, past, is_tuple_of};
ghost use Rattle.plain_model.specs.Fold.{entries_known, entries_below, state_below, replica_after, reply_to, Answered, answered_of};
ghost use Rattle.plain_model.specs.Replicas.{Replica, entries_of_batch, apply, applies, empty_replica};
ghost use Rattle.plain_model.specs.StateBytes.{state_bytes, whole_state, read_state, state_of};
ghost use Rattle.state_laws.specs.Spoken.{IsSpoken, IsSpokenOrNone, IsTextOrNone, IsReplyText, replies_listed};
ghost use Rattle.state_laws.specs.Books.{AreOfBytes};
ghost use Rattle.state_laws.specs.States.{IsState, IsGiven, AreGiven, HasFewLogs, IsSound};

/// A valid state is read as it is written, as the whole of its bytes and with bytes behind it, which stay unread.
pub fn states_are_read_back()
    ensures whole { (p : PartitionTable) (r : Replica) → IsState p r → whole_state p (state_bytes r) ≡ Ok r }
    ensures rest { (p : PartitionTable) (r : Replica) (tail : List ℕ) → IsState p r → read_state p (state_bytes r ++ tail) ≡ Ok (r, tail) }
    ensures some { (p : PartitionTable) (r : Replica) → IsState p r → state_of p (state_bytes r) ≡ Some r }
{}

/// What a given entry leaves of a valid state is valid, and the bytes that it gets are those of a reply, where it gets any. So it
/// is after a batch, and a new replica keeps a valid state whatever given entries it takes, and so do the plain lists.
pub fn replicas_stay_valid()
    ensures step { (p : PartitionTable) (r : Replica) (e : Entry) → HasFewLogs p → IsGiven e → IsState p r → IsState p (apply p r e).replica × IsTextOrNone (apply p r e).reply }
    ensures batch { (p : PartitionTable) (r : Replica) (es : List Entry) → HasFewLogs p → AreGiven es → IsState p r →
        IsState p (applies p r es).replica × AllByRecursion (λ (x : ℕ × Entry × List ℕ). IsReplyText x.2) (applies p r es).replies }
    ensures all { (p : PartitionTable) (es : List Entry) → HasFewLogs p → AreGiven es → IsState p (applies p (empty_replica p) es).replica }
    ensures lists { (p : PartitionTable) (es : List Entry) → HasFewLogs p → AreGiven es → IsState p (replica_after p es) }
{}

/// What a replica writes after given entries is read back as what it keeps.
pub fn what_replicas_write_is_read()
    ensures { (p : PartitionTable) (es : List Entry) → HasFewLogs p → AreGiven es → state_of p (state_bytes (replica_after p es)) ≡ Some (replica_after p es) }
{}

/// What the plain lists reply to a given entry after others is a reply with a spelling of at most 16,384 bytes, and so is each
/// reply to those before it. The bytes that a replica gives are those of a reply.
pub fn replies_are_replies()
    ensures next { (p : PartitionTable) (es : List Entry) (e : Entry) → HasFewLogs p → AreGiven es → IsGiven e → IsSpokenOrNone (reply_to p es e) }
    ensures all { (p : PartitionTable) (es : List Entry) → HasFewLogs p → AreGiven es → AllByRecursion (λ (a : Answered). IsSpoken a.reply) (answered_of p es) }
    ensures bytes { (p : PartitionTable) (es : List Entry) (e : Entry) → HasFewLogs p → AreGiven es → IsGiven e → IsTextOrNone (apply p (replica_after p es) e).reply }
{}

/// The entries of a batch of bytes are given, and so are those below a tuple where the book is of bytes.
pub fn entries_of_bytes_are_given()
    ensures batch { (bytes : List ℕ) → IsBytes bytes → AreGiven (entries_of_batch bytes) }
    ensures below { (m : ℕ → ℕ) (known : List Learning) (tuple : List (RingId × ℕ)) (es : List Entry) → AreOfBytes known → entries_below m known tuple ≡ Some es → AreGiven es }
{}

/// The state at a tuple, where it is known and the book is of bytes, is read back as what a replica keeps once it took the entries
/// below the tuple.
pub fn states_below_are_read_back()
    ensures { (m : ℕ → ℕ) (known : List Learning) (p : PartitionTable) (tuple : List (RingId × ℕ)) (bytes : List ℕ) → HasFewLogs p → AreOfBytes known →
        state_below m known p tuple ≡ Some bytes → (es : List Entry) × (entries_below m known tuple ≡ Some es) × (state_of p bytes ≡ Some (replica_after p es)) }
{}

/// What is read of bytes is a valid state, and the bytes that were read are those that it writes: a state has one spelling.
pub fn what_is_read_was_written()
    ensures some { (p : PartitionTable) (bytes : List ℕ) (r : Replica) → IsBytes bytes → state_of p bytes ≡ Some r → (bytes ≡ state_bytes r) × IsState p r }
    ensures rest { (p : PartitionTable) (bytes : List ℕ) (r : Replica) (rest : List ℕ) → IsBytes bytes → read_state p bytes ≡ Ok (r, rest) →
        (bytes ≡ state_bytes r ++ rest) × IsState p r }
{}

/// A replica is sound where its state is valid and of bytes. So is a new one, what given entries leave of one that is, and what is
/// read of bytes. What it writes is of bytes, fewer than 2 ^ 64.
pub fn sound_replicas_stay_sound()
    ensures first { (p : PartitionTable) → HasFewLogs p → IsSound p (empty_replica p) }
    ensures batch { (p : PartitionTable) (r : Replica) (es : List Entry) → HasFewLogs p → AreGiven es → IsSound p r → IsSound p (applies p r es).replica }
    ensures read { (p : PartitionTable) (bytes : List ℕ) (r : Replica) → IsBytes bytes → state_of p bytes ≡ Some r → IsSound p r }
    ensures bytes { (p : PartitionTable) (r : Replica) → HasFewLogs p → IsSound p r → IsBytes (state_bytes r) }
    ensures short { (p : PartitionTable) (r : Replica) → IsSound p r → length (state_bytes r) < 2 ^ 64 }
{}

/// A replica that takes a batch after other entries keeps what the plain lists say of all of them, and its replies are, by their
/// places in the batch, those that the lists give one after another.
pub fn batches_go_on()
    ensures { (p : PartitionTable) (before es : List Entry) → applies p (replica_after p before) es ≡
        record { replica = replica_after p (before ++ es); replies = replies_listed p 0 before es } }
{}

/// The partitions of a valid deployment have at most 64 logs, each below 64, and rings that increase, and no ring's round is empty.
pub fn deployments_keep_to_limits()
    ensures logs { (nodes rings : List ℕ) (p : PartitionTable) → IsPartition nodes rings p → HasFewLogs p × IncreasesFrom 0 (numbers_of_rings p.rings) }
    ensures rounds { (c : Config) (ring : ℕ) → IsValid c → 0 < round_sizes c ring }
{}

/// An entry and a partition that meet the premises of these laws.
pub fn an_entry_is_given()
    ensures { HasFewLogs alone × IsGiven hi }
{}

/// A move of a tuple past a place whose entries are known adds them to those below it, and leaves the state that a replica keeps
/// once it took them as well.
pub fn states_below_go_on()
    ensures { (m : ℕ → ℕ) (known : List Learning) (p : PartitionTable) (ring : RingId) (rings : List RingId) (tuple : List (RingId × ℕ)) (es more : List Entry) →
        IncreasesFrom 0 (numbers_of_rings (ring ∷ rings)) → is_tuple_of m (ring ∷ rings) tuple ≡ true →
        entries_below m known tuple ≡ Some es → entries_known known (next_place m tuple) ≡ Some more →
        (entries_below m known (past m tuple) ≡ Some (es ++ more)) ×
        (state_below m known p (past m tuple) ≡ Some (state_bytes (applies p (replica_after p es) more).replica)) }
{}
