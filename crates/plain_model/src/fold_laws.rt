//! A replica that takes entries one by one, and the plain lists of these entries.

ghost use Rattle.std.specs.Prelude.{◌≡◌, ◌++◌, [], ◌∷◌, ℕ, List, option_map};
ghost use Rattle.mrp_types.specs.declared.id.RingId.{RingId};
ghost use Rattle.mrp_types.specs.declared.value.Entry.{Entry};
ghost use Rattle.mrp_types.specs.Book.{Learning};
ghost use Rattle.command_codec.specs.Replies.{reply_bytes};
ghost use Rattle.mrp_config.specs.declared.tables.PartitionTable.{PartitionTable};
ghost use Rattle.plain_model.specs.Replicas.{apply, applies, empty_replica};
ghost use Rattle.plain_model.specs.StateBytes.{state_bytes};
ghost use Rattle.plain_model.specs.Fold.{entries_below, reply_to, replica_after, state_below};

/// Whatever entries a new replica takes, it keeps what the plain lists of them say.
pub fn replicas_keep_what_the_lists_say()
    ensures { (p : PartitionTable) (es : List Entry) → (applies p (empty_replica p) es).replica ≡ replica_after p es }
{}

/// To the next entry it replies what the lists say, and goes on as they do.
pub fn replicas_reply_what_the_lists_say()
    ensures { (p : PartitionTable) (es : List Entry) (e : Entry) → apply p (replica_after p es) e ≡
        record { replica = replica_after p (es ++ e ∷ []); reply = option_map reply_bytes (reply_to p es e) } }
{}

/// The state at a tuple has the bytes of what a new replica is once it took the entries below the tuple. It is known where all
/// places below are in the book.
pub fn states_are_what_replicas_keep()
    ensures { (m : ℕ → ℕ) (known : List Learning) (p : PartitionTable) (tuple : List (RingId × ℕ)) → state_below m known p tuple ≡
        option_map (λ (es : List Entry). state_bytes (applies p (empty_replica p) es).replica) (entries_below m known tuple) }
{}
