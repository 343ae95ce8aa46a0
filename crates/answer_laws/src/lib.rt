//! A client's answer and what the partitions reply. Where each concerned partition replies to a client's number, at whatever
//! tuple of its own, these replies joined are the answer of the book, which is taken at one place of all partitions.
//!
//! The functions of this crate have empty bodies: their contracts are the laws.
#![tactic(auto)]

ghost use Rattle.std.specs.Prelude.{◌≡◌, ◌++◌, ◌∷◌, ℕ, List, Some, Ok, false, true};
ghost use Rattle.std.specs.List.{AllByRecursion};
ghost use Rattle.mrp_types.specs.declared.id.ClientId.{ClientId};
ghost use Rattle.mrp_types.specs.declared.id.PartitionId.{PartitionId};
ghost use Rattle.mrp_types.specs.declared.id.RingId.{RingId};
ghost use Rattle.mrp_types.specs.declared.value.Entry.{Entry};
ghost use Rattle.mrp_types.specs.Book.{Learning};
ghost use Rattle.command_codec.specs.declared.command.Command.{Command};
ghost use Rattle.command_codec.specs.declared.reply.Reply.{Reply};
ghost use Rattle.command_codec.specs.Replies.{reply_bytes, joined};
ghost use Rattle.mrp_config.specs.declared.tables.PartitionTable.{PartitionTable};
ghost use Rattle.mrp_config.specs.Config.{Config};
ghost use Rattle.mrp_config.specs.Valid.{IsValid};
ghost use Rattle.mrp_config.specs.Routing.{concerned_of, route_of};
ghost use Rattle.plain_model.specs.Fold.{answered_of, reply_in, reply_to, concerns, is_asked, answer_of};
ghost use Rattle.answer_laws.specs.Answering.{RepliesTo, AreReplies, IsReplyOf, IsAskedOnce, AreInPlace};

/// The reply that a later list has to the first entry of a client's number is what this entry gets where it stands: what comes
/// after it changes nothing.
pub fn replies_are_those_of_the_first_entry()
    ensures { (p : PartitionTable) (client : ClientId) (seq : ℕ) (before after : List Entry) (e : Entry) (reply : Reply) → is_asked client seq e ≡ true
        → AllByRecursion (λ (x : Entry). is_asked client seq x ≡ false) before → concerns p e ≡ true → reply_in client seq (answered_of p (before ++ e ∷ after)) ≡ Some reply
        → reply_to p before e ≡ Some reply }
{}

/// What a partition replies by the book it replies as the book grows.
pub fn replies_stay()
    ensures one { (c : Config) (known more : List Learning) (client : ClientId) (seq : ℕ) (p : PartitionTable) (reply : Reply) → RepliesTo c known client seq p reply → RepliesTo c (known ++ more) client seq p reply }
    ensures bytes { (c : Config) (known more : List Learning) (client : ClientId) (seq : ℕ) (partition : PartitionId) (bytes : List ℕ) → IsReplyOf c known client seq partition bytes
        → IsReplyOf c (known ++ more) client seq partition bytes }
{}

/// Where the book has one command of a client's number, on the ring that orders it, the replies of all concerned partitions are
/// those at one place, the first that has the number, and joined they are the answer of the book.
pub fn joined_replies_are_the_answer()
    ensures answer { (c : Config) (known : List Learning) (client : ClientId) (seq : ℕ) (ring : RingId) (command : Command) (replies : List Reply) → IsValid c
        → route_of (concerned_of command c.partitions) ≡ Ok ring → IsAskedOnce known client seq ring command → AreReplies c known client seq (concerned_of command c.partitions) replies
        → answer_of c known client seq ≡ Some (reply_bytes (joined replies)) }
    ensures place { (c : Config) (known : List Learning) (client : ClientId) (seq : ℕ) (ring : RingId) (command : Command) (replies : List Reply) → IsValid c
        → route_of (concerned_of command c.partitions) ≡ Ok ring → IsAskedOnce known client seq ring command → AreReplies c known client seq (concerned_of command c.partitions) replies
        → AreInPlace c known client seq command }
{}
