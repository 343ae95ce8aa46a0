//! How many bytes states and replies have.

ghost use Rattle.std.specs.Prelude.{◌≡◌, ◌≤◌, ◌++◌, ℕ, List, length};
ghost use Rattle.command_codec.specs.declared.reply.TableEntry.{TableEntry};
ghost use Rattle.command_codec.specs.Replies.{reply_bytes};
ghost use Rattle.plain_model.specs.Replicas.{LogState, services_size, entry_size, page_of};
ghost use Rattle.plain_model.specs.Pages.{front_within, IsLongestFront};
ghost use Rattle.plain_model.specs.StateBytes.{logs_bytes, table_bytes};

/// The size of the services is how many bytes their two sections have in the written state.
pub fn sizes_are_written_bytes()
    ensures { (logs : List LogState) (table : List TableEntry) → services_size logs table ≡ length (logs_bytes logs ++ table_bytes table) }
{}

/// The entries of a page are the longest front that has room.
pub fn pages_are_longest_fronts()
    ensures { (room : ℕ) (all : List TableEntry) → IsLongestFront entry_size room all (front_within entry_size room all) }
{}

/// A page's reply has at most 16,384 bytes.
pub fn pages_are_short()
    ensures { (all : List TableEntry) → length (reply_bytes (page_of all)) ≤ 16384 }
{}
