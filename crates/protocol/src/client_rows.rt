//! A client's table on worked examples.

ghost use Rattle.std.specs.Prelude.{◌≡◌, [], ◌∷◌, codes};
ghost use Rattle.command_codec.specs.declared.command.Command.TheVariants.{Append};
ghost use Rattle.plain_model.specs.Rows.{client, log};
ghost use Rattle.protocol.specs.Lines.{Answer, Busy};
ghost use Rattle.protocol.specs.Client.{missing};
ghost use Rattle.protocol.specs.ClientRows.{Asks, Ticks, Replies, partition, two_parts, applies_effects_all, first_submit, append_hi, hi_bytes, scan_all, scan_bytes, one_entry, at_log_0};

/// An append goes to the first acceptor of the home ring of its partition.
pub fn an_ask()
    ensures { (applies_effects_all (Asks append_hi ∷ [])).frames ≡ first_submit 0 0 hi_bytes ∷ [] }
{}

/// A second command is not asked while the first has no answer, and a command of no partition never.
pub fn a_busy_client()
    ensures { (applies_effects_all (Asks (Append (log 9) (codes "x")) ∷ Asks append_hi ∷ Asks scan_all ∷ [])).lines ≡ Busy (client 0) 1 ∷ [] }
{}

/// Every fourth tick it is sent again, to the next acceptor each time.
pub fn three_tries()
    ensures { (applies_effects_all (Asks append_hi ∷ Ticks ∷ Ticks ∷ Ticks ∷ Ticks ∷ Ticks ∷ Ticks ∷ Ticks ∷ Ticks ∷ [])).frames ≡
        first_submit 0 0 hi_bytes ∷ first_submit 1 0 hi_bytes ∷ first_submit 2 0 hi_bytes ∷ [] }
{}

/// A scan of both partitions goes to their common ring.
pub fn a_scan()
    ensures { (applies_effects_all (Asks scan_all ∷ [])).frames ≡ first_submit 2 2 scan_bytes ∷ [] }
{}

/// Its parts come in any order, also again; the answer has them in the order of the partitions. Positions don't fit a scan, and
/// neither do keys of another partition; a reply to another number isn't waited for.
pub fn a_joined_answer()
    ensures { (applies_effects_all (Asks scan_all ∷ Replies 1 1 (one_entry (codes "z") (codes "2")) ∷ Replies 1 1 (one_entry (codes "z") (codes "3")) ∷
        Replies 0 1 (at_log_0 0) ∷ Replies 0 1 (one_entry (codes "y") (codes "1")) ∷ Replies 0 2 (one_entry (codes "a") (codes "9")) ∷
        Replies 0 1 (one_entry (codes "a") (codes "1")) ∷ Replies 0 1 (one_entry (codes "a") (codes "1")) ∷ [])).lines ≡
        Answer (client 0) 1 (8 ∷ 0 ∷ 0 ∷ 2 ∷ 0 ∷ 1 ∷ 97 ∷ 0 ∷ 1 ∷ 49 ∷ 0 ∷ 1 ∷ 122 ∷ 0 ∷ 1 ∷ 50 ∷ []) ∷ [] }
{}

/// The answer to an append, and then the next number.
pub fn two_commands()
    ensures { (applies_effects_all (Asks append_hi ∷ Replies 0 1 (at_log_0 0) ∷ Asks append_hi ∷ Replies 1 2 (at_log_0 1) ∷ Replies 0 2 (at_log_0 1) ∷ [])).lines ≡
        Answer (client 0) 1 (1 ∷ 1 ∷ 0 ∷ 0 ∷ 0 ∷ 0 ∷ 0 ∷ 0 ∷ 0 ∷ 0 ∷ 0 ∷ []) ∷ Answer (client 0) 2 (1 ∷ 1 ∷ 0 ∷ 0 ∷ 0 ∷ 0 ∷ 0 ∷ 0 ∷ 0 ∷ 0 ∷ 1 ∷ []) ∷ [] }
{}

/// A scan of both partitions waits for both, then for the one that hasn't replied, and in the end for none.
pub fn what_is_missing()
    ensures both { missing two_parts (applies_effects_all (Asks scan_all ∷ [])).client ≡ partition 0 ∷ partition 1 ∷ [] }
    ensures one { missing two_parts (applies_effects_all (Asks scan_all ∷ Replies 1 1 (one_entry (codes "z") (codes "2")) ∷ [])).client ≡ partition 0 ∷ [] }
    ensures none { missing two_parts (applies_effects_all (Asks scan_all ∷ Replies 1 1 (one_entry (codes "z") (codes "2")) ∷ Replies 0 1 (one_entry (codes "a") (codes "1")) ∷ [])).client ≡ [] }
{}
