//! Whether bytes are a batch, told without keeping its entries.

ghost use Rattle.std.specs.Prelude.{◌≡◌};
ghost use Rattle.mrp_types.specs.Reading.{each};
ghost use Rattle.command_codec.specs.Reader.{Passes};
ghost use Rattle.command_codec.specs.Grammar.{batch_at, entry_at};
ghost use Rattle.command_codec.specs.Parts.{spells_batch};

use crate::reading::Cursor;
use mrp_types::Entry;

/// Whether the bytes are a batch of entries, all of the bytes. It takes no memory.
pub fn is_batch(bytes: &[u8]) -> bool
    ensures { result ≡ spells_batch bytes.now }
{
    let mut fields = Cursor::new(bytes);
    if !pass_batch(&mut fields) {
        return false;
    }
    fields.is_at_end()
}

#[tactic(auto, unfolding(crate::specs::Grammar::batch_at))]
fn pass_batch(fields: &mut Cursor<'_>) -> bool
    ensures { Passes (batch_at fields.old) result fields.new }
{
    let Ok(kind) = fields.byte() else {
        return false;
    };
    if kind != 1 {
        return false;
    }
    let Ok(count) = fields.u16_within(1, 65_535) else {
        return false;
    };
    pass_entries(fields, count)
}

fn pass_entries(fields: &mut Cursor<'_>, count: u16) -> bool
    ensures { Passes (each entry_at count fields.old) result fields.new }
{
    for _turn in 0..count {
        if !pass_entry(fields) {
            return false;
        }
    }
    true
}

#[tactic(auto, unfolding(crate::specs::Grammar::entry_at))]
fn pass_entry(fields: &mut Cursor<'_>) -> bool
    ensures { Passes (entry_at fields.old) result fields.new }
{
    let Ok(_) = fields.byte() else {
        return false;
    };
    let Ok(_) = fields.u64_within(1, Entry::LAST_SEQ) else {
        return false;
    };
    let Ok(_) = fields.string(0, Entry::COMMAND) else {
        return false;
    };
    true
}
