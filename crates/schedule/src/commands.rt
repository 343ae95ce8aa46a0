//! Commands from words.

ghost use Rattle.std.specs.Prelude.{◌≡◌, ◌∷◌};
ghost use Rattle.text_lines.specs.Reading.{Reads};
ghost use Rattle.text_lines.specs.Words.{by_key};
ghost use Rattle.text_lines.specs.declared.fault.TextFault.TheVariants.{Word as NoWord};
ghost use Rattle.mrp_config.specs.Routing.{is_below};
ghost use Rattle.schedule.specs.Reading.{append_at, multi_at, read_at, trimlog_at, get_at, scan_at, update_at, insert_at, delete_at, swap_at, commands_on_keys, command_at};

use crate::words::{read_bytes, read_log, read_logs, read_number};
use command_codec::Command;
use mrp_types::limits::{KEY, STORED};
use std::alloc::Global;
use std::cmp::Ordering;
use text_lines::{TextFault, Words};

/// The command whose words come next.
#[tactic(auto, unfolding(crate::specs::Reading::command_at))]
pub fn read_command(alloc: Global, words: &mut Words<'_>) -> Result<Command, TextFault>
    ensures { Reads (λ c. c) (command_at words.old) result words.new }
{
    let word = words.word()?;
    if word == b"append".as_slice() {
        return read_append(alloc, words);
    }
    if word == b"multi".as_slice() {
        return read_multi(alloc, words);
    }
    if word == b"read".as_slice() {
        return read_position(words);
    }
    if word == b"trimlog".as_slice() {
        return read_trimlog(words);
    }
    read_on_keys(alloc, word, words)
}

// The commands on keys.
#[tactic(auto, unfolding(crate::specs::Reading::commands_on_keys))]
fn read_on_keys(alloc: Global, word: &[u8], words: &mut Words<'_>) -> Result<Command, TextFault>
    ensures { Reads (λ c. c) (by_key NoWord commands_on_keys (word.now ∷ words.old)) result words.new }
{
    if word == b"get".as_slice() {
        return read_get(alloc, words);
    }
    if word == b"scan".as_slice() {
        return read_scan(alloc, words);
    }
    if word == b"update".as_slice() {
        return read_update(alloc, words);
    }
    if word == b"insert".as_slice() {
        return read_insert(alloc, words);
    }
    if word == b"delete".as_slice() {
        return read_delete(alloc, words);
    }
    if word == b"swap".as_slice() {
        return read_swap(alloc, words);
    }
    Err(TextFault::Word)
}

#[tactic(auto, unfolding(crate::specs::Reading::append_at))]
fn read_append(alloc: Global, words: &mut Words<'_>) -> Result<Command, TextFault>
    ensures { Reads (λ c. c) (append_at words.old) result words.new }
{
    let log = read_log(words)?;
    let value = read_bytes(alloc, words, 0, STORED)?;
    Ok(Command::Append { log, value })
}

#[tactic(auto, unfolding(crate::specs::Reading::multi_at))]
fn read_multi(alloc: Global, words: &mut Words<'_>) -> Result<Command, TextFault>
    ensures { Reads (λ c. c) (multi_at words.old) result words.new }
{
    let logs = read_logs(alloc, words)?;
    let value = read_bytes(alloc, words, 0, STORED)?;
    Ok(Command::Multi { logs, value })
}

#[tactic(auto, unfolding(crate::specs::Reading::read_at))]
fn read_position(words: &mut Words<'_>) -> Result<Command, TextFault>
    ensures { Reads (λ c. c) (read_at words.old) result words.new }
{
    let log = read_log(words)?;
    let position = read_number(words)?;
    Ok(Command::ReadLog { log, position })
}

#[tactic(auto, unfolding(crate::specs::Reading::trimlog_at))]
fn read_trimlog(words: &mut Words<'_>) -> Result<Command, TextFault>
    ensures { Reads (λ c. c) (trimlog_at words.old) result words.new }
{
    let log = read_log(words)?;
    let position = read_number(words)?;
    Ok(Command::TrimLog { log, position })
}

#[tactic(auto, unfolding(crate::specs::Reading::get_at))]
fn read_get(alloc: Global, words: &mut Words<'_>) -> Result<Command, TextFault>
    ensures { Reads (λ c. c) (get_at words.old) result words.new }
{
    let key = read_bytes(alloc, words, 1, KEY)?;
    Ok(Command::Get { key })
}

#[tactic(auto, unfolding(crate::specs::Reading::scan_at))]
fn read_scan(alloc: Global, words: &mut Words<'_>) -> Result<Command, TextFault>
    ensures { Reads (λ c. c) (scan_at words.old) result words.new }
{
    let from = read_bytes(alloc, words, 0, KEY)?;
    let to = read_bytes(alloc, words, 0, KEY)?;
    if !ends_after(from.bytes(), to.bytes()) {
        return Err(TextFault::Range);
    }
    Ok(Command::Scan { from, to })
}

// Whether there is no end, or it is behind `from`.
fn ends_after(from: &[u8], to: &[u8]) -> bool
    ensures { result ≡ is_below from.now to.now }
{
    to.is_empty() || from.cmp(to) == Ordering::Less
}

#[tactic(auto, unfolding(crate::specs::Reading::update_at))]
fn read_update(alloc: Global, words: &mut Words<'_>) -> Result<Command, TextFault>
    ensures { Reads (λ c. c) (update_at words.old) result words.new }
{
    let key = read_bytes(alloc, words, 1, KEY)?;
    let value = read_bytes(alloc, words, 0, STORED)?;
    Ok(Command::Update { key, value })
}

#[tactic(auto, unfolding(crate::specs::Reading::insert_at))]
fn read_insert(alloc: Global, words: &mut Words<'_>) -> Result<Command, TextFault>
    ensures { Reads (λ c. c) (insert_at words.old) result words.new }
{
    let key = read_bytes(alloc, words, 1, KEY)?;
    let value = read_bytes(alloc, words, 0, STORED)?;
    Ok(Command::Insert { key, value })
}

#[tactic(auto, unfolding(crate::specs::Reading::delete_at))]
fn read_delete(alloc: Global, words: &mut Words<'_>) -> Result<Command, TextFault>
    ensures { Reads (λ c. c) (delete_at words.old) result words.new }
{
    let key = read_bytes(alloc, words, 1, KEY)?;
    Ok(Command::Delete { key })
}

#[tactic(auto, unfolding(crate::specs::Reading::swap_at))]
fn read_swap(alloc: Global, words: &mut Words<'_>) -> Result<Command, TextFault>
    ensures { Reads (λ c. c) (swap_at words.old) result words.new }
{
    let key = read_bytes(alloc, words, 1, KEY)?;
    let old = read_bytes(alloc, words, 0, STORED)?;
    let new = read_bytes(alloc, words, 0, STORED)?;
    Ok(Command::Swap { key, old, new })
}
