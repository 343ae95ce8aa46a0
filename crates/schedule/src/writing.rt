//! Schedules as text.

ghost use Rattle.std.specs.Prelude.{◌≡◌, ◌++◌, IfOk, OnOk, map};
ghost use Rattle.std.specs.List.{flat_map};
ghost use Rattle.std.specs.Fmt.{decimal};
ghost use Rattle.mrp_types.specs.declared.id.LogId.{LogId as SomeLog};
ghost use Rattle.text_lines.specs.Text.{spaced, set_off, joined, line_text};
ghost use Rattle.schedule.specs.Spelling.{event_words, event_text, command_words, image_words, logs_text, schedule_text};

use crate::{Schedule, ScheduleEvent};
use command_codec::Command;
use disk_model::Image;
use mrp_types::{LogId, Memory, Octets};
use std::alloc::Global;
use text_lines::{put_bytes, put_decimal, put_hex, put_number, put_word};

/// The one spelling of a schedule: a line for each event.
pub fn write(alloc: Global, schedule: &Schedule) -> Result<Octets, Memory>
    ensures { IfOk result (λ text. text ≡ schedule_text schedule.now) }
{
    let mut out = Octets::new(alloc);
    let events = schedule.items();
    for event in events {
        put_event(&mut out, event)?;
    }
    Ok(out)
}

/// Adds an event's line to the text so far. After a refusal nothing is said of what the text is.
pub fn put_event(out: &mut Octets, event: &ScheduleEvent) -> Result<(), Memory>
    ensures { OnOk result (out.new ≡ out.old ++ event_text event.now) }
{
    put_words(out, event)?;
    out.push(b'\n')
}

// Adds the words of an event.
fn put_words(out: &mut Octets, event: &ScheduleEvent) -> Result<(), Memory>
    ensures { OnOk result (out.new ≡ out.old ++ joined (event_words event.now)) }
{
    match event {
        ScheduleEvent::Ask { client, command } => {
            put_head(out, b"ask", u64::from(client.0))?;
            put_command(out, command)
        }
        ScheduleEvent::Flow { count } => put_head(out, b"flow", u64::from(*count)),
        ScheduleEvent::Lose { count } => put_head(out, b"lose", u64::from(*count)),
        ScheduleEvent::Deliver { frame } => put_head(out, b"deliver", *frame),
        ScheduleEvent::List { frame } => put_head(out, b"list", *frame),
        ScheduleEvent::TickAll => {
            out.extend(b"tick")?;
            put_word(out, b"all")
        }
        ScheduleEvent::TickNode { node } => {
            out.extend(b"tick")?;
            put_word(out, b"node")?;
            put_number(out, u64::from(node.0))
        }
        ScheduleEvent::TickClient { client } => {
            out.extend(b"tick")?;
            put_word(out, b"client")?;
            put_number(out, u64::from(client.0))
        }
        ScheduleEvent::Lead { node, ring } => {
            put_head(out, b"lead", u64::from(node.0))?;
            put_number(out, u64::from(ring.0))
        }
        ScheduleEvent::Crash { node } => put_head(out, b"crash", u64::from(node.0)),
        ScheduleEvent::Restart { node, image } => {
            put_head(out, b"restart", u64::from(node.0))?;
            put_image(out, *image)
        }
        ScheduleEvent::Fuse { node, calls } => {
            put_head(out, b"fuse", u64::from(node.0))?;
            put_number(out, u64::from(*calls))
        }
        ScheduleEvent::Fail { node, calls } => {
            put_head(out, b"fail", u64::from(node.0))?;
            put_number(out, u64::from(*calls))
        }
        ScheduleEvent::FailRead { node, calls } => {
            put_head(out, b"failread", u64::from(node.0))?;
            put_number(out, u64::from(*calls))
        }
        ScheduleEvent::Show { node } => put_head(out, b"show", u64::from(node.0)),
    }
}

// Adds the first word of a line, and a number behind it.
fn put_head(out: &mut Octets, word: &[u8], number: u64) -> Result<(), Memory>
    ensures { OnOk result (out.new ≡ out.old ++ (word.now ++ spaced (decimal number))) }
{
    out.extend(word)?;
    put_number(out, number)
}

// Adds the words of an image, each after a space.
fn put_image(out: &mut Octets, image: Image) -> Result<(), Memory>
    ensures { OnOk result (out.new ≡ out.old ++ flat_map spaced (image_words image)) }
{
    match image {
        Image::Old => put_word(out, b"old"),
        Image::New => put_word(out, b"new"),
        Image::Fill { keep, byte } => {
            put_word(out, b"fill")?;
            put_number(out, u64::from(keep))?;
            put_hex(out, &[byte])
        }
    }
}

// Adds the words of a command, each after a space.
fn put_command(out: &mut Octets, command: &Command) -> Result<(), Memory>
    ensures { OnOk result (out.new ≡ out.old ++ flat_map spaced (command_words command.now)) }
{
    match command {
        Command::Append { log, value } => {
            put_word(out, b"append")?;
            put_number(out, u64::from(log.0))?;
            put_bytes(out, value.bytes())
        }
        Command::Multi { logs, value } => {
            put_word(out, b"multi")?;
            put_logs(out, logs.items())?;
            put_bytes(out, value.bytes())
        }
        Command::ReadLog { log, position } => {
            put_word(out, b"read")?;
            put_number(out, u64::from(log.0))?;
            put_number(out, *position)
        }
        Command::TrimLog { log, position } => {
            put_word(out, b"trimlog")?;
            put_number(out, u64::from(log.0))?;
            put_number(out, *position)
        }
        Command::Get { key } => {
            put_word(out, b"get")?;
            put_bytes(out, key.bytes())
        }
        Command::Scan { from, to } => {
            put_word(out, b"scan")?;
            put_bytes(out, from.bytes())?;
            put_bytes(out, to.bytes())
        }
        Command::Update { key, value } => {
            put_word(out, b"update")?;
            put_bytes(out, key.bytes())?;
            put_bytes(out, value.bytes())
        }
        Command::Insert { key, value } => {
            put_word(out, b"insert")?;
            put_bytes(out, key.bytes())?;
            put_bytes(out, value.bytes())
        }
        Command::Delete { key } => {
            put_word(out, b"delete")?;
            put_bytes(out, key.bytes())
        }
        Command::Swap { key, old, new } => {
            put_word(out, b"swap")?;
            put_bytes(out, key.bytes())?;
            put_bytes(out, old.bytes())?;
            put_bytes(out, new.bytes())
        }
    }
}

// Adds a space, and the logs with commas between.
fn put_logs(out: &mut Octets, logs: &[LogId]) -> Result<(), Memory>
    ensures { OnOk result (out.new ≡ out.old ++ spaced (logs_text logs.now)) }
{
    let Some((first, others)) = logs.split_first() else {
        return out.push(b' ');
    };
    put_number(out, u64::from(first.0))?;
    put_others(out, others)
}

// Adds each of the logs after a comma.
fn put_others(out: &mut Octets, logs: &[LogId]) -> Result<(), Memory>
    ensures { OnOk result (out.new ≡ out.old ++ flat_map (set_off 44) (map (λ (log : SomeLog). decimal log.0) logs.now)) }
{
    for log in logs {
        out.push(b',')?;
        put_decimal(out, u64::from(log.0))?;
    }
    Ok(())
}
