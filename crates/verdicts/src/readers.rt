//! What readers answer to bytes: what is read has a spelling, and is written again, which gives the same bytes.

ghost use Rattle.std.specs.Prelude.{◌≡◌, ◌∷◌, [], IsTrue, IfOk, codes};
ghost use Rattle.command_codec.specs.Grammar.{command_of, batch_of, reply_of};
ghost use Rattle.command_codec.specs.Spelling.{AreEntries, batch_bytes};
ghost use Rattle.frames.specs.Grammar.{read_of as frame_of};
ghost use Rattle.frames.specs.Spelling.{frame_bytes};
ghost use Rattle.frames.specs.Valid.{IsFrame};
ghost use Rattle.mrp_config.specs.Walk.{read_of as config_of};
ghost use Rattle.schedule.specs.Asking.{asked_of};
ghost use Rattle.schedule.specs.Generating.{generated};
ghost use Rattle.schedule.specs.Reading.{schedule_of};
ghost use Rattle.schedule.specs.Spelling.{schedule_text};
ghost use Rattle.text_lines.specs.Text.{hex_text};
ghost use Rattle.schedule.specs.declared.event.ScheduleEvent.TheVariants.{Ask};
ghost use Rattle.transcript.specs.Reading.{line_at};
ghost use Rattle.verdicts.specs.Texts.{verdict_of, frame_fault_text, codec_fault_text, config_fault_text, schedule_fault_text, line_fault_text};

use crate::faults::{
    codec_fault, config_fault, frame_fault, line_fault, said, said_in_hex, schedule_fault,
};
use command_codec::{
    Command, read_batch, read_command, read_reply, write_batch, write_command, write_reply,
};
use frames::Frame;
use mrp_config::Deployment;
use mrp_types::limits::VALUE;
use mrp_types::{ClientId, Entry, Memory, Octets};
use schedule::{Schedule, ScheduleEvent};
use std::alloc::Global;
use transcript::{read_line, write_line};

// What was read has a spelling as its type says, and that is the bytes that were read.
fn again(alloc: Global, valid: bool, written: &[u8], read: &[u8]) -> Result<Octets, Memory>
    requires valid { IsTrue valid }
    requires same { written.now ≡ read.now }
    ensures { IfOk result (λ text. text ≡ codes "ok") }
{
    if !valid {
        return said(alloc, "ok, but without a spelling");
    }
    if written != read {
        return said(alloc, "ok, but written otherwise");
    }
    said(alloc, "ok")
}

/// Of a frame.
fn frame_verdict(alloc: Global, bytes: &[u8]) -> Result<Octets, Memory>
    ensures { IfOk result (λ text. text ≡ verdict_of frame_fault_text (frame_of bytes.now)) }
{
    match frames::read(alloc, bytes) {
        Ok(frame) => frame_again(alloc, &frame, bytes),
        Err(fault) => frame_fault(alloc, fault),
    }
}

// A frame is shared before it is written.
fn frame_again(alloc: Global, frame: &Frame, bytes: &[u8]) -> Result<Octets, Memory>
    requires valid { IsFrame frame.now }
    requires same { bytes.now ≡ frame_bytes frame.now }
    ensures { IfOk result (λ text. text ≡ codes "ok") }
{
    let shared = frame.share(alloc)?;
    let written = frames::write(alloc, &shared)?;
    again(alloc, shared.is_valid(), written.bytes(), bytes)
}

fn command_verdict(alloc: Global, bytes: &[u8]) -> Result<Octets, Memory>
    ensures { IfOk result (λ text. text ≡ verdict_of codec_fault_text (command_of bytes.now)) }
{
    match read_command(alloc, bytes) {
        Ok(command) => {
            let written = write_command(alloc, &command)?;
            again(alloc, command.is_valid(), written.bytes(), bytes)
        }
        Err(fault) => codec_fault(alloc, fault),
    }
}

fn batch_verdict(alloc: Global, bytes: &[u8]) -> Result<Octets, Memory>
    ensures { IfOk result (λ text. text ≡ verdict_of codec_fault_text (batch_of bytes.now)) }
{
    match read_batch(alloc, bytes) {
        Ok(entries) => batch_again(alloc, entries.items(), bytes),
        Err(fault) => codec_fault(alloc, fault),
    }
}

// Entries of more bytes than a batch may have aren't written.
fn batch_again(alloc: Global, entries: &[Entry], bytes: &[u8]) -> Result<Octets, Memory>
    requires valid { AreEntries entries.now }
    requires same { bytes.now ≡ batch_bytes entries.now }
    ensures { IfOk result (λ text. text ≡ codes "ok") }
{
    if bytes.len() > VALUE {
        return said(alloc, "ok");
    }
    let written = write_batch(alloc, entries)?;
    again(alloc, true, written.bytes(), bytes)
}

/// Of a reply, which is copied before it is written.
fn reply_verdict(alloc: Global, bytes: &[u8]) -> Result<Octets, Memory>
    ensures { IfOk result (λ text. text ≡ verdict_of codec_fault_text (reply_of bytes.now)) }
{
    match read_reply(alloc, bytes) {
        Ok(reply) => {
            let copy = reply.copy(alloc)?;
            let written = write_reply(alloc, &copy)?;
            again(alloc, copy.is_valid(), written.bytes(), bytes)
        }
        Err(fault) => codec_fault(alloc, fault),
    }
}

/// Of a deployment, which isn't written.
pub fn config_verdict(alloc: Global, text: &[u8]) -> Result<Octets, Memory>
    ensures { IfOk result (λ verdict. verdict ≡ verdict_of config_fault_text (config_of text.now)) }
{
    match Deployment::from_bytes(alloc, text) {
        Ok(_) => said(alloc, "ok"),
        Err(fault) => config_fault(alloc, &fault),
    }
}

pub fn events_verdict(alloc: Global, deployment: &Deployment, text: &[u8]) -> Result<Octets, Memory>
    ensures { IfOk result (λ verdict. verdict ≡ verdict_of schedule_fault_text (schedule_of deployment.now text.now)) }
{
    match schedule::read(alloc, deployment, text) {
        Ok(events) => {
            let written = schedule::write(alloc, &events)?;
            again(alloc, true, written.bytes(), text)
        }
        Err(fault) => schedule_fault(alloc, fault),
    }
}

/// Of a client's command, which is written as the event in which client 0 asks it.
pub fn asked_verdict(alloc: Global, deployment: &Deployment, text: &[u8]) -> Result<Octets, Memory>
    ensures { IfOk result (λ verdict. verdict ≡ verdict_of schedule_fault_text (asked_of deployment.now text.now)) }
{
    match schedule::read_ask(alloc, deployment, text) {
        Ok(command) => {
            let event = asked_by_the_first(alloc, command)?;
            let written = schedule::write(alloc, &event)?;
            let mut wanted = said(alloc, "ask 0 ")?;
            wanted.extend(text)?;
            again(alloc, true, written.bytes(), wanted.bytes())
        }
        Err(fault) => schedule_fault(alloc, fault),
    }
}

fn asked_by_the_first(alloc: Global, command: Command) -> Result<Schedule, Memory>
    ensures { IfOk result (λ events. events ≡ Ask (record { 0 = 0 }) command ∷ []) }
{
    let mut events = Schedule::new(alloc);
    events.push(ScheduleEvent::Ask {
        client: ClientId(0),
        command,
    })?;
    Ok(events)
}

/// The schedule of so many events that is drawn of a seed, in hexadecimal.
pub fn drawn_text(
    alloc: Global,
    deployment: &Deployment,
    seed: u64,
    events: u32,
) -> Result<Octets, Memory>
    ensures { IfOk result (λ text. text ≡ hex_text (schedule_text (generated deployment.now seed events))) }
{
    let events = schedule::generate(alloc, deployment, seed, events)?;
    let written = schedule::write(alloc, &events)?;
    said_in_hex(alloc, written.bytes())
}

/// Of a line of a transcript, which is the first one.
pub fn line_verdict(alloc: Global, text: &[u8]) -> Result<Octets, Memory>
    ensures { IfOk result (λ verdict. verdict ≡ verdict_of line_fault_text (line_at text.now)) }
{
    match read_line(alloc, text, 1) {
        Ok(line) => {
            let written = write_line(alloc, &line)?;
            again(alloc, true, written.bytes(), text)
        }
        Err(fault) => line_fault(alloc, fault.kind),
    }
}

/// Of bytes, by the word of the case.
pub fn bytes_verdict(alloc: Global, word: &str, bytes: &[u8]) -> Result<Octets, Memory>
    ensures frame { word.now ≡ codes "frame" → IfOk result (λ text. text ≡ verdict_of frame_fault_text (frame_of bytes.now)) }
    ensures command { word.now ≡ codes "command" → IfOk result (λ text. text ≡ verdict_of codec_fault_text (command_of bytes.now)) }
    ensures batch { word.now ≡ codes "batch" → IfOk result (λ text. text ≡ verdict_of codec_fault_text (batch_of bytes.now)) }
    ensures reply { word.now ≡ codes "reply" → IfOk result (λ text. text ≡ verdict_of codec_fault_text (reply_of bytes.now)) }
    ensures toml { word.now ≡ codes "toml" → IfOk result (λ text. text ≡ verdict_of config_fault_text (config_of bytes.now)) }
{
    match word {
        "frame" => frame_verdict(alloc, bytes),
        "command" => command_verdict(alloc, bytes),
        "batch" => batch_verdict(alloc, bytes),
        "reply" => reply_verdict(alloc, bytes),
        "toml" => config_verdict(alloc, bytes),
        _ => said(alloc, "no case"),
    }
}
