//! The texts of verdicts. Want of memory has none: it ends the program.

ghost use Rattle.std.specs.Prelude.{◌≡◌, IfOk};
ghost use Rattle.command_codec.specs.declared.fault.CodecFault.TheVariants.{Memory as NoCodecMemory};
ghost use Rattle.frames.specs.declared.fault.FrameFault.TheVariants.{Memory as NoFrameMemory};
ghost use Rattle.config_walk.specs.declared.fault.ConfigFault.TheVariants.{Memory as NoConfigMemory};
ghost use Rattle.schedule.specs.declared.fault.FaultKind.TheVariants.{Memory as NoScheduleMemory};
ghost use Rattle.transcript.specs.declared.fault.LineKind.TheVariants.{Memory as NoLineMemory};
ghost use Rattle.vote_journal.specs.declared.fault.OpenFault.TheVariants.{Memory as NoOpenMemory};
ghost use Rattle.text_lines.specs.Text.{hex_text};
ghost use Rattle.verdicts.specs.Texts.{numbered, frame_fault_text, codec_fault_text, config_fault_text, schedule_fault_text, line_fault_text, open_fault_text};

use command_codec::CodecFault;
use frames::FrameFault;
use mrp_config::ConfigFault;
use mrp_types::{Memory, Octets};
use schedule::{FaultKind, ScheduleFault};
use std::alloc::Global;
use text_lines::{put_decimal, put_number, put_word};
use transcript::LineKind;
use vote_journal::OpenFault;

/// A text of one word.
pub fn said(alloc: Global, word: &str) -> Result<Octets, Memory>
    ensures { IfOk result (λ text. text ≡ word.now) }
{
    Octets::from_slice(alloc, word.as_bytes())
}

/// Bytes in hexadecimal, `-` for none.
pub fn said_in_hex(alloc: Global, bytes: &[u8]) -> Result<Octets, Memory>
    ensures { IfOk result (λ text. text ≡ hex_text bytes.now) }
{
    if bytes.is_empty() {
        return said(alloc, "-");
    }
    said(alloc, hex::encode(alloc, bytes)?.as_str())
}

/// A word, and a number behind it.
fn counted(alloc: Global, word: &str, number: u64) -> Result<Octets, Memory>
    ensures { IfOk result (λ text. text ≡ numbered word.now number) }
{
    let mut text = said(alloc, word)?;
    put_number(&mut text, number)?;
    Ok(text)
}

pub fn frame_fault(alloc: Global, fault: FrameFault) -> Result<Octets, Memory>
    ensures text { IfOk result (λ text. text ≡ frame_fault_text fault) }
    ensures memory { IfOk result (λ _. fault ≡ NoFrameMemory → ⊥) }
{
    match fault {
        FrameFault::TooLong => said(alloc, "toolong"),
        FrameFault::Short(at) => counted(alloc, "short", at as u64),
        FrameFault::BadMagic => said(alloc, "badmagic"),
        FrameFault::BadVersion(version) => counted(alloc, "badversion", u64::from(version)),
        FrameFault::BadKind(kind) => counted(alloc, "badkind", u64::from(kind)),
        FrameFault::BadField(at) => counted(alloc, "badfield", at as u64),
        FrameFault::Left(at) => counted(alloc, "left", at as u64),
        FrameFault::Memory => Err(Memory),
    }
}

pub fn codec_fault(alloc: Global, fault: CodecFault) -> Result<Octets, Memory>
    ensures text { IfOk result (λ text. text ≡ codec_fault_text fault) }
    ensures memory { IfOk result (λ _. fault ≡ NoCodecMemory → ⊥) }
{
    match fault {
        CodecFault::Short(at) => counted(alloc, "short", at as u64),
        CodecFault::BadKind(at) => counted(alloc, "badkind", at as u64),
        CodecFault::BadField(at) => counted(alloc, "badfield", at as u64),
        CodecFault::TooLong(at) => counted(alloc, "toolong", at as u64),
        CodecFault::Left(at) => counted(alloc, "left", at as u64),
        CodecFault::Memory => Err(Memory),
    }
}

/// The number of the fault, and where there are any its name and its id, as the program prints a refused deployment.
pub fn config_fault(alloc: Global, fault: &ConfigFault) -> Result<Octets, Memory>
    ensures text { IfOk result (λ text. text ≡ config_fault_text fault.now) }
    ensures memory { IfOk result (λ _. fault.now ≡ NoConfigMemory → ⊥) }
{
    if matches!(fault, ConfigFault::Memory) {
        return Err(Memory);
    }
    let mut text = Octets::new(alloc);
    put_decimal(&mut text, u64::from(fault.number()))?;
    if let Some(name) = fault.name() {
        put_word(&mut text, name.bytes())?;
    }
    if let Some(id) = fault.id() {
        put_number(&mut text, u64::from(id))?;
    }
    Ok(text)
}

pub fn schedule_fault(alloc: Global, fault: ScheduleFault) -> Result<Octets, Memory>
    ensures text { IfOk result (λ text. text ≡ schedule_fault_text fault) }
    ensures memory { IfOk result (λ _. fault.kind ≡ NoScheduleMemory → ⊥) }
{
    let line = u64::from(fault.line);
    match fault.kind {
        FaultKind::Word => counted(alloc, "word", line),
        FaultKind::Number => counted(alloc, "number", line),
        FaultKind::Range => counted(alloc, "range", line),
        FaultKind::Route => counted(alloc, "route", line),
        FaultKind::Left => counted(alloc, "left", line),
        FaultKind::Cut => counted(alloc, "cut", line),
        FaultKind::TooMany => counted(alloc, "toomany", line),
        FaultKind::Memory => Err(Memory),
    }
}

/// Of the first line.
pub fn line_fault(alloc: Global, kind: LineKind) -> Result<Octets, Memory>
    ensures text { IfOk result (λ text. text ≡ line_fault_text kind) }
    ensures memory { IfOk result (λ _. kind ≡ NoLineMemory → ⊥) }
{
    match kind {
        LineKind::Word => counted(alloc, "word", 1),
        LineKind::Number => counted(alloc, "number", 1),
        LineKind::Hex => counted(alloc, "hex", 1),
        LineKind::Left => counted(alloc, "left", 1),
        LineKind::Cut => counted(alloc, "cut", 1),
        LineKind::TooMany => counted(alloc, "toomany", 1),
        LineKind::Memory => Err(Memory),
    }
}

pub fn open_fault(alloc: Global, fault: OpenFault) -> Result<Octets, Memory>
    ensures text { IfOk result (λ text. text ≡ open_fault_text fault) }
    ensures memory { IfOk result (λ _. fault ≡ NoOpenMemory → ⊥) }
{
    match fault {
        OpenFault::Damaged(area, at) => {
            let mut text = counted(alloc, "damaged", u64::from(area.number()))?;
            put_number(&mut text, at)?;
            Ok(text)
        }
        OpenFault::WrongNode(node) => counted(alloc, "wrongnode", u64::from(node.0)),
        OpenFault::BadRecord(at) => counted(alloc, "badrecord", at),
        OpenFault::EpochLimit => said(alloc, "epochlimit"),
        OpenFault::Disk | OpenFault::Full(_) => said(alloc, "failed"),
        OpenFault::Memory => Err(Memory),
    }
}
