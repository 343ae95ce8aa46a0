//! How the program ends: its statuses, their numbers and their texts.

ghost use Rattle.std.specs.Prelude.{◌≡◌, IfOk};
ghost use Rattle.text_lines.specs.Text.{joined};
ghost use Rattle.mrpaxos.specs.Status.{status_bytes, status_number, config_words, input_words, kind_name};

use mrp_config::ConfigFault;
use mrp_types::{Memory, Octets};
use schedule::{FaultKind, ScheduleFault};
use std::alloc::Global;
use text_lines::{put_number, put_word};

/// Which of the sources.
#[derive(Clone, Copy, Debug, PartialEq, Eq)]
pub enum Which {
    Config,
    Input,
}

/// What is wrong with the input.
#[derive(Clone, Copy, Debug, PartialEq, Eq)]
pub enum InputFault {
    /// It is no schedule.
    Schedule(ScheduleFault),
}

/// How the program ended.
#[derive(Debug, Drop)]
pub enum Status {
    /// The command ran to its end.
    Done,
    /// The words are no command.
    Usage,
    /// The configuration was refused.
    Config(ConfigFault),
    /// The input was refused.
    Input(InputFault),
    /// A read failed.
    Source(Which),
    /// A write failed.
    Sink,
    /// Want of memory.
    Memory,
}

impl Status {
    /// The number with which the program ends.
    pub fn number(&self) -> u8
        ensures { result ≡ status_number self.now }
    {
        match self {
            Status::Done => 0,
            Status::Usage => 1,
            Status::Config(_) => 2,
            Status::Input(_) => 3,
            Status::Source(_) => 4,
            Status::Sink => 5,
            Status::Memory => 9,
        }
    }
}

/// What the program tells of a status; nothing of `Done`. A fault of the configuration is told with its number, and
/// with the name and the number that it is about; a fault of the input with its line and its kind.
pub fn status_text(alloc: Global, status: &Status) -> Result<Octets, Memory>
    ensures { IfOk result (λ text. text ≡ status_bytes status.now) }
{
    let text = match status {
        Status::Done => "",
        Status::Usage => "usage",
        Status::Config(fault) => return config_text(alloc, fault),
        Status::Input(InputFault::Schedule(fault)) => return input_text(alloc, *fault),
        Status::Source(Which::Config) => "source config",
        Status::Source(Which::Input) => "source input",
        Status::Sink => "sink",
        Status::Memory => "memory",
    };
    Octets::from_slice(alloc, text.as_bytes())
}

fn config_text(alloc: Global, fault: &ConfigFault) -> Result<Octets, Memory>
    ensures { IfOk result (λ text. text ≡ joined (config_words fault.now)) }
{
    let mut text = Octets::from_slice(alloc, b"config")?;
    put_number(&mut text, u64::from(fault.number()))?;
    if let Some(name) = fault.name() {
        put_word(&mut text, name.bytes())?;
    }
    if let Some(id) = fault.id() {
        put_number(&mut text, u64::from(id))?;
    }
    Ok(text)
}

fn input_text(alloc: Global, fault: ScheduleFault) -> Result<Octets, Memory>
    ensures { IfOk result (λ text. text ≡ joined (input_words fault)) }
{
    let mut text = Octets::from_slice(alloc, b"input")?;
    put_number(&mut text, u64::from(fault.line))?;
    put_word(&mut text, name_of(fault.kind).as_bytes())?;
    Ok(text)
}

fn name_of(kind: FaultKind) -> &'static str
    ensures { result.now ≡ kind_name kind }
{
    match kind {
        FaultKind::Word => "word",
        FaultKind::Number => "number",
        FaultKind::Range => "range",
        FaultKind::Route => "route",
        FaultKind::Left => "left",
        FaultKind::Cut => "cut",
        FaultKind::TooMany => "toomany",
        FaultKind::Memory => "memory",
    }
}
