//! A client's command from text.

ghost use Rattle.std.specs.Prelude.{◌≡◌, Ok, IfOk};
ghost use Rattle.command_codec.specs.declared.command.Command.{Command as SomeCommand};
ghost use Rattle.text_lines.specs.Split.{words_of};
ghost use Rattle.text_lines.specs.Reading.{Says};
ghost use Rattle.text_lines.specs.Words.{all_of};
ghost use Rattle.text_lines.specs.declared.fault.TextFault.TheVariants.{Left as OverLeft};
ghost use Rattle.schedule.specs.Spelling.{IsAskText};
ghost use Rattle.schedule.specs.Faults.{Judges, Answers};
ghost use Rattle.schedule.specs.Reading.{at_line, line_with, command_at};
ghost use Rattle.schedule.specs.Asking.{command_of, bounded_command, second_fault, asked_of};

use crate::commands::read_command;
use crate::fault::kind_of;
use crate::routing::has_route;
use crate::{FaultKind, ScheduleFault};
use command_codec::Command;
use mrp_config::Deployment;
use mrp_types::limits::SCHEDULE;
use std::alloc::Global;
use text_lines::{FirstLine, TextFault, Words, split_line};

/// The command that the bytes spell as one line, all of the bytes, over a deployment: the words that stand behind `ask`
/// and the client in a schedule. Or the first line at fault.
///
/// The first line is at fault as a line of a schedule is, `Cut` where there are no bytes. Any byte behind it is `Left` on
/// line 2, and `TooMany` where that line holds the first byte past 67,108,864. `Memory` comes wherever memory runs out.
pub fn read_ask(
    alloc: Global,
    deployment: &Deployment,
    bytes: &[u8],
) -> Result<Command, ScheduleFault>
    // What is read is spelled so.
    ensures found { IfOk result (λ command. IsAskText deployment.now bytes.now command) }
    // What is spelled so is read, unless memory runs out.
    ensures only { (command : SomeCommand) → IsAskText deployment.now bytes.now command → Answers (Ok command) result }
    ensures exact { Answers (asked_of deployment.now bytes.now) result }
{
    read_lines(alloc, deployment, bytes)
}

fn read_lines(
    alloc: Global,
    deployment: &Deployment,
    bytes: &[u8],
) -> Result<Command, ScheduleFault>
    ensures { Answers (asked_of deployment.now bytes.now) result }
{
    let Some(first) = split_line(bytes) else {
        return Err(ScheduleFault {
            line: 1,
            kind: FaultKind::Cut,
        });
    };
    let after = first.after;
    let command = read_first(alloc, deployment, bytes.len() - after.len(), first)?;
    let Some(second) = split_line(after) else {
        return Ok(command);
    };
    Err(ScheduleFault {
        line: 2,
        kind: fault_behind(bytes.len() - second.after.len()),
    })
}

// What is at fault in a second line, up to whose end the text has so many bytes.
fn fault_behind(end: usize) -> FaultKind
    ensures { result ≡ second_fault end }
{
    if end > SCHEDULE {
        return FaultKind::TooMany;
    }
    FaultKind::Left
}

// The command of the first line, up to whose end the text has so many bytes.
fn read_first(
    alloc: Global,
    deployment: &Deployment,
    end: usize,
    first: FirstLine<'_>,
) -> Result<Command, ScheduleFault>
    ensures { Answers (at_line 1 (bounded_command deployment.now end (line_with first.entry.text.now first.entry.ended))) result }
{
    match read_line(alloc, deployment, end, first) {
        Ok(command) => Ok(command),
        Err(kind) => Err(ScheduleFault { line: 1, kind }),
    }
}

#[tactic(auto, unfolding(crate::specs::Asking::command_of))]
fn read_line(
    alloc: Global,
    deployment: &Deployment,
    end: usize,
    line: FirstLine<'_>,
) -> Result<Command, FaultKind>
    ensures { Judges (bounded_command deployment.now end (line_with line.entry.text.now line.entry.ended)) result }
{
    if end > SCHEDULE {
        return Err(FaultKind::TooMany);
    }
    let command = match read_words(alloc, line.text) {
        Ok(command) => command,
        Err(fault) => return Err(kind_of(fault)),
    };
    if !line.ended {
        return Err(FaultKind::Cut);
    }
    if !has_route(deployment, &command) {
        return Err(FaultKind::Route);
    }
    Ok(command)
}

// The command of these words, all of them.
fn read_words(alloc: Global, text: &[u8]) -> Result<Command, TextFault>
    ensures { Says (λ c. c) (all_of OverLeft (command_at (words_of text.now))) result }
{
    let mut words = Words::new(text);
    let command = read_command(alloc, &mut words)?;
    words.end()?;
    Ok(command)
}
