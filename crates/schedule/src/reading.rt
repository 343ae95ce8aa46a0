//! Schedules from text.

ghost use Rattle.std.specs.Prelude.{◌≡◌, List, Ok, IfOk, IfErr};
ghost use Rattle.schedule.specs.declared.event.ScheduleEvent.{ScheduleEvent};
ghost use Rattle.text_lines.specs.Split.{words_of};
ghost use Rattle.text_lines.specs.Reading.{Says};
ghost use Rattle.schedule.specs.Spelling.{is_routed, IsSchedule};
ghost use Rattle.schedule.specs.Faults.{Judges, Answers};
ghost use Rattle.schedule.specs.Reading.{event_in, line_of, bounded, at_line, schedule_of, line_with, NamesFirst};

use crate::fault::kind_of;
use crate::kinds::read_event;
use crate::routing::has_route;
use crate::{FaultKind, Schedule, ScheduleEvent, ScheduleFault};
use mrp_config::Deployment;
use mrp_types::limits::{EVENTS, SCHEDULE};
use std::alloc::Global;
use text_lines::{FirstLine, TextFault, Words, split_line};

/// The schedule that the bytes spell, all of the bytes, over a deployment; or the first line at fault.
///
/// A line is at fault by the first of these: it is past the first 1,048,576 lines, or the part of the text that ends
/// with it has more than 67,108,864 bytes (`TooMany`); its words from the left (`Word`, `Number`, `Range`); words
/// behind them (`Left`); no line feed ends it (`Cut`); no ring orders its command, or no partition has one of its logs
/// (`Route`). `Memory` comes wherever memory runs out.
pub fn read(alloc: Global, deployment: &Deployment, bytes: &[u8]) -> Result<Schedule, ScheduleFault>
    // What is read is spelled so.
    ensures found { IfOk result (λ schedule. IsSchedule deployment.now bytes.now schedule) }
    // What is spelled so is read, unless memory runs out.
    ensures only { (events : List ScheduleEvent) → IsSchedule deployment.now bytes.now events → Answers (Ok events) result }
    // A fault is of the first line at fault.
    ensures first { IfErr result (λ fault. NamesFirst deployment.now bytes.now fault) }
    ensures exact { Answers (schedule_of deployment.now bytes.now) result }
{
    read_lines(alloc, deployment, bytes)
}

fn read_lines(
    alloc: Global,
    deployment: &Deployment,
    bytes: &[u8],
) -> Result<Schedule, ScheduleFault>
    ensures { Answers (schedule_of deployment.now bytes.now) result }
{
    let mut events = Vec::new(alloc);
    let mut rest = bytes;
    for line in 1..=EVENTS {
        let Some(first) = split_line(rest) else {
            return Ok(Schedule::from_vec(events));
        };
        let end = bytes.len() - first.after.len();
        let event = read_numbered(alloc, deployment, line, end, first)?;
        let Ok(()) = events.push(event) else {
            return Err(ScheduleFault {
                line,
                kind: FaultKind::Memory,
            });
        };
        rest = first.after;
    }
    if rest.is_empty() {
        return Ok(Schedule::from_vec(events));
    }
    Err(ScheduleFault {
        line: EVENTS + 1,
        kind: FaultKind::TooMany,
    })
}

// The event of the line of this number.
fn read_numbered(
    alloc: Global,
    deployment: &Deployment,
    line: u32,
    end: usize,
    first: FirstLine<'_>,
) -> Result<ScheduleEvent, ScheduleFault>
    ensures { Answers (at_line line (bounded deployment.now end (line_with first.entry.text.now first.entry.ended))) result }
{
    match read_line(alloc, deployment, end, first) {
        Ok(event) => Ok(event),
        Err(kind) => Err(ScheduleFault { line, kind }),
    }
}

// The event of a line; the part of the text that ends with it has so many bytes.
#[tactic(auto, unfolding(crate::specs::Reading::line_of))]
fn read_line(
    alloc: Global,
    deployment: &Deployment,
    end: usize,
    line: FirstLine<'_>,
) -> Result<ScheduleEvent, FaultKind>
    ensures { Judges (bounded deployment.now end (line_with line.entry.text.now line.entry.ended)) result }
{
    if end > SCHEDULE {
        return Err(FaultKind::TooMany);
    }
    let event = match read_words(alloc, deployment, line.text) {
        Ok(event) => event,
        Err(fault) => return Err(kind_of(fault)),
    };
    if !line.ended {
        return Err(FaultKind::Cut);
    }
    if !has_ring(deployment, &event) {
        return Err(FaultKind::Route);
    }
    Ok(event)
}

// Whether the command of the event has a route, if it has one.
fn has_ring(deployment: &Deployment, event: &ScheduleEvent) -> bool
    ensures { result ≡ is_routed deployment.now event.now }
{
    match event {
        ScheduleEvent::Ask { client: _, command } => has_route(deployment, command),
        _ => true,
    }
}

// The event of these words, all of them.
fn read_words(
    alloc: Global,
    deployment: &Deployment,
    text: &[u8],
) -> Result<ScheduleEvent, TextFault>
    ensures { Says (λ e. e) (event_in deployment.now (words_of text.now)) result }
{
    let mut words = Words::new(text);
    let event = read_event(alloc, deployment, &mut words)?;
    words.end()?;
    Ok(event)
}
