//! A schedule drawn from numbers.

ghost use Rattle.std.specs.Prelude.{◌≡◌, ◌++◌, List, IfSome, IfNone, map, string_bytes};
ghost use Rattle.outside.specs.Counts.{CountsFault};
ghost use Rattle.outside.specs.Writing.{WritesAll, HandsOn};
ghost use Rattle.schedule.specs.Spelling.{event_text, schedule_text};
ghost use Rattle.mrpaxos.specs.Drawing.{IsDraw, draw_in, AnswersDraw, Draws, Printing};

use crate::status::{Status, Which};
use crate::top::CONFIG;
use mrp_config::{ConfigFault, Deployment};
use mrp_types::Octets;
use mrp_types::limits::EVENTS;
use outside::{Refused, Sink, Source, new_piece, read_front, write_all, write_piece};
use schedule::{ScheduleEvent, generate, put_event};
use std::alloc::Global;
use text_lines::number_of_word;

/// What a schedule is drawn from.
#[derive(Clone, Copy, Debug)]
pub struct Draw {
    pub seed: u64,
    pub events: u32,
}

/// What the words `gen SEED EVENTS` ask for; `None` of any other words.
pub fn draw_of(words: &[String]) -> Option<Draw>
    ensures found { IfSome result (λ draw. IsDraw draw (map string_bytes words.now)) }
    ensures none { IfNone result ((draw : Draw) → IsDraw draw (map string_bytes words.now) → ⊥) }
{
    match words {
        [word, seed, events] => draw_with(word.as_bytes(), seed.as_bytes(), events.as_bytes()),
        _ => None,
    }
}

fn draw_with(word: &[u8], seed: &[u8], events: &[u8]) -> Option<Draw>
    ensures { result ≡ draw_in word.now seed.now events.now }
{
    if word != b"gen".as_slice() {
        return None;
    }
    let Ok(seed) = number_of_word(seed) else {
        return None;
    };
    let Ok(events) = number_of_word(events) else {
        return None;
    };
    if events > u64::from(EVENTS) {
        return None;
    }
    Some(Draw {
        seed,
        events: events as u32,
    })
}

/// Reads the configuration, judges it, and writes the schedule over what it describes.
pub fn run_draw<C: Source, O: Sink>(
    alloc: Global,
    draw: Draw,
    config: &mut C,
    out: &mut O,
) -> Status
    ensures ends { Draws draw result
        (record {
          before = C.left config.old;
          after = C.left config.new;
          faults_before = C.faults config.old;
          faults_after = C.faults config.new;
          reads_before = C.reads config.old;
          reads_after = C.reads config.new;
        })
        (record { before = O.taken out.old; after = O.taken out.new; faults_before = O.faults out.old; faults_after = O.faults out.new }) }
    ensures answers { IfSome (C.left config.old) (λ conf. AnswersDraw result conf) }
{
    match read_front(alloc, config, CONFIG) {
        Ok(bytes) => print_draw(alloc, draw, bytes.bytes(), out),
        Err(Refused::Failed) => Status::Source(Which::Config),
        Err(Refused::Memory) => Status::Memory,
    }
}

// Judges the bytes of a configuration, and writes the schedule over what they describe.
fn print_draw<O: Sink>(alloc: Global, draw: Draw, bytes: &[u8], out: &mut O) -> Status
    ensures { Printing result draw bytes.now
        (record { before = O.taken out.old; after = O.taken out.new; faults_before = O.faults out.old; faults_after = O.faults out.new }) }
{
    let deployment = match Deployment::from_bytes(alloc, bytes) {
        Ok(deployment) => deployment,
        Err(ConfigFault::Memory) => return Status::Memory,
        Err(fault) => return Status::Config(fault),
    };
    let Ok(schedule) = generate(alloc, &deployment, draw.seed, draw.events) else {
        return Status::Memory;
    };
    match write_events(alloc, schedule.items(), out) {
        Ok(()) => Status::Done,
        Err(Refused::Failed) => Status::Sink,
        Err(Refused::Memory) => Status::Memory,
    }
}

// Writes the lines of the events. After a refusal a front of them was written.
fn write_events<O: Sink>(
    alloc: Global,
    events: &[ScheduleEvent],
    out: &mut O,
) -> Result<(), Refused>
    ensures written { WritesAll (O.taken out.old) (O.taken out.new) (schedule_text events.now) result }
    ensures fault { CountsFault result (O.faults out.old) (O.faults out.new) }
{
    let mut text = new_piece(alloc)?;
    for event in events {
        write_event(event, &mut text, out)?;
    }
    write_all(out, text.bytes())
}

// Adds the line of an event to the text, of which a front is written.
fn write_event<O: Sink>(
    event: &ScheduleEvent,
    text: &mut Octets,
    out: &mut O,
) -> Result<(), Refused>
    ensures written { HandsOn (O.taken out.old) (O.taken out.new) (text.old ++ event_text event.now) text.new result }
    ensures fault { CountsFault result (O.faults out.old) (O.faults out.new) }
{
    if put_event(text, event).is_err() {
        return Err(Refused::Memory);
    }
    write_piece(out, text)
}
