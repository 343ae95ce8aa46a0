//! A schedule to the lines of the whole system.

ghost use Rattle.std.specs.Prelude.{◌≡◌, ◌++◌, IfOk, OnOk};
ghost use Rattle.std.specs.List.{AllByRecursion};
ghost use Rattle.outside.specs.Writing.{WritesAll, HandsOn};
ghost use Rattle.transcript.specs.Spelling.{lines_text};
ghost use Rattle.world.specs.Ring.{IsRing};
ghost use Rattle.world.specs.System.{trace, happens, MayHappen};
ghost use Rattle.mrpaxos.specs.Answers.{CountsSink, fault_of};

use mrp_config::RingTable;
use mrp_types::{Memory, Octets};
use outside::{Refused, Sink, new_piece, write_all, write_piece};
use schedule::{Schedule, ScheduleEvent};
use std::alloc::{AllocError, Global};
use transcript::{Line, put_line};
use world::World;

/// Why not all lines were written.
#[derive(Clone, Copy, Debug, PartialEq, Eq)]
pub enum ReplayFault {
    /// A write failed; the sink's count of faults rose by one.
    Sink,
    /// Want of memory.
    Memory,
}

impl From<Refused> for ReplayFault {
    ghost from_gives = { λ refused fault. fault ≡ fault_of refused };

    fn from(refused: Refused) -> Self {
        match refused {
            Refused::Failed => ReplayFault::Sink,
            Refused::Memory => ReplayFault::Memory,
        }
    }
}

impl From<Memory> for ReplayFault {
    ghost use Rattle.std.specs.Prelude.{◌≡◌};
    ghost use Rattle.mrpaxos.specs.declared.replay.ReplayFault.TheVariants.{Memory};

    ghost from_gives = { λ _ fault. fault ≡ Memory };

    fn from(_: Memory) -> Self {
        ReplayFault::Memory
    }
}

impl From<AllocError> for ReplayFault {
    ghost use Rattle.std.specs.Prelude.{◌≡◌};
    ghost use Rattle.mrpaxos.specs.declared.replay.ReplayFault.TheVariants.{Memory};

    ghost from_gives = { λ _ fault. fault ≡ Memory };

    fn from(_: AllocError) -> Self {
        ReplayFault::Memory
    }
}

/// Writes the lines of the schedule over a ring to the sink. After a refusal a front of them was written.
pub fn replay<O: Sink>(
    alloc: Global,
    ring: RingTable,
    schedule: &Schedule,
    out: &mut O,
) -> Result<(), ReplayFault>
    requires ring { IsRing ring }
    requires events { AllByRecursion MayHappen schedule.now }
    ensures written { WritesAll (O.taken out.old) (O.taken out.new) (lines_text (trace ring schedule.now)) result }
    ensures fault { CountsSink result (O.faults out.old) (O.faults out.new) }
{
    let mut world = World::start(alloc, ring)?;
    let mut text = new_piece(alloc)?;
    for event in schedule.items() {
        replay_event(&mut world, event, &mut text, out)?;
    }
    let events = schedule.items().len() as u64;
    put_line(&mut text, &Line::End { events })?;
    write_all(out, text.bytes())?;
    Ok(())
}

// One event happens, and its lines are added to the text; of the text a front is written.
fn replay_event<O: Sink>(
    world: &mut World,
    event: &ScheduleEvent,
    text: &mut Octets,
    out: &mut O,
) -> Result<(), ReplayFault>
    requires { MayHappen event.now }
    ensures world { OnOk result (world.new ≡ (happens world.old event.now).world) }
    ensures written { HandsOn (O.taken out.old) (O.taken out.new) (text.old ++ lines_text (happens world.old event.now).lines) text.new result }
    ensures fault { CountsSink result (O.faults out.old) (O.faults out.new) }
{
    let lines = world.event(event)?;
    write_lines(lines.items(), text, out)
}

// Adds some lines to the text, of which a front is written.
fn write_lines<O: Sink>(lines: &[Line], text: &mut Octets, out: &mut O) -> Result<(), ReplayFault>
    ensures written { HandsOn (O.taken out.old) (O.taken out.new) (text.old ++ lines_text lines.now) text.new result }
    ensures fault { CountsSink result (O.faults out.old) (O.faults out.new) }
{
    for line in lines {
        put_line(text, line)?;
        write_piece(out, text)?;
    }
    Ok(())
}
