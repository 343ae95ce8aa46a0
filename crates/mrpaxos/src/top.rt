//! The top call: words, configuration, input and output of the program.

ghost use Rattle.std.specs.Prelude.{◌≡◌, ◌↔◌, ◌<◌, IfSome, IsTrue, map, string_bytes};
ghost use Rattle.mrpaxos.specs.declared.draw.Draw.{Draw as SomeDraw};
ghost use Rattle.mrpaxos.specs.Drawing.{IsDraw, AnswersDraw};
ghost use Rattle.mrp_config.specs.Valid.{IsValid};
ghost use Rattle.world.specs.Built.{IsBuiltRing};
ghost use Rattle.mrpaxos.specs.Top.{Ends, Replays, Configured, Entered, Judged, IsReplay, Answers, refused_of, unbuilt_fault};
ghost use Rattle.mrpaxos.specs.declared.status.Status.TheVariants.{Input};
ghost use Rattle.mrpaxos.specs.declared.status.InputFault.TheVariants.{Schedule as OfSchedule};

use crate::draw::{draw_of, run_draw};
use crate::replay::{ReplayFault, replay};
use crate::status::{InputFault, Status, Which};
use mrp_config::{ConfigFault, Deployment, RingTable};
use mrp_types::limits::{CONFIGURATION, SCHEDULE};
use outside::{Refused, Sink, Source, read_front};
use schedule::{FaultKind, ScheduleFault, read};
use std::alloc::Global;
use world::{built_ring, first_unbuilt};

// One byte more than a configuration may have, and than a schedule may have.
pub(crate) const CONFIG: usize = CONFIGURATION + 1;

const INPUT: usize = SCHEDULE + 1;

/// Runs a command. `replay` reads the configuration to its end and judges it, then the input, and writes the lines of
/// the system to the output. `gen SEED EVENTS` reads and judges the configuration, and writes the schedule of these
/// numbers. Of each source it reads no byte after the first past the limit.
pub fn run<C: Source, I: Source, O: Sink>(
    alloc: Global,
    words: &[String],
    config: &mut C,
    input: &mut I,
    out: &mut O,
) -> Status
    // What the status says of the words, of the bytes that came, and of what was written.
    ensures ends { Ends result (map string_bytes words.now)
        (record {
          before = C.left config.old;
          after = C.left config.new;
          faults_before = C.faults config.old;
          faults_after = C.faults config.new;
          reads_before = C.reads config.old;
          reads_after = C.reads config.new;
        })
        (record {
          before = I.left input.old;
          after = I.left input.new;
          faults_before = I.faults input.old;
          faults_after = I.faults input.new;
          reads_before = I.reads input.old;
          reads_after = I.reads input.new;
        })
        (record { before = O.taken out.old; after = O.taken out.new; faults_before = O.faults out.old; faults_after = O.faults out.new }) }

    // Of a configuration and an input that are told, the first fault is answered or that there is none, unless a call
    // failed or memory ran out.
    ensures answers { IsReplay (map string_bytes words.now) → IfSome (C.left config.old) (λ conf.
        IfSome (I.left input.old) (λ text. Answers result conf text)) }

    // The same of the configuration alone, where a schedule is drawn.
    ensures draws { (draw : SomeDraw) → IsDraw draw (map string_bytes words.now) →
        IfSome (C.left config.old) (λ conf. AnswersDraw result conf) }
{
    if is_replay(words) {
        return run_replay(alloc, config, input, out);
    }
    match draw_of(words) {
        Some(draw) => run_draw(alloc, draw, config, out),
        None => Status::Usage,
    }
}

// Whether the words are the one word `replay`.
fn is_replay(words: &[String]) -> bool
    ensures { IsTrue result ↔ IsReplay (map string_bytes words.now) }
{
    match words {
        [word] => word.as_str() == "replay",
        _ => false,
    }
}

// Reads the configuration and the input, and replays the schedule.
fn run_replay<C: Source, I: Source, O: Sink>(
    alloc: Global,
    config: &mut C,
    input: &mut I,
    out: &mut O,
) -> Status
    ensures ends { Replays result
        (record {
          before = C.left config.old;
          after = C.left config.new;
          faults_before = C.faults config.old;
          faults_after = C.faults config.new;
          reads_before = C.reads config.old;
          reads_after = C.reads config.new;
        })
        (record {
          before = I.left input.old;
          after = I.left input.new;
          faults_before = I.faults input.old;
          faults_after = I.faults input.new;
          reads_before = I.reads input.old;
          reads_after = I.reads input.new;
        })
        (record { before = O.taken out.old; after = O.taken out.new; faults_before = O.faults out.old; faults_after = O.faults out.new }) }
    ensures answers { IfSome (C.left config.old) (λ conf. IfSome (I.left input.old) (λ text. Answers result conf text)) }
{
    match read_front(alloc, config, CONFIG) {
        Ok(bytes) => run_config(alloc, bytes.bytes(), input, out),
        Err(Refused::Failed) => Status::Source(Which::Config),
        Err(Refused::Memory) => Status::Memory,
    }
}

// Judges the bytes of a configuration, and runs over what they describe.
fn run_config<I: Source, O: Sink>(alloc: Global, bytes: &[u8], input: &mut I, out: &mut O) -> Status
    ensures { Configured result bytes.now
        (record {
          before = I.left input.old;
          after = I.left input.new;
          faults_before = I.faults input.old;
          faults_after = I.faults input.new;
          reads_before = I.reads input.old;
          reads_after = I.reads input.new;
        })
        (record { before = O.taken out.old; after = O.taken out.new; faults_before = O.faults out.old; faults_after = O.faults out.new }) }
{
    let deployment = match Deployment::from_bytes(alloc, bytes) {
        Ok(deployment) => deployment,
        Err(ConfigFault::Memory) => return Status::Memory,
        Err(fault) => return Status::Config(fault),
    };
    match built_ring(&deployment) {
        Some(ring) => run_input(alloc, &deployment, ring, input, out),
        None => Status::Config(ConfigFault::NotBuilt),
    }
}

// Reads the input, and replays it over the ring of a deployment.
fn run_input<I: Source, O: Sink>(
    alloc: Global,
    deployment: &Deployment,
    ring: RingTable,
    input: &mut I,
    out: &mut O,
) -> Status
    requires valid { IsValid deployment.now }
    requires built { IsBuiltRing deployment.now ring }
    ensures { Entered result deployment.now ring
        (record {
          before = I.left input.old;
          after = I.left input.new;
          faults_before = I.faults input.old;
          faults_after = I.faults input.new;
          reads_before = I.reads input.old;
          reads_after = I.reads input.new;
        })
        (record { before = O.taken out.old; after = O.taken out.new; faults_before = O.faults out.old; faults_after = O.faults out.new }) }
{
    match read_front(alloc, input, INPUT) {
        Ok(bytes) => replay_bytes(alloc, deployment, ring, bytes.bytes(), out),
        Err(Refused::Failed) => Status::Source(Which::Input),
        Err(Refused::Memory) => Status::Memory,
    }
}

// Replays the bytes of an input.
fn replay_bytes<O: Sink>(
    alloc: Global,
    deployment: &Deployment,
    ring: RingTable,
    bytes: &[u8],
    out: &mut O,
) -> Status
    requires valid { IsValid deployment.now }
    requires built { IsBuiltRing deployment.now ring }
    ensures { Judged result deployment.now ring bytes.now
        (record { before = O.taken out.old; after = O.taken out.new; faults_before = O.faults out.old; faults_after = O.faults out.new }) }
{
    let schedule = match read(alloc, deployment, bytes) {
        Ok(schedule) => schedule,
        Err(fault) => return refused(fault),
    };
    if let Some(index) = first_unbuilt(&schedule) {
        return unbuilt(index);
    }
    match replay(alloc, ring, &schedule, out) {
        Ok(()) => Status::Done,
        Err(ReplayFault::Sink) => Status::Sink,
        Err(ReplayFault::Memory) => Status::Memory,
    }
}

// The step isn't built for the event at this index.
fn unbuilt(index: usize) -> Status
    requires { index < 1048576 }
    ensures { result ≡ Input (OfSchedule (unbuilt_fault index)) }
{
    let line = index as u32 + 1;
    let kind = FaultKind::Word;
    Status::Input(InputFault::Schedule(ScheduleFault { line, kind }))
}

// Want of memory is no fault of the input.
fn refused(fault: ScheduleFault) -> Status
    ensures { result ≡ refused_of fault fault.kind }
{
    match fault.kind {
        FaultKind::Memory => Status::Memory,
        _ => Status::Input(InputFault::Schedule(fault)),
    }
}
