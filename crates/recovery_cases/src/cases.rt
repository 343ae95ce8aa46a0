//! Cases of attempts.

ghost use Rattle.std.specs.Prelude.{◌≡◌, ◌≤◌, ◌^◌, true};

use anyhow::Result;
use mrp_config::Deployment;
use mrp_types::{END, Members, Memory, NodeId, PartitionId, RingId, Tuple};
use recovery::{Missing, Recovery, Turn};
use std::alloc::{AllocFailed, Global};
use text_lines::{TextFault, Words};

/// The line is no case, or memory is wanting.
#[derive(Drop)]
pub struct NoCase;

impl From<TextFault> for NoCase {
    fn from(_: TextFault) -> Self {
        NoCase
    }
}

impl From<Memory> for NoCase {
    fn from(_: Memory) -> Self {
        NoCase
    }
}

/// The tuple of ring 0 alone.
fn tuple_at(inst: u64) -> Tuple
    requires { inst ≤ 2 ^ 40 }
{
    Tuple::from_pairs(&[(RingId(0), inst)])
}

fn read_node(words: &mut Words<'_>) -> Result<NodeId, NoCase> {
    Ok(NodeId(words.number_within(0, 255)? as u8))
}

fn read_count(words: &mut Words<'_>) -> Result<u32, NoCase> {
    Ok(words.number_within(0, 4_294_967_295)? as u32)
}

fn read_tuple(words: &mut Words<'_>) -> Result<Tuple, NoCase> {
    Ok(tuple_at(words.number_within(0, END)?))
}

/// The attempt that a line begins.
fn begin(
    alloc: Global,
    deployment: &Deployment,
    words: &mut Words<'_>,
) -> Result<Recovery, NoCase> {
    let partition = PartitionId(words.number_within(0, 255)? as u8);
    let own = read_node(words)?;
    let epoch = read_count(words)?;
    let attempt = read_count(words)?;
    let tuple = read_tuple(words)?;
    let Some(_table) = deployment.partition(partition) else {
        return Err(NoCase);
    };
    Ok(Recovery::begin(alloc, deployment, partition, own, epoch, attempt, tuple))
}

fn have(words: &mut Words<'_>, recovery: &mut Recovery) -> Result<Turn, NoCase> {
    let from = read_node(words)?;
    let epoch = read_count(words)?;
    let attempt = read_count(words)?;
    recovery.on_have(from, epoch, attempt, read_tuple(words)?);
    Ok(recovery.turn())
}

fn part(alloc: Global, words: &mut Words<'_>, recovery: &mut Recovery) -> Result<Turn, NoCase> {
    let from = read_node(words)?;
    let epoch = read_count(words)?;
    let attempt = read_count(words)?;
    let tuple = read_tuple(words)?;
    let offset = words.number()?;
    let total = words.number()?;
    let bytes = words.hex(alloc)?;
    recovery.on_part(from, epoch, attempt, tuple, offset, total, bytes.bytes())?;
    Ok(recovery.turn())
}

fn gone(words: &mut Words<'_>, recovery: &mut Recovery) -> Result<Turn, NoCase> {
    let from = read_node(words)?;
    let epoch = read_count(words)?;
    let attempt = read_count(words)?;
    let asked = read_tuple(words)?;
    recovery.on_gone(from, epoch, attempt, asked, read_tuple(words)?);
    Ok(recovery.turn())
}

/// One call, and what it says or leaves.
fn call(alloc: Global, words: &mut Words<'_>, recovery: &mut Recovery) -> Result<Turn, NoCase> {
    match words.word()? {
        b"have" => have(words, recovery),
        b"part" => part(alloc, words, recovery),
        b"gone" => gone(words, recovery),
        b"tick" => Ok(recovery.on_tick(words.number_within(0, 1)? == 1)),
        _ => Err(NoCase),
    }
}

fn show_missing(rt: &HostRuntime, members: &Members) -> Result<()> {
    print!(rt; " answers")?;
    for node in 0..32u8 {
        if members.has(NodeId(node)) {
            print!(rt; " {node}")?;
        }
    }
    Ok(())
}

fn show_turn(rt: &HostRuntime, turn: &Turn) -> Result<()> {
    match turn {
        Turn::Ask => print!(rt; " ask")?,
        Turn::Wait(Missing::Answers(members)) => show_missing(rt, members)?,
        Turn::Wait(Missing::Part(offset)) => print!(rt; " part {offset}")?,
        Turn::NoQuorum { answered, needed } => print!(rt; " no quorum {answered} {needed}")?,
        Turn::Choose(tuple, from) => show_choice(rt, tuple, from.0)?,
        Turn::Install(tuple) => print!(rt; " install {}", tuple.get(RingId(0)).unwrap_or(END))?,
        Turn::Again => print!(rt; " again")?,
    }
    print!(rt; ",")?;
    Ok(())
}

fn show_choice(rt: &HostRuntime, tuple: &Tuple, from: u8) -> Result<()> {
    print!(rt; " choose {} {from}", tuple.get(RingId(0)).unwrap_or(END))?;
    Ok(())
}

fn show_bytes(rt: &HostRuntime, bytes: &[u8]) -> Result<()> {
    for byte in bytes {
        print!(rt; " {byte}")?;
    }
    Ok(())
}

/// Prints what an attempt says at its beginning and after each call.
pub fn show(rt: &HostRuntime, deployment: &Deployment, line: &[u8]) -> Result<()> {
    let mut words = Words::new(line);
    let Ok(mut recovery) = begin(rt.alloc(), deployment, &mut words) else {
        println!(rt; " no case")?;
        return Ok(());
    };
    show_turn(rt, &recovery.turn())?;
    for _call in 0..1_000 {
        if words.end().is_ok() {
            break;
        }
        let Ok(turn) = call(rt.alloc(), &mut words, &mut recovery) else {
            println!(rt; " no case")?;
            return Ok(());
        };
        show_turn(rt, &turn)?;
    }
    if recovery.is_whole() {
        show_bytes(rt, recovery.bytes().bytes())?;
    }
    println!(rt; " end")?;
    Ok(())
}
