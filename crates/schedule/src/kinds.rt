//! Events from words.

ghost use Rattle.std.specs.Prelude.{◌≡◌, ◌≤◌, ◌∷◌, IfOk};
ghost use Rattle.text_lines.specs.Reading.{Gives, Reads};
ghost use Rattle.text_lines.specs.Words.{by_key};
ghost use Rattle.text_lines.specs.declared.fault.TextFault.TheVariants.{Word as NoWord};
ghost use Rattle.schedule.specs.Reading.{ask_at, flow_at, lose_at, deliver_at, list_at, tick_at, lead_at, crash_at, image_at, restart_at, calls_at, fuse_at, fail_at, failread_at, show_at, events_of_disks, events_of_nodes, event_at};

use crate::ScheduleEvent;
use crate::commands::read_command;
use crate::fields::can_lead;
use crate::words::{read_byte, read_client, read_node, read_number, read_within};
use disk_model::Image;
use mrp_config::Deployment;
use mrp_types::{ClientId, NodeId, RingId};
use std::alloc::Global;
use text_lines::{TextFault, Words};

// The most frames of one `flow` or `lose`, the most calls of a disk, the most bytes that an image keeps, and the
// greatest number of a ring.
const FRAMES: u64 = 100_000;

const CALLS: u64 = 1_000;

const KEPT: u64 = 1_000_000;

const LAST_RING: u64 = 255;

/// The event whose words come next; nothing is said of whether a ring orders its command.
#[tactic(auto, unfolding(crate::specs::Reading::event_at))]
pub fn read_event(
    alloc: Global,
    deployment: &Deployment,
    words: &mut Words<'_>,
) -> Result<ScheduleEvent, TextFault>
    ensures { Reads (λ e. e) (event_at deployment.now words.old) result words.new }
{
    let word = words.word()?;
    if word == b"ask".as_slice() {
        return read_ask(alloc, deployment, words);
    }
    if word == b"flow".as_slice() {
        return read_flow(words);
    }
    if word == b"lose".as_slice() {
        return read_lose(words);
    }
    if word == b"deliver".as_slice() {
        return read_deliver(words);
    }
    if word == b"list".as_slice() {
        return read_list(words);
    }
    read_of_nodes(alloc, deployment, word, words)
}

// The events of the nodes' time and life, and those of `read_of_disks`.
#[tactic(auto, unfolding(crate::specs::Reading::events_of_nodes))]
fn read_of_nodes(
    alloc: Global,
    deployment: &Deployment,
    word: &[u8],
    words: &mut Words<'_>,
) -> Result<ScheduleEvent, TextFault>
    ensures { Reads (λ e. e) (by_key NoWord (events_of_nodes deployment.now) (word.now ∷ words.old)) result words.new }
{
    if word == b"tick".as_slice() {
        return read_tick(deployment, words);
    }
    if word == b"lead".as_slice() {
        return read_lead(deployment, words);
    }
    if word == b"crash".as_slice() {
        return read_crash(deployment, words);
    }
    if word == b"restart".as_slice() {
        return read_restart(alloc, deployment, words);
    }
    read_of_disks(deployment, word, words)
}

// The faults of disks, and the state of a node.
#[tactic(auto, unfolding(crate::specs::Reading::events_of_disks))]
fn read_of_disks(
    deployment: &Deployment,
    word: &[u8],
    words: &mut Words<'_>,
) -> Result<ScheduleEvent, TextFault>
    ensures { Gives (λ e. e) (by_key NoWord (events_of_disks deployment.now) (word.now ∷ words.old)) result words.new }
{
    if word == b"fuse".as_slice() {
        return read_fuse(deployment, words);
    }
    if word == b"fail".as_slice() {
        return read_fail(deployment, words);
    }
    if word == b"failread".as_slice() {
        return read_failread(deployment, words);
    }
    if word == b"show".as_slice() {
        return read_show(deployment, words);
    }
    Err(TextFault::Word)
}

#[tactic(auto, unfolding(crate::specs::Reading::ask_at))]
fn read_ask(
    alloc: Global,
    deployment: &Deployment,
    words: &mut Words<'_>,
) -> Result<ScheduleEvent, TextFault>
    ensures { Reads (λ e. e) (ask_at deployment.now words.old) result words.new }
{
    let client = ClientId(read_client(deployment, words)?);
    let command = read_command(alloc, words)?;
    Ok(ScheduleEvent::Ask { client, command })
}

#[tactic(auto, unfolding(crate::specs::Reading::flow_at))]
fn read_flow(words: &mut Words<'_>) -> Result<ScheduleEvent, TextFault>
    ensures { Gives (λ e. e) (flow_at words.old) result words.new }
{
    let count = read_within(words, 1, FRAMES)? as u32;
    Ok(ScheduleEvent::Flow { count })
}

#[tactic(auto, unfolding(crate::specs::Reading::lose_at))]
fn read_lose(words: &mut Words<'_>) -> Result<ScheduleEvent, TextFault>
    ensures { Gives (λ e. e) (lose_at words.old) result words.new }
{
    let count = read_within(words, 1, FRAMES)? as u32;
    Ok(ScheduleEvent::Lose { count })
}

#[tactic(auto, unfolding(crate::specs::Reading::deliver_at))]
fn read_deliver(words: &mut Words<'_>) -> Result<ScheduleEvent, TextFault>
    ensures { Gives (λ e. e) (deliver_at words.old) result words.new }
{
    let frame = read_number(words)?;
    Ok(ScheduleEvent::Deliver { frame })
}

#[tactic(auto, unfolding(crate::specs::Reading::list_at))]
fn read_list(words: &mut Words<'_>) -> Result<ScheduleEvent, TextFault>
    ensures { Gives (λ e. e) (list_at words.old) result words.new }
{
    let frame = read_number(words)?;
    Ok(ScheduleEvent::List { frame })
}

#[tactic(auto, unfolding(crate::specs::Reading::tick_at))]
fn read_tick(deployment: &Deployment, words: &mut Words<'_>) -> Result<ScheduleEvent, TextFault>
    ensures { Gives (λ e. e) (tick_at deployment.now words.old) result words.new }
{
    let word = words.word()?;
    if word == b"all".as_slice() {
        return Ok(ScheduleEvent::TickAll);
    }
    if word == b"node".as_slice() {
        let node = NodeId(read_node(deployment, words)?);
        return Ok(ScheduleEvent::TickNode { node });
    }
    if word == b"client".as_slice() {
        let client = ClientId(read_client(deployment, words)?);
        return Ok(ScheduleEvent::TickClient { client });
    }
    Err(TextFault::Word)
}

#[tactic(auto, unfolding(crate::specs::Reading::lead_at))]
fn read_lead(deployment: &Deployment, words: &mut Words<'_>) -> Result<ScheduleEvent, TextFault>
    ensures { Gives (λ e. e) (lead_at deployment.now words.old) result words.new }
{
    let node = read_node(deployment, words)?;
    let ring = read_within(words, 0, LAST_RING)? as u8;
    if !can_lead(deployment, node, ring) {
        return Err(TextFault::Range);
    }
    Ok(ScheduleEvent::Lead {
        node: NodeId(node),
        ring: RingId(ring),
    })
}

#[tactic(auto, unfolding(crate::specs::Reading::crash_at))]
fn read_crash(deployment: &Deployment, words: &mut Words<'_>) -> Result<ScheduleEvent, TextFault>
    ensures { Gives (λ e. e) (crash_at deployment.now words.old) result words.new }
{
    let node = NodeId(read_node(deployment, words)?);
    Ok(ScheduleEvent::Crash { node })
}

#[tactic(auto, unfolding(crate::specs::Reading::image_at))]
fn read_image(alloc: Global, words: &mut Words<'_>) -> Result<Image, TextFault>
    ensures { Reads (λ i. i) (image_at words.old) result words.new }
{
    let word = words.word()?;
    if word == b"old".as_slice() {
        return Ok(Image::Old);
    }
    if word == b"new".as_slice() {
        return Ok(Image::New);
    }
    if word == b"fill".as_slice() {
        let keep = read_within(words, 0, KEPT)? as u32;
        let byte = read_byte(alloc, words)?;
        return Ok(Image::Fill { keep, byte });
    }
    Err(TextFault::Word)
}

#[tactic(auto, unfolding(crate::specs::Reading::restart_at))]
fn read_restart(
    alloc: Global,
    deployment: &Deployment,
    words: &mut Words<'_>,
) -> Result<ScheduleEvent, TextFault>
    ensures { Reads (λ e. e) (restart_at deployment.now words.old) result words.new }
{
    let node = NodeId(read_node(deployment, words)?);
    let image = read_image(alloc, words)?;
    Ok(ScheduleEvent::Restart { node, image })
}

// A node, and after how many calls of its disk.
#[tactic(auto, unfolding(crate::specs::Reading::calls_at))]
fn read_calls(deployment: &Deployment, words: &mut Words<'_>) -> Result<(u8, u32), TextFault>
    ensures { Gives (λ x. x) (calls_at deployment.now words.old) result words.new }
{
    let node = read_node(deployment, words)?;
    let calls = read_within(words, 0, CALLS)? as u32;
    Ok((node, calls))
}

#[tactic(auto, unfolding(crate::specs::Reading::fuse_at))]
fn read_fuse(deployment: &Deployment, words: &mut Words<'_>) -> Result<ScheduleEvent, TextFault>
    ensures { Gives (λ e. e) (fuse_at deployment.now words.old) result words.new }
{
    let (node, calls) = read_calls(deployment, words)?;
    Ok(ScheduleEvent::Fuse {
        node: NodeId(node),
        calls,
    })
}

#[tactic(auto, unfolding(crate::specs::Reading::fail_at))]
fn read_fail(deployment: &Deployment, words: &mut Words<'_>) -> Result<ScheduleEvent, TextFault>
    ensures { Gives (λ e. e) (fail_at deployment.now words.old) result words.new }
{
    let (node, calls) = read_calls(deployment, words)?;
    Ok(ScheduleEvent::Fail {
        node: NodeId(node),
        calls,
    })
}

#[tactic(auto, unfolding(crate::specs::Reading::failread_at))]
fn read_failread(deployment: &Deployment, words: &mut Words<'_>) -> Result<ScheduleEvent, TextFault>
    ensures { Gives (λ e. e) (failread_at deployment.now words.old) result words.new }
{
    let (node, calls) = read_calls(deployment, words)?;
    Ok(ScheduleEvent::FailRead {
        node: NodeId(node),
        calls,
    })
}

#[tactic(auto, unfolding(crate::specs::Reading::show_at))]
fn read_show(deployment: &Deployment, words: &mut Words<'_>) -> Result<ScheduleEvent, TextFault>
    ensures { Gives (λ e. e) (show_at deployment.now words.old) result words.new }
{
    let node = NodeId(read_node(deployment, words)?);
    Ok(ScheduleEvent::Show { node })
}
