//! Schedules made from a number.

ghost use Rattle.std.specs.Prelude.{◌≡◌, ◌<◌, IfOk, take};
ghost use Rattle.command_codec.specs.Fields.{u32_bytes};
ghost use Rattle.schedule.specs.Generating.{generated, opening as opening_lem, event_by as event_lem, event_of, asked_by as asked_lem, stop_of, image_of as image_lem, xth as xth_lem};

use crate::names::Names;
use crate::{Schedule, ScheduleEvent};
use command_codec::Command;
use command_codec::writing::{put_u16, put_u32};
use disk_model::Image;
use mrp_config::Deployment;
use mrp_types::{ClientId, Memory, NodeId, Octets};
use rand_core::SeedableRng;
use rand_core::utils::NextWord;
use rand_pcg::Lcg64Xsh32;
use std::alloc::Global;

// How many events each schedule begins with.
const OPENING: u32 = 3;

/// So many events of a deployment, by the words that a generator gives from this seed: `flow 1000`, `tick all`,
/// `flow 1000`, and then an event of every two words.
pub fn generate(
    alloc: Global,
    deployment: &Deployment,
    seed: u64,
    events: u32,
) -> Result<Schedule, Memory>
    ensures { IfOk result (λ schedule. schedule ≡ generated deployment.now seed events) }
{
    let names = Names::of(alloc, deployment)?;
    let mut words = Lcg64Xsh32::seed_from_u64(seed);
    let mut items = opening(alloc, events)?;
    for _turn in OPENING..events {
        let kind = words.next_word();
        let a = words.next_word();
        items.push(event_by(alloc, &names, kind % 16, a)?)?;
    }
    Ok(Schedule::from_vec(items))
}

// How each schedule begins.
fn opening(alloc: Global, events: u32) -> Result<Vec<ScheduleEvent>, Memory>
    ensures { IfOk result (λ v. v.items ≡ take events opening_lem) }
{
    let mut items = Vec::from_array(
        alloc,
        [
            ScheduleEvent::Flow { count: 1_000 },
            ScheduleEvent::TickAll,
            ScheduleEvent::Flow { count: 1_000 },
        ],
    )?;
    items.truncate(events as usize);
    Ok(items)
}

// The event of a kind, with a word that says the rest.
#[tactic(auto, unfolding(crate::specs::Generating::event_by))]
fn event_by(alloc: Global, names: &Names, kind: u32, a: u32) -> Result<ScheduleEvent, Memory>
    ensures { IfOk result (λ event. event ≡ event_lem names.now kind a) }
{
    if kind < 6 {
        return Ok(ScheduleEvent::Flow { count: 1 + a % 64 });
    }
    if kind < 9 {
        return Ok(ScheduleEvent::TickAll);
    }
    if kind < 12 {
        return ask_by(alloc, names, a);
    }
    if kind == 12 {
        return Ok(ScheduleEvent::Lose { count: 1 + a % 4 });
    }
    if kind == 13 {
        return Ok(ScheduleEvent::Deliver {
            frame: u64::from(a % 4_096),
        });
    }
    let Some(node) = names.node(a) else {
        return Ok(ScheduleEvent::TickAll);
    };
    if kind == 14 {
        return Ok(stop_by(node, a));
    }
    Ok(ScheduleEvent::Restart {
        node,
        image: image_by(a),
    })
}

// What one of the clients asks.
fn ask_by(alloc: Global, names: &Names, a: u32) -> Result<ScheduleEvent, Memory>
    ensures { IfOk result (λ event. event ≡ event_of (asked_lem names.now a) (xth_lem names.now.clients a)) }
{
    match names.client(a) {
        Some(client) => asked_by(alloc, names, a, client),
        None => Ok(ScheduleEvent::TickAll),
    }
}

// An append to one of the logs, or an insert.
#[tactic(auto, unfolding(crate::specs::Generating::asked_by))]
fn asked_by(alloc: Global, names: &Names, a: u32, client: ClientId) -> Result<ScheduleEvent, Memory>
    ensures { IfOk result (λ event. event ≡ asked_lem names.now a client) }
{
    let mut value = Octets::new(alloc);
    put_u32(&mut value, a)?;
    if a / 65_536 % 2 == 0 {
        return Ok(match names.log(a / 256) {
            Some(log) => ScheduleEvent::Ask {
                client,
                command: Command::Append { log, value },
            },
            None => ScheduleEvent::TickAll,
        });
    }
    let mut key = Octets::new(alloc);
    put_u16(&mut key, (a % 65_536) as u16)?;
    Ok(ScheduleEvent::Ask {
        client,
        command: Command::Insert { key, value },
    })
}

// A node stops at once, or once its disk fails.
fn stop_by(node: NodeId, a: u32) -> ScheduleEvent
    ensures { result ≡ stop_of a node }
{
    if a < 1 << 31 {
        return ScheduleEvent::Crash { node };
    }
    ScheduleEvent::Fuse {
        node,
        calls: a / 256 % 5,
    }
}

// The image on which a node opens.
fn image_by(a: u32) -> Image
    ensures { result ≡ image_lem a }
{
    let which = a / 256 % 3;
    if which == 0 {
        return Image::Old;
    }
    if which == 1 {
        return Image::New;
    }
    Image::Fill {
        keep: a / 1_024 % 32,
        byte: 0x7f,
    }
}
