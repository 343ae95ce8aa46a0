//! What a reader answers to a case, in words.

ghost use Rattle.std.specs.Prelude.{◌≡◌, codes};
ghost use Rattle.command_codec.specs.Grammar.{batch_of, command_of, reply_of};
ghost use Rattle.frames.specs.Grammar.{read_of as frame_of};
ghost use Rattle.mrp_config.specs.Walk.{read_of as config_of};
ghost use Rattle.verdicts.specs.Cases.{Tells, TellsOf};
ghost use Rattle.verdicts.specs.Texts.{codec_fault_text, config_fault_text, frame_fault_text, verdict_of};

use crate::cases::{bytes_of_hex, cut, padded_text, text_of_config, with_control};
use crate::faults::said;
use crate::journals::{areas_of, compacted, found, opened};
use crate::readers::{
    asked_verdict, bytes_verdict, config_verdict, drawn_text, events_verdict, line_verdict,
};
use crate::reads::reads_verdict;
use crate::shown::deployment_text;
use crate::stops::stops_verdict;
use crate::texts::Texts;
use mrp_config::Deployment;
use mrp_types::{Memory, Octets};
use std::alloc::Global;

/// The verdict on a case: `ok`, a fault, or `no case`.
pub fn verdict(alloc: Global, texts: &Texts, case: &str) -> Result<Octets, Memory>
    ensures frame { TellsOf (codes "frame") case.now (λ bytes. verdict_of frame_fault_text (frame_of bytes)) result }
    ensures command { TellsOf (codes "command") case.now (λ bytes. verdict_of codec_fault_text (command_of bytes)) result }
    ensures batch { TellsOf (codes "batch") case.now (λ bytes. verdict_of codec_fault_text (batch_of bytes)) result }
    ensures reply { TellsOf (codes "reply") case.now (λ bytes. verdict_of codec_fault_text (reply_of bytes)) result }
    ensures toml { TellsOf (codes "toml") case.now (λ bytes. verdict_of config_fault_text (config_of bytes)) result }
{
    let Some((word, rest)) = cut(case) else {
        return said(alloc, "no case");
    };
    match word {
        "config" => of_text(alloc, text_of_config(alloc, texts, rest)?),
        "padded" => of_text(alloc, padded_text(alloc, texts, rest)?),
        "line" => line_verdict(alloc, with_control(alloc, rest)?.as_bytes()),
        "events" | "asked" | "drawn" => over_deployment(alloc, texts, word, rest),
        "shows" => match deployment_named(alloc, texts, rest) {
            Some(deployment) => deployment_text(alloc, &deployment.copy(alloc)?),
            None => said(alloc, "no case"),
        },
        "journal" | "opened" | "compacted" => match areas_of(alloc, rest)? {
            Some(areas) => journal_verdict(alloc, word, areas),
            None => said(alloc, "no case"),
        },
        "stops" => stops_verdict(alloc, rest),
        "reads" => reads_verdict(alloc, rest),
        _ => of_hex(alloc, word, rest),
    }
}

// Of bytes in hexadecimal.
fn of_hex(alloc: Global, word: &str, digits: &str) -> Result<Octets, Memory>
    ensures frame { word.now ≡ codes "frame" → Tells digits.now (λ bytes. verdict_of frame_fault_text (frame_of bytes)) result }
    ensures command { word.now ≡ codes "command" → Tells digits.now (λ bytes. verdict_of codec_fault_text (command_of bytes)) result }
    ensures batch { word.now ≡ codes "batch" → Tells digits.now (λ bytes. verdict_of codec_fault_text (batch_of bytes)) result }
    ensures reply { word.now ≡ codes "reply" → Tells digits.now (λ bytes. verdict_of codec_fault_text (reply_of bytes)) result }
    ensures toml { word.now ≡ codes "toml" → Tells digits.now (λ bytes. verdict_of config_fault_text (config_of bytes)) result }
{
    match bytes_of_hex(alloc, digits)? {
        Some(bytes) => bytes_verdict(alloc, word, bytes.as_slice()),
        None => said(alloc, "no case"),
    }
}

// Of the text of a deployment.
fn of_text(alloc: Global, text: Option<String>) -> Result<Octets, Memory> {
    match text {
        Some(text) => config_verdict(alloc, text.as_bytes()),
        None => said(alloc, "no case"),
    }
}

fn journal_verdict(alloc: Global, word: &str, areas: (Vec<u8>, Vec<u8>)) -> Result<Octets, Memory> {
    match word {
        "opened" => opened(alloc, areas),
        "compacted" => compacted(alloc, areas),
        _ => found(alloc, areas),
    }
}

fn deployment_named(alloc: Global, texts: &Texts, name: &str) -> Option<Deployment> {
    let config = texts.named(name)?;
    Deployment::from_bytes(alloc, config.as_bytes()).ok()
}

// Of events, of a client's command, or of a drawn schedule, over the deployment that the case names first.
fn over_deployment(alloc: Global, texts: &Texts, word: &str, case: &str) -> Result<Octets, Memory> {
    let Some((name, text)) = cut(case) else {
        return said(alloc, "no case");
    };
    let Some(deployment) = deployment_named(alloc, texts, name) else {
        return said(alloc, "no case");
    };
    if word == "drawn" {
        return drawn_verdict(alloc, &deployment, text);
    }
    let text = with_control(alloc, text)?;
    if word == "asked" {
        return asked_verdict(alloc, &deployment, text.as_bytes());
    }
    events_verdict(alloc, &deployment, text.as_bytes())
}

fn drawn_verdict(alloc: Global, deployment: &Deployment, case: &str) -> Result<Octets, Memory> {
    let Some((seed, events)) = cut(case) else {
        return said(alloc, "no case");
    };
    let (Ok(seed), Ok(events)) = (seed.parse::<u64>(), events.parse::<u32>()) else {
        return said(alloc, "no case");
    };
    drawn_text(alloc, deployment, seed, events)
}
