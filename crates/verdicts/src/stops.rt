//! Where a fault that was set on a disk in memory stops a call, and what is left of the fault then.

ghost use Rattle.std.specs.Prelude.{◌≡◌};

use crate::cases::cut;
use crate::faults::said;
use disk_model::{Area, Disk, Refused, SimDisk};
use gate_area::{Pair, SurveyFault, found, open_gate, read_all, renew, retire, survey};
use gate_log::{Body, GateLog, LogFault};
use mrp_types::{Memory, NodeId, Octets, RingId};
use std::alloc::{AllocError, Global};
use text_lines::{put_number, put_word};
use vote_journal::{JournalFault, OpenFault, VoteJournal};
use vote_state::{Change, Changes};

// More than any case needs.
const WIDE: u64 = 1_048_576;

// The body of a fresh journal: magic, version 1, generation 1, a closed gate.
const FRESH: [u8; 16] = [0x4d, 0x52, 0x4a, 0, 0, 0, 1, 0, 0, 0, 0, 0, 0, 0, 1, 0];

// How many calls are tried after the one of the case.
const MOST: u32 = 20;

// A fault of a disk in memory, as its calls of these names set it.
#[derive(Clone, Copy)]
enum Fault {
    Fuse(u32),
    Fail(u32),
    FailRead(u32),
}

// How a call has ended.
#[derive(Clone, Copy, PartialEq, Eq)]
enum End {
    Passed,
    Stopped,
    Other,
}

// Something has failed before the fault was set.
#[derive(Drop)]
struct Spoilt;

impl From<Refused> for Spoilt {
    fn from(_: Refused) -> Self {
        Spoilt
    }
}

impl From<AllocError> for Spoilt {
    fn from(_: AllocError) -> Self {
        Spoilt
    }
}

impl From<Memory> for Spoilt {
    fn from(_: Memory) -> Self {
        Spoilt
    }
}

impl From<LogFault> for Spoilt {
    fn from(_: LogFault) -> Self {
        Spoilt
    }
}

impl From<OpenFault> for Spoilt {
    fn from(_: OpenFault) -> Self {
        Spoilt
    }
}

/// How the call of this name ends once the fault is set, whether a fuse has stopped it, and how many reads and how many
/// syncs pass then.
pub fn stops_verdict(alloc: Global, case: &str) -> Result<Octets, Memory> {
    let Some((call, fault)) = cut(case) else {
        return said(alloc, "no case");
    };
    let Some(fault) = fault_of(fault) else {
        return said(alloc, "no case");
    };
    match called(alloc, call, fault) {
        Ok((end, disk)) => left(alloc, end, disk),
        Err(_) => said(alloc, "no case"),
    }
}

fn fault_of(text: &str) -> Option<Fault> {
    let (word, number) = cut(text)?;
    let k = number.parse::<u32>().ok()?;
    match word {
        "fuse" => Some(Fault::Fuse(k)),
        "fail" => Some(Fault::Fail(k)),
        "fail_read" => Some(Fault::FailRead(k)),
        _ => None,
    }
}

fn called(alloc: Global, call: &str, fault: Fault) -> Result<(End, SimDisk), Spoilt> {
    match call {
        "survey" => surveys(alloc, fault),
        "retire" => retires(alloc, fault),
        "found" => founds(alloc, fault),
        "gate" => opens_gate(alloc, fault),
        "renew" => renews(alloc, fault),
        "read" => reads(alloc, fault),
        "begin" => begins(alloc, fault),
        "resume" => resumes(alloc, fault),
        "append" => appends(alloc, fault),
        "compact" => compacts(alloc, fault),
        _ => journal_called(alloc, call, fault),
    }
}

fn journal_called(alloc: Global, call: &str, fault: Fault) -> Result<(End, SimDisk), Spoilt> {
    match call {
        "first" => opens_first(alloc, fault),
        "again" => opens_again(alloc, fault),
        "record" => records(alloc, fault),
        "replace" => replaces(alloc, fault),
        _ => Err(Spoilt),
    }
}

fn left(alloc: Global, end: End, disk: SimDisk) -> Result<Octets, Memory> {
    let mut disk = disk;
    let end = match end {
        End::Passed => "ok",
        End::Stopped => "disk",
        End::Other => "other",
    };
    let mut text = said(alloc, end)?;
    if disk.stopped() {
        put_word(&mut text, b"stopped")?;
    }
    put_word(&mut text, b"reads")?;
    put_number(&mut text, u64::from(reads_left(&mut disk)))?;
    put_word(&mut text, b"syncs")?;
    put_number(&mut text, u64::from(syncs_left(&mut disk)))?;
    Ok(text)
}

fn reads_left(disk: &mut SimDisk) -> u32 {
    for turn in 0..MOST {
        if !reads_once(disk) {
            return turn;
        }
    }
    MOST
}

fn reads_once(disk: &mut SimDisk) -> bool {
    let mut into = [0; 1];
    disk.read(Area::Check2, 0, &mut into).is_ok()
}

fn syncs_left(disk: &mut SimDisk) -> u32 {
    for turn in 0..MOST {
        if disk.sync().is_err() {
            return turn;
        }
    }
    MOST
}

fn set(disk: &mut SimDisk, fault: Fault)
    ensures { disk.new.told ≡ disk.old.told }
{
    match fault {
        Fault::Fuse(k) => disk.fuse(k),
        Fault::Fail(k) => disk.fail(k),
        Fault::FailRead(k) => disk.fail_read(k),
    }
}

fn end_of<T: Drop>(answer: Result<T, Refused>) -> End {
    match answer {
        Ok(_) => End::Passed,
        Err(Refused::Failed) => End::Stopped,
        Err(_) => End::Other,
    }
}

fn log_end<T: Drop>(answer: Result<T, LogFault>) -> End {
    match answer {
        Ok(_) => End::Passed,
        Err(LogFault::Disk) => End::Stopped,
        Err(_) => End::Other,
    }
}

fn open_end<T: Drop>(answer: Result<T, OpenFault>) -> End {
    match answer {
        Ok(_) => End::Passed,
        Err(OpenFault::Disk) => End::Stopped,
        Err(_) => End::Other,
    }
}

fn journal_end<T: Drop>(answer: Result<T, JournalFault>) -> End {
    match answer {
        Ok(_) => End::Passed,
        Err(JournalFault::Disk) => End::Stopped,
        Err(_) => End::Other,
    }
}

fn surveys(alloc: Global, fault: Fault) -> Result<(End, SimDisk), Spoilt> {
    let mut disk = SimDisk::empty(alloc);
    set(&mut disk, fault);
    let end = match survey(&mut disk, Pair::Journal) {
        Ok(_) => End::Passed,
        Err(SurveyFault::Disk) => End::Stopped,
        Err(_) => End::Other,
    };
    Ok((end, disk))
}

fn retires(alloc: Global, fault: Fault) -> Result<(End, SimDisk), Spoilt> {
    let mut disk = SimDisk::empty(alloc);
    set(&mut disk, fault);
    let end = end_of(retire(&mut disk, Area::Journal0));
    Ok((end, disk))
}

fn founds(alloc: Global, fault: Fault) -> Result<(End, SimDisk), Spoilt> {
    let mut disk = SimDisk::empty(alloc);
    retire(&mut disk, Area::Journal0)?;
    set(&mut disk, fault);
    let end = end_of(found(&mut disk, Area::Journal0, &FRESH));
    Ok((end, disk))
}

fn opens_gate(alloc: Global, fault: Fault) -> Result<(End, SimDisk), Spoilt> {
    let mut disk = SimDisk::empty(alloc);
    retire(&mut disk, Area::Journal0)?;
    set(&mut disk, fault);
    let end = end_of(open_gate(&mut disk, Area::Journal0, 0, &FRESH));
    Ok((end, disk))
}

fn renews(alloc: Global, fault: Fault) -> Result<(End, SimDisk), Spoilt> {
    let mut disk = SimDisk::empty(alloc);
    set(&mut disk, fault);
    let end = end_of(renew(&mut disk, Area::Journal1, &FRESH));
    Ok((end, disk))
}

fn reads(alloc: Global, fault: Fault) -> Result<(End, SimDisk), Spoilt> {
    let mut disk = SimDisk::empty(alloc);
    set(&mut disk, fault);
    let end = end_of(read_all(alloc, &mut disk, Area::Check2));
    Ok((end, disk))
}

fn begins(alloc: Global, fault: Fault) -> Result<(End, SimDisk), Spoilt> {
    let mut disk = SimDisk::empty(alloc);
    set(&mut disk, fault);
    let end = log_end(GateLog::open(alloc, &mut disk, WIDE));
    Ok((end, disk))
}

fn resumes(alloc: Global, fault: Fault) -> Result<(End, SimDisk), Spoilt> {
    let mut disk = SimDisk::empty(alloc);
    let _ = GateLog::open(alloc, &mut disk, WIDE)?;
    set(&mut disk, fault);
    let end = log_end(GateLog::open(alloc, &mut disk, WIDE));
    Ok((end, disk))
}

fn appends(alloc: Global, fault: Fault) -> Result<(End, SimDisk), Spoilt> {
    let mut disk = SimDisk::empty(alloc);
    let mut body = Body::new(alloc);
    body.push(b"abc")?;
    let (log, _) = GateLog::open(alloc, &mut disk, WIDE)?;
    set(&mut disk, fault);
    let end = log_end(log.append(&mut disk, &body));
    Ok((end, disk))
}

fn compacts(alloc: Global, fault: Fault) -> Result<(End, SimDisk), Spoilt> {
    let mut disk = SimDisk::empty(alloc);
    let mut body = Body::new(alloc);
    body.push(b"abc")?;
    let (log, _) = GateLog::open(alloc, &mut disk, WIDE)?;
    if log.generation() == u64::MAX {
        return Err(Spoilt);
    }
    set(&mut disk, fault);
    let end = log_end(log.compact(alloc, &mut disk, &body));
    Ok((end, disk))
}

fn opens_first(alloc: Global, fault: Fault) -> Result<(End, SimDisk), Spoilt> {
    let mut disk = SimDisk::empty(alloc);
    set(&mut disk, fault);
    let end = open_end(VoteJournal::open(alloc, &mut disk, NodeId(0), WIDE));
    Ok((end, disk))
}

fn opens_again(alloc: Global, fault: Fault) -> Result<(End, SimDisk), Spoilt> {
    let mut disk = SimDisk::empty(alloc);
    let _ = VoteJournal::open(alloc, &mut disk, NodeId(0), WIDE)?;
    set(&mut disk, fault);
    let end = open_end(VoteJournal::open(alloc, &mut disk, NodeId(0), WIDE));
    Ok((end, disk))
}

fn records(alloc: Global, fault: Fault) -> Result<(End, SimDisk), Spoilt> {
    let mut disk = SimDisk::empty(alloc);
    let journal = VoteJournal::open(alloc, &mut disk, NodeId(0), WIDE)?;
    let mut changes = Changes::new(alloc);
    changes.push(Change::Trim(RingId(1), 7))?;
    set(&mut disk, fault);
    let end = journal_end(journal.record(&mut disk, &changes));
    Ok((end, disk))
}

fn replaces(alloc: Global, fault: Fault) -> Result<(End, SimDisk), Spoilt> {
    let mut disk = SimDisk::empty(alloc);
    let journal = VoteJournal::open(alloc, &mut disk, NodeId(0), WIDE)?;
    if journal.generation() == u64::MAX {
        return Err(Spoilt);
    }
    set(&mut disk, fault);
    let end = journal_end(journal.compact(&mut disk));
    Ok((end, disk))
}
