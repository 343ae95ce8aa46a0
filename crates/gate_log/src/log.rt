//! A log of records on a disk.
ghost use Rattle.std.specs.Prelude.{◌≡◌, ◌==◌, if◌then◌else◌, ◌≤◌, ◌<◌, ◌+◌, ◌-◌, ◌^◌, ◌++◌, ◌↔◌, ℕ, List, [], ◌∷◌, length, OnOk, IfOk, IsErrOf, MatchResult, Ok, None, Some};
ghost use Rattle.disk_model.specs.Calls.{Told, Tells, LeavesOnly, IsSettled, area_bytes, reads};
ghost use Rattle.disk_model.specs.Went.{WentBy};
ghost use Rattle.disk_model.specs.declared.area.Area.{Area};
ghost use Rattle.disk_model.specs.declared.area.Area.TheVariants.{Journal0};
ghost use Rattle.gate_area.specs.Standing.{stands, other_of};
ghost use Rattle.gate_area.specs.declared.pair.Pair.TheVariants.{Journal};
ghost use Rattle.gate_log.specs.Journal.{Holds, IsFound, IsLogOf, appended, compacted, in_area, log_of, records_in};
ghost use Rattle.gate_log.specs.Moments.{Finds, IsWant, LogWants, OldOrNew, SameRecords, SinceSync};
ghost use Rattle.gate_log.specs.Operations.{append_ops, compact_ops, find_ops, log_ending, open_ops};
ghost use Rattle.gate_area.specs.Operations.{area_readings, renew_ops};
ghost use Rattle.gate_log.specs.Records.{StandsFor, area_body, base_of, walk_of, end_of};
ghost use Rattle.gate_log.specs.declared.fault.LogFault.TheVariants.{Damaged, Full};

use crate::content::{no_records, one_record};
use crate::walking::walk;
use crate::{Body, LogFault};
use disk_model::{Area, Disk};
use gate_area::{Pair, Standing, open_gate, other, read_all, renew, survey};
use mrp_types::Octets;
use std::alloc::Global;
use std::marker::Model;

/// A log on a disk. It is consumed by each call, so that none follows a failed device.
#[derive(Drop, Debug)]
pub struct GateLog {
    area: Area,
    generation: u64,
    end: u64,
    base_end: u64,
    limit: u64,
}

impl Model for GateLog {
    ghost use Rattle.std.specs.Prelude.{◌<◌, ◌^◌};
    ghost use Rattle.gate_log.specs.Journal.{Log};

    ghost Value = { Log };

    ghost view = { λ l. record { area = l.area; generation = l.generation; end = l.end; base_end = l.base_end; limit = l.limit } };

    ghost invariant = { λ l. (16 < l.end) × (l.end < 2 ^ 63) × (l.limit < 2 ^ 32) };
}

impl GateLog {
    /// The generation of the area that stands.
    pub fn generation(&self) -> u64
        ensures { result ≡ self.now.generation }
    {
        self.generation
    }

    /// The place just after the closed gate, in bytes from the area's start.
    pub fn end(&self) -> u64
        ensures { result ≡ self.now.end }
    {
        self.end
    }

    /// That place after the first record, or 17 while there is none.
    pub fn base_end(&self) -> u64
        ensures { result ≡ self.now.base_end }
    {
        self.base_end
    }

    /// Opens the log of a disk with a limit on an area's length, in bytes from 17 to 2^32 - 1, and gives its
    /// records in order. It begins with a sync, so that nothing is pending. A fresh pair gets a journal without
    /// records. `Damaged` says at which position of which area a byte can't be there. At each moment since the
    /// sync a crash leaves the records that the disk had.
    pub fn open<D: Disk>(
        alloc: Global,
        disk: &mut D,
        limit: u64,
    ) -> Result<(GateLog, Vec<Octets>), LogFault>
        requires least { 17 ≤ limit }
        requires most { limit < 2 ^ 32 }
        ensures room { IfOk result (λ opened. end_of opened.1.items < 2 ^ 63) }
        ensures limit { IfOk result (λ opened. opened.0.limit ≡ limit) }
        ensures finds { (t : Told) → Tells (D.told disk.old) (D.honest disk.old) t → Finds (λ opened. opened.1.items) (records_in (reads t)) result }
        ensures log { (t : Told) → Tells (D.told disk.old) (D.honest disk.old) t → IfOk result (λ opened. IsFound limit opened.1.items (stands Journal (reads t)) opened.0) }
        ensures full { (len : ℕ) → IsErrOf result (Full len) → ⊥ }
        ensures moments { (t : Told) → Tells (D.told disk.old) (D.honest disk.old) t → SinceSync t (D.told disk.new) (SameRecords (reads t)) }
        ensures holds { (u : Told) → Tells (D.told disk.new) (D.honest disk.new) u → IfOk result (λ opened. Holds opened.0 opened.1.items (reads u)) }
        ensures stands { (u : Told) → Tells (D.told disk.new) (D.honest disk.new) u → IfOk result (λ opened. IsLogOf opened.0 (reads u)) }
        ensures done { (u : Told) → Tells (D.told disk.new) (D.honest disk.new) u → OnOk result (IsSettled u) }
        ensures went { WentBy D.Disk open_ops disk.old disk.new (log_ending result) }
    {
        disk.sync()?; // nothing is pending
        find(alloc, disk, limit)
    }

    /// Puts one record in place of all, in the other area. It asks that nothing is pending, that the disk holds
    /// the log, and that its generation is below 2^64 - 1. At each moment a crash leaves the old records or the
    /// new one. `Full` says how long the area would be, and then no call was made.
    pub fn compact<D: Disk>(
        self,
        alloc: Global,
        disk: &mut D,
        body: &Body,
    ) -> Result<GateLog, LogFault>
        requires generation { self.generation < 2 ^ 64 - 1 }
        requires settled { (t : Told) → Tells (D.told disk.old) (D.honest disk.old) t → IsSettled t }
        requires log { (t : Told) → Tells (D.told disk.old) (D.honest disk.old) t → IsLogOf self (reads t) }
        ensures full { (len : ℕ) → IsErrOf result (Full len) ↔ (len ≡ 22 + length body.now) × (self.limit < len) }
        ensures undamaged { (area : Area) (at : ℕ) → IsErrOf result (Damaged area at) → ⊥ }
        ensures idle { self.limit < 22 + length body.now → disk.new ≡ disk.old }
        ensures log { IfOk result (λ log. log ≡ compacted self body.now) }
        ensures moments { (t : Told) (records : List (List ℕ)) → Tells (D.told disk.old) (D.honest disk.old) t → Holds self records (reads t) →
            LeavesOnly t (D.told disk.new) (OldOrNew records (body.now ∷ []) (reads t)) }
        ensures holds { (t u : Told) (records : List (List ℕ)) → Tells (D.told disk.old) (D.honest disk.old) t → Tells (D.told disk.new) (D.honest disk.new) u →
            Holds self records (reads t) → IfOk result (λ log. Holds log (body.now ∷ []) (reads u)) }
        ensures stands { (u : Told) → Tells (D.told disk.new) (D.honest disk.new) u → IfOk result (λ log. IsLogOf log (reads u)) }
        ensures done { (u : Told) → Tells (D.told disk.new) (D.honest disk.new) u → OnOk result (IsSettled u) }
        ensures went { WentBy D.Disk (compact_ops self body.now) disk.old disk.new (log_ending result) }
    {
        let end = 17 + body.room();
        if self.limit < end {
            return Err(LogFault::Full(end));
        }
        let generation = self.generation + 1;
        let bytes = one_record(alloc, generation, body)?;
        let area = other(self.area);
        renew(disk, area, &bytes)?;
        Ok(GateLog {
            area,
            generation,
            end,
            base_end: end,
            limit: self.limit,
        })
    }

    /// Adds a record. It asks that nothing is pending and that the disk holds the log. At each moment a crash
    /// leaves the records before or after. `Full` says how long the area would be, and then no call was made.
    /// It takes no memory of its own.
    pub fn append<D: Disk>(self, disk: &mut D, body: &Body) -> Result<GateLog, LogFault>
        requires settled { (t : Told) → Tells (D.told disk.old) (D.honest disk.old) t → IsSettled t }
        requires log { (t : Told) → Tells (D.told disk.old) (D.honest disk.old) t → IsLogOf self (reads t) }
        ensures full { (len : ℕ) → IsErrOf result (Full len) ↔ (len ≡ self.end + (5 + length body.now)) × (self.limit < len) }
        ensures undamaged { (area : Area) (at : ℕ) → IsErrOf result (Damaged area at) → ⊥ }
        ensures idle { self.limit < self.end + (5 + length body.now) → disk.new ≡ disk.old }
        ensures log { IfOk result (λ log. log ≡ appended self body.now) }
        ensures moments { (t : Told) (records : List (List ℕ)) → Tells (D.told disk.old) (D.honest disk.old) t → Holds self records (reads t) →
            LeavesOnly t (D.told disk.new) (OldOrNew records (records ++ body.now ∷ []) (reads t)) }
        ensures holds { (t u : Told) (records : List (List ℕ)) → Tells (D.told disk.old) (D.honest disk.old) t → Tells (D.told disk.new) (D.honest disk.new) u →
            Holds self records (reads t) → IfOk result (λ log. Holds log (records ++ body.now ∷ []) (reads u)) }
        ensures stands { (u : Told) → Tells (D.told disk.new) (D.honest disk.new) u → IfOk result (λ log. IsLogOf log (reads u)) }
        ensures done { (u : Told) → Tells (D.told disk.new) (D.honest disk.new) u → OnOk result (IsSettled u) }
        ensures went { WentBy D.Disk (λ t. append_ops self body.now) disk.old disk.new (log_ending result) }
        ensures wants { LogWants (D.wants disk.old) (D.wants disk.new) result }
    {
        let end = self.end + body.room();
        if end > self.limit {
            return Err(LogFault::Full(end));
        }
        open_gate(disk, self.area, self.end - 1, body.written())?;
        Ok(self.longer(end))
    }

    // The log with another record, which ends there.
    fn longer(self, end: u64) -> GateLog
        requires longer { self.end ≤ end }
        requires room { end < 2 ^ 63 }
        ensures { result ≡ record self { end = end; base_end = if self.base_end == 17 then end else self.base_end } }
    {
        let base_end = if self.base_end == 17 {
            end
        } else {
            self.base_end
        };
        GateLog {
            area: self.area,
            generation: self.generation,
            end,
            base_end,
            limit: self.limit,
        }
    }
}

// The log that the areas stand for, and its records.
fn find<D: Disk>(
    alloc: Global,
    disk: &mut D,
    limit: u64,
) -> Result<(GateLog, Vec<Octets>), LogFault>
    requires limit { limit < 2 ^ 32 }
    requires settled { (t : Told) → Tells (D.told disk.old) (D.honest disk.old) t → IsSettled t }
    ensures room { IfOk result (λ opened. end_of opened.1.items < 2 ^ 63) }
    ensures limit { IfOk result (λ opened. opened.0.limit ≡ limit) }
    ensures finds { (t : Told) → Tells (D.told disk.old) (D.honest disk.old) t → Finds (λ opened. opened.1.items) (records_in (reads t)) result }
    ensures log { (t : Told) → Tells (D.told disk.old) (D.honest disk.old) t → IfOk result (λ opened. IsFound limit opened.1.items (stands Journal (reads t)) opened.0) }
    ensures full { (len : ℕ) → IsErrOf result (Full len) → ⊥ }
    ensures moments { (t : Told) → Tells (D.told disk.old) (D.honest disk.old) t → LeavesOnly t (D.told disk.new) (SameRecords (reads t)) }
    ensures holds { (t u : Told) → Tells (D.told disk.old) (D.honest disk.old) t → Tells (D.told disk.new) (D.honest disk.new) u → IfOk result (λ opened. Holds opened.0 opened.1.items (reads u)) }
    ensures done { (u : Told) → Tells (D.told disk.new) (D.honest disk.new) u → OnOk result (IsSettled u) }
    ensures went { WentBy D.Disk find_ops disk.old disk.new (log_ending result) }
{
    match survey(disk, Pair::Journal)? {
        Standing::None => begin(alloc, disk, limit),
        Standing::At {
            area,
            generation,
            ..
        } => resume(alloc, disk, limit, area, generation),
    }
}

// A fresh pair gets a journal without records.
fn begin<D: Disk>(
    alloc: Global,
    disk: &mut D,
    limit: u64,
) -> Result<(GateLog, Vec<Octets>), LogFault>
    requires limit { limit < 2 ^ 32 }
    requires settled { (t : Told) → Tells (D.told disk.old) (D.honest disk.old) t → IsSettled t }
    requires fresh { (t : Told) → Tells (D.told disk.old) (D.honest disk.old) t → stands Journal (reads t) ≡ Ok None }
    ensures room { IfOk result (λ opened. end_of opened.1.items < 2 ^ 63) }
    ensures log { IfOk result (λ opened. opened.0 ≡ log_of Journal0 1 limit []) }
    ensures records { IfOk result (λ opened. opened.1.items ≡ []) }
    ensures want { MatchResult result (λ _. Unit {0}) IsWant }
    ensures moments { (t : Told) → Tells (D.told disk.old) (D.honest disk.old) t → LeavesOnly t (D.told disk.new) (SameRecords (reads t)) }
    ensures done { (u : Told) → Tells (D.told disk.new) (D.honest disk.new) u → OnOk result (IsSettled u) }
    ensures went { WentBy D.Disk (renew_ops Journal0 (area_body 1 [])) disk.old disk.new (log_ending result) }
{
    let bytes = no_records(alloc, 1)?;
    renew(disk, Area::Journal0, &bytes)?;
    let log = GateLog {
        area: Area::Journal0,
        generation: 1,
        end: 17,
        base_end: 17,
        limit,
    };
    Ok((log, Vec::new(alloc)))
}

// The log of an area that stands.
fn resume<D: Disk>(
    alloc: Global,
    disk: &mut D,
    limit: u64,
    area: Area,
    generation: u64,
) -> Result<(GateLog, Vec<Octets>), LogFault>
    requires limit { limit < 2 ^ 32 }
    ensures room { IfOk result (λ opened. end_of opened.1.items < 2 ^ 63) }
    ensures log { IfOk result (λ opened. opened.0 ≡ log_of area generation limit opened.1.items) }
    ensures finds { (t : Told) → Tells (D.told disk.old) (D.honest disk.old) t → Finds (λ opened. opened.1.items) (in_area area (walk_of (area_bytes area t))) result }
    ensures content { (t : Told) → Tells (D.told disk.old) (D.honest disk.old) t → IfOk result (λ opened. StandsFor opened.1.items (area_bytes area t)) }
    ensures full { (len : ℕ) → IsErrOf result (Full len) → ⊥ }
    ensures told { D.told disk.new ≡ D.told disk.old }
    ensures went { WentBy D.Disk (area_readings area) disk.old disk.new (log_ending result) }
{
    let bytes = read_all(alloc, disk, area)?;
    let (records, gate) = walk(alloc, area, &bytes)?;
    let log = GateLog {
        area,
        generation,
        end: gate as u64 + 1,
        base_end: base_of(&records),
        limit,
    };
    Ok((log, records))
}

// The end after the first record.
fn base_of(records: &[Octets]) -> u64
    requires { base_of records.now < 2 ^ 64 }
    ensures { result ≡ base_of records.now }
{
    if records.is_empty() {
        return 17;
    }
    22 + records[0].len() as u64
}
