//! A disk in memory, which can be told to fail and to crash.
ghost use Rattle.std.specs.Prelude.{◌≡◌, ◌≤◌, ◌<◌, ◌+◌, ◌++◌, [], ◌∷◌, length, take, drop, min, None, Some, true, false, IfOk, OnOk, OnErr, IsErrOf, refl};
ghost use Rattle.std.proofs.Common.{ap};
ghost use Rattle.std.specs.Option.{option_map};
ghost use Rattle.disk_model.specs.Areas.{bytes_of, with_bytes};
ghost use Rattle.disk_model.specs.Calls.{Told, Tells, and_then, begun, followed, area_bytes, reads, kept, IsImage, IsSettled};
ghost use Rattle.disk_model.specs.Causes.{Causes, GivesBytes, Wants};
ghost use Rattle.disk_model.specs.Crash.{left_of, left_by};
ghost use Rattle.disk_model.specs.Running.{Asks, Does, Goes, Reads, after_op, ending, falls_on, is_stopped};
ghost use Rattle.disk_model.specs.Sim.{Sim, fresh, areas_of};
ghost use Rattle.disk_model.specs.Steps.{written};
ghost use Rattle.disk_model.specs.Undoing.{undo_of_cut, undo_of_write};
ghost use Rattle.disk_model.specs.declared.area.Refused.TheVariants.{Failed, Memory};
ghost use Rattle.disk_model.specs.declared.area.Area.TheVariants.{Journal0, Journal1, Check2, Check3};
ghost use Rattle.disk_model.specs.declared.call.Call.TheVariants.{Write, Cut, Sync};

use crate::crash::{filled, replayed, settled_calls};
use crate::undo::{Undo, taken_back};
use crate::{Area, Areas, Call, Disk, Image, Octets, Refused, Trouble};
use std::alloc::{AllocError, Global};
use std::marker::Model;

/// A disk in memory. It keeps what a read gives, and beside it the list of the calls that took effect since it began or was
/// last settled, with what they overwrote, so that its areas at its start and its images at each moment are known. Contracts
/// see these areas and calls, its plan of faults, whether its fuse has stopped a call, and how many calls have failed.
#[derive(Drop)]
pub struct SimDisk {
    alloc: Global,
    // what a read gives
    current: Areas,
    calls: Vec<Call>,
    // how the calls are taken back, in their order
    undos: Vec<Undo>,
    trouble: Trouble,
}

impl Model for SimDisk {
    ghost use Rattle.std.specs.Prelude.{◌≡◌};
    ghost use Rattle.disk_model.specs.Calls.{reads};
    ghost use Rattle.disk_model.specs.Sim.{Sim};
    ghost use Rattle.disk_model.specs.Undoing.{all_undone};

    ghost Value = { Sim };

    ghost view = { λ d. record { told = record { start = all_undone d.undos.items d.current; calls = d.calls.items }; trouble = d.trouble } };

    ghost invariant = { λ d. d.current ≡ reads (record { start = all_undone d.undos.items d.current; calls = d.calls.items }) };
}

impl SimDisk {
    /// A disk of four empty areas.
    pub fn empty(alloc: Global) -> SimDisk
        ensures { result ≡ fresh (record { journal0 = []; journal1 = []; check2 = []; check3 = [] }) }
    {
        SimDisk::begin(alloc, no_areas(alloc))
    }

    /// A disk with these bytes in its areas, by their numbers.
    pub fn with(alloc: Global, areas: [Vec<u8>; 4]) -> SimDisk
        ensures { result ≡ fresh (areas_of areas) }
    {
        let [journal0, journal1, check2, check3] = areas;
        let areas = Areas {
            journal0: Octets::new(journal0),
            journal1: Octets::new(journal1),
            check2: Octets::new(check2),
            check3: Octets::new(check3),
        };
        SimDisk::begin(alloc, areas)
    }

    // A disk that begins with these areas.
    fn begin(alloc: Global, areas: Areas) -> SimDisk
        ensures { result ≡ fresh areas }
    {
        SimDisk {
            alloc,
            current: areas,
            calls: Vec::new(alloc),
            undos: Vec::new(alloc),
            trouble: Trouble::none(),
        }
    }

    /// From now on `k` calls that write, cut or sync pass, and all later calls of every kind fail.
    pub fn fuse(&mut self, k: u32)
        ensures { self.new ≡ record self.old { trouble = record self.old.trouble { plan = record self.old.trouble.plan { fuse = Some k } } } }
    {
        self.trouble.plan.fuse = Some(k);
    }

    /// From now on `k` calls that write, cut or sync pass, and the next one fails once.
    pub fn fail(&mut self, k: u32)
        ensures { self.new ≡ record self.old { trouble = record self.old.trouble { plan = record self.old.trouble.plan { fail = Some k } } } }
    {
        self.trouble.plan.fail = Some(k);
    }

    /// From now on `k` reads pass, and the next one fails once.
    pub fn fail_read(&mut self, k: u32)
        ensures { self.new ≡ record self.old { trouble = record self.old.trouble { plan = record self.old.trouble.plan { fail_read = Some k } } } }
    {
        self.trouble.plan.fail_read = Some(k);
    }

    /// Whether a fuse has stopped a call.
    pub fn stopped(&self) -> bool
        ensures { result ≡ self.now.trouble.stopped }
    {
        self.trouble.stopped
    }

    /// What reads of an area give.
    pub fn bytes(&self, area: Area) -> &[u8]
        ensures { result.now ≡ area_bytes area self.now.told }
    {
        self.current.of(area).bytes()
    }

    /// Makes what a read gives the new start. It asks that nothing is pending, so that a crash leaves the same before and after.
    pub fn settle(&mut self)
        requires { IsSettled self.old.told }
        ensures { self.new ≡ record self.old { told = begun (reads self.old.told) } }
    {
        self.calls.clear();
        self.undos.clear();
    }

    /// The disk after a crash that leaves this image. Nothing is pending on it, and no call is to fail.
    pub fn crash(self, image: Image) -> Result<SimDisk, AllocError>
        ensures left { IfOk result (λ d. d ≡ fresh (left_by image self.told)) }
        // it is one of those that a crash may leave
        ensures possible { IfOk result (λ d. IsImage self.told (reads d.told)) }
    {
        let areas = self.left(image)?;
        Ok(SimDisk::begin(self.alloc, areas))
    }

    // What the four areas are after a crash.
    fn left(&self, image: Image) -> Result<Areas, AllocError>
        ensures { IfOk result (λ areas. areas ≡ left_by image self.now.told) }
    {
        Ok(Areas {
            journal0: self.image_of(Area::Journal0, image)?,
            journal1: self.image_of(Area::Journal1, image)?,
            check2: self.image_of(Area::Check2, image)?,
            check3: self.image_of(Area::Check3, image)?,
        })
    }

    // The image of one area.
    fn image_of(&self, area: Area, image: Image) -> Result<Octets, AllocError>
        ensures { IfOk result (λ left. left ≡ left_of image (kept area self.now.told)) }
    {
        if let Image::New = image {
            let left = Octets::of(self.alloc, self.bytes(area))?;
            return Ok(left);
        }
        let calls = self.calls.as_slice();
        let settled = settled_calls(calls);
        let file = Octets::of(self.alloc, self.current.of(area).bytes())?;
        let start = taken_back(file, &self.undos, area)?;
        let kept = replayed(self.alloc, &start, &calls[..settled], area)?;
        if let Image::Fill { keep, byte } = image {
            let left = filled(self.alloc, &kept, &calls[settled..], area, keep, byte)?;
            return Ok(left);
        }
        Ok(kept)
    }
}

impl Disk for SimDisk {
    ghost told = { λ d. Some d.told };

    ghost honest = { λ d. true };

    ghost memory = { λ d. Some d };

    ghost faults = { λ d. d.trouble.faults };

    ghost wants = { λ d. d.trouble.wants };

    ghost tells = { λ d s is. record { honest = refl; told = ap (option_map (λ (x : Sim). x.told)) is } };

    fn len(&mut self, area: Area) -> Result<u64, Refused>
        ensures after { self.new ≡ after_op Asks (ending result) self.old }
        ensures exactly { is_stopped (ending result) ≡ falls_on self.old.trouble.plan Asks }
        ensures causes { Causes self.old.trouble.faults self.new.trouble.faults result }
        ensures wants { Wants self.old.trouble.wants self.new.trouble.wants result }
        ensures length { IfOk result (λ n. n ≡ length (area_bytes area self.old.told)) }
    {
        if self.trouble.falls_on_len() {
            self.trouble.fail_len();
            return Err(Refused::Failed);
        }
        Ok(self.bytes(area).len() as u64)
    }

    fn read(&mut self, area: Area, at: u64, into: &mut [u8]) -> Result<usize, Refused>
        ensures after { self.new ≡ after_op Reads (ending result) self.old }
        ensures exactly { is_stopped (ending result) ≡ falls_on self.old.trouble.plan Reads }
        ensures causes { Causes self.old.trouble.faults self.new.trouble.faults result }
        ensures wants { Wants self.old.trouble.wants self.new.trouble.wants result }
        ensures bytes { IfOk result (λ n. GivesBytes (area_bytes area self.old.told) at n into.new) }
        ensures within { IfOk result (λ n. n ≤ length into.new) }
        ensures rest { IfOk result (λ n. drop n into.new ≡ drop n into.old) }
        ensures unread { OnErr result (into.new ≡ into.old) }
    {
        if self.trouble.falls_on_read() {
            self.trouble.fail_read();
            return Err(Refused::Failed);
        }
        let count = copy_into(self.bytes(area), at as usize, into);
        self.trouble.pass_read();
        Ok(count)
    }

    fn write_at(&mut self, area: Area, at: u64, from: &[u8]) -> Result<(), Refused>
        ensures after { self.new ≡ after_op (Does (Write area at from.now)) (ending result) self.old }
        ensures exactly { is_stopped (ending result) ≡ falls_on self.old.trouble.plan (Does (Write area at from.now)) }
        ensures causes { Causes self.old.trouble.faults self.new.trouble.faults result }
        ensures wants { Wants self.old.trouble.wants self.new.trouble.wants result }
    {
        if self.trouble.falls_on_change() {
            self.trouble.fail_change();
            return Err(Refused::Failed);
        }
        let done = write_over(
            self.alloc,
            &mut self.calls,
            &mut self.undos,
            &mut self.current,
            area,
            at,
            from,
        );
        if done.is_err() {
            return Err(self.trouble.want());
        }
        self.trouble.pass_change();
        Ok(())
    }

    fn cut(&mut self, area: Area, len: u64) -> Result<(), Refused>
        ensures after { self.new ≡ after_op (Does (Cut area len)) (ending result) self.old }
        ensures exactly { is_stopped (ending result) ≡ falls_on self.old.trouble.plan (Does (Cut area len)) }
        ensures causes { Causes self.old.trouble.faults self.new.trouble.faults result }
        ensures wants { Wants self.old.trouble.wants self.new.trouble.wants result }
    {
        if self.trouble.falls_on_change() {
            self.trouble.fail_change();
            return Err(Refused::Failed);
        }
        let done = cut_off(
            self.alloc,
            &mut self.calls,
            &mut self.undos,
            &mut self.current,
            area,
            len,
        );
        if done.is_err() {
            return Err(self.trouble.want());
        }
        self.trouble.pass_change();
        Ok(())
    }

    fn sync(&mut self) -> Result<(), Refused>
        ensures after { self.new ≡ after_op (Does Sync) (ending result) self.old }
        ensures exactly { is_stopped (ending result) ≡ falls_on self.old.trouble.plan (Does Sync) }
        ensures causes { Causes self.old.trouble.faults self.new.trouble.faults result }
        ensures wants { Wants self.old.trouble.wants self.new.trouble.wants result }
    {
        if self.trouble.falls_on_change() {
            self.trouble.fail_change();
            return Err(Refused::Failed);
        }
        if self.calls.push(Call::Sync).is_err() {
            return Err(self.trouble.want());
        }
        self.trouble.pass_change();
        Ok(())
    }
}

// Four empty areas.
fn no_areas(alloc: Global) -> Areas
    ensures { result ≡ record { journal0 = []; journal1 = []; check2 = []; check3 = [] } }
{
    Areas {
        journal0: Octets::new(Vec::new(alloc)),
        journal1: Octets::new(Vec::new(alloc)),
        check2: Octets::new(Vec::new(alloc)),
        check3: Octets::new(Vec::new(alloc)),
    }
}

// Notes a call, and how it is taken back: both or none.
fn note(
    calls: &mut Vec<Call>,
    undos: &mut Vec<Undo>,
    call: Call,
    undo: Undo,
) -> Result<(), AllocError>
    ensures calls { OnOk result (calls.new.items ≡ calls.old.items ++ call ∷ []) }
    ensures undos { OnOk result (undos.new.items ≡ undos.old.items ++ undo ∷ []) }
    ensures same_calls { OnErr result (calls.new.items ≡ calls.old.items) }
    ensures same_undos { OnErr result (undos.new.items ≡ undos.old.items) }
{
    if calls.push(call).is_err() {
        return Err(AllocError);
    }
    if undos.push(undo).is_err() {
        let _ = calls.pop();
        return Err(AllocError);
    }
    Ok(())
}

// Writes, and notes the call: both or none.
fn write_over(
    alloc: Global,
    calls: &mut Vec<Call>,
    undos: &mut Vec<Undo>,
    now: &mut Areas,
    area: Area,
    at: u64,
    from: &[u8],
) -> Result<(), AllocError>
    ensures calls { OnOk result (calls.new.items ≡ calls.old.items ++ Write area at from.now ∷ []) }
    ensures undos { OnOk result (undos.new.items ≡ undos.old.items ++ undo_of_write area at from.now now.old ∷ []) }
    ensures now { OnOk result (now.new ≡ with_bytes area (written at from.now (bytes_of area now.old)) now.old) }
    ensures same_calls { OnErr result (calls.new.items ≡ calls.old.items) }
    ensures same_undos { OnErr result (undos.new.items ≡ undos.old.items) }
    ensures same_now { OnErr result (now.new ≡ now.old) }
{
    let undo = Undo::of_write(alloc, now, area, at as usize, from.len())?;
    let bytes = Octets::of(alloc, from)?;
    note(calls, undos, Call::Write { area, at, bytes }, undo)?;
    if now.overwrite(area, at as usize, from).is_err() {
        let _ = calls.pop();
        let _ = undos.pop();
        return Err(AllocError);
    }
    Ok(())
}

// Cuts, and notes the call: both or none.
fn cut_off(
    alloc: Global,
    calls: &mut Vec<Call>,
    undos: &mut Vec<Undo>,
    now: &mut Areas,
    area: Area,
    len: u64,
) -> Result<(), AllocError>
    ensures calls { OnOk result (calls.new.items ≡ calls.old.items ++ Cut area len ∷ []) }
    ensures undos { OnOk result (undos.new.items ≡ undos.old.items ++ undo_of_cut area len now.old ∷ []) }
    ensures now { OnOk result (now.new ≡ with_bytes area (take len (bytes_of area now.old)) now.old) }
    ensures same_calls { OnErr result (calls.new.items ≡ calls.old.items) }
    ensures same_undos { OnErr result (undos.new.items ≡ undos.old.items) }
    ensures same_now { OnErr result (now.new ≡ now.old) }
{
    let undo = Undo::of_cut(alloc, now, area, len as usize)?;
    note(calls, undos, Call::Cut { area, len }, undo)?;
    now.cut(area, len as usize);
    Ok(())
}

// Copies what stands from a position on, as far as there is room, and says how much.
fn copy_into(bytes: &[u8], at: usize, into: &mut [u8]) -> usize
    ensures gives { GivesBytes bytes.now at result into.new }
    ensures within { result ≤ length into.new }
    ensures rest { drop result into.new ≡ drop result into.old }
{
    let rest = if at < bytes.len() {
        bytes.len() - at
    } else {
        0
    };
    let count = rest.min(into.len());
    for i in 0..count {
        into[i] = bytes[at + i];
    }
    count
}
