//! The newest checkpoint on a disk.

ghost use Rattle.std.specs.Prelude.{◌≡◌, ◌<◌, ◌-◌, ◌^◌, ◌↔◌, ℕ, List, length, true, None, Some, Ok, OnOk, IfOk, IsErrOf, MatchOption, IfSome, is_some};
ghost use Rattle.disk_model.specs.Calls.{Told, Tells, LeavesOnly, IsSettled, area_bytes, reads};
ghost use Rattle.disk_model.specs.Went.{WentBy};
ghost use Rattle.gate_area.specs.Operations.{area_readings, survey_ending};
ghost use Rattle.gate_area.specs.declared.pair.SurveyFault.TheVariants.{Disk as NoDisk};
ghost use Rattle.checkpoint.specs.Checkpoints.{checkpoints_at, checkpoints_in, read_area as read_area_lem, place as place_lem, saved, part_of, part_at as part_at_lem, part_in as part_in_lem};
ghost use Rattle.mrp_types.specs.declared.id.RingId.{RingId as SomeRing};
ghost use Rattle.checkpoint_disk.specs.Saves.{SaveLeaves, OlderThan, is_older, saving_ops, save_ending};
ghost use Rattle.checkpoint_disk.specs.declared.fault.SaveFault.TheVariants.{Older};
ghost use Rattle.checkpoint_disk.specs.Standing.{Finds, open_ops, shown_contents, shown_part};

use crate::reading::{Contents, damage, read_area};
use crate::saving::{next_area, put};
use crate::tuples::{is_after, is_same};
use crate::{PartAnswer, SaveFault};
use disk_model::{Area, Disk};
use gate_area::{Pair, Standing, SurveyFault, read_all, survey};
use mrp_types::{Memory, Octets, Tuple};
use std::alloc::Global;
use std::marker::Model;

// The longest part of a state that is given at once.
const PART: usize = 16_384;

/// The area that stands, its generation, the position at which its tuple begins, and the checkpoint in it.
#[derive(Drop, Debug)]
pub struct Stored {
    area: Area,
    generation: u64,
    from: u64,
    contents: Contents,
}

/// The newest checkpoint of a node, as the areas of its disk stand for it, or none.
#[derive(Drop)]
pub struct Checkpoints {
    alloc: Global,
    stored: Option<Stored>,
}

impl Model for Checkpoints {
    ghost use Rattle.checkpoint.specs.Checkpoints.{Checkpoints as Pair};
    ghost use Rattle.checkpoint_disk.specs.Shown.{shown_pair, IsNearFront};

    ghost Value = { Pair };

    ghost view = { λ c. shown_pair c.stored };

    ghost invariant = { λ c. IsNearFront c.stored };
}

impl Checkpoints {
    /// Finds the newest checkpoint of a disk. `Damaged` says at which position of which area a byte can't be there. It
    /// only reads; memory for an area's bytes is taken on the way, and the state among them keeps that room.
    pub fn open<D: Disk>(alloc: Global, disk: &mut D) -> Result<Checkpoints, SurveyFault>
        ensures finds { (t : Told) → Tells (D.told disk.old) (D.honest disk.old) t → Finds (checkpoints_in (reads t)) result }
        ensures told { D.told disk.new ≡ D.told disk.old }
        ensures went { WentBy D.Disk open_ops disk.old disk.new (survey_ending result) }
    {
        match survey(disk, Pair::Check)? {
            Standing::None => Ok(Checkpoints {
                alloc,
                stored: None,
            }),
            Standing::At {
                area,
                generation,
                ..
            } => resume(alloc, disk, area, generation),
        }
    }

    /// The tuple and the state of the newest checkpoint, none where no area stands.
    pub fn newest(&self) -> Option<(Tuple, &[u8])>
        ensures { MatchOption result (self.now.newest ≡ None) (λ x. self.now.newest ≡ Some (record { tuple = x.0; state = x.1.now })) }
    {
        match &self.stored {
            None => None,
            Some(stored) => Some((stored.contents.tuple, stored.contents.state.bytes())),
        }
    }

    /// The area that stands, and the positions in it at which its tuple and its state begin.
    #[tactic(auto, using(frames::proofs::Lengths::tuple_length))]
    pub fn place(&self) -> Option<(Area, u64, u64)>
        ensures { result ≡ place_lem self.now }
    {
        match &self.stored {
            None => None,
            Some(stored) => {
                let pairs = stored.contents.tuple.pairs().len() as u64;
                Some((stored.area, stored.from, stored.from + 9 + 9 * pairs))
            }
        }
    }

    /// The area that stands.
    pub(crate) fn area(&self) -> Option<Area>
        ensures { result ≡ self.now.area }
    {
        match &self.stored {
            None => None,
            Some(stored) => Some(stored.area),
        }
    }

    /// The generation of the area that stands, 0 where none does.
    pub fn generation(&self) -> u64
        ensures { result ≡ self.now.generation }
    {
        match &self.stored {
            None => 0,
            Some(stored) => stored.generation,
        }
    }

    /// Saves a checkpoint in the area that doesn't stand. It asks that nothing is pending, that the disk holds these
    /// checkpoints, and that their generation is below 2^64 - 1. At each moment a crash leaves the old checkpoint or the
    /// new one. `Older` carries the newest tuple, where this one isn't after it, and then no call is made.
    pub fn save<D: Disk>(
        self,
        disk: &mut D,
        tuple: Tuple,
        state: Octets,
    ) -> Result<Checkpoints, SaveFault>
        requires generation { self.generation < 2 ^ 64 - 1 }
        requires settled { (t : Told) → Tells (D.told disk.old) (D.honest disk.old) t → IsSettled t }
        requires stands { (t : Told) → Tells (D.told disk.old) (D.honest disk.old) t → checkpoints_in (reads t) ≡ Ok self }
        ensures older { (newer : List (SomeRing × ℕ)) → IsErrOf result (Older newer) ↔ OlderThan self.newest tuple newer }
        ensures idle { is_older self.newest tuple ≡ true → disk.new ≡ disk.old }
        ensures saved { IfOk result (λ checkpoints. checkpoints ≡ saved self tuple state) }
        ensures moments { (t : Told) → Tells (D.told disk.old) (D.honest disk.old) t → LeavesOnly t (D.told disk.new) (SaveLeaves self tuple state (reads t)) }
        ensures stands { (u : Told) → Tells (D.told disk.new) (D.honest disk.new) u → IfOk result (λ checkpoints. checkpoints_in (reads u) ≡ Ok checkpoints) }
        ensures done { (u : Told) → Tells (D.told disk.new) (D.honest disk.new) u → OnOk result (IsSettled u) }
        ensures went { WentBy D.Disk (saving_ops self tuple state) disk.old disk.new (save_ending result) }
    {
        match older_than(&self, &tuple) {
            Some(newest) => Err(SaveFault::Older(newest)),
            None => {
                let saved = put(self.alloc, disk, &self, &tuple, state)?;
                Ok(self.followed(tuple, saved))
            }
        }
    }

    // These checkpoints once that one is saved.
    fn followed(self, tuple: Tuple, state: Octets) -> Checkpoints
        requires { self.generation < 2 ^ 64 - 1 }
        ensures { result ≡ saved self tuple state }
    {
        let next = Stored {
            area: next_area(&self),
            generation: self.generation() + 1,
            from: 18,
            contents: Contents { tuple, state },
        };
        Checkpoints {
            alloc: self.alloc,
            stored: Some(next),
        }
    }

    /// The part of the state of this tuple's checkpoint from an offset on. `Gone` carries the newest tuple, where it is
    /// after this one; `Unknown` comes where this one isn't the newest, or no byte stands at the offset.
    pub fn part(&self, tuple: &Tuple, offset: u64) -> Result<PartAnswer, Memory>
        ensures { IfOk result (λ answer. shown_part answer ≡ part_of self.now tuple.now offset) }
    {
        match &self.stored {
            None => Ok(PartAnswer::Unknown),
            Some(stored) => part_in(self.alloc, &stored.contents, tuple, offset),
        }
    }
}

// The newest tuple, where this one isn't after it.
fn older_than(checkpoints: &Checkpoints, tuple: &Tuple) -> Option<Tuple>
    ensures some { IfSome result (λ newer. OlderThan checkpoints.now.newest tuple.now newer) }
    ensures older { is_older checkpoints.now.newest tuple.now ≡ is_some result }
{
    match &checkpoints.stored {
        None => None,
        Some(stored) => {
            let newest = stored.contents.tuple;
            if is_after(newest.pairs(), tuple.pairs()) {
                None
            } else {
                Some(newest)
            }
        }
    }
}

// The checkpoint in an area that stands.
fn resume<D: Disk>(
    alloc: Global,
    disk: &mut D,
    area: Area,
    generation: u64,
) -> Result<Checkpoints, SurveyFault>
    ensures finds { (t : Told) → Tells (D.told disk.old) (D.honest disk.old) t → Finds (checkpoints_at area generation (read_area_lem (area_bytes area t))) result }
    ensures told { D.told disk.new ≡ D.told disk.old }
    ensures went { WentBy D.Disk (area_readings area) disk.old disk.new (survey_ending result) }
{
    let bytes = read_all(alloc, disk, area)?;
    stored_in(alloc, area, generation, bytes)
}

// The checkpoint in these bytes of an area that stands.
fn stored_in(
    alloc: Global,
    area: Area,
    generation: u64,
    bytes: Vec<u8>,
) -> Result<Checkpoints, SurveyFault>
    ensures finds { Finds (checkpoints_at area generation (read_area_lem bytes.items)) result }
    ensures undisturbed { IsErrOf result NoDisk → ⊥ }
{
    match read_area(alloc, bytes) {
        Err(fault) => Err(damage(area, fault)),
        Ok((from, contents)) => {
            let stored = Stored {
                area,
                generation,
                from,
                contents,
            };
            Ok(Checkpoints {
                alloc,
                stored: Some(stored),
            })
        }
    }
}

// The part of a checkpoint, asked by a tuple and an offset.
fn part_in(
    alloc: Global,
    contents: &Contents,
    tuple: &Tuple,
    offset: u64,
) -> Result<PartAnswer, Memory>
    ensures { IfOk result (λ answer. shown_part answer ≡ part_in_lem (Some (shown_contents contents.now)) tuple.now offset) }
{
    if is_after(tuple.pairs(), contents.tuple.pairs()) {
        return Ok(PartAnswer::Gone(contents.tuple));
    }
    if is_same(tuple.pairs(), contents.tuple.pairs()) {
        part_at(alloc, contents.state.bytes(), offset)
    } else {
        Ok(PartAnswer::Unknown)
    }
}

// The part of a state from an offset on.
fn part_at(alloc: Global, state: &[u8], offset: u64) -> Result<PartAnswer, Memory>
    ensures { IfOk result (λ answer. shown_part answer ≡ part_at_lem (length state.now) offset state.now) }
{
    let total = state.len() as u64;
    if offset >= total {
        return Ok(PartAnswer::Unknown);
    }
    let at = offset as usize;
    let end = at + PART.min(state.len() - at);
    let bytes = Octets::from_slice(alloc, &state[at..end])?;
    Ok(PartAnswer::Part { total, bytes })
}
