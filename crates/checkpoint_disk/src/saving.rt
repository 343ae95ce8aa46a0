//! A checkpoint is put on a disk.

ghost use Rattle.std.specs.Prelude.{◌≡◌, ◌≤◌, ◌<◌, ◌-◌, ◌^◌, ◌++◌, ◌∷◌, ℕ, List, length, Ok, OnOk, IfOk, IsErrOf};
ghost use Rattle.mrp_types.specs.declared.id.RingId.{RingId as SomeRing};
ghost use Rattle.disk_model.specs.Calls.{Told, Tells, LeavesOnly, IsSettled, reads};
ghost use Rattle.disk_model.specs.Went.{WentBy};
ghost use Rattle.command_codec.specs.Fields.{u64_bytes};
ghost use Rattle.frames.specs.Spelling.{tuple_bytes};
ghost use Rattle.checkpoint.specs.Checkpoints.{checkpoints_in, next_area as next_area_lem, save_ops, saved};
ghost use Rattle.checkpoint_disk.specs.Saves.{SaveLeaves, head_bytes, save_ending};
ghost use Rattle.checkpoint_disk.specs.declared.fault.SaveFault.TheVariants.{Older};

use crate::reading::without_front;
use crate::{Checkpoints, SaveFault};
use command_codec::writing::{put_u8, put_u64};
use disk_model::{Area, Disk};
use gate_area::renew;
use mrp_types::{Inst, Memory, Octets, RingId, Tuple};
use std::alloc::Global;

/// Puts a checkpoint in the area that doesn't stand, with the next generation, and gives its state back. It takes memory for
/// the bytes of that area before its first call, and gives back that of the state: while the disk is called, and then, there is
/// one copy of the state.
pub fn put<D: Disk>(
    alloc: Global,
    disk: &mut D,
    checkpoints: &Checkpoints,
    tuple: &Tuple,
    state: Octets,
) -> Result<Octets, SaveFault>
    requires generation { checkpoints.now.generation < 2 ^ 64 - 1 }
    requires settled { (t : Told) → Tells (D.told disk.old) (D.honest disk.old) t → IsSettled t }
    requires stands { (t : Told) → Tells (D.told disk.old) (D.honest disk.old) t → checkpoints_in (reads t) ≡ Ok checkpoints.now }
    ensures moments { (t : Told) → Tells (D.told disk.old) (D.honest disk.old) t →
        LeavesOnly t (D.told disk.new) (SaveLeaves checkpoints.now tuple.now state (reads t)) }
    ensures stands { (u : Told) → Tells (D.told disk.new) (D.honest disk.new) u → OnOk result (checkpoints_in (reads u) ≡ Ok (saved checkpoints.now tuple.now state)) }
    ensures done { (u : Told) → Tells (D.told disk.new) (D.honest disk.new) u → OnOk result (IsSettled u) }
    ensures went { WentBy D.Disk (save_ops checkpoints.now tuple.now state) disk.old disk.new (save_ending result) }
    ensures given { IfOk result (λ given. given ≡ state) }
    ensures younger { (newer : List (SomeRing × ℕ)) → IsErrOf result (Older newer) → ⊥ }
{
    let generation = checkpoints.generation() + 1;
    let head = head_of(alloc, generation, tuple.pairs(), state.len())?;
    let body = joined(alloc, head.bytes(), state)?;
    renew(disk, next_area(checkpoints), body.as_slice())?;
    Ok(without_front(body, head.len()))
}

// The area that doesn't stand, the first one where none does.
pub fn next_area(checkpoints: &Checkpoints) -> Area
    ensures { result ≡ next_area_lem checkpoints.now.area }
{
    match checkpoints.area() {
        Some(Area::Check2) => Area::Check3,
        _ => Area::Check2,
    }
}

// What an area has between its first byte and a state of this length.
fn head_of(
    alloc: Global,
    generation: u64,
    pairs: &[(RingId, Inst)],
    size: usize,
) -> Result<Octets, Memory>
    requires { length pairs.now ≤ 16 }
    ensures size { size < 2 ^ 64 }
    ensures head { IfOk result (λ head. head ≡ head_bytes generation pairs.now size) }
{
    let mut head = Octets::new(alloc);
    head.extend(&[b'M', b'R', b'C', 0, 0, 0, 1])?;
    put_u64(&mut head, generation)?;
    head.extend(&[0, 2])?;
    put_tuple(&mut head, pairs)?;
    put_u64(&mut head, size as u64)?;
    Ok(head)
}

// These bytes and the state behind them, whose own room is given back.
fn joined(alloc: Global, head: &[u8], state: Octets) -> Result<Vec<u8>, Memory>
    ensures { IfOk result (λ body. body.items ≡ head.now ++ state) }
{
    let mut body = Vec::new(alloc);
    body.extend_from_slice(head)?;
    body.extend_from_slice(state.bytes())?;
    Ok(body)
}

fn put_tuple(out: &mut Octets, pairs: &[(RingId, Inst)]) -> Result<(), Memory>
    requires { length pairs.now ≤ 16 }
    ensures { OnOk result (out.new ≡ out.old ++ tuple_bytes pairs.now) }
{
    put_u8(out, pairs.len() as u8)?;
    for next in pairs {
        put_one(out, next.0, next.1)?;
    }
    Ok(())
}

fn put_one(out: &mut Octets, ring: RingId, number: u64) -> Result<(), Memory>
    ensures { OnOk result (out.new ≡ out.old ++ ring.0 ∷ u64_bytes number) }
{
    put_u8(out, ring.0)?;
    put_u64(out, number)
}
