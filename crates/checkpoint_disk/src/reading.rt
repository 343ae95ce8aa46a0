//! The checkpoint in the bytes of an area.

ghost use Rattle.std.specs.Prelude.{◌≡◌, ◌≤◌, drop, length, IfOk};
ghost use Rattle.command_codec.specs.Reader.{Says};
ghost use Rattle.frames.specs.Grammar.{all_of};
ghost use Rattle.checkpoint.specs.Checkpoints.{checkpoint_at, read_area as read_area_lem};
ghost use Rattle.checkpoint_disk.specs.Standing.{shown_contents, checkpoint_from, IsRead, damage_of};

use crate::tuples::read_tuple;
use command_codec::CodecFault;
use command_codec::reading::Cursor;
use disk_model::Area;
use gate_area::SurveyFault;
use mrp_types::{Octets, Tuple};
use std::alloc::Global;

/// A tuple, and the bytes of the state there.
#[derive(Drop, Debug)]
pub struct Contents {
    pub tuple: Tuple,
    pub state: Octets,
}

/// The checkpoint in the bytes of an area that stands, and the position at which its tuple begins: behind the bytes 0
/// and 2 of format 2, or from byte 16 on in format 1. A fault is at the position of the first field at fault. The state
/// takes the room of the bytes, so that no second copy of it is made.
pub fn read_area(alloc: Global, bytes: Vec<u8>) -> Result<(u64, Contents), CodecFault>
    ensures read { IsRead (read_area_lem bytes.items) result }
    ensures from { IfOk result (λ x. x.0 ≤ 18) }
{
    if bytes.len() <= 16 || bytes[16] != 0 {
        return Ok((16, read_from(alloc, bytes, 16)?));
    }
    if bytes.len() <= 17 || bytes[17] != 2 {
        return Err(CodecFault::BadField(17));
    }
    Ok((18, read_from(alloc, bytes, 18)?))
}

// The checkpoint from a position on, in all bytes from there.
fn read_from(alloc: Global, bytes: Vec<u8>, from: usize) -> Result<Contents, CodecFault>
    ensures { Says shown_contents (all_of checkpoint_at (record { at = from; rest = drop from bytes.items })) result }
{
    if bytes.len() < from {
        return Err(CodecFault::Short(from));
    }
    let (tuple, front) = read_front(alloc, &bytes, from)?;
    let state = without_front(bytes, front);
    Ok(Contents { tuple, state })
}

// The tuple from a position on, and the position at which the state begins, which goes on to the end.
#[tactic(auto, unfolding(checkpoint::specs::Checkpoints::checkpoint_at))]
fn read_front(alloc: Global, bytes: &[u8], from: usize) -> Result<(Tuple, usize), CodecFault>
    requires { from ≤ length bytes.now }
    ensures read { Says (λ x. checkpoint_from x.0 x.1 bytes.now) (all_of checkpoint_at (record { at = from; rest = drop from bytes.now })) result }
    ensures front { IfOk result (λ x. x.1 ≤ length bytes.now) }
{
    let mut fields = fields_from(bytes, from);
    let tuple = read_tuple(alloc, &mut fields)?;
    let size = fields.u64()?;
    let state = fields.bytes(size as usize)?;
    fields.end()?;
    Ok((tuple, bytes.len() - state.len()))
}

// The fields from a position on.
#[tactic(auto, unfolding(command_codec::specs::Reader::bytes_at))]
fn fields_from<'a>(bytes: &'a [u8], from: usize) -> Cursor<'a>
    requires { from ≤ length bytes.now }
    ensures { result ≡ record { at = from; rest = drop from bytes.now } }
{
    let mut fields = Cursor::new(bytes);
    let _front = fields.bytes(from);
    fields
}

/// The bytes from a position on, in the room that all of them had.
pub fn without_front(mut bytes: Vec<u8>, count: usize) -> Octets
    requires { count ≤ length bytes.items }
    ensures { result ≡ drop count bytes.items }
{
    bytes.drain(..count);
    Octets::from_vec(bytes)
}

/// A fault in the bytes of an area as the damaged place of it.
pub fn damage(area: Area, fault: CodecFault) -> SurveyFault
    ensures { result ≡ damage_of area fault }
{
    match fault {
        CodecFault::Short(at)
        | CodecFault::BadKind(at)
        | CodecFault::BadField(at)
        | CodecFault::TooLong(at)
        | CodecFault::Left(at) => SurveyFault::Damaged(area, at as u64),
        CodecFault::Memory => SurveyFault::Memory,
    }
}
