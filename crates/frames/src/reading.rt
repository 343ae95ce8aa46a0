//! Frames from bytes.

ghost use Rattle.std.specs.Prelude.{◌≡◌, ◌<◌, ◌≤◌, ◌↔◌, nat_le, ◌&&◌, length, slice_get, IfOk, Ok, None};
ghost use Rattle.command_codec.specs.Reader.{Reads, Says as SaysFields};
ghost use Rattle.frames.specs.Grammar.{read_of, kind_at, is_magic, frame_of_kind, all_of, party_at, most_party, most_id, is_client as is_client_lem};
ghost use Rattle.frames.specs.Spelling.{frame_bytes};
ghost use Rattle.frames.specs.Valid.{IsFrame, HasId, HasNumbers};
ghost use Rattle.frames.specs.declared.frame.Frame.{Frame as SomeFrame};
ghost use Rattle.frames.specs.Saying.{Says, Reads as ReadsFrame};

use crate::bodies::read_body;
use crate::{Frame, FrameFault};
use command_codec::CodecFault;
use command_codec::reading::Cursor;
use mrp_types::limits::LAST_NODE;
use mrp_types::{ClientId, NodeId, Party};
use std::alloc::Global;

/// The most bytes of a frame.
pub const MOST: usize = 32_768;

/// The version with which frames are written, the only one that is read.
pub const VERSION: u8 = 2;

// The greatest kind.
const LAST_KIND: u8 = 19;

/// The frame that the bytes spell, all of the bytes, or the first field that can't stand. Commands and replies
/// aren't looked into.
pub fn read(alloc: Global, bytes: &[u8]) -> Result<Frame, FrameFault>
    // What is read is spelled so, and has a spelling.
    ensures found { IfOk result (λ frame. (bytes.now ≡ frame_bytes frame) × IsFrame frame) }
    // What is spelled so is read, unless memory runs out.
    ensures only { (frame : SomeFrame) → IsFrame frame → HasId frame.from → HasNumbers frame.body → bytes.now ≡ frame_bytes frame → Says (λ f. f) (Ok frame) result }
    ensures exact { Says (λ f. f) (read_of bytes.now) result }
{
    read_any(alloc, bytes)
}

fn read_any(alloc: Global, bytes: &[u8]) -> Result<Frame, FrameFault>
    ensures { Says (λ f. f) (read_of bytes.now) result }
{
    if bytes.len() > MOST {
        return Err(FrameFault::TooLong);
    }
    let mut fields = Cursor::new(bytes);
    let kind = read_kind(&mut fields)?;
    let frame = read_all(alloc, &mut fields, kind)?;
    Ok(frame)
}

/// The magic, the version and the kind.
#[tactic(auto, unfolding(crate::specs::Grammar::kind_at))]
fn read_kind(fields: &mut Cursor<'_>) -> Result<u8, FrameFault>
    ensures { ReadsFrame (λ k. k) (kind_at fields.old) result fields.new }
{
    if !begins_a_frame(fields.bytes(2)?) {
        return Err(FrameFault::BadMagic);
    }
    let version = fields.byte()?;
    if version != VERSION {
        return Err(FrameFault::BadVersion(version));
    }
    let kind = fields.byte()?;
    if !is_kind(kind) {
        return Err(FrameFault::BadKind(kind));
    }
    Ok(kind)
}

fn begins_a_frame(magic: &[u8]) -> bool
    ensures { result ≡ is_magic magic.now }
{
    matches!(magic, [0x4d, 0x52, ..])
}

fn is_kind(kind: u8) -> bool
    ensures { result ≡ (nat_le 1 kind && nat_le kind 19) }
{
    1 <= kind && kind <= LAST_KIND
}

/// The byte that tells the kind of a frame, without a look at any other; none exactly where there are fewer than four
/// bytes.
pub fn kind_of(bytes: &[u8]) -> Option<u8>
    ensures kind { result ≡ slice_get bytes.now 3 }
    ensures none { (result ≡ None) ↔ (length bytes.now < 4) }
{
    bytes.get(3).copied()
}

/// The sender and the body of a kind, up to the end of the bytes.
fn read_all(alloc: Global, fields: &mut Cursor<'_>, kind: u8) -> Result<Frame, CodecFault>
    ensures { SaysFields (λ f. f) (all_of (frame_of_kind kind) fields.old) result }
{
    let frame = read_frame(alloc, fields, kind)?;
    fields.end()?;
    Ok(frame)
}

#[tactic(auto, unfolding(crate::specs::Grammar::frame_of_kind))]
fn read_frame(alloc: Global, fields: &mut Cursor<'_>, kind: u8) -> Result<Frame, CodecFault>
    ensures { Reads (λ f. f) (frame_of_kind kind fields.old) result fields.new }
{
    let from = read_party(fields, kind)?;
    let body = read_body(alloc, fields, kind, is_client(from))?;
    Ok(Frame { from, body })
}

fn is_client(party: Party) -> bool
    ensures { result ≡ is_client_lem party }
{
    matches!(party, Party::Client(_))
}

#[tactic(auto, unfolding(crate::specs::Grammar::party_at))]
fn read_party(fields: &mut Cursor<'_>, kind: u8) -> Result<Party, CodecFault>
    ensures { Reads (λ p. p) (party_at kind fields.old) result fields.new }
{
    let party = fields.byte_within(0, greatest_party(kind))?;
    let id = fields.byte_within(0, greatest_id(party))?;
    Ok(if party == 0 {
        Party::Node(NodeId(id))
    } else {
        Party::Client(ClientId(id))
    })
}

/// Only a Submit has a client as its sender.
fn greatest_party(kind: u8) -> u8
    ensures { result ≡ most_party kind }
{
    if kind == 1 { 1 } else { 0 }
}

fn greatest_id(party: u8) -> u8
    ensures { result ≡ most_id party }
{
    if party == 0 { LAST_NODE } else { u8::MAX }
}
