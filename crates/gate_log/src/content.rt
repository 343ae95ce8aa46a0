//! What an area of a log has behind its first byte.
ghost use Rattle.std.specs.Prelude.{◌≡◌, ◌<◌, ◌^◌, [], ◌∷◌, length, IfOk};
ghost use Rattle.gate_log.specs.Records.{area_body, front_bytes};

use crate::Body;
use std::alloc::{AllocError, Global};

/// What an area without records has behind its first byte. It takes its generation.
pub fn no_records(alloc: Global, generation: u64) -> Result<Vec<u8>, AllocError>
    ensures { IfOk result (λ bytes. bytes.items ≡ area_body generation []) }
{
    let mut bytes = front(alloc, generation)?;
    bytes.push(0)?;
    Ok(bytes)
}

/// What an area with one record has behind its first byte. It asks that its length fits four bytes.
pub fn one_record(alloc: Global, generation: u64, body: &Body) -> Result<Vec<u8>, AllocError>
    requires { length body.now < 2 ^ 32 }
    ensures { IfOk result (λ bytes. bytes.items ≡ area_body generation (body.now ∷ [])) }
{
    let mut bytes = front(alloc, generation)?;
    bytes.push(1)?;
    bytes.extend_from_slice(body.written())?;
    Ok(bytes)
}

// The magic, version 1, and a generation.
#[tactic(auto, unfolding(crate::specs::Records::u64_bytes))]
fn front(alloc: Global, generation: u64) -> Result<Vec<u8>, AllocError>
    ensures { IfOk result (λ bytes. bytes.items ≡ front_bytes generation) }
{
    let mut bytes = Vec::new(alloc);
    bytes.extend_from_slice(&[b'M', b'R', b'J', 0, 0, 0, 1])?;
    bytes.extend_from_slice(&generation.to_be_bytes())?;
    Ok(bytes)
}
