//! What a crash leaves of one area, found from the bytes at the start and the calls since.
ghost use Rattle.std.specs.Prelude.{◌≡◌, ◌≤◌, ◌⊎◌, slice_index_or, [], ◌∷◌, length, IfOk, OnOk};
ghost use Rattle.disk_model.specs.Calls.{own};
ghost use Rattle.disk_model.specs.Crash.{left_of, covers, IsLastSync};
ghost use Rattle.std.specs.List.{list_any};
ghost use Rattle.disk_model.specs.declared.area.Image.TheVariants.{Fill};
ghost use Rattle.disk_model.specs.Steps.{after, least, most};

use crate::{Area, Call, Octets};
use std::alloc::{AllocError, Global};

/// How many calls there are up to the last sync.
pub fn settled_calls(calls: &[Call]) -> usize
    ensures { IsLastSync calls.now result }
{
    let mut settled = calls.len();
    while settled > 0 {
        if let Call::Sync = &calls[settled - 1] {
            return settled;
        }
        settled -= 1;
    }
    0
}

/// The bytes of an area after some calls.
pub fn replayed(
    alloc: Global,
    start: &Octets,
    calls: &[Call],
    area: Area,
) -> Result<Octets, AllocError>
    ensures { IfOk result (λ file. file ≡ after start.now (own area calls.now)) }
{
    let mut file = Octets::of(alloc, start.bytes())?;
    for call in calls {
        apply(&mut file, call, area)?;
    }
    Ok(file)
}

// Does a call to the bytes of an area, where it concerns it.
fn apply(file: &mut Octets, call: &Call, area: Area) -> Result<(), AllocError>
    ensures { OnOk result (file.new ≡ after file.old (own area (call.now ∷ []))) }
{
    match call {
        Call::Write { area: b, at, bytes } => {
            if b.number() == area.number() {
                file.overwrite(*at as usize, bytes.bytes())?;
            }
        }
        Call::Cut { area: b, len } => {
            if b.number() == area.number() {
                file.cut(*len as usize);
            }
        }
        Call::Sync => {}
    }
    Ok(())
}

/// The least and the greatest length of a file while some calls are made.
pub fn lengths_in(
    alloc: Global,
    start: &Octets,
    calls: &[Call],
    area: Area,
) -> Result<(usize, usize), AllocError>
    ensures least { IfOk result (λ lengths. lengths.0 ≡ least start.now (own area calls.now)) }
    ensures most { IfOk result (λ lengths. lengths.1 ≡ most start.now (own area calls.now)) }
{
    let mut file = Octets::of(alloc, start.bytes())?;
    let mut low = file.len();
    let mut high = file.len();
    for call in calls {
        apply(&mut file, call, area)?;
        low = low.min(file.len());
        high = high.max(file.len());
    }
    Ok((low, high))
}

/// Whether some of these calls wrote at a position of an area.
pub fn is_written(calls: &[Call], area: Area, position: usize) -> bool
    ensures { result ≡ list_any (covers position) (own area calls.now) }
{
    for call in calls {
        if writes_at(call, area, position) {
            return true;
        }
    }
    false
}

// Whether this one did.
fn writes_at(call: &Call, area: Area, position: usize) -> bool
    ensures { result ≡ list_any (covers position) (own area (call.now ∷ [])) }
{
    if let Call::Write { area: b, at, bytes } = call {
        let at = *at as usize;
        return b.number() == area.number() && at <= position && position - at < bytes.len();
    }
    false
}

/// An image of the greatest length: of the bytes that may have changed since the last sync, the first `keep`
/// are what a read gives and all others are `byte`.
pub fn filled(
    alloc: Global,
    kept: &Octets,
    calls: &[Call],
    area: Area,
    keep: u32,
    byte: u8,
) -> Result<Octets, AllocError>
    ensures { IfOk result (λ image. image ≡ left_of (Fill keep byte) (record { bytes = kept.now; pending = own area calls.now })) }
{
    let now = replayed(alloc, kept, calls, area)?;
    let (low, high) = lengths_in(alloc, kept, calls, area)?;
    let mut image = Vec::new(alloc);
    let mut dirty = 0;
    for i in 0..high {
        let mut left = byte_at(now.bytes(), i, byte);
        if low <= i || is_written(calls, area, i) {
            if dirty >= keep as usize {
                left = byte;
            }
            dirty += 1;
        }
        image.push(left)?;
    }
    Ok(Octets::new(image))
}

// The byte at a position, or another past the end.
fn byte_at(bytes: &[u8], at: usize, other: u8) -> u8
    ensures { result ≡ slice_index_or bytes.now at other }
{
    if at < bytes.len() { bytes[at] } else { other }
}
