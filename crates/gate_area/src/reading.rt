//! All bytes of an area.
ghost use Rattle.std.specs.Prelude.{◌≡◌, ◌≤◌, length, IfOk};
ghost use Rattle.disk_model.specs.Calls.{Told, Tells, area_bytes};
ghost use Rattle.disk_model.specs.Went.{WentBy};
ghost use Rattle.disk_model.specs.Running.{ending};
ghost use Rattle.gate_area.specs.Operations.{area_readings};

use disk_model::{Area, Disk, Refused};
use std::alloc::{AllocError, Global};

// How many bytes one read asks for.
const PAGE: usize = 65_536;

/// Reads an area from its start in pieces of 65,536 bytes, until one gives fewer. Memory for the bytes is taken on the way.
pub fn read_all<D: Disk>(alloc: Global, disk: &mut D, area: Area) -> Result<Vec<u8>, Refused>
    ensures bytes { (t : Told) → Tells (D.told disk.old) (D.honest disk.old) t → IfOk result (λ bytes. bytes.items ≡ area_bytes area t) }
    ensures told { D.told disk.new ≡ D.told disk.old }
    ensures went { WentBy D.Disk (area_readings area) disk.old disk.new (ending result) }
{
    let mut page = new_page(alloc, PAGE)?;
    let mut bytes = Vec::new(alloc);
    for _turn in 0..u64::MAX {
        let count = disk.read(area, bytes.len() as u64, &mut page)?;
        bytes.extend_from_slice(&page[..count])?;
        if count < PAGE {
            return Ok(bytes);
        }
    }
    Ok(bytes)
}

// Room for so many bytes.
fn new_page(alloc: Global, size: usize) -> Result<Vec<u8>, AllocError>
    ensures { IfOk result (λ page. length page.items ≡ size) }
{
    vec![in alloc; 0; size]
}
