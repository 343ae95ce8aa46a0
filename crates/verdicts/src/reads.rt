//! Which reads the opening of a log makes.

ghost use Rattle.std.specs.Prelude.{refl};
ghost use Rattle.std.specs.Option.{option_map};
ghost use Rattle.std.proofs.Common.{ap};
ghost use Rattle.disk_model.specs.Sim.{Sim};

use crate::faults::said;
use disk_model::{Area, Disk, Refused, SimDisk};
use gate_log::GateLog;
use mrp_types::{Memory, Octets};
use std::alloc::Global;
use text_lines::put_number;

// More than any case needs.
const WIDE: u64 = 1_048_576;

// How many reads are noted.
const NOTED: usize = 5;

// A log without records: a gate, magic, version 1, generation 1, a closed gate.
const FRESH: [u8; 17] = [1, 0x4d, 0x52, 0x4a, 0, 0, 0, 1, 0, 0, 0, 0, 0, 0, 0, 1, 0];

// A read: of which area, from where, and of how many bytes.
#[derive(Clone, Copy)]
struct Note {
    area: u8,
    at: u64,
    len: usize,
}

// A disk in memory that notes the first reads.
#[derive(Drop)]
struct Noting {
    disk: SimDisk,
    notes: [Note; NOTED],
    count: usize,
}

impl Disk for Noting {
    ghost told = { λ d. ⟦<SimDisk as Disk>⟧.told d.disk };

    ghost honest = { λ d. ⟦<SimDisk as Disk>⟧.honest d.disk };

    ghost memory = { λ d. ⟦<SimDisk as Disk>⟧.memory d.disk };

    ghost faults = { λ d. ⟦<SimDisk as Disk>⟧.faults d.disk };

    ghost wants = { λ d. ⟦<SimDisk as Disk>⟧.wants d.disk };

    ghost tells = { λ d s is. record { honest = refl; told = ap (option_map (λ (x : Sim). x.told)) is } };

    fn len(&mut self, area: Area) -> Result<u64, Refused> {
        self.disk.len(area)
    }

    fn read(&mut self, area: Area, at: u64, into: &mut [u8]) -> Result<usize, Refused> {
        if self.count < NOTED {
            let (area, len) = (area.number(), into.len());
            self.notes[self.count] = Note { area, at, len };
        }
        self.count = self.count.saturating_add(1);
        self.disk.read(area, at, into)
    }

    fn write_at(&mut self, area: Area, at: u64, from: &[u8]) -> Result<(), Refused> {
        self.disk.write_at(area, at, from)
    }

    fn cut(&mut self, area: Area, len: u64) -> Result<(), Refused> {
        self.disk.cut(area, len)
    }

    fn sync(&mut self) -> Result<(), Refused> {
        self.disk.sync()
    }
}

/// How many reads the opening of a log of so many bytes makes, and of the first five the area, the place and the
/// length; an area of no bytes is empty, and any other begins as a log without records.
pub fn reads_verdict(alloc: Global, case: &str) -> Result<Octets, Memory> {
    let Ok(len) = case.parse::<u32>() else {
        return said(alloc, "no case");
    };
    let mut first = FRESH.to_vec(alloc)?;
    first.resize(len as usize, 7)?;
    let areas = [first, Vec::new(alloc), Vec::new(alloc), Vec::new(alloc)];
    let mut noting = Noting {
        disk: SimDisk::with(alloc, areas),
        notes: [Note {
            area: 0,
            at: 0,
            len: 0,
        }; NOTED],
        count: 0,
    };
    if GateLog::open(alloc, &mut noting, WIDE).is_err() {
        return said(alloc, "no case");
    }
    told(alloc, &noting)
}

fn told(alloc: Global, noting: &Noting) -> Result<Octets, Memory> {
    let mut text = said(alloc, "reads")?;
    put_number(&mut text, noting.count as u64)?;
    for note in &noting.notes[..noting.count.min(NOTED)] {
        put_number(&mut text, u64::from(note.area))?;
        put_number(&mut text, note.at)?;
        put_number(&mut text, note.len as u64)?;
    }
    Ok(text)
}
