//! What calls give.

use crate::reading::{NoCase, read_count, read_fill, read_tuple};
use crate::shown::{show_damaged, show_newer, show_newest, show_part};
use crate::untold::Untold;
use checkpoint_disk::{Checkpoints, SaveFault};
use disk_model::Image;
use gate_area::SurveyFault;
use mrp_types::Octets;
use std::alloc::Global;
use std::mem;
use text_lines::{Words, put_word};

/// The most calls of a line.
const CALLS: u64 = 1_000;

/// A disk, and what the last opening or save left.
#[derive(Drop)]
struct Machine {
    alloc: Global,
    disk: Untold,
    checkpoints: Option<Checkpoints>,
}

/// What the calls of a line give.
pub fn answer(alloc: Global, line: &[u8], out: &mut Octets) -> Result<(), NoCase> {
    let mut words = Words::new(line);
    let check2 = words.hex(alloc)?;
    let check3 = words.hex(alloc)?;
    let mut machine = Machine {
        alloc,
        disk: Untold::with(alloc, check2.bytes(), check3.bytes())?,
        checkpoints: None,
    };
    for _call in 0..CALLS {
        if words.end().is_ok() {
            break;
        }
        machine.call(&mut words, out)?;
    }
    Ok(words.end()?)
}

// Why a save isn't done.
fn refuse(fault: &SaveFault, out: &mut Octets) -> Result<(), NoCase> {
    match fault {
        SaveFault::Disk => Ok(put_word(out, b"disk,")?),
        SaveFault::Older(newer) => Ok(show_newer(out, b"older", newer)?),
        SaveFault::Memory => Err(NoCase),
    }
}

impl Machine {
    fn call(&mut self, words: &mut Words<'_>, out: &mut Octets) -> Result<(), NoCase> {
        match words.word()? {
            b"open" => self.open(out),
            b"save" => self.save(words, out),
            b"part" => self.part(words, out),
            b"old" => self.crash(Image::Old, out),
            b"new" => self.crash(Image::New, out),
            b"fill" => self.crash(read_fill(self.alloc, words)?, out),
            word => self.plan(word, words),
        }
    }

    fn plan(&mut self, word: &[u8], words: &mut Words<'_>) -> Result<(), NoCase> {
        match word {
            b"fuse" => self.disk.fuse(read_count(words)?),
            b"fail" => self.disk.fail(read_count(words)?),
            b"failread" => self.disk.fail_read(read_count(words)?),
            _ => return Err(NoCase),
        }
        Ok(())
    }

    fn open(&mut self, out: &mut Octets) -> Result<(), NoCase> {
        self.checkpoints = None;
        match Checkpoints::open(self.alloc, &mut self.disk) {
            Ok(found) => self.keep(found, out),
            Err(SurveyFault::Disk) => Ok(put_word(out, b"disk,")?),
            Err(SurveyFault::Damaged(area, at)) => Ok(show_damaged(out, area, at)?),
            Err(SurveyFault::Memory) => Err(NoCase),
        }
    }

    fn save(&mut self, words: &mut Words<'_>, out: &mut Octets) -> Result<(), NoCase> {
        let tuple = read_tuple(words)?;
        let state = words.hex(self.alloc)?;
        let Some(checkpoints) = self.checkpoints.take() else {
            return Err(NoCase);
        };
        if checkpoints.generation() == u64::MAX {
            return Err(NoCase);
        }
        match checkpoints.save(&mut self.disk, tuple, state) {
            Ok(found) => self.keep(found, out),
            Err(fault) => refuse(&fault, out),
        }
    }

    fn part(&self, words: &mut Words<'_>, out: &mut Octets) -> Result<(), NoCase> {
        let tuple = read_tuple(words)?;
        let offset = words.number()?;
        let Some(checkpoints) = &self.checkpoints else {
            return Err(NoCase);
        };
        Ok(show_part(out, &checkpoints.part(&tuple, offset)?)?)
    }

    fn crash(&mut self, image: Image, out: &mut Octets) -> Result<(), NoCase> {
        let disk = mem::replace(&mut self.disk, Untold::empty(self.alloc));
        self.disk = disk.crash(image)?;
        self.open(out)
    }

    fn keep(&mut self, found: Checkpoints, out: &mut Octets) -> Result<(), NoCase> {
        show_newest(out, &found)?;
        self.checkpoints = Some(found);
        Ok(())
    }
}
