//! The program: disks and calls on the checkpoints on them on standard input, a line each, and what each call gives on standard output.
//!
//! A line is the bytes of the areas 2 and 3 in hexadecimal, `-` for none, and then the calls. `open` finds the newest checkpoint, and
//! `save TUPLE STATE` and `part TUPLE OFFSET` are calls on what the last opening or save left; a save that isn't done leaves nothing.
//! TUPLE is the instance of ring 0, or those of the rings 0 and 5 with a comma between; STATE is in hexadecimal. `fuse N`, `fail N` and
//! `failread N` plan faults of the disk. `old`, `new` and `fill KEEP BYTE` are a crash that leaves this image, with what an opening finds
//! on it.
//!
//! The line is printed again, and behind ` :` what its calls give, each with a comma behind: where a checkpoint stands its area, its
//! generation, the places of its tuple and of its state, its tuple as `RING:INSTANCE`, and its state; `none` and the generation;
//! `damaged` with the area and the place; `older` with the newest tuple; `disk`; of a part `part` with the length of the state and the
//! bytes, `gone` with the newest tuple, or `unknown`; or `no case`, behind which no call is made. ` end` stands at the end. Empty
//! lines and lines that begin with `#` are no cases, and nothing is printed of them.
#![tactic(auto)]

mod calls;
mod reading;
mod shown;
mod untold;

use calls::answer;
use mrp_types::Octets;
use std::io::{BufRead, BufReader};

fn main(rt: HostRuntime) -> anyhow::Result<()> {
    let alloc = rt.alloc();
    for line in BufReader::new(alloc, rt.reader())?.lines(alloc) {
        let line = line?;
        let line = line.as_str();
        if line.is_empty() || line.starts_with('#') {
            continue;
        }
        let mut out = Octets::new(alloc);
        let answered = answer(alloc, line.as_bytes(), &mut out);
        let text = str::from_utf8(out.bytes())?;
        match answered {
            Ok(()) => println!(&rt; "{line} :{text} end")?,
            Err(_) => println!(&rt; "{line} :{text} no case, end")?,
        }
    }
    Ok(())
}
