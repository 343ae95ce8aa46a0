//! The program: cases on standard input, and each of them with its verdict on standard output.
//!
//! A case is a line. `frame HEX`, `command HEX`, `batch HEX` and `reply HEX` are bytes for the reader of that name; what is read has
//! a spelling, and is written again, which gives the same bytes (a batch of more bytes than a value may have isn't written). `text NAME`
//! begins a deployment: the lines behind it, up to `end`, are its text. `config NAME` is that text, and `config NAME OLD => NEW` the
//! text with NEW in place of the first OLD; `padded NAME LENGTH` has a comment behind the text, so many bytes in all, and `toml HEX` is
//! bytes that may be no text. `journal AREA AREA` are the bytes of both areas of a journal, which node 0 opens: its
//! verdict is the epoch and the promise of ring 1; of `opened AREA AREA` it is the two areas then, and of `compacted AREA AREA` the two
//! areas after a compaction behind that. `stops CALL FAULT NUMBER` is a call on a disk in memory on which `fuse`, `fail` or `fail_read` was
//! set with this number: its verdict is how the call ends, whether a fuse has stopped it, and how many reads and then how many syncs
//! pass, up to 20. `reads LENGTH` is the opening of a log of so many bytes on a disk that notes its reads: its verdict is how many
//! there are, and of the first five the area, the place and the length.
//!
//! `line TEXT` is a line of a transcript, `events NAME TEXT` a schedule over the deployment of that name, and `asked NAME TEXT` the text
//! of a client. What is read is written again too. The number behind a fault is that of its line. In these texts, and in OLD and NEW,
//! `\n` stands for a line feed, `\t` for a tab and `\r` for a carriage return. `shows NAME` tells all that a deployment says, and
//! `drawn NAME SEED EVENTS` the schedule of so many events that is drawn over it, in hexadecimal.
//!
//! A case is printed again, and behind ` : ` what its reader answers: `ok`, or the kind of the first fault with what it names, or
//! `no case` where the line is none. Empty lines, lines that begin with `#`, and texts are no cases, and nothing is printed of them.
#![tactic(auto)]

mod cases;
mod faults;
mod journals;
mod readers;
mod reads;
mod shown;
mod stops;
mod texts;
mod verdict;

use std::alloc::AllocError;
use std::io::{BufRead, BufReader};
use texts::Texts;
use verdict::verdict;

fn main(rt: HostRuntime) -> anyhow::Result<()> {
    let alloc = rt.alloc();
    let mut texts = Texts::new(alloc);
    for line in BufReader::new(alloc, rt.reader())?.lines(alloc) {
        let line = line?;
        let line = line.as_str();
        if texts.takes(line)? || line.is_empty() || line.starts_with('#') {
            continue;
        }
        let answer = verdict(alloc, &texts, line).map_err(|_| AllocError)?;
        let answer = str::from_utf8(answer.bytes())?;
        println!(rt; "{line} : {answer}")?;
    }
    Ok(())
}
