//! The program: merges on standard input, a line each, and what each comes to on standard output.
//!
//! A line is the number of calls, and then for each ring its number, the size of its round, the instance at which it goes on, how many
//! ranges were learned of it, and each of these: its first instance, the first one behind it, and 0 for Skip or the number of a batch.
//! All are decimal with single spaces between. The line is printed again, and behind ` :` what each call gives, and at the end the
//! tuple and the number of looks; or `no case` where the rings don't begin at a valid tuple or a number is out of its range. Empty lines and
//! lines that begin with `#` are no cases, and nothing is printed of them.
#![tactic(auto)]

mod cases;
mod shown;

use cases::read_case;
use shown::show;
use std::io::{BufRead, BufReader};

fn main(rt: HostRuntime) -> anyhow::Result<()> {
    let alloc = rt.alloc();
    for line in BufReader::new(alloc, rt.reader())?.lines(alloc) {
        let line = line?;
        let line = line.as_str();
        if line.is_empty() || line.starts_with('#') {
            continue;
        }
        print!(&rt; "{line} :")?;
        match read_case(alloc, line.as_bytes()) {
            Ok(case) => show(&rt, &case)?,
            Err(_) => println!(&rt; " no case")?,
        }
    }
    Ok(())
}
