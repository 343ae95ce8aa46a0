//! The program: `mrpaxos CONFIG INPUT replay`, or `mrpaxos CONFIG INPUT gen SEED EVENTS`, which doesn't read INPUT.
//!
//! CONFIG is a file. INPUT is a file, or `-` for standard input. A file that can't be opened is a source whose first
//! read fails. With fewer than two arguments there are no words, and none where an argument isn't text. `--help` or
//! `--version` as the only argument is answered on standard output, with status 0.
#![tactic(auto)]

mod draw;
mod replay;
mod status;
mod top;

use outside::{ReadSource, WriteSink};
pub use replay::{ReplayFault, replay};
pub use status::{InputFault, Status, Which, status_text};
use std::io::Read;
use std::process::ExitCode;
use std::{env, fs, io};
pub use top::run;

#[cfg(test)]
mod tests;

// What `--help` prints.
const HELP: &str =
    "mrpaxos CONFIG INPUT replay            runs the schedule INPUT and prints what the system prints
mrpaxos CONFIG INPUT gen SEED EVENTS   prints a schedule made from a number
CONFIG is a deployment (TOML). INPUT is a file, or - for standard input.";

fn main(rt: HostRuntime) -> io::Result<ExitCode> {
    let words = arguments(&rt)?;
    if let [_, only] = words.as_slice() {
        if only.as_str() == "--help" {
            println!(rt; "{HELP}")?;
            return Ok(ExitCode::SUCCESS);
        }
        if only.as_str() == "--version" {
            println!(rt; "mrpaxos 0.1.0")?;
            return Ok(ExitCode::SUCCESS);
        }
    }
    let status = match (words.get(1), words.get(2)) {
        (Some(config), Some(input)) => {
            let config = fs::open(&rt, config.as_str()).ok();
            if input.as_str() == "-" {
                run_over(&rt, &words[3..], config, Some(rt.stdin()))
            } else {
                let input = fs::open(&rt, input.as_str()).ok();
                run_over(&rt, &words[3..], config, input)
            }
        }
        _ => run_over(&rt, &words[..0], None::<fs::File>, None::<fs::File>),
    };
    if status.number() != 0 {
        // A text that can't be written changes no exit status.
        let _told = tell(&rt, &status);
    }
    Ok(ExitCode::from(status.number()))
}

// The arguments; none where one of them isn't text, so that they are wrong ones.
fn arguments(rt: &HostRuntime) -> io::Result<Vec<String>> {
    let mut words = Vec::new(rt.alloc());
    match env::args(rt) {
        Ok(args) => {
            for word in args {
                words.push(word)?;
            }
        }
        Err(fault) => {
            if fault.kind() != io::ErrorKind::InvalidData {
                return Err(fault);
            }
        }
    }
    Ok(words)
}

// Runs the words over readers and standard output.
fn run_over<C: Read + Drop, I: Read + Drop>(
    rt: &HostRuntime,
    words: &[String],
    config: Option<C>,
    input: Option<I>,
) -> Status {
    let mut config = ReadSource::new(config);
    let mut input = ReadSource::new(input);
    let mut out = WriteSink::new(io::writer(rt));
    run(rt.alloc(), words, &mut config, &mut input, &mut out)
}

// Prints the text of a status to standard error.
fn tell(rt: &HostRuntime, status: &Status) -> io::Result<()> {
    let text = status_text(rt.alloc(), status);
    match &text {
        Ok(text) => match str::from_utf8(text.bytes()) {
            Ok(text) => eprintln!(rt; "mrpaxos: {text}"),
            Err(_) => Ok(()),
        },
        Err(_) => eprintln!(rt; "mrpaxos: memory"),
    }
}
