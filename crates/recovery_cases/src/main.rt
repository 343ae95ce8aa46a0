//! The program: attempts of recovery on standard input, a line each, and what each comes to on standard output.
//!
//! A line is a partition, the own node, the epoch, the number of the attempt and the own instance, and then the calls:
//! `have FROM EPOCH ATTEMPT INST`, `part FROM EPOCH ATTEMPT INST OFFSET TOTAL BYTES` with bytes in hexadecimal, `gone FROM EPOCH ATTEMPT
//! ASKED NEWER`, `tick 0` and `tick 1`, the last one on a tick on which what is missing is asked for again. Tuples have one ring. The
//! line is printed again, and behind ` :` the turn at the beginning and after each call, and the bytes where all are there at the end;
//! or `no case`. Empty lines and lines that begin with `#` are no cases, and nothing is printed of them.
#![tactic(auto)]

mod cases;
mod deployment;

use cases::show;
use deployment::DEPLOYMENT;
use mrp_config::Deployment;
use std::io::{BufRead, BufReader};

fn main(rt: HostRuntime) -> anyhow::Result<()> {
    let alloc = rt.alloc();
    let Ok(deployment) = Deployment::from_bytes(alloc, DEPLOYMENT.as_bytes()) else {
        println!(&rt; "no deployment")?;
        return Ok(());
    };
    for line in BufReader::new(alloc, rt.reader())?.lines(alloc) {
        let line = line?;
        let line = line.as_str();
        if line.is_empty() || line.starts_with('#') {
            continue;
        }
        print!(&rt; "{line} :")?;
        show(&rt, &deployment, line.as_bytes())?;
    }
    Ok(())
}
