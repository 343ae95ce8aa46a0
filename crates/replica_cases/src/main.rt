//! The program: calls on the state of a replica on standard input, a line each, and what each gives on standard output.
//!
//! `new P` begins the state of partition P before its first entry, and `read P BYTES` goes on with the one that the bytes are; the lines
//! behind it speak of this state. `apply CLIENT NUMBER COMMAND` has it take an entry with these bytes of a command, `look COMMAND` asks
//! it, and `state` shows its bytes.
//!
//! Bytes are in hexadecimal, `-` for none. Those of `read` may be several words, one behind the other, and `HEX*COUNT` stands for so
//! many times the same. A line is printed again, and behind ` :` the bytes of the reply, or `none`; the bytes of the state; `ok` where
//! bytes are a state which is written as these bytes again, else `otherwise`, or `fault AT` where they are none; or `no case`. Empty lines and lines that begin with `#` are no calls,
//! and nothing is printed of them.
#![tactic(auto)]

mod calls;
mod cases;
mod deployment;
mod desk;

use deployment::DEPLOYMENT;
use desk::Desk;
use mrp_config::Deployment;
use std::io::{BufRead, BufReader};

fn main(rt: HostRuntime) -> anyhow::Result<()> {
    let alloc = rt.alloc();
    let Ok(deployment) = Deployment::from_bytes(alloc, DEPLOYMENT.as_bytes()) else {
        println!(&rt; "no deployment")?;
        return Ok(());
    };
    let mut desk = Desk::new(alloc, deployment);
    for line in BufReader::new(alloc, rt.reader())?.lines(alloc) {
        let line = line?;
        desk.serve(&rt, line.as_str())?;
    }
    Ok(())
}
