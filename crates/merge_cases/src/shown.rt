//! What the calls of a merge come to.

use crate::cases::{Case, is_tuple};
use anyhow::Result;
use merge::{Learners, Merge, Next};
use mrp_types::Tuple;

fn show_tuple(rt: &HostRuntime, tuple: &Tuple) -> Result<()> {
    print!(rt; " tuple")?;
    for pair in tuple.pairs() {
        print!(rt; " {}", pair.1)?;
    }
    Ok(())
}

fn show_next(rt: &HostRuntime, next: Next) -> Result<()> {
    match next {
        Next::Deliver(place) => print!(rt; " deliver {} {},", place.ring.0, place.inst)?,
        Next::Wait(ring) => print!(rt; " wait {},", ring.0)?,
    }
    Ok(())
}

/// Prints what each call gives, and the tuple and the looks at the end.
pub fn show(rt: &HostRuntime, case: &Case) -> Result<()> {
    let pairs = case.pairs.as_slice();
    if !is_tuple(pairs) || pairs.len() != case.learners.len() {
        println!(rt; " no case")?;
        return Ok(());
    }
    let tuple = Tuple::from_pairs(pairs);
    if !tuple.is_valid(&case.rounds) {
        println!(rt; " no case")?;
        return Ok(());
    }
    let mut merge = Merge::at(tuple, &case.rounds);
    let mut learners = Learners::new(case.learners.as_slice());
    for _call in 0..case.calls {
        show_next(rt, merge.next(&mut learners))?;
    }
    show_tuple(rt, &merge.tuple())?;
    println!(rt; " looks {}", learners.looks())?;
    Ok(())
}
