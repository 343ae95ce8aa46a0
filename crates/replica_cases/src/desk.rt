//! Where calls come in, line by line.

use crate::calls::answer;
use anyhow::Result;
use mrp_config::Deployment;
use mrp_types::Octets;
use replica_state::ReplicaState;
use std::alloc::Global;

/// The state that lines speak of.
#[derive(Drop)]
pub struct Desk {
    alloc: Global,
    deployment: Deployment,
    state: Option<ReplicaState>,
}

impl Desk {
    /// No state yet.
    pub fn new(alloc: Global, deployment: Deployment) -> Desk {
        Desk {
            alloc,
            deployment,
            state: None,
        }
    }

    /// Prints a line and what it gives, where it is a call.
    pub fn serve(&mut self, rt: &HostRuntime, line: &str) -> Result<()> {
        if line.is_empty() || line.starts_with('#') {
            return Ok(());
        }
        let mut out = Octets::new(self.alloc);
        let given = answer(
            self.alloc,
            &self.deployment,
            &mut self.state,
            line.as_bytes(),
            &mut out,
        );
        if given.is_err() {
            println!(rt; "{line} : no case")?;
            return Ok(());
        }
        println!(rt; "{line} :{}", str::from_utf8(out.bytes())?)?;
        Ok(())
    }
}
