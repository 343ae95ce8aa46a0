//! What deployments say, in words.

ghost use Rattle.std.specs.Prelude.{◌≡◌, ◌++◌, OnOk, IfOk};
ghost use Rattle.std.specs.List.{flat_map};
ghost use Rattle.verdicts.specs.Shown.{number_text, node_id_text, ring_id_text, log_id_text, node_text, client_text, ring_text, partition_text, list_text, head_text, lists_text, shown_text, numbers_of as numbers_of_lem};

use crate::faults::said;
use mrp_config::{ClientTable, Deployment, NodeTable, PartitionTable, RingTable};
use mrp_types::{LogId, Memory, NodeId, Octets, RingId};
use std::alloc::Global;
use text_lines::{put_bytes, put_number, put_word};

// What is told by words.
trait Shown {
    ghost use Rattle.std.specs.Prelude.{List, ℕ, ◌≡◌, ◌++◌, OnOk};

    // The words, each behind a space.
    ghost text: { Self → List ℕ };

    fn put(&self, out: &mut Octets) -> Result<(), Memory>
        ensures { OnOk result (out.new ≡ out.old ++ text self.now) };
}

impl Shown for u64 {
    ghost text = { number_text };

    fn put(&self, out: &mut Octets) -> Result<(), Memory> {
        put_number(out, *self)
    }
}

impl Shown for NodeId {
    ghost text = { node_id_text };

    fn put(&self, out: &mut Octets) -> Result<(), Memory> {
        put_number(out, u64::from(self.0))
    }
}

impl Shown for RingId {
    ghost text = { ring_id_text };

    fn put(&self, out: &mut Octets) -> Result<(), Memory> {
        put_number(out, u64::from(self.0))
    }
}

impl Shown for LogId {
    ghost text = { log_id_text };

    fn put(&self, out: &mut Octets) -> Result<(), Memory> {
        put_number(out, u64::from(self.0))
    }
}

impl Shown for NodeTable {
    ghost text = { node_text };

    fn put(&self, out: &mut Octets) -> Result<(), Memory> {
        put_word(out, b"node")?;
        self.id.put(out)?;
        put_word(out, self.address.bytes())
    }
}

impl Shown for ClientTable {
    ghost text = { client_text };

    fn put(&self, out: &mut Octets) -> Result<(), Memory> {
        put_word(out, b"client")?;
        put_number(out, u64::from(self.id.0))?;
        put_word(out, self.address.bytes())
    }
}

impl Shown for RingTable {
    ghost text = { ring_text };

    fn put(&self, out: &mut Octets) -> Result<(), Memory> {
        put_word(out, b"ring")?;
        self.id.put(out)?;
        put_number(out, u64::from(self.m))?;
        put_all(out, self.acceptors.items())
    }
}

impl Shown for PartitionTable {
    ghost text = { partition_text };

    fn put(&self, out: &mut Octets) -> Result<(), Memory> {
        put_head(out, self)?;
        put_number(out, u64::from(self.trim_quorum))?;
        put_number(out, u64::from(self.recovery_quorum))?;
        put_lists(out, self)
    }
}

#[tactic(auto, unfolding(crate::specs::Shown::head_text))]
fn put_head(out: &mut Octets, p: &PartitionTable) -> Result<(), Memory>
    ensures { OnOk result (out.new ≡ out.old ++ head_text p.now) }
{
    put_word(out, b"partition")?;
    put_number(out, u64::from(p.id.0))?;
    p.home.put(out)?;
    put_bytes(out, p.from.bytes())?;
    put_bytes(out, p.to.bytes())
}

#[tactic(auto, unfolding(crate::specs::Shown::lists_text))]
fn put_lists(out: &mut Octets, p: &PartitionTable) -> Result<(), Memory>
    ensures { OnOk result (out.new ≡ out.old ++ lists_text p.now) }
{
    put_list(out, b"replicas", p.replicas.items())?;
    put_list(out, b"rings", p.rings.items())?;
    put_list(out, b"logs", p.logs.items())
}

fn put_list<T: Shown>(out: &mut Octets, name: &[u8], items: &[T]) -> Result<(), Memory>
    ensures { OnOk result (out.new ≡ out.old ++ list_text T.text name.now items.now) }
{
    put_word(out, name)?;
    put_all(out, items)
}

fn put_all<T: Shown>(out: &mut Octets, items: &[T]) -> Result<(), Memory>
    ensures { OnOk result (out.new ≡ out.old ++ flat_map T.text items.now) }
{
    for item in items {
        item.put(out)?;
    }
    Ok(())
}

/// All that a deployment says.
pub fn deployment_text(alloc: Global, deployment: &Deployment) -> Result<Octets, Memory>
    ensures { IfOk result (λ text. text ≡ shown_text deployment.now) }
{
    let mut text = said(alloc, "numbers")?;
    put_all(&mut text, &numbers_of(deployment))?;
    put_all(&mut text, deployment.nodes())?;
    put_all(&mut text, deployment.clients())?;
    put_all(&mut text, deployment.rings())?;
    put_all(&mut text, deployment.partitions())?;
    Ok(text)
}

fn numbers_of(deployment: &Deployment) -> [u64; 10]
    ensures { result ≡ numbers_of_lem deployment.now }
{
    [
        u64::from(deployment.rounds().of(RingId(255))),
        u64::from(deployment.lambda()),
        u64::from(deployment.delta()),
        u64::from(deployment.resend()),
        u64::from(deployment.suspect()),
        u64::from(deployment.attempt()),
        u64::from(deployment.checkpoint()),
        u64::from(deployment.trim()),
        u64::from(deployment.window()),
        deployment.journal(),
    ]
}
