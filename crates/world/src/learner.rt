//! What a node has learned and delivered.

ghost use Rattle.std.specs.Prelude.{◌≡◌, ◌<◌, ◌++◌, List, [], ◌∷◌, OnOk, IfOk};
ghost use Rattle.transcript.specs.declared.line.Line.{Line};
ghost use Rattle.world.specs.Learner.{nothing_learned, learning, ready};

use mrp_types::{END, Inst, Memory, NodeId, RingId, Value};
use std::alloc::Global;
use std::collections::BTreeMap;
use std::marker::Model;
use transcript::{Line, Lines};

/// The instances of one node: those below `next` are delivered, those in `ahead` are learned and wait.
#[derive(Drop)]
pub struct Learned {
    next: Inst,
    ahead: BTreeMap<Inst, Value>,
}

impl Model for Learned {
    ghost use Rattle.world.specs.Learner.{Learner};

    ghost Value = { Learner };

    ghost view = { λ l. record { next = l.next; ahead = l.ahead.entries } };
}

impl Learned {
    /// Nothing is learned.
    pub fn new(alloc: Global) -> Self
        ensures { result ≡ nothing_learned }
    {
        Learned {
            next: 0,
            ahead: BTreeMap::new(alloc),
        }
    }

    /// Learns a value, and adds what is printed to the lines. After a refusal nothing is said of what is learned or of the
    /// lines.
    pub fn learn(
        &mut self,
        ring: RingId,
        node: NodeId,
        inst: Inst,
        value: &Value,
        lines: &mut Lines,
    ) -> Result<(), Memory>
        requires { inst < END }
        ensures learner { OnOk result (self.new ≡ (learning ring node inst value.now self.old).learner) }
        ensures lines { OnOk result (lines.new ≡ lines.old ++ (learning ring node inst value.now self.old).lines) }
    {
        if inst < self.next || self.ahead.contains_key(&inst) {
            return Ok(());
        }
        self.ahead.insert(inst, value.share()?)?;
        lines.push(Line::Learn {
            node,
            ring,
            lo: inst,
            hi: inst + 1,
            value: value.share()?,
        })?;
        self.deliver(ring, node, lines)
    }

    // Delivers the next instance while it is learned.
    fn deliver(&mut self, ring: RingId, node: NodeId, lines: &mut Lines) -> Result<(), Memory>
        ensures learner { OnOk result (self.new ≡ (ready ring node self.old.next self.old.ahead).learner) }
        ensures lines { OnOk result (lines.new ≡ lines.old ++ (ready ring node self.old.next self.old.ahead).lines) }
    {
        for _turn in 0..self.ahead.len() {
            let Some((first, _)) = self.ahead.first_key_value() else {
                return Ok(());
            };
            if *first != self.next {
                return Ok(());
            }
            if self.next >= END {
                return Ok(());
            }
            if self.ahead.pop_first().is_none() {
                return Ok(());
            }
            let inst = self.next;
            lines.push(Line::Deliver { node, ring, inst })?;
            self.next += 1;
        }
        Ok(())
    }
}
