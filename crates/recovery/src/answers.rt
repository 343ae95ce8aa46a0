//! The answers of replicas.

ghost use Rattle.std.specs.Prelude.{◌≡◌, ◌≤◌, ◌<◌, ◌++◌, ◌∷◌, [], length, Some};
ghost use Rattle.checkpoint.specs.Checkpoints.{is_same_tuple, is_after as is_after_lem};
ghost use Rattle.protocol.specs.Recovery.{is_better as is_better_lem};
ghost use Rattle.protocol.specs.Trimming.{has_answered};
ghost use Rattle.recovery.specs.Attempts.{best_answer};

use mrp_types::{Inst, NodeId, RingId, Tuple};
use std::marker::Model;

/// The most replicas of a partition.
const MOST: usize = 7;

/// A replica, and the tuple of its newest checkpoint.
pub type Answer = (NodeId, Tuple);

/// At most seven answers in the order in which they came. Contracts see the list of them.
#[derive(Drop)]
pub struct Answers {
    count: u8,
    list: [Answer; MOST],
}

impl Model for Answers {
    ghost use Rattle.std.specs.Prelude.{List, ℕ, ◌≤◌, ◌≡◌, take, length};
    ghost use Rattle.mrp_types.specs.declared.id.NodeId.{NodeId};
    ghost use Rattle.mrp_types.specs.declared.id.RingId.{RingId};

    ghost Value = { List (NodeId × List (RingId × ℕ)) };

    ghost view = { λ a. take a.count a.list };

    ghost invariant = { λ a. (a.count ≤ 7) × (length a.list ≡ 7) };
}

impl Answers {
    /// The first one.
    pub fn first(node: NodeId, tuple: Tuple) -> Self
        ensures { result ≡ (node, tuple) ∷ [] }
    {
        Answers {
            count: 1,
            list: [(node, tuple); MOST],
        }
    }

    /// Adds one at the end.
    pub fn push(&mut self, node: NodeId, tuple: Tuple)
        requires { length self.old < 7 }
        ensures { self.new ≡ self.old ++ (node, tuple) ∷ [] }
    {
        self.list[usize::from(self.count)] = (node, tuple);
        self.count += 1;
    }

    /// How many there are.
    pub fn len(&self) -> u8
        ensures { result ≡ length self.now }
    {
        self.count
    }

    /// The answers in order.
    pub fn items(&self) -> &[Answer]
        ensures { result.now ≡ self.now }
    {
        &self.list[..usize::from(self.count)]
    }
}

/// Whether a node has answered.
pub fn have(answers: &[Answer], node: NodeId) -> bool
    ensures { result ≡ has_answered node answers.now }
{
    for answer in answers {
        if answer.0.0 == node.0 {
            return true;
        }
    }
    false
}

/// The greatest answer: the own one where it is one of the greatest, else that of the least node.
pub fn best(own: NodeId, answers: &[Answer]) -> Answer
    requires { 1 ≤ length answers.now }
    ensures { best_answer own answers.now ≡ Some result }
{
    let mut best = answers[0];
    for i in 1..answers.len() {
        if is_better(own, &best, &answers[i]) {
            best = answers[i];
        }
    }
    best
}

/// Whether an answer is to be chosen before the best so far.
fn is_better(own: NodeId, best: &Answer, answer: &Answer) -> bool
    ensures { result ≡ is_better_lem own best.now answer.now }
{
    if is_same(&best.1, &answer.1) {
        best.0.0 != own.0 && (answer.0.0 == own.0 || answer.0.0 < best.0.0)
    } else {
        is_after(&best.1, &answer.1)
    }
}

/// Whether two tuples are one.
pub fn is_same(a: &Tuple, b: &Tuple) -> bool
    ensures { result ≡ is_same_tuple a.now b.now }
{
    are_same(a.pairs(), b.pairs())
}

/// Whether the second tuple is after the first one.
pub fn is_after(a: &Tuple, b: &Tuple) -> bool
    ensures { result ≡ is_after_lem a.now b.now }
{
    is_one_after(a.pairs(), b.pairs())
}

fn are_same(a: &[(RingId, Inst)], b: &[(RingId, Inst)]) -> bool
    ensures { result ≡ is_same_tuple a.now b.now }
{
    if a.len() != b.len() {
        return false;
    }
    for i in 0..a.len() {
        if a[i].0.0 != b[i].0.0 || a[i].1 != b[i].1 {
            return false;
        }
    }
    true
}

fn is_one_after(a: &[(RingId, Inst)], b: &[(RingId, Inst)]) -> bool
    ensures { result ≡ is_after_lem a.now b.now }
{
    for i in 0..a.len().min(b.len()) {
        if a[i].1 < b[i].1 {
            return true;
        }
    }
    false
}
