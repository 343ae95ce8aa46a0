//! The client: what it makes of what it is told to ask, of a tick, and of a reply.

ghost use Rattle.std.specs.Prelude.{◌≡◌, ◌≤◌, ◌^◌, [], ◌∷◌, length, None, IfOk, IfErr, OnErr, MatchResult};
ghost use Rattle.command_codec.specs.Valid.{IsCommand};
ghost use Rattle.mrp_config.specs.Valid.{IsValid};
ghost use Rattle.protocol.specs.Client.{asked_first, client_from, asks, client_ticks, replied, missing as missing_lem};
ghost use Rattle.client_core.specs.Calls.{Follows, TellsFault, sent_of, sent_in, answer_in, cause_told, busy_in};
ghost use Rattle.client_core.specs.Clients.{Core, cause_of, fault_of};
ghost use Rattle.client_core.specs.Cores.{asked_of};
ghost use Rattle.client_core.specs.Missing.{bits_of};

use crate::asking::{Answer, AskFault, ReplyFault, Submit};
use crate::copies::copy_command;
use crate::missing::bits_missing;
use crate::parts::Parts;
use crate::waiting::{Waiting, next_turn};
use command_codec::Command;
use mrp_config::Deployment;
use mrp_types::{ClientId, Entry, Memory, PartitionId, RingId};
use std::alloc::Global;
use std::marker::Model;

/// A client of a deployment. It has one command at a time without an answer, under a number of its own, and sends it to
/// one acceptor of its ring after another until all concerned partitions have replied.
#[derive(Drop)]
pub struct ClientCore {
    alloc: Global,
    deployment: Deployment,
    id: ClientId,
    next: u64,
    waiting: Option<Waiting>,
}

impl Model for ClientCore {
    ghost use Rattle.client_core.specs.Clients.{Core};
    ghost use Rattle.client_core.specs.Cores.{core_of, IsCore};

    ghost Value = { Core };

    ghost view = { λ c. core_of c.deployment c.id c.next c.waiting };

    ghost invariant = { λ c. IsCore (core_of c.deployment c.id c.next c.waiting) };
}

impl ClientCore {
    /// A client whose first command takes the number `seq`.
    pub fn new(alloc: Global, deployment: Deployment, id: ClientId, seq: u64) -> Self
        requires first { 1 ≤ seq }
        requires last { seq ≤ 2 ^ 63 }
        ensures { result ≡ record { config = deployment; client = client_from id seq } }
    {
        each_is_valid(&deployment);
        ClientCore {
            alloc,
            deployment,
            id,
            next: seq,
            waiting: None,
        }
    }

    /// Asks a command, which is to be sent. A refusal names the first cause that there is, and changes nothing.
    pub fn ask(&mut self, command: &Command) -> Result<Submit, AskFault>
        requires { IsCommand command.now }
        ensures asked { IfOk result (λ submit. Follows self.old self.new (λ config c. asks config c command.now) (sent_of submit ∷ []) []) }
        ensures refused { IfErr result (λ fault. self.new ≡ self.old) }
        ensures cause { MatchResult result (λ _. cause_of self.old command.now ≡ None) (λ fault. cause_of self.old command.now ≡ cause_told fault) }
    {
        if let Some(waiting) = &self.waiting {
            return Err(AskFault::Busy(waiting.seq));
        }
        let Ok(ring) = self.deployment.route(command) else {
            return Err(AskFault::NoGroup);
        };
        if self.next > Entry::LAST_SEQ {
            return Err(AskFault::SeqLimit);
        }
        let waiting = begin(self.alloc, self.next, command, ring)?;
        let submit = waiting.submit(self.alloc, &self.deployment, self.id, 0)?;
        self.next += 1;
        self.waiting = Some(waiting);
        Ok(submit)
    }

    /// A tick of the client's clock: at each resend-th one since a command was asked it is to be sent again, to the next
    /// acceptor. Without memory it is the tick before that comes again.
    pub fn on_tick(&mut self) -> Result<Option<Submit>, Memory>
        ensures ticked { IfOk result (λ submit. Follows self.old self.new client_ticks (sent_in submit) []) }
        ensures kept { OnErr result (self.new ≡ self.old) }
    {
        let Some(waiting) = &mut self.waiting else {
            return Ok(None);
        };
        if waiting.ticks + 1 < self.deployment.resend() {
            waiting.ticks += 1;
            return Ok(None);
        }
        let turn = next_turn(&self.deployment, waiting.ring, waiting.turn);
        let submit = waiting.submit(self.alloc, &self.deployment, self.id, turn)?;
        waiting.ticks = 0;
        waiting.turn = turn;
        Ok(Some(submit))
    }

    /// A reply of a partition to the command of a number: the answer, once all concerned partitions have replied. A reply
    /// that isn't waited for or doesn't fit is dropped; a refusal changes nothing.
    pub fn on_reply(
        &mut self,
        seq: u64,
        partition: PartitionId,
        reply: &[u8],
    ) -> Result<Option<Answer>, ReplyFault>
        requires { length reply.now ≤ 16384 }
        ensures replied { IfOk result (λ answer. Follows self.old self.new (λ config c. replied config c seq partition reply.now) [] (answer_in self.old.client.id answer)) }
        ensures kept { OnErr result (self.new ≡ self.old) }
        ensures fault { MatchResult result (λ _. fault_of self.old seq partition reply.now ≡ None) (λ fault. TellsFault fault (fault_of self.old seq partition reply.now)) }
    {
        let Some(mut waiting) = self.waiting.take() else {
            return Ok(None);
        };
        match waiting.reply(self.alloc, &self.deployment, seq, partition, reply) {
            Ok(Some(reply)) => Ok(Some(Answer { seq, reply })),
            Ok(None) => {
                self.waiting = Some(waiting);
                Ok(None)
            }
            Err(fault) => {
                self.waiting = Some(waiting);
                Err(fault)
            }
        }
    }

    /// A bit for each partition whose reply is missing, by its number; none where nothing is outstanding.
    pub fn missing(&self) -> u16
        ensures { result ≡ bits_of (missing_lem self.now.config self.now.client) }
    {
        let Some(waiting) = &self.waiting else {
            return 0;
        };
        bits_missing(&self.deployment, &waiting.command, &waiting.parts)
    }
}

/// Each deployment is valid.
fn each_is_valid(deployment: &Deployment)
    ensures { IsValid deployment.now }
{
    deployment.partitions();
}

/// A command that was just asked.
fn begin(alloc: Global, seq: u64, command: &Command, ring: RingId) -> Result<Waiting, Memory>
    ensures { IfOk result (λ waiting. asked_of waiting ≡ asked_first seq command.now ring) }
{
    let command = copy_command(alloc, command)?;
    Ok(Waiting {
        seq,
        command,
        ring,
        ticks: 0,
        turn: 0,
        parts: Parts::new(alloc),
    })
}
