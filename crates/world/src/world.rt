//! The system of one ring: its acceptors are the replicas of the one partition.

ghost use Rattle.std.specs.Prelude.{◌≡◌, ◌<◌, ◌≤◌, ◌^◌, ◌++◌, ◌+◌, length, IfSome, IfNone, OnOk, IfOk, slice_get};
ghost use Rattle.std.specs.Option.{option_map};
ghost use Rattle.mrp_types.specs.Entries.{IsEntry};
ghost use Rattle.command_codec.specs.Valid.{IsCommand};
ghost use Rattle.command_codec.specs.Parts.{IsSpelled};
ghost use Rattle.frames.specs.Valid.{IsFrame};
ghost use Rattle.world.specs.Ring.{IsRing, IsSeat, acceptor_at as acceptor_of, successor as next_acceptor, seat_at as seat_of};
ghost use Rattle.mrp_types.specs.declared.id.Party.TheVariants.{Node};
ghost use Rattle.mrp_types.specs.declared.id.TheConstants.{END};
ghost use Rattle.transcript.specs.declared.line.Line.TheVariants.{Frame as ShowsFrame};

use crate::learner::Learned;
use crate::request::Request;
use crate::seat::Seat;
use command_codec::{Command, write_batch, write_command};
use frames::{Body, Frame, Frames, Sent};
use mrp_config::RingTable;
use mrp_types::{
    Ballot, ClientId, END, Entry, Inst, Memory, NodeId, Octets, Party, Value, majority,
};
use schedule::ScheduleEvent;
use std::alloc::Global;
use std::collections::BTreeMap;
use std::marker::Model;
use transcript::{Line, Lines, ShownFrame};

// A client's numbers are below this.
const NUMBERS: u64 = 1 << 63;

/// The state of the whole system.
#[derive(Drop)]
pub struct World {
    alloc: Global,
    ring: RingTable,
    frames: Frames,
    cursor: usize,
    asked: BTreeMap<ClientId, u64>,
    proposed: BTreeMap<Request, Inst>,
    next: Inst,
    learners: Vec<Learned>,
}

impl Model for World {
    ghost use Rattle.world.specs.System.{World, IsSent};
    ghost use Rattle.world.specs.Ring.{IsRing};

    ghost Value = { World };

    ghost use Rattle.std.specs.Prelude.{◌≡◌, length};
    ghost use Rattle.std.specs.List.{AllByRecursion};

    ghost view = { λ w. record { ring = w.ring; frames = w.frames; cursor = w.cursor; asked = w.asked.entries; proposed = w.proposed.entries; next = w.next; learners = w.learners.items } };

    ghost invariant = { λ w. IsRing w.ring × (length w.learners.items ≡ length w.ring.acceptors) × AllByRecursion IsSent w.frames };
}

impl World {
    ghost use Rattle.world.specs.System.{start, asks, submits, submits_at, learns, accepts, passes, votes, handles_at, delivers, flows, loses, shows, happens, sends, passes_on, shown_of, MayHappen};

    /// Nothing has happened yet.
    pub fn start(alloc: Global, ring: RingTable) -> Result<World, Memory>
        requires { IsRing ring }
        ensures { IfOk result (λ world. world ≡ start ring) }
    {
        let mut learners = Vec::new(alloc);
        for _turn in 0..ring.acceptors.len() {
            learners.push(Learned::new(alloc))?;
        }
        Ok(World {
            alloc,
            ring,
            frames: Frames::new(alloc),
            cursor: 0,
            asked: BTreeMap::new(alloc),
            proposed: BTreeMap::new(alloc),
            next: 0,
            learners,
        })
    }

    // One more frame is sent.
    fn send(&mut self, from: Party, to: Party, body: Body) -> Result<(), Memory>
        requires { IsFrame (record { from = from; body = body }) }
        ensures { OnOk result (self.new ≡ sends self.old from to body) }
    {
        let frame = Frame { from, body };
        self.frames.push(Sent { to, frame })
    }

    // An acceptor sends a frame to the next one.
    fn pass_on(&mut self, seat: Seat, body: Body) -> Result<(), Memory>
        requires seat { IsSeat seat self.old.ring }
        requires frame { IsFrame (record { from = Node seat.node; body = body }) }
        ensures { OnOk result (self.new ≡ passes_on self.old seat body) }
    {
        let to = successor(&self.ring, seat);
        self.send(Party::Node(seat.node), Party::Node(to), body)
    }

    // A client asks a command.
    fn ask(&mut self, client: ClientId, command: &Command) -> Result<(), Memory>
        requires { IsCommand command.now }
        ensures { OnOk result (self.new ≡ asks self.old client command.now) }
    {
        let asked = self.asked.get(&client).copied().unwrap_or(0);
        let seq = asked.saturating_add(1);
        if seq >= NUMBERS {
            return Ok(());
        }
        let command = write_command(self.alloc, command)?;
        self.asked.insert(client, seq)?;
        let ring = self.ring.id;
        let to = acceptor_at(&self.ring, 0);
        let body = Body::Submit {
            ring,
            hops: 0,
            client,
            seq,
            command,
        };
        self.send(Party::Client(client), Party::Node(to), body)
    }

    // The coordinator proposes what it hasn't proposed before.
    fn submit(&mut self, seat: Seat, entry: &Entry, lines: &mut Lines) -> Result<(), Memory>
        requires seat { IsSeat seat self.old.ring }
        requires entry { IsEntry entry.now }
        ensures world { OnOk result (self.new ≡ (submits_at self.old seat entry.now).world) }
        ensures lines { OnOk result (lines.new ≡ lines.old ++ (submits_at self.old seat entry.now).lines) }
    {
        if seat.position != 0 {
            return Ok(());
        }
        let request = Request {
            client: entry.client,
            seq: entry.seq,
        };
        if self.proposed.contains_key(&request) || self.next >= END {
            return Ok(());
        }
        let inst = self.next;
        let value = Value::Batch(write_batch(self.alloc, std::slice::from_ref(entry))?);
        self.proposed.insert(request, inst)?;
        self.next += 1;
        self.vote(seat, inst, 1, value, lines)
    }

    // An acceptor learns a value.
    fn learn(
        &mut self,
        seat: Seat,
        inst: Inst,
        value: &Value,
        lines: &mut Lines,
    ) -> Result<(), Memory>
        requires seat { IsSeat seat self.old.ring }
        requires inst { inst < END }
        ensures world { OnOk result (self.new ≡ (learns self.old seat inst value.now).world) }
        ensures lines { OnOk result (lines.new ≡ lines.old ++ (learns self.old seat inst value.now).lines) }
    {
        let ring = self.ring.id;
        let learner = &mut self.learners[usize::from(seat.position)];
        learner.learn(ring, seat.node, inst, value, lines)
    }

    // An acceptor votes where it hasn't voted before.
    fn accept(
        &mut self,
        seat: Seat,
        inst: Inst,
        mask: u8,
        value: Value,
        lines: &mut Lines,
    ) -> Result<(), Memory>
        requires seat { IsSeat seat self.old.ring }
        requires inst { inst < END }
        requires value { IsSpelled value }
        ensures world { OnOk result (self.new ≡ (accepts self.old seat inst mask value).world) }
        ensures lines { OnOk result (lines.new ≡ lines.old ++ (accepts self.old seat inst mask value).lines) }
    {
        let bit = bit_of(seat);
        if mask & bit != 0 {
            return Ok(());
        }
        self.vote(seat, inst, mask | bit, value, lines)
    }

    // An acceptor that voted passes the proposal on, or learns what a majority voted for.
    fn vote(
        &mut self,
        seat: Seat,
        inst: Inst,
        mask: u8,
        value: Value,
        lines: &mut Lines,
    ) -> Result<(), Memory>
        requires seat { IsSeat seat self.old.ring }
        requires inst { inst < END }
        requires value { IsSpelled value }
        ensures world { OnOk result (self.new ≡ (votes self.old seat inst mask value).world) }
        ensures lines { OnOk result (lines.new ≡ lines.old ++ (votes self.old seat inst mask value).lines) }
    {
        let ring = self.ring.id;
        let n = self.ring.acceptors.len();
        let (lo, hi) = (inst, inst + 1);
        if mask.count_ones() < u32::from(majority(n)) {
            let body = Body::Accept {
                ring,
                ballot: Ballot::from(n),
                lo,
                hi,
                mask,
                value,
            };
            return self.pass_on(seat, body);
        }
        self.learn(seat, inst, &value, lines)?;
        if n < 2 {
            return Ok(());
        }
        let body = Body::Decide {
            ring,
            lo,
            hi,
            left: n - 2,
            value,
        };
        self.pass_on(seat, body)
    }

    // An acceptor learns a decision, and passes it on while it has to go further.
    fn decide(
        &mut self,
        seat: Seat,
        inst: Inst,
        left: u8,
        value: Value,
        lines: &mut Lines,
    ) -> Result<(), Memory>
        requires seat { IsSeat seat self.old.ring }
        requires inst { inst < END }
        requires value { IsSpelled value }
        ensures world { OnOk result (self.new ≡ (passes (learns self.old seat inst value) seat inst left value).world) }
        ensures lines { OnOk result (lines.new ≡ lines.old ++ (passes (learns self.old seat inst value) seat inst left value).lines) }
    {
        self.learn(seat, inst, &value, lines)?;
        if left == 0 {
            return Ok(());
        }
        let body = Body::Decide {
            ring: self.ring.id,
            lo: inst,
            hi: inst + 1,
            left: left - 1,
            value,
        };
        self.pass_on(seat, body)
    }

    // The frame of this number comes to its acceptor, where there is one.
    fn deliver(&mut self, number: usize, lines: &mut Lines) -> Result<(), Memory>
        ensures world { OnOk result (self.new ≡ (delivers self.old (slice_get self.old.frames number)).world) }
        ensures lines { OnOk result (lines.new ≡ lines.old ++ (delivers self.old (slice_get self.old.frames number)).lines) }
    {
        let Some(sent) = self.frames.items().get(number) else {
            return Ok(());
        };
        let Some(seat) = seat_at(&self.ring, sent.to) else {
            return Ok(());
        };
        match &sent.frame.body {
            Body::Submit {
                client,
                seq,
                command,
                ..
            } => {
                let command = Octets::from_slice(self.alloc, command.bytes())?;
                let entry = Entry {
                    client: *client,
                    seq: *seq,
                    command,
                };
                self.submit(seat, &entry, lines)
            }
            Body::Accept {
                lo,
                mask,
                value,
                ..
            } => {
                let (lo, mask, value) = (*lo, *mask, value.share()?);
                self.accept(seat, lo, mask, value, lines)
            }
            Body::Decide {
                lo,
                left,
                value,
                ..
            } => {
                let (lo, left, value) = (*lo, *left, value.share()?);
                self.decide(seat, lo, left, value, lines)
            }
            _ => Ok(()),
        }
    }

    // The frames from the cursor on are delivered, up to so many.
    fn flow(&mut self, count: u32, lines: &mut Lines) -> Result<(), Memory>
        ensures world { OnOk result (self.new ≡ (flows count self.old).world) }
        ensures lines { OnOk result (lines.new ≡ lines.old ++ (flows count self.old).lines) }
    {
        for _turn in 0..count {
            let Some(number) = self.next_frame() else {
                return Ok(());
            };
            self.deliver(number, lines)?;
        }
        Ok(())
    }

    // The number of the frame at the cursor, which moves on, where there is one.
    fn next_frame(&mut self) -> Option<usize>
        ensures number { result ≡ option_map (λ _. self.old.cursor) (slice_get self.old.frames self.old.cursor) }
        ensures moved { IfSome result (λ _. self.new ≡ record self.old { cursor = self.old.cursor + 1 }) }
        ensures stays { IfNone result (self.new ≡ self.old) }
    {
        let number = self.cursor;
        if number >= self.frames.items().len() {
            return None;
        }
        self.cursor += 1;
        Some(number)
    }

    // The cursor passes up to so many frames.
    fn lose(&mut self, count: u32)
        ensures { self.new ≡ loses self.old count }
    {
        let passed = self.cursor.saturating_add(count as usize);
        self.cursor = passed.min(self.frames.items().len());
    }

    // The line that shows the frame of this number, or that there is none.
    fn shown(&self, number: u64) -> Result<Line, Memory>
        ensures { IfOk result (λ line. line ≡ ShowsFrame number (option_map shown_of (slice_get self.now.frames number))) }
    {
        let Some(sent) = self.frames.items().get(number as usize) else {
            return Ok(Line::Frame {
                number,
                shown: None,
            });
        };
        let shown = ShownFrame {
            from: sent.frame.from,
            to: sent.to,
            bytes: frames::write(self.alloc, &sent.frame)?,
        };
        Ok(Line::Frame {
            number,
            shown: Some(shown),
        })
    }

    /// One event happens; the lines that it prints. Nothing happens at an event for which the step isn't built. After a refusal the world is spent: nothing is said of it.
    pub fn event(&mut self, event: &ScheduleEvent) -> Result<Lines, Memory>
        requires { MayHappen event.now }
        ensures world { OnOk result (self.new ≡ (happens self.old event.now).world) }
        ensures lines { IfOk result (λ lines. lines ≡ (happens self.old event.now).lines) }
    {
        let mut lines = Lines::new(self.alloc);
        match event {
            ScheduleEvent::Ask { client, command } => self.ask(*client, command)?,
            ScheduleEvent::Flow { count } => self.flow(*count, &mut lines)?,
            ScheduleEvent::Lose { count } => self.lose(*count),
            ScheduleEvent::Deliver { frame } => self.deliver(*frame as usize, &mut lines)?,
            ScheduleEvent::List { frame } => lines.push(self.shown(*frame)?)?,
            _ => (),
        }
        Ok(lines)
    }
}

// The acceptor at a position.
fn acceptor_at(ring: &RingTable, position: u8) -> NodeId
    requires { position < length ring.now.acceptors }
    ensures { result ≡ acceptor_of ring.now position }
{
    ring.acceptors.items()[usize::from(position)]
}

// The next acceptor round the ring.
fn successor(ring: &RingTable, seat: Seat) -> NodeId
    requires ring { IsRing ring.now }
    requires seat { IsSeat seat ring.now }
    ensures { result ≡ next_acceptor ring.now seat }
{
    acceptor_at(ring, (seat.position + 1) % ring.acceptors.len())
}

// Where a party sits, if it is an acceptor.
fn seat_at(ring: &RingTable, party: Party) -> Option<Seat>
    requires { IsRing ring.now }
    ensures seat { result ≡ seat_of ring.now party }
    ensures sits { IfSome result (λ seat. IsSeat seat ring.now) }
{
    let Party::Node(node) = party else {
        return None;
    };
    let position = ring.acceptors.position(node)?;
    Some(Seat { node, position })
}

// The bit of a position in a mask.
fn bit_of(seat: Seat) -> u8
    requires { seat.position < 7 }
    ensures { result ≡ 2 ^ seat.position }
{
    1 << seat.position
}
