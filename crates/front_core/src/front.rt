// A frontend, which speaks to mail clients and asks the homes of their mailboxes.
ghost use Rattle.std.specs.Prelude.{◌≡◌, ◌≢◌, nat_eq, length, IfOk};
ghost use Rattle.std.specs.Cmp.Lexicographic.{pointwise};
ghost use Rattle.std.specs.Option.{IfSome};
ghost use Rattle.ask_routes.specs.Barrier.{barrier_answered};
ghost use Rattle.front_core.specs.Front.{new_front, connect, connection_at, bytes_in, hang, hearing, deliver, noting, still, answer_at, answer_from};
ghost use Rattle.front_core.specs.Front.{line_by, line_from, ok_at, waits_for, WaitsForNone};
ghost use Rattle.front_core.specs.Room.{HasRoomAt, HasRoomFor};

use crate::desk::Desk;
use crate::replies::{given, greeting};
use crate::slot::Slot;
use crate::ups::Ups;
use ask_routes::barrier_answered;
use feed_core::Replica;
use link_msg::{BackAnswer, LinkMsg, Outs};
use mur_base::{AskId, Bytes, Map, Memory, NodeName};
use mur_model::Setting;
use std::alloc::Global;

/// A frontend: its connections by their numbers, and its replica of the master's table.
#[derive(Drop)]
pub struct Front {
    /// The name of this node.
    pub me: NodeName,
    /// The server of a new mailbox without a name above it.
    pub first: NodeName,
    /// The master.
    pub master: NodeName,
    /// What the master told of its table since the link to it came up.
    pub replica: Replica,
    /// The nodes to which its link is up.
    pub ups: Ups,
    /// The users, and the date of a message that comes without one.
    pub setting: Setting,
    pub connections: Map<u64, Slot>,
}

impl Front {
    /// A frontend without a connection. It takes no memory.
    #[tactic(auto, unfolding(crate::specs::Front::new_front))]
    pub fn new(
        me: NodeName,
        first: NodeName,
        master: NodeName,
        setting: Setting,
        alloc: Global,
    ) -> Front
        ensures { result ≡ new_front me first master setting }
    {
        Front {
            me,
            first,
            master,
            replica: Replica::new(alloc),
            ups: Ups::new(alloc),
            setting,
            connections: Map::new(alloc),
        }
    }

    /// A client connects, and is given the greeting (RFC 9051, 7.1.1). For want of memory the frontend is spent.
    #[tactic(auto, using(std::proofs::lemmas::Grind::common_steps), unfolding(crate::specs::Front::connect, crate::specs::Front::connect_at))]
    pub fn connect(&mut self, alloc: Global, conn: u64) -> Result<Outs, Memory>
        ensures { IfOk result (λ outs. record { front = self.new; outs = outs } ≡ connect self.old conn) }
    {
        if self.connections.contains_key(&conn) {
            return Ok(Outs::new(alloc));
        }
        self.connections.insert(conn, Slot::new())?;
        given(alloc, conn, greeting(alloc)?)
    }

    /// Bytes of a client come. For want of memory the frontend is spent.
    #[tactic(auto, unfolding(crate::specs::Front::bytes_in, crate::specs::Front::front_bytes_at))]
    pub fn bytes_in(&mut self, alloc: Global, conn: u64, piece: &[u8]) -> Result<Outs, Memory>
        requires room { HasRoomAt self.old conn (length piece.now) }
        ensures { IfOk result (λ outs. record { front = self.new; outs = outs } ≡ bytes_in self.old conn piece.now) }
    {
        let Some(slot) = self.connections.get_mut(&conn) else {
            return Ok(Outs::new(alloc));
        };
        let desk = Desk {
            alloc,
            setting: &self.setting,
            replica: &self.replica,
            master: &self.master,
            first: &self.first,
            ups: &self.ups,
            conn,
        };
        let outs = slot.bytes_in(desk, piece)?;
        Ok(outs)
    }

    /// The client of a connection closes it. It takes no memory, and what the connection held is let go.
    #[tactic(auto, unfolding(crate::specs::Front::hang, crate::specs::Front::front_hang_at))]
    pub fn hang(&mut self, conn: u64)
        ensures { self.new ≡ hang self.old conn }
    {
        if let Some(slot) = self.connections.get_mut(&conn) {
            slot.end();
        }
    }

    /// A message of a node comes on a link: an answer counts only from the node that was asked, and a line only from the master: it is the OK
    /// to the NOOP of a command, or tells of the table, for which the frontend asks as soon as its link comes up (RFC 3656, 4.11). Where a link
    /// ends, commands that wait for something from its node are refused or lost. For want of memory the frontend is spent.
    #[tactic(auto, unfolding(crate::specs::Front::deliver, crate::specs::Room::HasRoomFor), using(crate::proofs::StrangerLaw::strangers))]
    pub fn deliver(
        &mut self,
        alloc: Global,
        from: &NodeName,
        message: LinkMsg,
    ) -> Result<Outs, Memory>
        requires room { HasRoomFor self.old message }
        ensures step { IfOk result (λ outs. record { front = self.new; outs = outs } ≡ deliver self.old from.now message) }
        ensures stranger { WaitsForNone self.old from.now → from.now ≢ self.old.master
            → IfOk result (λ outs. record { front = self.new; outs = outs } ≡ still (noting self.old from.now message)) }
    {
        match message {
            LinkMsg::Answer(answer) => self.answer_from(alloc, from, answer),
            LinkMsg::Up => self.comes_up(alloc, from),
            LinkMsg::End => self.goes_down(alloc, from),
            LinkMsg::Line(line) => self.line_from(alloc, from, line),
            LinkMsg::Ask(_) => Ok(Outs::new(alloc)),
        }
    }

    #[tactic(auto, unfolding(crate::specs::Front::line_from))]
    fn line_from(&mut self, alloc: Global, from: &NodeName, line: Bytes) -> Result<Outs, Memory>
        requires room { IfSome (barrier_answered line) (λ id. HasRoomAt self.old id.conn 0) }
        ensures { IfOk result (λ outs. record { front = self.new; outs = outs }
            ≡ line_from (pointwise nat_eq from.now self.old.master) self.old line) }
    {
        if *from == self.master {
            self.line(alloc, line)
        } else {
            Ok(Outs::new(alloc))
        }
    }

    // A line of the master.
    fn line(&mut self, alloc: Global, line: Bytes) -> Result<Outs, Memory>
        requires room { IfSome (barrier_answered line) (λ id. HasRoomAt self.old id.conn 0) }
        ensures { IfOk result (λ outs. record { front = self.new; outs = outs } ≡ line_by self.old line (barrier_answered line)) }
    {
        match barrier_answered(alloc, line.as_slice())? {
            Some(id) => self.ok(alloc, id),
            None => self.hears(alloc, line),
        }
    }

    fn hears(&mut self, alloc: Global, line: Bytes) -> Result<Outs, Memory>
        ensures { IfOk result (λ outs. record { front = self.new; outs = outs } ≡ still (hearing self.old line)) }
    {
        self.replica.hear(alloc, line.as_slice())?;
        Ok(Outs::new(alloc))
    }

    // The master's OK to the NOOP of a command.
    #[tactic(auto, unfolding(crate::specs::Front::ok_at))]
    fn ok(&mut self, alloc: Global, id: AskId) -> Result<Outs, Memory>
        requires room { HasRoomAt self.old id.conn 0 }
        ensures { IfOk result (λ outs. record { front = self.new; outs = outs } ≡ ok_at self.old id (connection_at self.old id.conn)) }
    {
        match self.connections.get_mut(&id.conn) {
            Some(slot) => {
                let desk = Desk {
                    alloc,
                    setting: &self.setting,
                    replica: &self.replica,
                    master: &self.master,
                    first: &self.first,
                    ups: &self.ups,
                    conn: id.conn,
                };
                let outs = slot.ok_comes(desk, id)?;
                Ok(outs)
            }
            None => Ok(Outs::new(alloc)),
        }
    }

    /// Whether a command of a connection waits for the answer of this node.
    #[tactic(auto, unfolding(crate::specs::Front::waits_for))]
    fn waits_for(&self, conn: u64, node: &NodeName) -> bool
        ensures { result ≡ waits_for (connection_at self.now conn) node.now }
    {
        match self.connections.get(&conn) {
            Some(slot) => slot.has_asked(node),
            None => false,
        }
    }

    #[tactic(auto, unfolding(crate::specs::Front::answer_from))]
    fn answer_from(
        &mut self,
        alloc: Global,
        from: &NodeName,
        answer: BackAnswer,
    ) -> Result<Outs, Memory>
        requires room { HasRoomAt self.old (answer.id).conn 0 }
        ensures { IfOk result (λ outs. record { front = self.new; outs = outs }
            ≡ answer_from (waits_for (connection_at self.old (answer.id).conn) from.now) self.old answer) }
    {
        if self.waits_for(answer.id.conn, from) {
            self.answer(alloc, answer)
        } else {
            Ok(Outs::new(alloc))
        }
    }

    #[tactic(auto, unfolding(crate::specs::Front::answer_at))]
    fn answer(&mut self, alloc: Global, answer: BackAnswer) -> Result<Outs, Memory>
        requires room { HasRoomAt self.old (answer.id).conn 0 }
        ensures { IfOk result (λ outs. record { front = self.new; outs = outs }
            ≡ answer_at self.old answer (connection_at self.old (answer.id).conn)) }
    {
        let conn = answer.id.conn;
        match self.connections.get_mut(&conn) {
            Some(slot) => {
                let desk = Desk {
                    alloc,
                    setting: &self.setting,
                    replica: &self.replica,
                    master: &self.master,
                    first: &self.first,
                    ups: &self.ups,
                    conn,
                };
                let outs = slot.answer_comes(desk, answer)?;
                Ok(outs)
            }
            None => Ok(Outs::new(alloc)),
        }
    }
}
