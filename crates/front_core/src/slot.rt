// What a frontend keeps of a connection.
ghost use Rattle.std.specs.Prelude.{◌≡◌, ◌+◌, ◌<◌, ◌^◌, length, IfOk};
ghost use Rattle.front_core.specs.Answered.{answer_comes, end_comes, ok_comes};
ghost use Rattle.front_core.specs.Begun.{IsBegun};
ghost use Rattle.front_core.specs.Ended.{ended, released, with_released};
ghost use Rattle.front_core.specs.Front.{bytes_at, bytes_taken};
ghost use Rattle.front_core.specs.Room.{commands_of};
ghost use Rattle.front_core.specs.Slots.{new_connection};
ghost use Rattle.front_core.specs.Stages.{awaits, has_asked, stage_has_ended};
ghost use Rattle.front_core.specs.Taken.{ways_by};

use crate::connection::{Connection, Stage};
use crate::desk::Desk;
use link_msg::{BackAnswer, Outs};
use mur_base::{AskId, Memory, NodeName};
use std::marker::Model;
use std::mem;

/// What is kept of a connection.
#[derive(Drop)]
enum Held {
    /// It has said nothing.
    Fresh,
    /// It has said something, and hasn't ended.
    Live(Box<Connection>),
    /// It has ended, behind so many answered commands.
    Over(u64),
}

/// A connection at its frontend, seen by contracts as the connection. Before its first byte and after its end it takes 16 bytes and
/// nothing on the heap.
#[derive(Drop)]
pub struct Slot {
    held: Held,
}

impl Model for Slot {
    ghost use Rattle.front_core.specs.declared.connection.Connection.{Connection};
    ghost use Rattle.mail_message.specs.contracts.key.Key as key;
    ghost use Rattle.std.specs.Coded.{codes};

    ghost Value = { Connection };

    ghost coded = { Prim.hlevel (codes, key.the_row.coded) };

    ghost use Rattle.front_core.specs.Slots.{connection_of, IsLive};

    ghost view = { λ slot. connection_of slot.held };

    ghost invariant = { λ slot. IsLive slot.held };
}

impl Slot {
    /// That of a client that connects. It takes no memory.
    pub fn new() -> Slot
        ensures { result ≡ new_connection }
    {
        Slot { held: Held::Fresh }
    }

    /// That of a connection behind what came to it: of one that has ended all else is let go.
    #[tactic(auto, unfolding(crate::specs::Ended::released_at, crate::specs::Stages::stage_has_ended))]
    fn of(connection: Box<Connection>) -> Slot
        requires begun { IsBegun connection.value }
        ensures { result ≡ released connection.value }
    {
        match connection.stage {
            Stage::Reading | Stage::Waits(_, _) | Stage::Lists(_, _) => Slot {
                held: Held::Live(connection),
            },
            Stage::Ended => Slot {
                held: Held::Over(connection.answered),
            },
        }
    }

    /// Takes each input that ends in a piece, up to one that ends the connection. The first byte of a client takes its connection to
    /// the heap. For want of memory the connection is spent.
    #[tactic(auto, unfolding(crate::specs::Front::bytes_at, crate::specs::Slots::new_connection, crate::specs::Stages::stage_has_ended))]
    pub fn bytes_in(&mut self, desk: Desk, piece: &[u8]) -> Result<Outs, Memory>
        requires room { commands_of self.old + length piece.now < 2 ^ 64 }
        ensures { IfOk result (λ outs. record { connection = self.new; outs = outs }
            ≡ bytes_at desk.entry.setting.now (ways_by desk.entry.replica.now.records desk.entry.master.now desk.entry.first.now desk.entry.ups.now)
            desk.entry.conn self.old piece.now (stage_has_ended self.old.stage)) }
    {
        match mem::replace(&mut self.held, Held::Over(0)) {
            Held::Fresh => {
                let connection = Box::new(desk.alloc, Connection::new(desk.alloc))?;
                self.goes_on(connection, desk, piece)
            }
            Held::Live(connection) => self.goes_on(connection, desk, piece),
            Held::Over(answered) => {
                self.held = Held::Over(answered);
                Ok(Outs::new(desk.alloc))
            }
        }
    }

    /// Bytes come to the connection that was kept here.
    fn goes_on(
        &mut self,
        connection: Box<Connection>,
        desk: Desk,
        piece: &[u8],
    ) -> Result<Outs, Memory>
        requires room { commands_of connection.value + length piece.now < 2 ^ 64 }
        requires begun { IsBegun connection.value }
        ensures { IfOk result (λ outs. record { connection = self.new; outs = outs }
            ≡ bytes_taken desk.entry.setting.now (ways_by desk.entry.replica.now.records desk.entry.master.now desk.entry.first.now desk.entry.ups.now)
            desk.entry.conn connection.value piece.now) }
    {
        let mut connection = connection;
        let mut outs = Outs::new(desk.alloc);
        connection.inputs_come(desk, piece, &mut outs)?;
        *self = Slot::of(connection);
        Ok(outs)
    }

    /// Whether a command waits for the answer of this node.
    #[tactic(auto, unfolding(crate::specs::Slots::new_connection, crate::specs::Stages::has_asked))]
    pub fn has_asked(&self, node: &NodeName) -> bool
        ensures { result ≡ has_asked self.now.stage node.now }
    {
        match &self.held {
            Held::Live(connection) => connection.has_asked(node),
            Held::Fresh | Held::Over(_) => false,
        }
    }

    /// Whether a command waits for something from this node.
    #[tactic(auto, unfolding(crate::specs::Slots::new_connection, crate::specs::Stages::awaits))]
    pub fn awaits(&self, master: &NodeName, node: &NodeName) -> bool
        ensures { result ≡ awaits master.now self.now.stage node.now }
    {
        match &self.held {
            Held::Live(connection) => connection.awaits(master, node),
            Held::Fresh | Held::Over(_) => false,
        }
    }

    /// Takes an answer, where it is one to the command that waits. For want of memory the connection is spent.
    #[tactic(auto, using(crate::proofs::SlotLaws::fresh_answer, crate::proofs::SlotLaws::over_answer))]
    pub fn answer_comes(&mut self, desk: Desk, answer: BackAnswer) -> Result<Outs, Memory>
        requires room { commands_of self.old < 2 ^ 64 }
        ensures { IfOk result (λ outs. record { connection = self.new; outs = outs }
            ≡ with_released (answer_comes desk.entry.setting.now (ways_by desk.entry.replica.now.records desk.entry.master.now desk.entry.first.now desk.entry.ups.now)
            desk.entry.conn self.old answer)) }
    {
        match mem::replace(&mut self.held, Held::Over(0)) {
            Held::Live(connection) => {
                let mut connection = connection;
                let outs = connection.answer_comes(desk, answer)?;
                *self = Slot::of(connection);
                Ok(outs)
            }
            Held::Fresh => {
                self.held = Held::Fresh;
                Ok(Outs::new(desk.alloc))
            }
            Held::Over(answered) => {
                self.held = Held::Over(answered);
                Ok(Outs::new(desk.alloc))
            }
        }
    }

    /// Takes the master's OK to a NOOP, where it is that of the command that waits. For want of memory the connection is spent.
    #[tactic(auto, using(crate::proofs::SlotLaws::fresh_ok, crate::proofs::SlotLaws::over_ok))]
    pub fn ok_comes(&mut self, desk: Desk, id: AskId) -> Result<Outs, Memory>
        requires room { commands_of self.old < 2 ^ 64 }
        ensures { IfOk result (λ outs. record { connection = self.new; outs = outs }
            ≡ with_released (ok_comes desk.entry.setting.now (ways_by desk.entry.replica.now.records desk.entry.master.now desk.entry.first.now desk.entry.ups.now)
            desk.entry.conn self.old id)) }
    {
        match mem::replace(&mut self.held, Held::Over(0)) {
            Held::Live(connection) => {
                let mut connection = connection;
                let outs = connection.ok_comes(desk, id)?;
                *self = Slot::of(connection);
                Ok(outs)
            }
            Held::Fresh => {
                self.held = Held::Fresh;
                Ok(Outs::new(desk.alloc))
            }
            Held::Over(answered) => {
                self.held = Held::Over(answered);
                Ok(Outs::new(desk.alloc))
            }
        }
    }

    /// The link ends to the node for which the command waits. For want of memory the connection is spent.
    #[tactic(auto, using(crate::proofs::SlotLaws::fresh_end, crate::proofs::SlotLaws::over_end))]
    pub fn end_comes(&mut self, desk: Desk) -> Result<Outs, Memory>
        requires room { commands_of self.old < 2 ^ 64 }
        ensures { IfOk result (λ outs. record { connection = self.new; outs = outs }
            ≡ with_released (end_comes desk.entry.setting.now (ways_by desk.entry.replica.now.records desk.entry.master.now desk.entry.first.now desk.entry.ups.now)
            desk.entry.conn self.old)) }
    {
        match mem::replace(&mut self.held, Held::Over(0)) {
            Held::Live(connection) => {
                let mut connection = connection;
                let outs = connection.end_comes(desk)?;
                *self = Slot::of(connection);
                Ok(outs)
            }
            Held::Fresh => {
                self.held = Held::Fresh;
                Ok(Outs::new(desk.alloc))
            }
            Held::Over(answered) => {
                self.held = Held::Over(answered);
                Ok(Outs::new(desk.alloc))
            }
        }
    }

    /// Ends the connection. It takes no memory, and what the connection held is let go.
    pub fn end(&mut self)
        ensures { self.new ≡ ended self.old.answered }
    {
        let answered = self.answered();
        *self = Slot {
            held: Held::Over(answered),
        };
    }

    /// How many commands were answered.
    #[tactic(auto, unfolding(crate::specs::Slots::new_connection))]
    fn answered(&self) -> u64
        ensures { result ≡ self.now.answered }
    {
        match &self.held {
            Held::Fresh => 0,
            Held::Live(connection) => connection.answered,
            Held::Over(answered) => *answered,
        }
    }
}
