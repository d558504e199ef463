// Connections from outside.
ghost use Rattle.std.specs.Prelude.{◌≡◌, ◌++◌, ℕ, List, IfOk, OnOk};
ghost use Rattle.master_core.specs.Cutting.{cut_from};
ghost use Rattle.master_core.specs.Outside.{outside_at, takes_bytes_at, IsCutAt, connect, is_open, line_comes, lines_come, bytes_in};

use crate::greeting::greeting;
use crate::intake::Intake;
use crate::master::Master;
use crate::sender::Sender;
use link_msg::{Out, Outs};
use mur_base::{Bytes, Items, Memory};
use std::alloc::Global;

/// A connection from outside.
#[derive(Drop)]
pub enum Outside {
    /// It is open, and this much of a line has come.
    Open(Intake),
    /// It has ended.
    Ended,
}

impl Outside {
    /// Cuts more bytes, where it is open, and puts the lines that end in them after others.
    fn cut(&mut self, alloc: Global, piece: &[u8], lines: &mut Items<Bytes>) -> Result<(), Memory>
        ensures lines { OnOk result ((begun : List ℕ) → self.old ≡ Outside.Open (Some begun) → lines.new ≡ lines.old ++ (cut_from begun piece.now).lines) }
        ensures begun { OnOk result ((begun : List ℕ) → self.old ≡ Outside.Open (Some begun) → self.new ≡ Outside.Open (Some (cut_from begun piece.now).begun)) }
    {
        if let Outside::Open(intake) = self {
            intake.cut(alloc, piece, lines)?;
        }
        Ok(())
    }
}

impl Master {
    /// Someone from outside connects, and is given the greeting. For want of memory the master is spent.
    #[tactic(auto, unfolding(crate::specs::Outside::connect, crate::specs::Outside::connect_at))]
    pub fn connect(&mut self, alloc: Global, conn: u64) -> Result<Outs, Memory>
        ensures { IfOk result (λ outs. record { master = self.new; outs = outs } ≡ connect self.old conn) }
    {
        let mut outs = Outs::new(alloc);
        if self.outside.contains_key(&conn) {
            return Ok(outs);
        }
        self.outside.insert(conn, Outside::Open(Intake::new()))?;
        outs.push(Out::Client(conn, greeting(alloc, &self.me)?))?;
        Ok(outs)
    }

    /// Whether a connection is there and has not ended.
    fn is_open(&self, conn: u64) -> bool
        ensures { result ≡ is_open self.now conn }
    {
        matches!(self.outside.get(&conn), Some(Outside::Open(_)))
    }

    /// A line of a connection, unless it has ended by then.
    #[tactic(auto, unfolding(crate::specs::Outside::line_comes))]
    fn line_from(
        &mut self,
        alloc: Global,
        conn: u64,
        line: &[u8],
        outs: &mut Outs,
    ) -> Result<(), Memory>
        ensures { OnOk result (record { master = self.new; outs = outs.new }
            ≡ line_comes conn (record { master = self.old; outs = outs.old }) line.now) }
    {
        if self.is_open(conn) {
            self.line_comes(alloc, &Sender::Outside(conn), line, outs)?;
        }
        Ok(())
    }

    #[tactic(auto, unfolding(crate::specs::Outside::lines_come))]
    fn lines_from(&mut self, alloc: Global, conn: u64, lines: &[Bytes]) -> Result<Outs, Memory>
        ensures { IfOk result (λ outs. record { master = self.new; outs = outs } ≡ lines_come self.old conn lines.now) }
    {
        let mut outs = Outs::new(alloc);
        for line in lines {
            self.line_from(alloc, conn, line.as_slice(), &mut outs)?;
        }
        Ok(outs)
    }

    /// Whether a connection takes bytes.
    fn takes_bytes(&self, conn: u64) -> bool
        ensures { result ≡ takes_bytes_at (outside_at self.now conn) }
    {
        match self.outside.get(&conn) {
            Some(Outside::Open(intake)) => !intake.spent(),
            _ => false,
        }
    }

    /// Cuts more bytes of a connection that takes them, and gives the lines that end in them.
    fn cut(&mut self, alloc: Global, conn: u64, piece: &[u8]) -> Result<Items<Bytes>, Memory>
        ensures { IfOk result (λ lines. (begun : List ℕ) → outside_at self.old conn ≡ Some (Outside.Open (Some begun))
            → IsCutAt self.old self.new conn lines (cut_from begun piece.now)) }
    {
        let mut lines = Items::new(alloc);
        if let Some(connection) = self.outside.get_mut(&conn) {
            connection.cut(alloc, piece, &mut lines)?;
        }
        Ok(lines)
    }

    /// Bytes of an outside connection come: each line that ends in them is answered. They change no record. For want of memory the
    /// master is spent.
    #[tactic(auto, unfolding(crate::specs::Outside::bytes_in, crate::specs::Outside::bytes_at))]
    pub fn bytes_in(&mut self, alloc: Global, conn: u64, piece: &[u8]) -> Result<Outs, Memory>
        ensures { IfOk result (λ outs. record { master = self.new; outs = outs } ≡ bytes_in self.old conn piece.now) }
    {
        if !self.takes_bytes(conn) {
            return Ok(Outs::new(alloc));
        }
        let lines = self.cut(alloc, conn, piece)?;
        self.lines_from(alloc, conn, lines.as_slice())
    }
}
