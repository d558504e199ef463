// The line that has begun on a connection from outside.
ghost use Rattle.std.specs.Prelude.{◌≡◌, ◌++◌, [], OnOk, IfSome, Some, is_none};
ghost use Rattle.master_core.specs.Cutting.{cut_from};

use crate::cutting::cut_piece;
use mupdate_codec::Cutter;
use mur_base::{Bytes, Items, Memory};
use std::alloc::Global;
use std::marker::Model;
use std::mem;

/// What is kept of a line.
#[derive(Drop)]
enum Held {
    /// No byte has come on the connection.
    Fresh,
    /// Some have.
    Live(Box<Cutter>),
}

/// The cutter of an outside connection, seen by contracts as the cutter. Before the first byte it takes 16 bytes and nothing on the heap.
#[derive(Drop)]
pub struct Intake {
    held: Held,
}

impl Model for Intake {
    ghost use Rattle.std.specs.Prelude.{ℕ, List, Option};
    ghost use Rattle.master_core.specs.Intake.{cutter_of};

    ghost Value = { Option (List ℕ) };

    ghost view = { λ intake. cutter_of intake.held };
}

impl Intake {
    /// That of a connection of which no byte has come. It takes no memory.
    pub fn new() -> Intake
        ensures { result ≡ Some [] }
    {
        Intake { held: Held::Fresh }
    }

    /// Whether no byte is taken any more.
    pub fn spent(&self) -> bool
        ensures { result ≡ is_none self.now }
    {
        match &self.held {
            Held::Fresh => false,
            Held::Live(cutter) => cutter.spent(),
        }
    }

    /// Takes a whole piece, and puts the lines that end in it after the others. The first byte takes the cutter to the heap.
    pub fn cut(
        &mut self,
        alloc: Global,
        piece: &[u8],
        lines: &mut Items<Bytes>,
    ) -> Result<(), Memory>
        ensures lines { OnOk result (IfSome self.old (λ begun. lines.new ≡ lines.old ++ (cut_from begun piece.now).lines)) }
        ensures begun { OnOk result (IfSome self.old (λ begun. self.new ≡ Some (cut_from begun piece.now).begun)) }
    {
        let mut cutter = match mem::replace(&mut self.held, Held::Fresh) {
            Held::Fresh => Box::new(alloc, Cutter::new(alloc))?,
            Held::Live(cutter) => cutter,
        };
        cut_piece(&mut cutter, piece, lines)?;
        self.held = Held::Live(cutter);
        Ok(())
    }
}
