// What a host notes of the calls that ask it for an object.
ghost use Rattle.std.specs.Prelude.{◌≡◌, ◌+◌, ◌-◌, [], ◌∷◌, ◌++◌, OnOk, OnErr};

use crate::host::Asked;
use mur_base::{Items, Memory};
use std::alloc::Global;
use std::marker::Model;

/// The calls that asked for an object and weren't refused for memory, in order, and how many objects are out: no more than were asked for,
/// so they can be counted.
#[derive(Drop)]
pub struct Asks {
    asked: Items<Asked>,
    held: u64,
}

impl Model for Asks {
    ghost use Rattle.std.specs.Prelude.{◌≤◌, length};
    ghost use Rattle.mur_edge.specs.Asks.{Noted};

    ghost Value = { Noted };

    ghost view = { λ asks. record { asked = asks.asked; held = asks.held } };

    ghost invariant = { λ asks. asks.held ≤ length asks.asked };
}

impl Asks {
    /// Nothing was asked, and nothing is out. It takes no memory.
    pub fn new(alloc: Global) -> Asks
        ensures { result ≡ record { asked = []; held = 0 } }
    {
        Asks {
            asked: Items::new(alloc),
            held: 0,
        }
    }

    /// How many objects are out.
    pub fn held(&self) -> u64
        ensures { result ≡ self.now.held }
    {
        self.held
    }

    /// Notes a call that is given an object. For want of memory all stays as it was.
    pub fn note_given(&mut self, call: Asked) -> Result<(), Memory>
        ensures ok { OnOk result (self.new ≡ record { asked = self.old.asked ++ call ∷ []; held = self.old.held + 1 }) }
        ensures err { OnErr result (self.new ≡ self.old) }
    {
        self.asked.push(call)?;
        prove!(self.held < self.asked.len() as u64);
        self.held += 1;
        Ok(())
    }

    /// Notes a call that fails. For want of memory all stays as it was.
    pub fn note_failed(&mut self, call: Asked) -> Result<(), Memory>
        ensures ok { OnOk result (self.new ≡ record self.old { asked = self.old.asked ++ call ∷ [] }) }
        ensures err { OnErr result (self.new ≡ self.old) }
    {
        self.asked.push(call)
    }

    /// Notes that an object came back.
    pub fn note_back(&mut self)
        ensures { self.new ≡ record self.old { held = self.old.held - 1 } }
    {
        self.held = self.held.saturating_sub(1);
    }
}
