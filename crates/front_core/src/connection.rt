// A connection of a mail client at a frontend.
ghost use Rattle.std.specs.Prelude.{◌≡◌};
ghost use Rattle.front_core.specs.Slots.{new_connection};
ghost use Rattle.front_core.specs.Stages.{awaits, has_asked, is_reading, stage_has_ended};

use crate::parked::Parked;
use crate::reader::Reader;
use imap_talk::Input;
use mur_base::{NodeName, Queue};
use mur_model::{Listing, Tag};
use session_core::Session;
use std::alloc::Global;

/// What a connection is at.
#[derive(Drop)]
pub enum Stage {
    /// Its next input is taken as it comes.
    Reading,
    /// A command under this tag waits, for the answer of a server or for the master's OK.
    Waits(Tag, Parked),
    /// A LIST under this tag waits for the master's OK.
    Lists(Tag, Listing),
    /// Nothing more is taken or given.
    Ended,
}

/// A connection.
#[derive(Drop)]
pub struct Connection {
    pub reader: Reader,
    /// The inputs that came behind a command that waits.
    pub waiting: Queue<Input>,
    pub session: Session,
    pub stage: Stage,
    /// How many commands were answered.
    pub answered: u64,
}

impl Connection {
    /// That of a client that has said nothing. It takes no memory.
    #[tactic(auto, unfolding(crate::specs::Slots::new_connection))]
    pub fn new(alloc: Global) -> Connection
        ensures { result ≡ new_connection }
    {
        Connection {
            reader: Reader::new(alloc),
            waiting: Queue::new(alloc),
            session: Session::new(),
            stage: Stage::Reading,
            answered: 0,
        }
    }

    /// Whether the next input is taken as it comes.
    #[tactic(auto, unfolding(crate::specs::Stages::is_reading))]
    pub fn is_reading(&self) -> bool
        ensures { result ≡ is_reading self.now.stage }
    {
        matches!(self.stage, Stage::Reading)
    }

    /// Whether a command waits for the answer of this node.
    #[tactic(auto, unfolding(crate::specs::Stages::has_asked))]
    pub fn has_asked(&self, node: &NodeName) -> bool
        ensures { result ≡ has_asked self.now.stage node.now }
    {
        match &self.stage {
            Stage::Waits(_, it) => it.has_asked(node),
            Stage::Reading | Stage::Lists(_, _) | Stage::Ended => false,
        }
    }

    /// Whether a command waits for something from this node.
    #[tactic(auto, unfolding(crate::specs::Stages::awaits))]
    pub fn awaits(&self, master: &NodeName, node: &NodeName) -> bool
        ensures { result ≡ awaits master.now self.now.stage node.now }
    {
        match &self.stage {
            Stage::Waits(_, it) => it.awaits(master, node),
            Stage::Lists(_, _) => *master == *node,
            Stage::Reading | Stage::Ended => false,
        }
    }

    /// Whether nothing more is taken or given.
    #[tactic(auto, unfolding(crate::specs::Stages::stage_has_ended))]
    pub fn has_ended(&self) -> bool
        ensures { result ≡ stage_has_ended self.now.stage }
    {
        matches!(self.stage, Stage::Ended)
    }
}
