// A command that waits, where it takes little room.
ghost use Rattle.std.specs.Prelude.{◌≡◌, IfOk};
ghost use Rattle.session_core.specs.Begin.{HasBegun};
ghost use Rattle.session_core.specs.Relocated.{relocated};
ghost use Rattle.asking_core.specs.Answered.{answered};
ghost use Rattle.asking_core.specs.Cleared.{cleared};
ghost use Rattle.mur_base.specs.declared.point.What.TheVariants.{Unreached};
ghost use Rattle.front_core.specs.Stages.{asks_at, clears, waits_at};

use ask_routes::Why;
use asking_core::{At, Routes, Then, Waiting};
use link_msg::AnswerBody;
use mur_base::{Memory, NodeName};
use mur_model::Reply;
use session_core::Session;
use std::alloc::Global;
use std::marker::Model;

/// A command that waits, on the heap, since most connections wait for nothing. Contracts see the command.
#[derive(Drop)]
pub struct Parked {
    held: Box<Waiting>,
}

impl Model for Parked {
    ghost use Rattle.asking_core.specs.declared.waiting.Waiting.{Waiting};
    ghost use Rattle.mail_message.specs.contracts.key.Key as key;
    ghost use Rattle.std.specs.Coded.{codes};

    ghost Value = { Waiting };

    ghost coded = { Prim.hlevel (codes, key.the_row.coded) };

    ghost view = { λ parked. parked.held.value };
}

impl Parked {
    /// Moves a command to the heap.
    pub fn new(alloc: Global, it: Waiting) -> Result<Parked, Memory>
        ensures { IfOk result (λ parked. parked ≡ it) }
    {
        Ok(Parked {
            held: Box::new(alloc, it)?,
        })
    }

    /// Whether the command waits for the answer of this server.
    pub fn has_asked(&self, node: &NodeName) -> bool
        ensures { result ≡ asks_at self.now.at node.now }
    {
        match &self.held.at {
            At::Home(server) => *server == *node,
            At::Barrier(_) => false,
        }
    }

    /// Whether the command waits for something from this node.
    pub fn awaits(&self, master: &NodeName, node: &NodeName) -> bool
        ensures { result ≡ waits_at master.now self.now.at node.now }
    {
        match &self.held.at {
            At::Home(server) => *server == *node,
            At::Barrier(_) => *master == *node,
        }
    }

    /// Why the master is asked for it, if it waits for the master's OK.
    pub fn barrier(&self) -> Option<Why>
        ensures { result ≡ clears self.now.at }
    {
        match &self.held.at {
            At::Home(_) => None,
            At::Barrier(why) => Some(*why),
        }
    }

    /// An answer of the server that it asked. For want of memory the session and the command are spent.
    pub fn answered(
        &mut self,
        routes: Routes,
        session: &mut Session,
        body: AnswerBody,
    ) -> Result<Then, Memory>
        requires begun { HasBegun session.old }
        ensures { IfOk result (λ then. record { session = session.new; waiting = self.new; then = then }
            ≡ answered routes.entry.master.now routes.entry.id session.old self.old body) }
    {
        self.held.answered(routes, session, body)
    }

    /// The master's OK. For want of memory the session and the command are spent.
    pub fn cleared(
        &mut self,
        routes: Routes,
        session: &mut Session,
        why: Why,
    ) -> Result<Then, Memory>
        requires begun { HasBegun session.old }
        ensures { IfOk result (λ then. record { session = session.new; waiting = self.new; then = then }
            ≡ cleared routes.entry.replica.now.records routes.entry.master.now routes.entry.first.now routes.entry.id session.old self.old why) }
    {
        self.held.cleared(routes, session, why)
    }
    /// The reply to the command where it is refused, since this node isn't reached. For want of memory the session is spent.
    pub fn unreached(
        &self,
        alloc: Global,
        session: &mut Session,
        node: &NodeName,
    ) -> Result<Reply, Memory>
        ensures { IfOk result (λ reply. record { session = session.new; reply = reply } ≡ relocated session.old self.now.asking.awaited (Unreached node.now)) }
    {
        self.held.unreached(alloc, session, node)
    }
}
