// A command sends something, and waits.
ghost use Rattle.std.specs.Prelude.{◌≡◌, IfOk, OnOk, Some};
ghost use Rattle.session_core.specs.Begin.{HasBegun};
ghost use Rattle.asking_core.specs.Begins.{ask_of, at_server, at_barrier, ask_sent, noop_sent, first_by, first_sent};

use crate::op::copied_op;
use crate::routes::Routes;
use crate::waiting::{At, Sent, Waiting};
use ask_routes::{AskFor, Next, Why, first_step, noop_line};
use link_msg::{FrontAsk, LinkMsg};
use mur_base::{Copied, Memory, NodeName};
use session_core::Session;

impl Waiting {
    /// The ask for the command.
    fn ask_of(&self, routes: Routes, session: &Session) -> Result<FrontAsk, Memory>
        requires begun { HasBegun session.now }
        ensures { IfOk result (λ ask. ask ≡ ask_of routes.entry.id session.now self.now) }
    {
        let user = session.user(routes.alloc)?;
        let name = self.name.copy(routes.alloc)?;
        let op = copied_op(routes.alloc, &self.asking.op)?;
        Ok(FrontAsk {
            id: routes.id,
            user,
            name,
            selected: self.asking.selected,
            op,
        })
    }

    /// A server is asked. For want of memory the command is spent.
    pub(crate) fn asks(
        &mut self,
        routes: Routes,
        session: &Session,
        server: NodeName,
    ) -> Result<Sent, Memory>
        requires begun { HasBegun session.now }
        ensures waits { OnOk result (self.new ≡ at_server self.old server) }
        ensures sent { IfOk result (λ it. it ≡ ask_sent routes.entry.id session.now self.old server) }
    {
        let ask = self.ask_of(routes, session)?;
        let to = server.copy(routes.alloc)?;
        self.at = At::Home(server);
        Ok(Sent {
            to,
            message: LinkMsg::Ask(ask),
        })
    }

    /// The master is sent a NOOP. For want of memory the command is spent.
    pub(crate) fn bars(&mut self, routes: Routes, why: Why) -> Result<Sent, Memory>
        ensures waits { OnOk result (self.new ≡ at_barrier self.old why) }
        ensures sent { IfOk result (λ it. it ≡ noop_sent routes.entry.master.now routes.entry.id) }
    {
        let line = noop_line(routes.alloc, &routes.id)?;
        let to = routes.master.copy(routes.alloc)?;
        self.at = At::Barrier(why);
        Ok(Sent {
            to,
            message: LinkMsg::Line(line),
        })
    }

    /// What goes out first for a command that needs the home of a mailbox, and begins to wait: whatever `at` it is given, it is changed. It takes a
    /// look-up, for CREATE one a level of the name. For want of memory the command is spent.
    #[tactic(auto, unfolding(crate::specs::Begins::first_sent))]
    pub fn begin(&mut self, routes: Routes, session: &Session) -> Result<Sent, Memory>
        requires begun { HasBegun session.now }
        ensures { IfOk result (λ it. record { waiting = self.new; sent = it }
            ≡ first_sent routes.entry.replica.now.records routes.entry.master.now routes.entry.first.now routes.entry.id session.now self.old) }
    {
        let name = self.name.copy(routes.alloc)?;
        let what = AskFor::at(name, &self.asking.op);
        let next = first_step(routes.alloc, routes.replica, routes.first, &what)?;
        self.begins(routes, session, next)
    }

    // It is never decided here that a mailbox is missing: the master would be asked.
    fn begins(&mut self, routes: Routes, session: &Session, next: Next) -> Result<Sent, Memory>
        requires begun { HasBegun session.now }
        ensures { IfOk result (λ it. record { waiting = self.new; sent = it }
            ≡ first_by routes.entry.master.now routes.entry.id session.now self.old next) }
    {
        match next {
            Next::Ask(server) => self.asks(routes, session, server),
            Next::Barrier(why) => self.bars(routes, why),
            Next::Missing | Next::Refused => self.bars(routes, Why::Missing),
        }
    }
}
