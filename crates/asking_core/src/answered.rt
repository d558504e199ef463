// The answer of the home that was asked.
ghost use Rattle.std.specs.Prelude.{◌≡◌, IfOk};
ghost use Rattle.session_core.specs.Begin.{HasBegun};
ghost use Rattle.session_core.specs.Relocated.{IsRelocation, relocated};
ghost use Rattle.mur_base.specs.declared.point.What.TheVariants.{Unreached};
ghost use Rattle.asking_core.specs.Answered.{answered, goes_on, refused, told, told_by};

use crate::routes::Routes;
use crate::then::Then;
use crate::waiting::Waiting;
use ask_routes::{Next, behind_answer};
use link_msg::AnswerBody;
use mur_base::{Copied, Memory, NodeName, What};
use mur_model::Reply;
use session_core::{OpResult, Session};
use std::alloc::Global;

impl Waiting {
    // This came of the operation.
    fn told(&self, alloc: Global, session: &mut Session, it: OpResult) -> Result<Then, Memory>
        ensures { IfOk result (λ then. record { session = session.new; waiting = self.now; then = then } ≡ told session.old self.now it) }
    {
        match session.finish(alloc, &self.asking.awaited, it)? {
            Some(need) => Ok(Then::Needs(need)),
            None => Ok(Then::Stays),
        }
    }

    // It is refused.
    fn refused(&self, alloc: Global, session: &mut Session, why: What) -> Result<Then, Memory>
        requires why { IsRelocation why }
        ensures { IfOk result (λ then. record { session = session.new; waiting = self.now; then = then } ≡ refused session.old self.now why) }
    {
        let reply = session.relocated(alloc, &self.asking.awaited, &why)?;
        Ok(Then::Refused(why, reply))
    }

    /// The reply to it where it is refused, since this node isn't reached. For want of memory the session is spent.
    #[tactic(auto, unfolding(session_core::specs::Relocated::IsRelocation))]
    pub fn unreached(
        &self,
        alloc: Global,
        session: &mut Session,
        node: &NodeName,
    ) -> Result<Reply, Memory>
        ensures { IfOk result (λ reply. record { session = session.new; reply = reply } ≡ relocated session.old self.now.asking.awaited (Unreached node.now)) }
    {
        let why = What::Unreached(node.copy(alloc)?);
        session.relocated(alloc, &self.asking.awaited, &why)
    }

    /// It goes on as is decided. For want of memory the session and the command are spent.
    #[tactic(auto, unfolding(session_core::specs::Relocated::IsRelocation))]
    pub(crate) fn goes_on(
        &mut self,
        routes: Routes,
        session: &mut Session,
        next: Next,
    ) -> Result<Then, Memory>
        requires begun { HasBegun session.old }
        ensures { IfOk result (λ then. record { session = session.new; waiting = self.new; then = then }
            ≡ goes_on routes.entry.master.now routes.entry.id session.old self.old next) }
    {
        match next {
            Next::Ask(server) => Ok(Then::Sends(self.asks(routes, session, server)?)),
            Next::Barrier(why) => Ok(Then::Sends(self.bars(routes, why)?)),
            Next::Missing => self.told(routes.alloc, session, OpResult::Missing),
            Next::Refused => self.refused(routes.alloc, session, What::Reserved),
        }
    }

    /// An answer of the server that it asked. For want of memory the session and the command are spent.
    #[tactic(auto, unfolding(crate::specs::Answered::answered))]
    pub fn answered(
        &mut self,
        routes: Routes,
        session: &mut Session,
        body: AnswerBody,
    ) -> Result<Then, Memory>
        requires begun { HasBegun session.old }
        ensures { IfOk result (λ then. record { session = session.new; waiting = self.new; then = then }
            ≡ answered routes.entry.master.now routes.entry.id session.old self.old body) }
    {
        match behind_answer(routes.alloc, &body)? {
            Some(next) => self.goes_on(routes, session, next),
            None => self.told_by(routes.alloc, session, body),
        }
    }

    // An answer after which no node is asked.
    #[tactic(auto, unfolding(session_core::specs::Relocated::IsRelocation))]
    fn told_by(
        &self,
        alloc: Global,
        session: &mut Session,
        body: AnswerBody,
    ) -> Result<Then, Memory>
        ensures { IfOk result (λ then. record { session = session.new; waiting = self.now; then = then } ≡ told_by session.old self.now body) }
    {
        match body {
            AnswerBody::Done(outcome, seen) => {
                self.told(alloc, session, OpResult::Done(outcome, seen))
            }
            AnswerBody::Unreached(node) => self.refused(alloc, session, What::Unreached(node)),
            AnswerBody::Lost => Ok(Then::Lost),
            AnswerBody::NotNow | AnswerBody::Moved(_) => Ok(Then::Stays),
        }
    }
}
