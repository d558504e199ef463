// The refusal of a command whose mailbox is being moved, or that needs a server which isn't reached.
ghost use Rattle.std.specs.Prelude.{◌≡◌, IfOk};
ghost use Rattle.session_core.specs.Relocated.{goes_on, moved_turn, relocated, why_moved, IsRelocation};

use crate::session::Session;
use mur_base::{Memory, What};
use mur_model::{Awaited, NoText, Reply, Sess, Turn, refused, unselected};
use std::alloc::Global;

impl Session {
    /// The reply to a command that awaited this and is refused. The session stays as it was, but that a SELECT or an EXAMINE leaves no mailbox
    /// selected (RFC 9051, 6.3.2). For want of memory the session is spent.
    pub fn relocated(
        &mut self,
        alloc: Global,
        awaited: &Awaited,
        why: &What,
    ) -> Result<Reply, Memory>
        requires why { IsRelocation why.now }
        ensures { IfOk result (λ reply. record { session = self.new; reply = reply } ≡ relocated self.old awaited.now why.now) }
    {
        let turn = moved_turn(alloc, awaited, why_moved(why))?;
        Ok(goes_on(&mut self.state, turn))
    }
}

fn goes_on(sess: &mut Sess, turn: Turn) -> Reply
    ensures { record { session = sess.new; reply = result } ≡ goes_on sess.old turn }
{
    let Turn { session, reply } = turn;
    if let Some(session) = session {
        *sess = session;
    }
    reply
}

#[tactic(auto, unfolding(crate::specs::Relocated::why_moved))]
fn why_moved(why: &What) -> NoText
    ensures { result ≡ why_moved why.now }
{
    match why {
        What::Reserved => NoText::BeingMoved,
        _ => NoText::NotReached,
    }
}

#[tactic(auto, unfolding(crate::specs::Relocated::moved_turn))]
fn moved_turn(alloc: Global, awaited: &Awaited, why: NoText) -> Result<Turn, Memory>
    ensures { IfOk result (λ turn. turn ≡ moved_turn awaited.now why) }
{
    match awaited {
        Awaited::Select(_, it) => unselected(alloc, &it.user, it.was_selected, why),
        _ => Ok(Turn {
            session: None,
            reply: refused(alloc, why),
        }),
    }
}
