// What comes of an operation's result for a session.
ghost use Rattle.std.specs.Prelude.{◌≡◌, IfOk};
ghost use Rattle.std.specs.Option.{option_map, IfSome};
ghost use Rattle.mur_model.specs.Left.{replied};
ghost use Rattle.session_core.specs.Begin.{MayNeed};
ghost use Rattle.mur_model.specs.ClientView.{Known};
ghost use Rattle.session_core.specs.Numbers.{IsByNumbers, Knows, KnowsBehind, TellsNoExpunge, known_before};
ghost use Rattle.session_core.specs.Finish.{finish, finished_by, turn_of};

use crate::beginning::takes;
use crate::commands::append::append_reply;
use crate::commands::create::create_reply;
use crate::commands::delete::delete_reply;
use crate::commands::select::select_turn;
use crate::commands::status::status_reply;
use crate::result::OpResult;
use crate::session::Session;
use crate::viewed::viewed_in;
use mur_base::Memory;
use mur_model::{Awaited, Begun, Need, Reply, Sess, Turn};
use std::alloc::Global;

impl Session {
    /// Takes the result of what was asked for the command that waits. A result that doesn't fit changes nothing, and nothing is
    /// needed behind it. For want of memory the session is spent.
    pub fn finish(
        &mut self,
        alloc: Global,
        awaited: &Awaited,
        op_result: OpResult,
    ) -> Result<Option<Need>, Memory>
        ensures fits { IfOk result (λ need. IfSome need (λ it. MayNeed self.new it)) }
        ensures numbers { IfOk result (λ need. (known : Known) → Knows known self.old
            → IfSome need (KnowsBehind (known_before awaited.now known) self.new)) }
        ensures expunges { IfOk result (λ need. IsByNumbers awaited.now → IfSome need TellsNoExpunge) }
        ensures behind { IfOk result (λ need. record { session = self.new; need = need } ≡ finish self.old awaited.now op_result) }
    {
        let turn = turn_of(alloc, &self.state, awaited, op_result)?;
        Ok(finished_by(&mut self.state, turn))
    }
}

#[tactic(auto, unfolding(crate::specs::Finish::finished_by, mur_model::specs::Need::begun_of))]
fn finished_by(sess: &mut Sess, turn: Option<Turn>) -> Option<Need>
    ensures { record { session = sess.new; need = result } ≡ finished_by sess.old turn }
{
    match turn {
        Some(turn) => Some(takes(sess, Begun::told(turn))),
        None => None,
    }
}

#[tactic(auto, unfolding(crate::specs::Finish::turn_of))]
fn turn_of(
    alloc: Global,
    sess: &Sess,
    awaited: &Awaited,
    op_result: OpResult,
) -> Result<Option<Turn>, Memory>
    ensures { IfOk result (λ turn. turn ≡ turn_of sess.now awaited.now op_result) }
{
    match awaited {
        Awaited::Create => Ok(replied(create_reply(alloc, op_result)?)),
        Awaited::Delete => Ok(replied(delete_reply(alloc, op_result)?)),
        Awaited::Append => Ok(replied(append_reply(alloc, op_result)?)),
        Awaited::Status(shown, items) => {
            Ok(replied(status_reply(alloc, shown, items, op_result)?))
        }
        Awaited::Select(name, it) => select_turn(alloc, name, it, op_result),
        Awaited::Viewed(work) => viewed_in(alloc, sess, work, op_result),
    }
}

/// A reply that leaves the session as it was, if there is one.
fn replied(reply: Option<Reply>) -> Option<Turn>
    ensures { result ≡ option_map replied reply }
{
    match reply {
        Some(reply) => Some(Turn {
            session: None,
            reply,
        }),
        None => None,
    }
}
