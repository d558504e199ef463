// The store as it can be run: one command at a time, on one store.
ghost use Rattle.std.specs.Prelude.{◌≡◌, ℕ, IfOk, IfSome, IsSome};
ghost use Rattle.mur_model.specs.Act.{worked_at, act_by, act_of, session_after};
ghost use Rattle.mur_model.specs.Asking.{HasWork, appended_for, viewed_for, work_for};
ghost use Rattle.mur_model.specs.Acting.{IsActed, IsWorked};
ghost use Rattle.mur_model.specs.Delete.{delete_on};
ghost use Rattle.mur_model.specs.Left.{replied};
ghost use Rattle.mur_model.specs.Listing.{list_reply, names_in};
ghost use Rattle.mur_model.specs.Needed.{Mailbox, Make};
ghost use Rattle.mur_model.specs.Status.{status_on};
ghost use Rattle.mur_model.specs.Store.{box_at};

use crate::beginning::begin;
use crate::commands::append::append_at;
use crate::commands::create::make;
use crate::commands::delete::delete_at;
use crate::commands::list::{Listing, gathered_in};
use crate::commands::select::select_at;
use crate::commands::status::status_at;
use crate::need::{Asking, Awaited, Begun, Need};
use crate::session::{Sess, Turn};
use crate::setting::Setting;
use crate::store::Store;
use crate::viewing::viewed_at;
use crate::work::ViewWork;
use imap_types::{Command, Op, Reply, StatusItems};
use mur_base::{Bytes, MailName, Memory};
use std::alloc::Global;

/// Carries out one command on the store and gives its reply (RFC 9051, 6). A mailbox that is made gets the serial as
/// its UIDVALIDITY; a history is legal only where that was free. A message isn't copied. For want of memory nothing is said of store and session.
pub fn act(
    alloc: Global,
    with: &Setting,
    store: &mut Store,
    sess: &mut Sess,
    command: Command,
    serial: u32,
) -> Result<Reply, Memory>
    ensures { IfOk result (λ reply. record { store = store.new; session = sess.new; reply = reply } ≡ act_of with.now store.old sess.old command serial) }
{
    let begun = begin(alloc, with, sess, command)?;
    act_by(alloc, store, sess, begun, serial)
}

#[tactic(auto, unfolding(crate::specs::Acting::IsActed, crate::specs::Asking::HasWork))]
fn act_by(
    alloc: Global,
    store: &mut Store,
    sess: &mut Sess,
    begun: Begun,
    serial: u32,
) -> Result<Reply, Memory>
    requires { HasWork sess.old begun.need }
    ensures { IfOk result (λ reply. IsActed store.old sess.old serial begun.session begun.need (record { store = store.new; session = sess.new; reply = reply })) }
{
    let Begun { session, need } = begun;
    match need {
        Need::Reply(reply) | Need::Leave(reply) => Ok(turned(sess, Turn { session, reply })),
        Need::Home(name, asking) => act_at(alloc, store, sess, &name, asking, serial),
        Need::Names(it) => {
            let reply = list_by(alloc, store, &it)?;
            Ok(turned(sess, Turn { session, reply }))
        }
    }
}

// What a LIST is answered.
fn list_by(alloc: Global, store: &Store, it: &Listing) -> Result<Reply, Memory>
    ensures { IfOk result (λ reply. reply ≡ list_reply it.now (names_in store.now)) }
{
    let gathered = gathered_in(alloc, it, store)?;
    it.reply(alloc, &gathered)
}

/// Does at a mailbox what its home would be asked.
fn act_at(
    alloc: Global,
    store: &mut Store,
    sess: &mut Sess,
    name: &MailName,
    asking: Asking,
    serial: u32,
) -> Result<Reply, Memory>
    requires { IsSome (work_for sess.old asking.op asking.awaited) }
    ensures { IfOk result (λ reply. IfSome (work_for sess.old asking.op asking.awaited)
        (λ work. record { store = store.new; session = sess.new; reply = reply } ≡ act_by store.old sess.old serial (Mailbox name.now work))) }
{
    let Asking { op, awaited, .. } = asking;
    let turn = work_at(alloc, store, sess, name, op, awaited, serial)?;
    Ok(turned(sess, turn))
}

/// Takes what came of a command for its session, and gives the reply.
fn turned(sess: &mut Sess, turn: Turn) -> Reply
    ensures session { sess.new ≡ session_after sess.old turn.session }
    ensures reply { result ≡ turn.reply }
{
    let Turn { session, reply } = turn;
    if let Some(session) = session {
        *sess = session;
    }
    reply
}

/// A reply that leaves the session as it was.
fn replied(reply: Reply) -> Turn
    ensures { result ≡ replied reply }
{
    Turn {
        session: None,
        reply,
    }
}

/// Does the work for which a session asked so.
#[tactic(auto, unfolding(crate::specs::Asking::work_for, crate::specs::Act::work_on))]
fn work_at(
    alloc: Global,
    store: &mut Store,
    sess: &Sess,
    name: &MailName,
    op: Op,
    awaited: Awaited,
    serial: u32,
) -> Result<Turn, Memory>
    requires { IsSome (work_for sess.now op awaited) }
    ensures { IfOk result (λ turn. IfSome (work_for sess.now op awaited) (λ work. IsWorked store.old name.now (worked_at store.old name.now work serial) store.new turn)) }
{
    if let Awaited::Append = awaited {
        return append_by(alloc, store, name, op);
    }
    // No other work looks at it. By a call, so that its drop is not proved in each arm.
    drop(op);
    match awaited {
        Awaited::Append => unreachable!(),
        Awaited::Create => create_by(alloc, store, name, serial),
        Awaited::Delete => delete_by(alloc, store, name),
        Awaited::Status(shown, items) => status_by(alloc, store, name, shown, &items),
        Awaited::Select(_, it) => select_at(alloc, store, name, &it),
        Awaited::Viewed(work) => viewed_by(alloc, store, sess, name, work),
    }
}

#[tactic(auto, unfolding(crate::specs::Act::work_on))]
fn create_by(alloc: Global, store: &mut Store, name: &MailName, serial: u32) -> Result<Turn, Memory>
    ensures { IfOk result (λ turn. IsWorked store.old name.now (worked_at store.old name.now Make serial) store.new turn) }
{
    Ok(replied(make(alloc, store, name, serial)?))
}

fn delete_by(alloc: Global, store: &mut Store, name: &MailName) -> Result<Turn, Memory>
    ensures { IfOk result (λ turn. IsWorked store.old name.now (delete_on (box_at store.old name.now)) store.new turn) }
{
    Ok(replied(delete_at(alloc, store, name)?))
}

fn status_by(
    alloc: Global,
    store: &Store,
    name: &MailName,
    shown: Bytes,
    items: &StatusItems,
) -> Result<Turn, Memory>
    ensures { IfOk result (λ turn. IsWorked store.now name.now (status_on shown items.now (box_at store.now name.now)) store.now turn) }
{
    Ok(replied(status_at(alloc, store, name, shown, items)?))
}

#[tactic(auto, unfolding(crate::specs::Asking::appended_for, crate::specs::Act::work_on))]
fn append_by(alloc: Global, store: &mut Store, name: &MailName, op: Op) -> Result<Turn, Memory>
    requires { IsSome (appended_for op) }
    ensures { IfOk result (λ turn. IfSome (appended_for op) (λ work. (serial : ℕ) → IsWorked store.old name.now (worked_at store.old name.now work serial) store.new turn)) }
{
    let Op::Append(messages) = op else {
        unreachable!();
    };
    let Some(message) = messages.into_vec().pop() else {
        unreachable!();
    };
    Ok(replied(append_at(alloc, store, name, message)?))
}

#[tactic(auto, unfolding(crate::specs::Asking::viewed_for, crate::specs::Act::work_on))]
fn viewed_by(
    alloc: Global,
    store: &mut Store,
    sess: &Sess,
    name: &MailName,
    work: ViewWork,
) -> Result<Turn, Memory>
    requires { IsSome (viewed_for sess.now work) }
    ensures { IfOk result (λ turn. IfSome (viewed_for sess.now work) (λ it. (serial : ℕ) → IsWorked store.old name.now (worked_at store.old name.now it serial) store.new turn)) }
{
    let Sess::Selected(view) = sess else {
        unreachable!();
    };
    viewed_at(alloc, store, name, view, &work)
}
