// Whom a command asks, at each of its moments.
ghost use Rattle.std.specs.Prelude.{◌≡◌, IfOk};
ghost use Rattle.ask_routes.specs.Ways.{behind_answer, behind_ok, behind_record, create_first, create_behind, first_step, mailbox_behind, mailbox_first};
ghost use Rattle.feed_core.specs.Feed.{rec_at};
ghost use Rattle.feed_core.specs.Routes.{home_for, server_at};

use crate::ask_for::AskFor;
use crate::next::{Next, Why};
use feed_core::{Rec, Replica};
use link_msg::AnswerBody;
use mur_base::{Copied, MailName, Memory, NodeName};
use std::alloc::Global;

fn ask(alloc: Global, server: &NodeName) -> Result<Next, Memory>
    ensures { IfOk result (λ next. next ≡ Next.Ask server.now) }
{
    Ok(Next::Ask(server.copy(alloc)?))
}

fn mailbox_first(alloc: Global, replica: &Replica, name: &MailName) -> Result<Next, Memory>
    ensures { IfOk result (λ next. next ≡ mailbox_first (server_at replica.now.records name.now)) }
{
    match replica.server_of(name) {
        Some(server) => ask(alloc, server),
        None => Ok(Next::Barrier(Why::Missing)),
    }
}

fn create_first(
    alloc: Global,
    replica: &Replica,
    first: &NodeName,
    name: &MailName,
) -> Result<Next, Memory>
    ensures { IfOk result (λ next. next ≡ create_first replica.now.records first.now name.now) }
{
    let home = replica.home_for(alloc, name, first)?;
    ask(alloc, home)
}

/// What is done first for a command; `first` is the server of a new mailbox without a name above it. It takes a look-up, for CREATE one a level.
pub fn first_step(
    alloc: Global,
    replica: &Replica,
    first: &NodeName,
    what: &AskFor,
) -> Result<Next, Memory>
    ensures { IfOk result (λ next. next ≡ first_step replica.now.records first.now what.now) }
{
    match what {
        AskFor::Mailbox(name) => mailbox_first(alloc, replica, name),
        AskFor::Create(name) => create_first(alloc, replica, first, name),
    }
}

/// What is done behind an answer of the home that was asked; nothing if the command was carried out, or is refused for another reason than where
/// its mailbox is.
pub fn behind_answer(alloc: Global, body: &AnswerBody) -> Result<Option<Next>, Memory>
    ensures { IfOk result (λ next. next ≡ behind_answer body.now) }
{
    match body {
        AnswerBody::NotNow => Ok(Some(Next::Barrier(Why::NotNow))),
        AnswerBody::Moved(server) => Ok(Some(ask(alloc, server)?)),
        _ => Ok(None),
    }
}

fn behind_record(alloc: Global, rec: &Rec, why: Why) -> Result<Next, Memory>
    ensures { IfOk result (λ next. next ≡ behind_record why rec.now) }
{
    match (rec, why) {
        (Rec::Reserved(_, _), Why::NotNow) => Ok(Next::Refused),
        _ => ask(alloc, &rec.place().server),
    }
}

fn mailbox_behind(
    alloc: Global,
    replica: &Replica,
    name: &MailName,
    why: Why,
) -> Result<Next, Memory>
    ensures { IfOk result (λ next. next ≡ mailbox_behind why (rec_at replica.now.records name.now)) }
{
    match replica.find(name) {
        Some(rec) => behind_record(alloc, rec, why),
        None => Ok(Next::Missing),
    }
}

fn create_behind(
    alloc: Global,
    replica: &Replica,
    first: &NodeName,
    name: &MailName,
    why: Why,
) -> Result<Next, Memory>
    ensures { IfOk result (λ next. next ≡ create_behind replica.now.records first.now name.now why (rec_at replica.now.records name.now)) }
{
    match replica.find(name) {
        Some(rec) => behind_record(alloc, rec, why),
        None => create_first(alloc, replica, first, name),
    }
}

/// What is done behind the OK of the barrier, by the replica of then. It takes a look-up, for CREATE one a level.
pub fn behind_ok(
    alloc: Global,
    replica: &Replica,
    first: &NodeName,
    what: &AskFor,
    why: Why,
) -> Result<Next, Memory>
    ensures { IfOk result (λ next. next ≡ behind_ok replica.now.records first.now what.now why) }
{
    match what {
        AskFor::Mailbox(name) => mailbox_behind(alloc, replica, name, why),
        AskFor::Create(name) => create_behind(alloc, replica, first, name, why),
    }
}
