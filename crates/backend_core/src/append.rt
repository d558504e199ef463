// APPEND.
ghost use Rattle.std.specs.Prelude.{◌≡◌, ◌+◌, ◌<◌, ◌^◌, List, length, IfOk};
ghost use Rattle.std.specs.Option.{option_copied};
ghost use Rattle.mail_message.specs.declared.message.Message.{Message};
ghost use Rattle.mail_store.specs.Append.{append_fault, uids_from};
ghost use Rattle.backend_core.specs.Append.{append_plan, adds_within_limits, with_uids};

use crate::entry::added;
use crate::op_plan::{OpPlan, Telling};
use crate::refusal::refusal;
use crate::response::{Response, bare};
use link_msg::Outcome;
use mail_message::{MailBox, Messages, OrderedRows, Snapshot, Uids};
use mail_store::StoreFault;
use mur_base::{MailName, Memory};
use node_record::Held;
use std::alloc::Global;

/// Puts messages behind those of a mailbox, where it is Open here. No body is copied.
#[tactic(auto, unfolding(crate::specs::Append::append_plan, crate::specs::OpPlan::plans, crate::specs::OpPlan::plans_unless))]
pub fn append(
    alloc: Global,
    name: MailName,
    selected: Option<u32>,
    messages: Messages,
    found: Option<&Held>,
) -> Result<OpPlan, Memory>
    ensures { IfOk result (λ plan. plan ≡ append_plan name selected messages (option_copied found.entry)) }
{
    let Some(held) = found else {
        return Ok(OpPlan::tells(alloc, Response::not_now()));
    };
    match refusal(alloc, selected, held)? {
        Some(response) => Ok(OpPlan::tells(alloc, response)),
        None => append_to(alloc, name, &held.content, messages),
    }
}

#[tactic(auto, unfolding(crate::specs::Append::adds_within_limits))]
fn append_to(
    alloc: Global,
    name: MailName,
    content: &MailBox,
    messages: Messages,
) -> Result<OpPlan, Memory>
    ensures { IfOk result (λ plan. plan ≡ adds_within_limits name content.now messages (append_fault content.now messages)) }
{
    let count = messages.len();
    let first = content.next();
    if append_fault(content, count).is_some() {
        let response = Response::done(Outcome::Limit, bare(alloc, content));
        return Ok(OpPlan::tells(alloc, response));
    }
    let (uids, messages) = numbered(alloc, first, messages)?;
    let seen = Snapshot {
        serial: content.serial(),
        next: first + count as u32,
        size: 0,
        rows: OrderedRows::new(alloc),
    };
    Ok(OpPlan {
        entries: added(alloc, name, messages)?,
        telling: Telling::Now(Response::done(Outcome::Uids(uids), seen)),
    })
}

/// Why so many messages more can't be put.
fn append_fault(to: &MailBox, count: usize) -> Option<StoreFault>
    ensures { (messages : List Message) → length messages ≡ count → result ≡ append_fault to.now messages }
{
    if !to.has_room(count) {
        return Some(StoreFault::TooMany);
    }
    if u64::from(to.next()) + count as u64 > u64::from(u32::MAX) {
        return Some(StoreFault::UidsSpent);
    }
    None
}

/// The UIDs of messages from a first one on, and the messages with them.
fn numbered(alloc: Global, first: u32, messages: Messages) -> Result<(Uids, Messages), Memory>
    requires { first + length messages < 2 ^ 32 }
    ensures uids { IfOk result (λ made. made.0 ≡ uids_from first messages) }
    ensures messages { IfOk result (λ made. made.1 ≡ with_uids first messages) }
{
    let mut uids = Uids::new(alloc);
    let mut made = Messages::new(alloc);
    let mut uid = first;
    for message in messages.into_vec() {
        let mut message = message;
        message.uid = uid;
        uids.push(uid)?;
        made.push(message)?;
        uid += 1;
    }
    Ok((uids, made))
}
