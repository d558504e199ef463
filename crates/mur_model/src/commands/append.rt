// APPEND (RFC 9051, 6.3.12).
ghost use Rattle.std.specs.Prelude.{◌≡◌, ◌≢◌, IfOk, [], ◌∷◌};
ghost use Rattle.mail_store.specs.Append.{append_fault};
ghost use Rattle.mur_model.specs.Append.{new_message, append, append_by, append_on, append_to, append_reply};
ghost use Rattle.mur_model.specs.Rights.{has_rights};
ghost use Rattle.mur_model.specs.Left.{replied, store_after, box_after};
ghost use Rattle.imap_types.specs.Reply.{refused};
ghost use Rattle.mur_model.specs.Store.{box_at};
ghost use Rattle.mur_model.specs.Need.{begun_of};
ghost use Rattle.mur_model.specs.Needed.{Mailbox, Append as append_work};

use crate::need::{Awaited, Begun};
use crate::rights::has_rights;
use crate::setting::Setting;
use crate::store::Store;
use imap_types::{Code, NoText, Op, Reply, ReplyLines, Verdict, refused};
use mail_message::{DateText, FlagSet, MailBox, Message, Messages};
use mail_store::{StoreFault, append_all};
use mur_base::{Bytes, MailName, Memory, NameFault, UserName, taken};
use std::alloc::Global;

/// The message that comes with these flags, and with this date or, where none is given, the configuration's. Its UID isn't told yet.
pub fn new_message(with: &Setting, flags: FlagSet, date: Option<DateText>, body: Bytes) -> Message
    ensures { result ≡ new_message with.now flags date body }
{
    Message {
        uid: 0,
        flags,
        date: date.unwrap_or(with.date),
        body,
    }
}

/// What APPEND of a message to a mailbox needs: the mailbox, where the user has rights to it. The message isn't copied.
#[tactic(auto, unfolding(crate::specs::Append::append, crate::specs::Append::append_as))]
pub fn append(
    alloc: Global,
    with: &Setting,
    user: &UserName,
    text: &[u8],
    message: Message,
) -> Result<Begun, Memory>
    ensures { IfOk result (λ begun. begun ≡ begun_of (append with.now user.now text.now message)) }
{
    match taken(alloc, user, text) {
        Ok(name) => append_by(alloc, with, user, name, message),
        Err(NameFault::Memory) => Err(Memory),
        Err(_) => Ok(Begun::refused(alloc, Verdict::No(NoText::TryCreate))),
    }
}

#[tactic(auto, unfolding(crate::specs::Append::append_by))]
fn append_by(
    alloc: Global,
    with: &Setting,
    user: &UserName,
    name: MailName,
    message: Message,
) -> Result<Begun, Memory>
    ensures { IfOk result (λ begun. begun ≡ begun_of (append_by name message (has_rights with.now.users user.now name))) }
{
    if !has_rights(&with.users, user, &name) {
        return Ok(Begun::refused(alloc, Verdict::No(NoText::NoPerm)));
    }
    append_asks(alloc, name, message)
}

/// The home of the mailbox is asked to put the message into it.
#[tactic(auto, unfolding(crate::specs::Need::begun_of, crate::specs::Asking::asked_for))]
fn append_asks(alloc: Global, name: MailName, message: Message) -> Result<Begun, Memory>
    ensures { IfOk result (λ begun. begun ≡ begun_of (Mailbox name (append_work message))) }
{
    let mut messages = Messages::new(alloc);
    messages.push(message)?;
    Ok(Begun::asks_any(name, Op::Append(messages), Awaited::Append))
}

/// The reply to a message that got this UID of a mailbox with this UIDVALIDITY.
#[tactic(auto, unfolding(crate::specs::Append::append_reply))]
pub fn append_reply(alloc: Global, serial: u32, uid: u32) -> Result<Reply, Memory>
    ensures { IfOk result (λ reply. reply ≡ append_reply serial uid) }
{
    Ok(Reply {
        lines: ReplyLines::new(alloc),
        verdict: Verdict::Ok(
            Code::AppendUid(serial, uid),
            Bytes::from_slice(alloc, b"APPEND")?,
        ),
    })
}

/// Puts a message into a mailbox, if it is there and has room.
#[tactic(auto, unfolding(crate::specs::Append::append_on, crate::specs::Left::store_after))]
pub fn append_at(
    alloc: Global,
    store: &mut Store,
    name: &MailName,
    message: Message,
) -> Result<Reply, Memory>
    ensures { IfOk result (λ reply. let worked = append_on message (box_at store.old name.now) in
        (store.new ≡ store_after store.old name.now worked.left) × (replied reply ≡ worked.turn)) }
{
    match store.boxes.get_mut(name) {
        Some(mailbox) => append_to(alloc, mailbox, message),
        None => Ok(refused(alloc, NoText::TryCreate)),
    }
}

fn append_to(alloc: Global, mailbox: &mut MailBox, message: Message) -> Result<Reply, Memory>
    ensures { IfOk result (λ reply. let worked = append_to message mailbox.old (append_fault mailbox.old (message ∷ [])) in
        (mailbox.new ≡ box_after mailbox.old worked.left) × (replied reply ≡ worked.turn)) }
{
    let serial = mailbox.serial();
    let uid = mailbox.next();
    let mut list = Messages::new(alloc);
    list.push(message)?;
    if let Err(fault) = append_all(alloc, mailbox, list) {
        return refused_for(alloc, fault);
    }
    append_reply(alloc, serial, uid)
}

fn refused_for(alloc: Global, fault: StoreFault) -> Result<Reply, Memory>
    ensures { IfOk result (λ reply. (fault ≢ StoreFault.Memory) × (reply ≡ refused NoText.Limit)) }
{
    match fault {
        StoreFault::Memory => Err(Memory),
        _ => Ok(refused(alloc, NoText::Limit)),
    }
}
