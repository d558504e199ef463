// Mailboxes that are changed, and their changes in words.
ghost use Rattle.std.specs.Prelude.{IfOk};
ghost use Rattle.mail_message.specs.Boxes.{LeavesNext};

use crate::flags::flags_of;
use crate::messages::message;
use case_base::{Fault, number_of};
use mail_message::{Change, MailBox};
use mur_base::Bytes;
use std::alloc::Global;

/// A mailbox with so many messages of ten bytes, whose UIDs are 1 and on. Its UIDVALIDITY is 7.
pub fn filled(alloc: Global, count: u32) -> Result<MailBox, Fault> {
    let mut mailbox = MailBox::make(alloc, 7, Bytes::from_slice(alloc, b"bob lr")?);
    for uid in 1..count.wrapping_add(1) {
        mailbox.apply(put(alloc, uid, 10)?)?;
    }
    mailbox.apply(Change::NextUid(count.wrapping_add(1)))?;
    Ok(mailbox)
}

/// The change that words write: `put UID SIZE`, `flags UID FLAG ..`, `gone UID` or `next UID`.
pub fn change_of(alloc: Global, words: &[&str]) -> Result<Change, Fault>
    ensures { IfOk result LeavesNext }
{
    match words {
        ["put", uid, size] => put(alloc, number_of(uid)?, number_of(size)?),
        ["flags", uid, names @ ..] => {
            let uid = number_of(uid)?;
            Ok(Change::SetFlags(uid, flags_of(alloc, names)?))
        }
        ["gone", uid] => Ok(Change::Gone(number_of(uid)?)),
        ["next", uid] => Ok(Change::NextUid(number_of(uid)?)),
        _ => Err(Fault::Unreadable("no change")),
    }
}

/// A message without flags comes, whose body has this size.
fn put(alloc: Global, uid: u32, size: u32) -> Result<Change, Fault>
    ensures { IfOk result LeavesNext }
{
    if uid == u32::MAX {
        return Err(Fault::Unreadable("no UIDNEXT is above this UID"));
    }
    let body = Bytes::from_vec(vec![in alloc; b'x'; size as usize]?);
    Ok(Change::Put(message(alloc, uid, body)?))
}

/// The UID of the message that a change is about.
pub fn uid_of(change: &Change) -> Option<u32> {
    match change {
        Change::Put(message) => Some(message.uid),
        Change::SetFlags(uid, _) | Change::Gone(uid) => Some(*uid),
        Change::NextUid(_) => None,
    }
}
