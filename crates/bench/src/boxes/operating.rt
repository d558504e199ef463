// What an operation does with a box.
use mail_message::{Change, FlagSet, MailBox, Message, Messages, Mode, Uids};
use mail_store::{StoreFault, append_all, expunge, set_flags};
use mur_base::{Copied, Items};
use std::alloc::Global;

/// Puts messages behind the last one, each under its UID.
pub fn put_all(to: &mut MailBox, lists: Items<Messages>) -> Result<usize, StoreFault> {
    let mut uid = to.next();
    let mut touched: usize = 0;
    for list in lists.into_vec() {
        for message in list.into_vec() {
            put(to, uid, message)?;
            uid = uid.wrapping_add(1);
            touched = touched.wrapping_add(1);
        }
    }
    Ok(touched)
}

fn put(to: &mut MailBox, uid: u32, message: Message) -> Result<(), StoreFault> {
    if uid == u32::MAX {
        return Err(StoreFault::UidsSpent);
    }
    let mut message = message;
    message.uid = uid;
    Ok(to.apply(Change::Put(message))?)
}

pub fn set_flags_of_all(
    alloc: Global,
    to: &mut MailBox,
    lists: &[Uids],
    flags: &FlagSet,
) -> Result<usize, StoreFault> {
    let mut touched: usize = 0;
    for uids in lists {
        for uid in uids.as_slice() {
            let flags = flags.copy(alloc)?;
            to.apply(Change::SetFlags(*uid, flags))?;
            touched = touched.wrapping_add(1);
        }
    }
    Ok(touched)
}

pub fn append_each(
    alloc: Global,
    to: &mut MailBox,
    lists: Items<Messages>,
) -> Result<usize, StoreFault> {
    let mut touched: usize = 0;
    for list in lists.into_vec() {
        touched = touched.wrapping_add(append(alloc, to, list)?);
    }
    Ok(touched)
}

pub fn append(alloc: Global, to: &mut MailBox, list: Messages) -> Result<usize, StoreFault> {
    Ok(append_all(alloc, to, list)?.len())
}

pub fn store_each(
    alloc: Global,
    to: &mut MailBox,
    lists: &[Uids],
    flags: &FlagSet,
) -> Result<usize, StoreFault> {
    let mut touched: usize = 0;
    for uids in lists {
        touched = touched.wrapping_add(store(alloc, to, uids, flags)?);
    }
    Ok(touched)
}

pub fn store(
    alloc: Global,
    to: &mut MailBox,
    uids: &Uids,
    flags: &FlagSet,
) -> Result<usize, StoreFault> {
    Ok(set_flags(alloc, to, uids.as_slice(), Mode::Add, flags)?.len())
}

pub fn expunge_each(alloc: Global, to: &mut MailBox, lists: &[Uids]) -> Result<usize, StoreFault> {
    let mut touched: usize = 0;
    for uids in lists {
        let gone = expunge(alloc, to, Some(uids.as_slice()))?;
        touched = touched.wrapping_add(gone.len());
    }
    Ok(touched)
}

pub fn expunge_all(alloc: Global, to: &mut MailBox) -> Result<usize, StoreFault> {
    Ok(expunge(alloc, to, None)?.len())
}

pub fn look(alloc: Global, at: &MailBox) -> Result<usize, StoreFault> {
    Ok(at.look(alloc)?.rows.len())
}

pub fn read_each(alloc: Global, from: &MailBox, lists: &[Uids]) -> Result<usize, StoreFault> {
    let mut touched: usize = 0;
    for uids in lists {
        let copies = from.read(alloc, uids.as_slice())?;
        touched = touched.wrapping_add(copies.len());
    }
    Ok(touched)
}
