// What is made before an operation is timed.
use super::operating::{append, look, store};
use super::operation::Operation;
use crate::fault::Fault;
use crate::making::{read_date, set_flag};
use mail_message::{DateText, FlagSet, MailBox, Message, Messages, SystemFlag, Uids};
use mur_base::{Bytes, Items, Memory};
use std::alloc::Global;

/// Bytes of a body.
pub const BODY_LENGTH: usize = 1_024;

pub static BODY: [u8; BODY_LENGTH] = [b'x'; BODY_LENGTH];

/// Appends so many messages.
pub fn fill(alloc: Global, to: &mut MailBox, count: u32) -> Result<(), Fault> {
    let mut list = Messages::new(alloc);
    put_messages(alloc, &mut list, count)?;
    append(alloc, to, list)?;
    Ok(())
}

/// Marks messages that stand so far apart as deleted.
pub fn mark_deleted(alloc: Global, to: &mut MailBox, step: u32, size: u32) -> Result<(), Fault> {
    let mut uids = Uids::new(alloc);
    put_uids(&mut uids, step, size)?;
    mark(alloc, to, &uids)
}

fn mark(alloc: Global, to: &mut MailBox, uids: &Uids) -> Result<(), Fault> {
    let mut flags = FlagSet::new(alloc);
    set_flag(alloc, &mut flags, SystemFlag::Deleted)?;
    store(alloc, to, uids, &flags)?;
    Ok(())
}

/// Looks at a box, so that none is met in cold memory.
pub fn look_once(alloc: Global, at: &MailBox) -> Result<(), Fault> {
    if look(alloc, at)? == at.len() {
        Ok(())
    } else {
        Err(Fault::Missing)
    }
}

/// Puts so many new messages in lists of one or of all.
pub fn put_lists(
    alloc: Global,
    lists: &mut Items<Messages>,
    count: u32,
    batch: usize,
) -> Result<(), Fault> {
    if batch > 1 {
        return put_list(alloc, lists, count);
    }
    for _ in 0..count {
        put_list(alloc, lists, 1)?;
    }
    Ok(())
}

fn put_list(alloc: Global, lists: &mut Items<Messages>, count: u32) -> Result<(), Fault> {
    let mut list = Messages::new(alloc);
    put_messages(alloc, &mut list, count)?;
    lists.push(list)?;
    Ok(())
}

fn put_messages(alloc: Global, list: &mut Messages, count: u32) -> Result<(), Fault> {
    let date = read_date(b" 1-Jan-2026 00:00:00 +0000")?;
    for _ in 0..count {
        put_message(alloc, list, date)?;
    }
    Ok(())
}

fn put_message(alloc: Global, list: &mut Messages, date: DateText) -> Result<(), Memory> {
    let body = Bytes::from_slice(alloc, &BODY)?;
    list.push(Message {
        uid: 0,
        flags: FlagSet::new(alloc),
        date,
        body,
    })
}

/// Puts the UIDs that an operation touches, in lists of as many as a call touches.
pub fn put_batches(
    alloc: Global,
    lists: &mut Items<Uids>,
    operation: &Operation,
    size: u32,
) -> Result<(), Memory> {
    let mut uids = Uids::new(alloc);
    put_uids(&mut uids, operation.step, size)?;
    batch(alloc, lists, uids.as_slice(), operation.batch)
}

fn batch(
    alloc: Global,
    lists: &mut Items<Uids>,
    uids: &[u32],
    length: usize,
) -> Result<(), Memory> {
    for batch in uids.chunks(length.max(1)) {
        let batch = Vec::from_slice(alloc, batch)?;
        lists.push(Items::from_vec(batch))?;
    }
    Ok(())
}

/// Puts the UIDs of a box of so many messages that stand so far apart.
fn put_uids(uids: &mut Uids, step: u32, size: u32) -> Result<(), Memory> {
    for place in 0..size {
        if place % step.max(1) == 0 {
            uids.push(place + 1)?;
        }
    }
    Ok(())
}
