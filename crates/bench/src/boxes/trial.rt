// An operation on a box that is made for it.
use super::operating::{
    append_each, expunge_all, expunge_each, look, put_all, read_each, set_flags_of_all, store_each,
};
use super::operation::{Call, Operation};
use super::preparing::{BODY_LENGTH, fill, look_once, mark_deleted, put_batches, put_lists};
use crate::fault::Fault;
use crate::making::set_flag;
use crate::times::Work;
use mail_message::{FlagSet, MailBox, Messages, SystemFlag, Uids};
use mur_base::{Bytes, Items};
use std::alloc::Global;
use std::mem;

/// A box, the lists of messages that are appended to it, the lists of UIDs that calls name, and bodies to be copied.
#[derive(Drop)]
pub struct Trial<'a> {
    alloc: Global,
    operation: &'a Operation,
    size: u32,
    bodies: &'a [u8],
    mailbox: MailBox,
    lists: Items<Messages>,
    named: Items<Uids>,
    flags: FlagSet,
}

impl<'a> Trial<'a> {
    pub fn new(alloc: Global, operation: &'a Operation, size: u32, bodies: &'a [u8]) -> Trial<'a> {
        Trial {
            alloc,
            operation,
            size,
            bodies,
            mailbox: MailBox::make(alloc, 1, Bytes::new(alloc)),
            lists: Items::new(alloc),
            named: Items::new(alloc),
            flags: FlagSet::new(alloc),
        }
    }
}

impl Work for Trial<'_> {
    /// Makes a box of its size, less the messages that are appended, and all that the operation takes.
    fn prepare(&mut self) -> Result<(), Fault> {
        let (alloc, operation, size) = (self.alloc, self.operation, self.size);
        let appended = operation.appended;
        fill(alloc, &mut self.mailbox, size.saturating_sub(appended))?;
        if operation.is_expunge {
            mark_deleted(alloc, &mut self.mailbox, operation.step, size)?;
        }
        look_once(alloc, &self.mailbox)?;
        put_lists(alloc, &mut self.lists, appended, operation.batch)?;
        put_batches(alloc, &mut self.named, operation, size)?;
        set_flag(alloc, &mut self.flags, SystemFlag::Seen)
    }

    /// Does the operation, and gives how many messages it touched.
    fn done(&mut self) -> Result<u64, Fault> {
        let (alloc, mailbox) = (self.alloc, &mut self.mailbox);
        let touched = match self.operation.call {
            Call::Put => put_all(mailbox, taken(alloc, &mut self.lists)),
            Call::SetFlags => set_flags_of_all(alloc, mailbox, self.named.as_slice(), &self.flags),
            Call::Append => append_each(alloc, mailbox, taken(alloc, &mut self.lists)),
            Call::Store => store_each(alloc, mailbox, self.named.as_slice(), &self.flags),
            Call::ExpungeNamed => expunge_each(alloc, mailbox, self.named.as_slice()),
            Call::ExpungeAll => expunge_all(alloc, mailbox),
            Call::Look => look(alloc, mailbox),
            Call::Read => read_each(alloc, mailbox, self.named.as_slice()),
        };
        Ok(touched? as u64)
    }

    /// Copies as many bodies, and gives how many those were.
    fn plain(&mut self, done: u64) -> Result<u64, Fault> {
        let length = (done as usize).saturating_mul(BODY_LENGTH);
        let Some(front) = self.bodies.get(..length) else {
            return Ok(0);
        };
        let copy = Vec::from_slice(self.alloc, front)?;
        let copied = if copy.ends_with(b"x") { copy.len() } else { 0 };
        Ok((copied / BODY_LENGTH) as u64)
    }
}

fn taken(alloc: Global, lists: &mut Items<Messages>) -> Items<Messages> {
    mem::replace(lists, Items::new(alloc))
}
