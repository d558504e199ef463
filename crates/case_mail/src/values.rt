// Lists, queues, and the access list of a mailbox.
use case_base::{Fault, put_field, put_value};
use mail_message::MailBox;
use mur_base::{Bytes, Items, Queue};
use std::alloc::Global;

/// Prints the access list of a mailbox as it is made, and after another one was put in its place.
pub fn put_acl(alloc: Global, first: &str, later: &str, out: &mut Bytes) -> Result<(), Fault> {
    let mut mailbox = MailBox::make(alloc, 1, Bytes::from_slice(alloc, first.as_bytes())?);
    put_field(mailbox.acl(), out)?;
    mailbox.set_acl(Bytes::from_slice(alloc, later.as_bytes())?);
    Ok(put_field(mailbox.acl(), out)?)
}

/// Prints the first and the second letter of a list.
pub fn put_list(alloc: Global, letters: &str, out: &mut Bytes) -> Result<(), Fault> {
    let list = Items::from_slice(alloc, letters.as_bytes())?;
    Ok(put_value(alloc, &(list.get(0), list.get(1)), out)?)
}

/// Prints how many letters a queue has, and the first one.
pub fn put_queue(alloc: Global, letters: &str, out: &mut Bytes) -> Result<(), Fault> {
    let mut queue = Queue::new(alloc);
    for letter in letters.as_bytes() {
        queue.push(*letter)?;
    }
    Ok(put_value(alloc, &(queue.len(), queue.first()), out)?)
}
