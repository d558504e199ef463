// The mailbox store (RFC 9051, 2.3).
use mail_message::MailBox;
use mur_base::{Items, MailName, Map};

/// A UIDVALIDITY that was given to a mailbox of this name.
#[derive(Drop)]
pub struct Pair {
    pub name: MailName,
    pub serial: u32,
}

/// All mailboxes, and every UIDVALIDITY that was ever given.
#[derive(Drop)]
pub struct Store {
    pub boxes: Map<MailName, MailBox>,
    pub given: Items<Pair>,
}
