// What a client knows of the mailbox that it selected (RFC 9051, 3.3).
use mail_message::OrderedRows;
use mur_base::{Copied, MailName, Memory, UserName};
use std::alloc::Global;

/// A selected mailbox as its client was last told.
#[derive(Drop)]
pub struct View {
    pub user: UserName,
    pub name: MailName,
    /// The UIDVALIDITY that it had (RFC 9051, 2.3.1.1).
    pub serial: u32,
    /// Whether it was selected to be changed (RFC 9051, 6.3.2 and 6.3.3).
    pub is_writable: bool,
    /// UID and flags of each message, as last told; the first has the number 1.
    pub rows: OrderedRows,
}

impl Copied for View {
    fn copy(&self, alloc: Global) -> Result<View, Memory> {
        Ok(View {
            user: self.user.copy(alloc)?,
            name: self.name.copy(alloc)?,
            serial: self.serial,
            is_writable: self.is_writable,
            rows: self.rows.copy(alloc)?,
        })
    }
}
