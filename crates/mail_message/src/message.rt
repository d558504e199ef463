// Messages, and lists of what a mailbox tells of them.
use crate::date_text::DateText;
use crate::flag_set::FlagSet;
use crate::ordered_rows::OrderedRows;
use mur_base::{Bytes, Copied, Items, Memory};
use std::alloc::Global;

/// A message of a mailbox (RFC 9051, 2.3).
#[derive(Drop)]
pub struct Message {
    /// Its unique identifier (RFC 9051, 2.3.1.1).
    pub uid: u32,
    pub flags: FlagSet,
    /// Its internal date (RFC 9051, 2.3.3).
    pub date: DateText,
    pub body: Bytes,
}

impl Message {
    ghost use Rattle.std.specs.Prelude.{◌≡◌, IfOk};
    ghost use Rattle.mail_message.specs.Boxes.{row_of, summary_of, is_deleted};

    /// Whether it has `\Deleted` (RFC 9051, 2.3.2).
    pub fn is_deleted(&self) -> bool
        ensures { result ≡ is_deleted self.now }
    {
        self.flags.system().deleted
    }

    /// Its UID and flags.
    pub fn row(&self, alloc: Global) -> Result<Row, Memory>
        ensures { IfOk result (λ row. row ≡ row_of self.now) }
    {
        Ok(Row {
            uid: self.uid,
            flags: self.flags.copy(alloc)?,
        })
    }

    /// What is told of it without its body.
    pub fn summary(&self, alloc: Global) -> Result<Summary, Memory>
        ensures { IfOk result (λ summary. summary ≡ summary_of self.now) }
    {
        Ok(Summary {
            uid: self.uid,
            flags: self.flags.copy(alloc)?,
            date: self.date,
            size: self.body.len() as u64,
        })
    }
}

/// Messages in the order in which they are told.
pub type Messages = Items<Message>;

/// Unique identifiers of messages.
pub type Uids = Items<u32>;

impl Copied for Message {
    fn copy(&self, alloc: Global) -> Result<Message, Memory> {
        Ok(Message {
            uid: self.uid,
            flags: self.flags.copy(alloc)?,
            date: self.date,
            body: Bytes::from_slice(alloc, self.body.as_slice())?,
        })
    }
}

/// A message without its body and date.
#[derive(Drop)]
pub struct Row {
    pub uid: u32,
    pub flags: FlagSet,
}

/// Rows of a mailbox.
pub type Rows = Items<Row>;

impl Copied for Row {
    fn copy(&self, alloc: Global) -> Result<Row, Memory> {
        Ok(Row {
            uid: self.uid,
            flags: self.flags.copy(alloc)?,
        })
    }
}

/// A message without its body.
#[derive(Drop)]
pub struct Summary {
    pub uid: u32,
    pub flags: FlagSet,
    /// Its internal date (RFC 9051, 2.3.3).
    pub date: DateText,
    /// Bytes of its body (RFC 9051, 2.3.4).
    pub size: u64,
}

/// Summaries of messages, in the order in which they are told.
pub type Summaries = Items<Summary>;

/// What a mailbox tells of itself at one moment.
#[derive(Drop)]
pub struct Snapshot {
    /// UIDVALIDITY (RFC 9051, 2.3.1.1).
    pub serial: u32,
    /// UIDNEXT (RFC 9051, 2.3.1.1).
    pub next: u32,
    /// Bytes of all bodies together, at most the greatest `u64`.
    pub size: u64,
    /// A row for each message.
    pub rows: OrderedRows,
}
