//! The entries of the disks of the master and of the backends: their bytes, and what they make.
//!
//! An entry is a kind, which is one byte, and the fields of its kind: `specs/MasterEntries.antt` and `specs/BackendEntries.antt`
//! have a row for each. The parts of fields are numbers, texts, names, locations and lists (`specs/Parts.antt`), flags
//! (`specs/Flags.antt`) and messages, rows and changes (`specs/Messages.antt`):
//!
//! | Part | Bytes |
//! |---|---|
//! | number | four bytes, the highest first |
//! | text, name, location, date | the number of its bytes, and its bytes |
//! | list | the number of its members, and its members |
//! | flags | one byte, 1 answered, 2 flagged, 4 deleted, 8 seen, 16 draft; the list of keywords in strictly rising byte order |
//! | message | UID, flags, date, body |
//! | change | one byte, 1 Put, 2 SetFlags, 3 Gone, 4 NextUid; the message, the UID and flags, the UID or the number |
//!
//! So `04 00 00 00 01 61` says that the name `a` has no record. [`encode_master`] and [`encode_backend`] give the bytes of an entry;
//! [`decode_master`] and [`decode_backend`] take just these, and name the first place at which bytes go on as no entry. That place
//! hangs on what may still come: two keywords can't rise above 64 bytes `~`, so the first of two stops at such a byte.
//!
//! [`apply_master`] and [`apply_backend`] carry one entry out (`specs/Table.antt`, `specs/Held.antt`). So the table of a master, and
//! the mailboxes of a backend, are what the entries of its disk make, from the first to the last.
#![tactic(auto)]

mod backend;
mod change;
mod fault;
mod flags;
mod held;
mod keyword;
mod laws;
mod list;
mod master;
mod message;
mod number;
mod table;
mod text;

pub use backend::{BackendKind, BackendRecord, MailNames, decode_backend, encode_backend};
pub use fault::RecordFault;
pub use held::{Held, HeldNames, apply_backend};
pub use laws::{a_backend_entry_is_one_record, a_master_entry_is_one_record};
pub use master::{MasterKind, MasterRecord, copied_place, decode_master, encode_master};
pub use table::{Record, State, Table, apply_master};
