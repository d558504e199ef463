// The entries of a backend, in words.
use crate::fields::{put_change, put_count, put_message, put_row};
use case_base::put_field;
use mail_message::{Change, Message, Row};
use mur_base::{Bytes, MailName, Memory, NodeName};
use node_record::BackendRecord;

/// Puts an entry: its kind and its fields.
pub fn put(entry: &BackendRecord, out: &mut Bytes) -> Result<(), Memory> {
    match entry {
        BackendRecord::Make(name, serial, acl) => {
            put_named(b"make", name, out)?;
            put_made(*serial, acl, out)
        }
        BackendRecord::Opened(name) => put_named(b"opened", name, out),
        BackendRecord::Added(name, messages) => {
            put_named(b"added", name, out)?;
            put_messages(messages.as_slice(), out)
        }
        BackendRecord::Flagged(name, rows) => {
            put_named(b"flagged", name, out)?;
            put_rows(rows.as_slice(), out)
        }
        BackendRecord::Gone(name, uids) => {
            put_named(b"gone", name, out)?;
            put_uids(uids.as_slice(), out)
        }
        BackendRecord::Closing(name) => put_named(b"closing", name, out),
        moving => put_moving(moving, out),
    }
}

/// Puts an entry of a mailbox that moves, or of names that are let go.
fn put_moving(entry: &BackendRecord, out: &mut Bytes) -> Result<(), Memory> {
    match entry {
        BackendRecord::Begun(name, giver, serial, acl) => {
            put_named(b"begun", name, out)?;
            put_node(giver, out)?;
            put_made(*serial, acl, out)
        }
        BackendRecord::Took(name, changes) => {
            put_named(b"took", name, out)?;
            put_changes(changes.as_slice(), out)
        }
        BackendRecord::Ready(name, next) => {
            put_named(b"ready", name, out)?;
            put_count(*next, out)
        }
        BackendRecord::Pointer(name, server) => {
            put_named(b"pointer", name, out)?;
            put_node(server, out)
        }
        BackendRecord::Forget(names) => {
            put_field(b"forget", out)?;
            put_names(names.as_slice(), out)
        }
        _ => Ok(()),
    }
}

fn put_named(kind: &[u8], name: &MailName, out: &mut Bytes) -> Result<(), Memory> {
    put_field(kind, out)?;
    put_field(name.as_bytes(), out)
}

fn put_node(node: &NodeName, out: &mut Bytes) -> Result<(), Memory> {
    put_field(node.as_bytes(), out)
}

fn put_made(serial: u32, acl: &Bytes, out: &mut Bytes) -> Result<(), Memory> {
    put_count(serial, out)?;
    put_field(acl.as_slice(), out)
}

fn put_messages(messages: &[Message], out: &mut Bytes) -> Result<(), Memory> {
    for message in messages {
        put_message(message, out)?;
    }
    Ok(())
}

fn put_rows(rows: &[Row], out: &mut Bytes) -> Result<(), Memory> {
    for row in rows {
        put_row(row, out)?;
    }
    Ok(())
}

fn put_uids(uids: &[u32], out: &mut Bytes) -> Result<(), Memory> {
    for uid in uids {
        put_count(*uid, out)?;
    }
    Ok(())
}

fn put_changes(changes: &[Change], out: &mut Bytes) -> Result<(), Memory> {
    for change in changes {
        put_change(change, out)?;
    }
    Ok(())
}

fn put_names(names: &[MailName], out: &mut Bytes) -> Result<(), Memory> {
    for name in names {
        put_field(name.as_bytes(), out)?;
    }
    Ok(())
}
