// Names: what is one, which patterns they match, and the access lists of new mailboxes.
use case_base::{Fault, bytes_of, put_field, put_value};
use mail_message::{first_acl, flag};
use mur_base::limits::NAME_LIMIT;
use mur_base::{Bytes, Memory, mail_name, matches, node_name, user_name};
use std::alloc::Global;
use std::fmt::Debug;

/// Prints why a text is no name of a kind: `None` if it is one.
pub fn put_fault(alloc: Global, kind: &str, text: &str, out: &mut Bytes) -> Result<(), Fault> {
    let text = bytes_of(alloc, text)?;
    let text = text.as_slice();
    match kind {
        "mailbox" => put_why(alloc, &mail_name(alloc, text), out),
        "node" => put_why(alloc, &node_name(alloc, text), out),
        "user" => put_why(alloc, &user_name(alloc, text), out),
        "flag" => put_why(alloc, &flag(text), out),
        _ => Err(Fault::Unreadable("no kind of name")),
    }
}

fn put_why<T, F: Debug>(alloc: Global, read: &Result<T, F>, out: &mut Bytes) -> Result<(), Fault> {
    Ok(put_value(alloc, &read.as_ref().err(), out)?)
}

/// Prints whether a text matches a pattern.
pub fn put_match(alloc: Global, pattern: &str, text: &str, out: &mut Bytes) -> Result<(), Fault> {
    let text = bytes_of(alloc, text)?;
    if text.len() > NAME_LIMIT {
        return Err(Fault::Unreadable("too long a name"));
    }
    Ok(put_value(alloc, &matches(pattern.as_bytes(), text.as_slice()), out)?)
}

/// Prints the access list of a new mailbox.
pub fn put_first_acl(alloc: Global, name: &str, out: &mut Bytes) -> Result<(), Fault> {
    let name = mail_name(alloc, name.as_bytes())?;
    let acl = first_acl(alloc, &name)?;
    Ok(put_field(acl.as_slice(), out)?)
}
