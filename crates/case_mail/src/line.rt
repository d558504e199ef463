// Lines of a client, and the replies that it is given.
use case_base::{Fault, bytes_of};
use imap_command::read_request;
use imap_reply::write;
use imap_types::{Command, Reply, Request, Tag};
use mur_base::{Bytes, Memory};
use schedule_text::put_text;
use std::alloc::Global;

/// The command that a line spells.
pub fn command_of(alloc: Global, line: &str) -> Result<Command, Fault> {
    let mut frame = bytes_of(alloc, line)?;
    frame.extend_from_slice(b"\r\n")?;
    match read_request(alloc, frame.as_slice())? {
        Request::Command(_tag, command) => Ok(command),
        _ => Err(Fault::Unreadable("no command")),
    }
}

/// Prints the reply to a line, under the line's first word.
pub fn put_reply(alloc: Global, line: &str, reply: &Reply, out: &mut Bytes) -> Result<(), Memory> {
    let (tag, _) = line.split_once(' ').unwrap_or((line, ""));
    let tag = Tag::Text(Bytes::from_slice(alloc, tag.as_bytes())?);
    let mut text = Bytes::new(alloc);
    write(&tag, reply, &mut text)?;
    put_text(text.as_slice(), out)
}
