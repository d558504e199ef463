// Frames: the command that one spells, printed; or how far it spells the beginning of one.
ghost use Rattle.imap_command.specs.Spells.{IsSpelled};

use case_base::{Fault, bytes_of, put_field};
use imap_command::{Bad, ReadFault, print, read, reread};
use imap_types::{Command, Tag};
use mur_base::{Bytes, Memory};
use std::alloc::Global;

/// Prints the command of a frame; or `bad`, how many bytes of the frame begin some command, and the tag of the frame, if it has one.
pub fn put_command(alloc: Global, frame: &str, out: &mut Bytes) -> Result<(), Fault> {
    let frame = bytes_of(alloc, frame)?;
    Ok(put_read(alloc, frame.as_slice(), out)?)
}

fn put_read(alloc: Global, frame: &[u8], out: &mut Bytes) -> Result<(), Memory> {
    match read(alloc, frame) {
        Ok(tagged) => put_again(alloc, &tagged.0, &tagged.1, out),
        Err(ReadFault::Bad(bad)) => put_bad(alloc, &bad, out),
        Err(ReadFault::Memory) => Err(Memory),
    }
}

/// Prints a command as it is once it was printed and read again.
fn put_again(alloc: Global, tag: &Tag, command: &Command, out: &mut Bytes) -> Result<(), Memory>
    requires { IsSpelled tag.now command.now }
{
    let tagged = reread(alloc, tag, command)?;
    put_printed(alloc, &tagged.0, &tagged.1, out)
}

fn put_printed(alloc: Global, tag: &Tag, command: &Command, out: &mut Bytes) -> Result<(), Memory>
    requires { IsSpelled tag.now command.now }
{
    let text = print(alloc, tag, command)?;
    put_field(text.as_slice(), out)
}

fn put_bad(alloc: Global, bad: &Bad, out: &mut Bytes) -> Result<(), Memory> {
    put_field(format!(in alloc; "bad {}", bad.at)?.as_bytes(), out)?;
    match &bad.tag {
        Some(Tag::Text(tag)) => put_field(tag.as_slice(), out),
        Some(Tag::Star) => put_field(b"*", out),
        None => Ok(()),
    }
}
