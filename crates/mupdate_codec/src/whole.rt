// The command or the response whose line the bytes are, with nothing after it.
ghost use Rattle.std.specs.Prelude.{◌≡◌, IfOk};
ghost use Rattle.mupdate_codec.specs.Whole.{command_in, response_in};

use crate::command::{MCommand, MResponse};
use crate::fault::LineFault;
use crate::reader::{read_command, read_response};
use crate::tag::Tag;
use mur_base::Memory;
use std::alloc::Global;

/// The command whose line the bytes are, with its tag; `None` if they are another line, no whole line, or a line with bytes after it.
pub fn command_in(alloc: Global, line: &[u8]) -> Result<Option<(Tag, MCommand)>, Memory>
    ensures { IfOk result (λ it. it ≡ command_in line.now) }
{
    match read_command(alloc, line) {
        Ok((tag, command, used)) => {
            if used == line.len() {
                Ok(Some((tag, command)))
            } else {
                Ok(None)
            }
        }
        Err(LineFault::More) => Ok(None),
        Err(LineFault::Bad(_at)) => Ok(None),
        Err(LineFault::Memory) => Err(Memory),
    }
}

/// The response whose line the bytes are, with its tag; `None` if they are another line, no whole line, or a line with bytes after it.
pub fn response_in(alloc: Global, line: &[u8]) -> Result<Option<(Tag, MResponse)>, Memory>
    ensures { IfOk result (λ it. it ≡ response_in line.now) }
{
    match read_response(alloc, line) {
        Ok((tag, response, used)) => {
            if used == line.len() {
                Ok(Some((tag, response)))
            } else {
                Ok(None)
            }
        }
        Err(LineFault::More) => Ok(None),
        Err(LineFault::Bad(_at)) => Ok(None),
        Err(LineFault::Memory) => Err(Memory),
    }
}
