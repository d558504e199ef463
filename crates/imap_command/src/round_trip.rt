// What a frame spells and what is printed: laws of the reader and the printer together.
ghost use Rattle.std.specs.Prelude.{◌≡◌, ℕ, List, IfOk};
ghost use Rattle.imap_command.specs.Spells.{Spells, IsSpelled};
ghost use Rattle.imap_types.specs.declared.command.Command.{Command};
ghost use Rattle.imap_types.specs.declared.command.Tag.{Tag};

use crate::fault::ReadFault;
use crate::printer::print;
use crate::reader::read;
use imap_types::{Command, Tag};
use mur_base::Memory;
use std::alloc::Global;

/// No frame spells two commands, nor one under two tags.
pub fn a_frame_spells_one_command()
    ensures { (frame : List ℕ) (one other : Tag × Command) → Spells frame one → Spells frame other → one ≡ other }
{}

/// Reads what is printed of a command: it is that command under that tag.
pub fn reread(alloc: Global, tag: &Tag, command: &Command) -> Result<(Tag, Command), Memory>
    requires { IsSpelled tag.now command.now }
    ensures { IfOk result (λ tagged. tagged ≡ (tag.now, command.now)) }
{
    let frame = print(alloc, tag, command)?;
    match read(alloc, frame.as_slice()) {
        Ok(tagged) => Ok(tagged),
        Err(ReadFault::Memory) => Err(Memory),
        Err(ReadFault::Bad(_)) => unreachable!(),
    }
}
