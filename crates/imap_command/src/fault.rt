// How a frame is no command.
ghost use Rattle.std.specs.Prelude.{◌≡◌};
ghost use Rattle.imap_command.specs.declared.fault.ReadFault.TheVariants.{Memory as OutOfMemory};

use imap_types::Tag;
use mur_base::Memory;
use std::fmt;
use thiserror::Error;

/// The frame spells no command.
#[derive(Drop, Error)]
#[error("no command, from byte {at} on")]
pub struct Bad {
    /// The first word, where it is a tag with a space behind it.
    pub tag: Option<Tag>,
    /// How many bytes the longest prefix has that begins some command.
    pub at: usize,
}

// By hand, since a `Tag` has none.
impl fmt::Debug for Bad {
    fn fmt<W: fmt::Write>(&self, f: &mut fmt::Formatter<W>) -> fmt::Result {
        write!(f, "Bad {{ at: {} }}", self.at)
    }
}

/// Why no command was read.
#[derive(Debug, Drop, Error)]
pub enum ReadFault {
    /// The frame spells none.
    #[error("{0}")]
    Bad(Bad),
    /// The allocator had no room.
    #[error("out of memory")]
    Memory,
}

impl From<Memory> for ReadFault {
    ghost from_gives = { λ _ fault. fault ≡ OutOfMemory };

    fn from(_error: Memory) -> ReadFault {
        ReadFault::Memory
    }
}
