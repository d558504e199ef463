// How bytes begin with no line.
ghost use Rattle.std.specs.Prelude.{◌≡◌};
ghost use Rattle.mupdate_codec.specs.declared.fault.LineFault.TheVariants.{Memory as OutOfMemory};

use mur_base::Memory;
use thiserror::Error;

/// Why no line was read.
#[derive(Clone, Copy, Debug, PartialEq, Eq, Error)]
pub enum LineFault {
    /// The bytes are a proper prefix of a line.
    #[error("the line isn't whole")]
    More,
    /// No prefix of the bytes is a line, and they begin none; from this byte on none goes on, or here an argument begins
    /// that is no name or location.
    #[error("no line, from byte {0} on")]
    Bad(usize),
    /// The allocator had no room.
    #[error("out of memory")]
    Memory,
}

impl From<Memory> for LineFault {
    ghost from_gives = { λ _ fault. fault ≡ OutOfMemory };

    fn from(_error: Memory) -> LineFault {
        LineFault::Memory
    }
}
