// How reading ends where it gives no value.
ghost use Rattle.std.specs.Prelude.{◌≡◌};
ghost use Rattle.grammar.specs.declared.error.ReadError.TheVariants.{Memory as OutOfMemory, Stopped};

use mur_base::Memory;
use thiserror::Error;

/// No spelling goes on behind the bytes read: `left` of the bytes were left there.
#[derive(Clone, Copy, Debug, PartialEq, Eq, Error)]
#[error("stopped with {left} bytes left")]
pub struct Stop {
    pub left: usize,
}

/// Why a reader that takes memory gave no value.
#[derive(Clone, Copy, Debug, PartialEq, Eq, Error)]
pub enum ReadError {
    /// The allocator had no room.
    #[error("out of memory")]
    Memory,
    /// No spelling goes on so.
    #[error("{0}")]
    Stopped(Stop),
}

impl From<Memory> for ReadError {
    ghost from_gives = { λ _ error. error ≡ OutOfMemory };

    fn from(_error: Memory) -> ReadError {
        ReadError::Memory
    }
}

impl From<Stop> for ReadError {
    ghost from_gives = { λ stop error. error ≡ Stopped stop };

    fn from(stop: Stop) -> ReadError {
        ReadError::Stopped(stop)
    }
}
