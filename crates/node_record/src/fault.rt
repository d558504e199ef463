// Why bytes are no entry.
ghost use Rattle.std.specs.Prelude.{◌≡◌};
ghost use Rattle.node_record.specs.declared.fault.RecordFault.TheVariants.{Memory as OutOfMemory};

use mur_base::Memory;
use thiserror::Error;

/// Why no entry was read.
#[derive(Clone, Copy, Debug, PartialEq, Eq, Error)]
pub enum RecordFault {
    /// The bytes are no entry: this is the first place at which none goes on. It is their length, where more had to come.
    #[error("no entry, from byte {0} on")]
    Bad(usize),
    /// The allocator had no room.
    #[error("out of memory")]
    Memory,
}

impl From<Memory> for RecordFault {
    ghost from_gives = { λ _ fault. fault ≡ OutOfMemory };

    fn from(_error: Memory) -> RecordFault {
        RecordFault::Memory
    }
}
