// Why a mailbox isn't changed.
use mur_base::Memory;

/// Why a mailbox isn't changed, the first that holds.
#[derive(Clone, Copy, Debug, PartialEq, Eq)]
pub enum StoreFault {
    /// The box would have more than 20,000 messages.
    TooMany,
    /// UIDNEXT would pass 4,294,967,295.
    UidsSpent,
    /// A message would have more than 16 keywords.
    TooManyFlags,
    /// The allocator had no room.
    Memory,
}

impl From<Memory> for StoreFault {
    ghost use Rattle.std.specs.Prelude.{◌≡◌};
    ghost use Rattle.mail_store.specs.declared.fault.StoreFault.TheVariants.{Memory as memory};

    ghost from_gives = { λ _ fault. fault ≡ memory };

    fn from(_memory: Memory) -> StoreFault {
        StoreFault::Memory
    }
}
