// Why a replica doesn't take a line.
ghost use Rattle.std.specs.Prelude.{◌≡◌};

use mur_base::Memory;
use thiserror::Error;

/// Why a line isn't taken.
#[derive(Clone, Copy, Debug, PartialEq, Eq, Error)]
pub enum FeedFault {
    /// NO and BAD stand in no stream (RFC 3656, 4.11).
    #[error("the line stands in no stream")]
    NoFeedLine,
    /// The allocator had no room for the record.
    #[error("out of memory")]
    Memory,
}

impl From<Memory> for FeedFault {
    ghost use Rattle.std.specs.Prelude.{◌≡◌};
    ghost use Rattle.feed_core.specs.declared.fault.FeedFault.TheVariants.{Memory as memory};

    ghost from_gives = { λ _ fault. fault ≡ memory };

    fn from(_memory: Memory) -> FeedFault {
        FeedFault::Memory
    }
}
