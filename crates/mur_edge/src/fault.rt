// What a call of the edge answers when it fails.
ghost use Rattle.std.specs.Prelude.{◌≡◌};
ghost use Rattle.mur_edge.specs.Counts.{SourceFault, OutputFault, ErrorFault};
ghost use Rattle.mur_edge.specs.declared.fault.HostFault.TheVariants.{Memory, Failed as failed};

use mur_base::Memory;
use thiserror::Error;

/// A read or a write failed. The count of faults of the object that was called has risen.
#[derive(Clone, Copy, Debug, PartialEq, Eq, Error)]
#[error("failed")]
pub struct Failed;

/// Why nothing was handed out, or not all was read.
#[derive(Clone, Copy, Debug, PartialEq, Eq, Error)]
pub enum HostFault {
    /// The call failed, and the count of faults that it belongs to has risen.
    #[error("failed")]
    Failed,
    /// The allocator had no room. Nothing was counted.
    #[error("out of memory")]
    Memory,
}

/// How many faults a host has counted, by the kind of object. No count ever falls, and each stands still at its type's end.
#[derive(Clone, Copy, Debug, PartialEq, Eq)]
pub struct Faults {
    pub sources: u64,
    pub outputs: u64,
    pub errors: u64,
}

impl Faults {
    /// No fault.
    pub const NONE: Faults = Faults {
        sources: 0,
        outputs: 0,
        errors: 0,
    };

    /// Counts a fault of a source.
    pub fn count_source(&mut self)
        ensures { SourceFault self.old self.new }
    {
        self.sources = self.sources.saturating_add(1);
    }

    /// Counts a fault of an output.
    pub fn count_output(&mut self)
        ensures { OutputFault self.old self.new }
    {
        self.outputs = self.outputs.saturating_add(1);
    }

    /// Counts a fault of an error output.
    pub fn count_error(&mut self)
        ensures { ErrorFault self.old self.new }
    {
        self.errors = self.errors.saturating_add(1);
    }
}

impl From<Failed> for HostFault {
    ghost from_gives = { λ _ fault. fault ≡ failed };

    fn from(_failed: Failed) -> HostFault {
        HostFault::Failed
    }
}

impl From<Memory> for HostFault {
    ghost from_gives = { λ _ fault. fault ≡ Memory };

    fn from(_memory: Memory) -> HostFault {
        HostFault::Memory
    }
}
