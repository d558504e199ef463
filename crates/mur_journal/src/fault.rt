// Why a call of a journal was refused.
ghost use Rattle.std.specs.Prelude.{◌≡◌};
ghost use Rattle.mur_journal.specs.Faults.{append_fault_of, open_fault};
ghost use Rattle.mur_journal.specs.declared.fault.AppendFault.TheVariants.{Memory};
ghost use Rattle.mur_journal.specs.declared.fault.OpenFault.TheVariants.{Memory as no_room_to_open};

use mur_base::Memory;
use mur_disk::DiskFault;
use std::alloc::AllocError;
use thiserror::Error;

/// Why an append was refused. From then on the journal is spent.
#[derive(Clone, Copy, Debug, PartialEq, Eq, Error)]
pub enum AppendFault {
    /// The disk failed, and its count has risen.
    #[error("the disk failed")]
    Disk,
    /// An append was refused before, for its disk or for memory. The disk wasn't touched.
    #[error("spent")]
    Spent,
    /// The allocator had no room.
    #[error("out of memory")]
    Memory,
}

impl From<Memory> for AppendFault {
    ghost from_gives = { λ _ fault. fault ≡ Memory };

    fn from(_memory: Memory) -> AppendFault {
        AppendFault::Memory
    }
}

impl From<DiskFault> for AppendFault {
    ghost from_gives = { λ fault given. given ≡ append_fault_of fault };

    fn from(fault: DiskFault) -> AppendFault {
        match fault {
            DiskFault::Failed => AppendFault::Disk,
            DiskFault::Memory => AppendFault::Memory,
        }
    }
}

/// Why a disk wasn't opened.
#[derive(Clone, Copy, Debug, PartialEq, Eq, Error)]
pub enum OpenFault {
    /// The image isn't a journal, which shows at this offset in bytes.
    #[error("not a journal at {0}")]
    NotAJournal(u64),
    /// The disk failed, and its count has risen.
    #[error("the disk failed")]
    Disk,
    /// The allocator had no room.
    #[error("out of memory")]
    Memory,
}

impl From<Memory> for OpenFault {
    ghost from_gives = { λ _ fault. fault ≡ no_room_to_open };

    fn from(_memory: Memory) -> OpenFault {
        OpenFault::Memory
    }
}

impl From<AllocError> for OpenFault {
    ghost from_gives = { λ _ fault. fault ≡ no_room_to_open };

    fn from(_error: AllocError) -> OpenFault {
        OpenFault::Memory
    }
}

impl From<DiskFault> for OpenFault {
    ghost from_gives = { λ fault given. given ≡ open_fault fault };

    fn from(fault: DiskFault) -> OpenFault {
        match fault {
            DiskFault::Failed => OpenFault::Disk,
            DiskFault::Memory => OpenFault::Memory,
        }
    }
}
