// Why a bench ends before its end, or fails there.
use mail_store::StoreFault;
use mur_base::Memory;
use std::alloc::AllocError;
use std::io;

/// Why a bench ends with status 1. It is copied and owns nothing, so that the way out of a function with it costs the prover
/// little.
#[derive(Clone, Copy)]
pub enum Fault {
    /// The words ask for no bench.
    Usage,
    /// The allocator had no room.
    Memory,
    /// The clock, the arguments or the output failed.
    Io,
    /// A made-up date isn't read as one.
    Date,
    /// A made-up flag isn't taken.
    Flags,
    /// A message isn't where it has to be.
    Missing,
    /// A mailbox refuses a change.
    Refused,
    /// An operation touches no message, or rises by a fifth or more when the box doubles.
    Rise,
    /// Work takes longer than its bound allows.
    Slow,
}

impl Fault {
    pub fn text(self) -> &'static str {
        match self {
            Fault::Usage =>
                "bench [frames|commands|replies|lists|boxes|search|configurations|mupdate [ROUNDS]]",
            Fault::Memory => "out of memory",
            Fault::Io => "a clock, the arguments or the output failed",
            Fault::Date => "no date",
            Fault::Flags => "no flags",
            Fault::Missing => "a message is missing",
            Fault::Refused => "a mailbox refuses a change",
            Fault::Rise =>
                "an operation touches nothing, or rises by a fifth or more when the box doubles",
            Fault::Slow => "work takes longer than its bound allows",
        }
    }
}

impl From<Memory> for Fault {
    fn from(_error: Memory) -> Fault {
        Fault::Memory
    }
}

impl From<AllocError> for Fault {
    fn from(_error: AllocError) -> Fault {
        Fault::Memory
    }
}

impl From<io::Error> for Fault {
    fn from(_error: io::Error) -> Fault {
        Fault::Io
    }
}

impl From<StoreFault> for Fault {
    fn from(fault: StoreFault) -> Fault {
        match fault {
            StoreFault::Memory => Fault::Memory,
            _ => Fault::Refused,
        }
    }
}
