// Why a case doesn't pass.
use mur_base::{Memory, NameFault};
use std::alloc::AllocError;

/// Why a case doesn't pass. It is copied and owns nothing, so that the way out of a function with it costs the prover little;
/// the case itself is printed in the one place where it becomes the program's error.
#[derive(Clone, Copy)]
pub enum Fault {
    /// The text is another one than the case wants.
    Differs,
    /// A field can't be read.
    Unreadable(&'static str),
    Memory,
}

impl Fault {
    pub fn text(self) -> &'static str {
        match self {
            Fault::Differs => "differs",
            Fault::Unreadable(why) => why,
            Fault::Memory => "out of memory",
        }
    }
}

impl From<Memory> for Fault {
    fn from(_memory: Memory) -> Fault {
        Fault::Memory
    }
}

impl From<AllocError> for Fault {
    fn from(_memory: AllocError) -> Fault {
        Fault::Memory
    }
}

impl From<NameFault> for Fault {
    fn from(fault: NameFault) -> Fault {
        match fault {
            NameFault::Memory => Fault::Memory,
            _ => Fault::Unreadable("no name"),
        }
    }
}
