// The text of a flag.
ghost use Rattle.std.specs.Prelude.{◌≡◌, Option};
ghost use Rattle.mail_message.specs.FlagNames.{system_flag_of, IsReadAsFlag, flag_fault};

use crate::keyword::Keyword;
use crate::system_flags::SystemFlag;
use crate::word::is_word;
use mur_base::{Copied, Memory, NameFault};
use std::alloc::Global;

/// A flag of a message: a system flag or a keyword (RFC 9051, 2.3.2).
#[derive(Drop)]
pub enum FlagName {
    System(SystemFlag),
    Keyword(Keyword),
}

impl Copied for FlagName {
    fn copy(&self, alloc: Global) -> Result<FlagName, Memory> {
        match self {
            FlagName::System(flag) => Ok(FlagName::System(*flag)),
            FlagName::Keyword(keyword) => Ok(FlagName::Keyword(keyword.copy(alloc)?)),
        }
    }
}

/// Why a text is no flag, the first rule that it breaks, or why a set of flags has no room.
#[derive(Clone, Copy, Debug, PartialEq, Eq)]
pub enum FlagFault {
    /// The text is empty.
    Empty,
    /// The text has more than 64 bytes.
    TooLong,
    /// A byte stands in it that no atom has.
    BadByte,
    /// There would be more than 16 keywords.
    TooMany,
    /// The allocator had no room.
    Memory,
}

impl From<Memory> for FlagFault {
    ghost use Rattle.std.specs.Prelude.{◌≡◌};
    ghost use Rattle.mail_message.specs.declared.flag_name.FlagFault.TheVariants.{Memory as memory};

    ghost from_gives = { λ _ fault. fault ≡ memory };

    fn from(_memory: Memory) -> FlagFault {
        FlagFault::Memory
    }
}

/// The flag that a text is: a system flag in any case of letters, or a keyword byte by byte. Refused by the first rule
/// of keywords that it breaks.
pub fn flag(text: &[u8]) -> Result<FlagName, FlagFault>
    ensures { IsReadAsFlag text.now result }
{
    if let Some(flag) = system_flag(text) {
        return Ok(FlagName::System(flag));
    }
    match Keyword::read(text) {
        Ok(keyword) => Ok(FlagName::Keyword(keyword)),
        Err(fault) => Err(flag_fault(fault)),
    }
}

fn flag_fault(fault: NameFault) -> FlagFault
    ensures { result ≡ flag_fault fault }
{
    match fault {
        NameFault::Empty => FlagFault::Empty,
        NameFault::TooLong => FlagFault::TooLong,
        NameFault::BadByte | NameFault::BadLevel => FlagFault::BadByte,
        NameFault::Memory => FlagFault::Memory,
    }
}

#[tactic(auto, unfolding(crate::specs::FlagNames::system_flag_of))]
fn system_flag(text: &[u8]) -> Option<SystemFlag>
    ensures { result ≡ system_flag_of text.now }
{
    if is_word(text, b"\\Answered") {
        Some(SystemFlag::Answered)
    } else if is_word(text, b"\\Flagged") {
        Some(SystemFlag::Flagged)
    } else if is_word(text, b"\\Deleted") {
        Some(SystemFlag::Deleted)
    } else if is_word(text, b"\\Seen") {
        Some(SystemFlag::Seen)
    } else if is_word(text, b"\\Draft") {
        Some(SystemFlag::Draft)
    } else {
        None
    }
}
