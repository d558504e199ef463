// The names of flags (RFC 9051, 9: flag).
ghost use Rattle.std.specs.Prelude.{◌≡◌, ◌∷◌, ◌++◌, OnOk};
ghost use Rattle.mur_base.specs.Ascii.{backslash};
ghost use Rattle.imap_text.specs.FlagNames.{flag_text, system_text};

use mail_message::{FlagName, SystemFlag};
use mur_base::{Bytes, Memory};

/// The name of a system flag, with its backslash.
#[tactic(auto, unfolding(crate::specs::FlagNames::system_text))]
pub fn system_name(flag: SystemFlag) -> &'static [u8]
    ensures { result.now ≡ backslash ∷ system_text flag }
{
    match flag {
        SystemFlag::Answered => b"\\Answered",
        SystemFlag::Flagged => b"\\Flagged",
        SystemFlag::Deleted => b"\\Deleted",
        SystemFlag::Seen => b"\\Seen",
        SystemFlag::Draft => b"\\Draft",
    }
}

/// Writes the name of a flag.
pub fn put_flag(flag: &FlagName, out: &mut Bytes) -> Result<(), Memory>
    ensures { OnOk result (out.new ≡ out.old ++ flag_text flag.now) }
{
    match flag {
        FlagName::System(flag) => out.extend_from_slice(system_name(*flag)),
        FlagName::Keyword(keyword) => out.extend_from_slice(keyword.as_bytes()),
    }
}
