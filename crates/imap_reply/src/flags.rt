// The flags of a mailbox (RFC 9051, 7.3.5).
ghost use Rattle.std.specs.Prelude.{◌≡◌, ◌++◌, map, OnOk};
ghost use Rattle.imap_reply.specs.Spaced.{more_spaced};
ghost use Rattle.imap_reply.specs.FlagsLine.{flag_names_text, flags_line};
ghost use Rattle.imap_text.specs.FlagNames.{flag_text};

use imap_text::put_flag;
use mail_message::FlagName;
use mur_base::{Bytes, Memory};

/// Writes which flags a mailbox has.
#[tactic(auto, using(std::proofs::lemmas::Grind::common_steps), unfolding(crate::specs::FlagsLine::flags_line))]
pub fn put_flags_line(flags: &[FlagName], out: &mut Bytes) -> Result<(), Memory>
    ensures { OnOk result (out.new ≡ out.old ++ flags_line flags.now) }
{
    out.extend_from_slice(b"* FLAGS (")?;
    put_flags(flags, out)?;
    out.extend_from_slice(b")\r\n")
}

/// Writes flags with a space between each two.
#[tactic(auto, using(std::proofs::lemmas::Grind::common_steps), unfolding(crate::specs::FlagsLine::flag_names_text, crate::specs::Spaced::spaced_text))]
pub fn put_flags(flags: &[FlagName], out: &mut Bytes) -> Result<(), Memory>
    ensures { OnOk result (out.new ≡ out.old ++ flag_names_text flags.now) }
{
    match flags {
        [] => Ok(()),
        [flag, more @ ..] => {
            put_flag(flag, out)?;
            put_more_flags(more, out)
        }
    }
}

/// Writes flags, a space before each.
#[tactic(auto, using(std::proofs::lemmas::Grind::common_steps), unfolding(crate::specs::Spaced::more_spaced))]
pub fn put_more_flags(flags: &[FlagName], out: &mut Bytes) -> Result<(), Memory>
    ensures { OnOk result (out.new ≡ out.old ++ more_spaced (map flag_text flags.now)) }
{
    for flag in flags {
        out.push(b' ')?;
        put_flag(flag, out)?;
    }
    Ok(())
}
