// Untagged lines OK about the mailbox that is selected (RFC 9051, 7.1 and 7.1.1).
ghost use Rattle.std.specs.Prelude.{◌≡◌, [], ◌∷◌, ◌++◌, map, OnOk};
ghost use Rattle.imap_reply.specs.Spaced.{spaced_text};
ghost use Rattle.imap_text.specs.FlagNames.{flag_text};
ghost use Rattle.imap_reply.specs.OkLines.{closed_line, new_keywords, permanent_texts, permanent_line, uid_next_line, uid_validity_line};

use crate::flags::{put_flags, put_more_flags};
use crate::numbered::put_numbered;
use imap_text::put_flag;
use mail_message::FlagName;
use mur_base::{Bytes, Memory};

/// Writes that the mailbox that was selected is so no more.
#[tactic(auto, unfolding(crate::specs::OkLines::closed_line))]
pub fn put_closed(out: &mut Bytes) -> Result<(), Memory>
    ensures { OnOk result (out.new ≡ out.old ++ closed_line) }
{
    out.extend_from_slice(b"* OK [CLOSED] closed\r\n")
}

/// Writes which flags the client can change, and whether it can make keywords.
#[tactic(auto, using(std::proofs::lemmas::Grind::common_steps), unfolding(crate::specs::OkLines::permanent_line))]
pub fn put_permanent(flags: &[FlagName], new: bool, out: &mut Bytes) -> Result<(), Memory>
    ensures { OnOk result (out.new ≡ out.old ++ permanent_line flags.now new) }
{
    out.extend_from_slice(b"* OK [PERMANENTFLAGS (")?;
    put_permanent_flags(flags, new, out)?;
    out.extend_from_slice(b")] flags\r\n")
}

#[tactic(auto, unfolding(crate::specs::OkLines::permanent_texts, crate::specs::FlagsLine::flag_names_text))]
fn put_permanent_flags(flags: &[FlagName], new: bool, out: &mut Bytes) -> Result<(), Memory>
    ensures { OnOk result (out.new ≡ out.old ++ spaced_text (permanent_texts flags.now new)) }
{
    if new {
        put_flags_and_new(flags, out)
    } else {
        put_flags(flags, out)
    }
}

/// Writes flags with a space between each two, and `\*` as the last of them.
fn put_flags_and_new(flags: &[FlagName], out: &mut Bytes) -> Result<(), Memory>
    ensures { OnOk result (out.new ≡ out.old ++ spaced_text (map flag_text flags.now ++ new_keywords ∷ [])) }
{
    match flags {
        [] => out.extend_from_slice(b"\\*"),
        [flag, more @ ..] => {
            put_flag(flag, out)?;
            put_more_flags(more, out)?;
            out.extend_from_slice(b" \\*")
        }
    }
}

/// Writes the UID that the next message gets.
#[tactic(auto, unfolding(crate::specs::OkLines::uid_next_line))]
pub fn put_uid_next(uid: u32, out: &mut Bytes) -> Result<(), Memory>
    ensures { OnOk result (out.new ≡ out.old ++ uid_next_line uid) }
{
    put_numbered(b"* OK [UIDNEXT ", uid, b"] next\r\n", out)
}

/// Writes the UIDVALIDITY of the mailbox.
#[tactic(auto, unfolding(crate::specs::OkLines::uid_validity_line))]
pub fn put_uid_validity(serial: u32, out: &mut Bytes) -> Result<(), Memory>
    ensures { OnOk result (out.new ≡ out.old ++ uid_validity_line serial) }
{
    put_numbered(b"* OK [UIDVALIDITY ", serial, b"] validity\r\n", out)
}
