// What a SEARCH found (RFC 9051, 7.3.4).
ghost use Rattle.std.specs.Prelude.{◌≡◌, ◌++◌, OnOk};
ghost use Rattle.imap_reply.specs.SearchLine.{uid_word, all_text, search_line};

use crate::sets::put_set;
use imap_text::put_tag;
use imap_types::Tag;
use mur_base::{Bytes, Memory};

/// Writes the numbers that the command with this tag found, and whether they are UIDs.
#[tactic(auto, using(std::proofs::lemmas::Grind::common_steps), unfolding(crate::specs::SearchLine::search_line))]
pub fn put_search(tag: &Tag, by_uid: bool, numbers: &[u32], out: &mut Bytes) -> Result<(), Memory>
    ensures { OnOk result (out.new ≡ out.old ++ search_line tag.now by_uid numbers.now) }
{
    out.extend_from_slice(b"* ESEARCH (TAG \"")?;
    put_tag(tag, out)?;
    out.extend_from_slice(b"\")")?;
    out.extend_from_slice(uid_text(by_uid))?;
    put_all(numbers, out)?;
    out.extend_from_slice(b"\r\n")
}

#[tactic(auto, unfolding(crate::specs::SearchLine::uid_word))]
fn uid_text(by_uid: bool) -> &'static [u8]
    ensures { result.now ≡ uid_word by_uid }
{
    if by_uid { b" UID" } else { b"" }
}

/// Writes the numbers, if there are any.
#[tactic(auto, using(std::proofs::lemmas::Grind::common_steps), unfolding(crate::specs::SearchLine::all_text))]
fn put_all(numbers: &[u32], out: &mut Bytes) -> Result<(), Memory>
    ensures { OnOk result (out.new ≡ out.old ++ all_text numbers.now) }
{
    match numbers {
        [] => Ok(()),
        [_, ..] => {
            out.extend_from_slice(b" ALL ")?;
            put_set(numbers, out)
        }
    }
}
