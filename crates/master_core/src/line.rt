// The tag under which bytes that are no command are answered.
ghost use Rattle.std.specs.Prelude.{◌≡◌, ◌<◌, ◌==◌, length, position, IfOk, IfSome};
ghost use Rattle.std.specs.List.{list_all};
ghost use Rattle.mur_base.specs.Ascii.{space};
ghost use Rattle.mupdate_codec.specs.Characters.{is_mupdate_tag_byte};
ghost use Rattle.master_core.specs.Lines.{is_tag, tag_if, tag_before};

use mupdate_codec::Tag;
use mur_base::{Bytes, Memory};
use std::alloc::Global;

// How many bytes a tag has at most (RFC 3656, 2).
const TAG_LIMIT: usize = 41;

#[tactic(auto, unfolding(mupdate_codec::specs::Characters::is_mupdate_tag_byte))]
fn has_tag_bytes(text: &[u8]) -> bool
    ensures { result ≡ list_all is_mupdate_tag_byte text.now }
{
    text.iter()
        .all(|byte| byte.is_ascii_alphanumeric() || *byte == b'-')
}

/// Whether a text is 1 to 41 letters, digits and `-`.
fn is_tag(text: &[u8]) -> bool
    ensures { result ≡ is_tag text.now }
{
    has_tag_bytes(text) && !text.is_empty() && text.len() <= TAG_LIMIT
}

/// The place of the first space, if there is one.
fn first_space(line: &[u8]) -> Option<usize>
    ensures at { result ≡ position (λ b. b == space) line.now }
    ensures within { IfSome result (λ at. at < length line.now) }
{
    line.iter().position(|byte| *byte == b' ')
}

/// The tag that a word is, or `*`.
fn tag_of_word(alloc: Global, word: &[u8]) -> Result<Tag, Memory>
    ensures { IfOk result (λ tag. tag ≡ tag_if word.now) }
{
    if is_tag(word) {
        Ok(Tag::Text(Bytes::from_slice(alloc, word)?))
    } else {
        Ok(Tag::Star)
    }
}

/// The first word, if that is a tag and a space follows it; else `*`.
#[tactic(auto, using(std::proofs::lemmas::Grind::common_steps), unfolding(crate::specs::Lines::tag_before))]
pub fn tag_before(alloc: Global, line: &[u8]) -> Result<Tag, Memory>
    ensures { IfOk result (λ tag. tag ≡ tag_before line.now) }
{
    match first_space(line) {
        None => Ok(Tag::Star),
        Some(at) => tag_of_word(alloc, &line[..at]),
    }
}
