// Tags (RFC 3656, 2).
ghost use Rattle.std.specs.Prelude.{◌≡◌, ◌++◌, OnOk};
ghost use Rattle.grammar.specs.Gives.{Finds};
ghost use Rattle.grammar.specs.Words.{word};
ghost use Rattle.mupdate_codec.specs.Characters.{is_mupdate_tag_byte};
ghost use Rattle.mupdate_codec.specs.Tags.{mupdate_tag_text, mupdate_tags};

use crate::limits::TAG_MOST;
use grammar::{Class, RunUpTo, Stop, word_of};
use mur_base::{Bytes, Memory};

/// What joins a command to its answers.
#[derive(Drop)]
pub enum Tag {
    /// `*`, of a response that no command asked for.
    Star,
    /// 1 to 41 letters, digits and `-`.
    Text(Bytes),
}

/// A byte of a tag.
#[derive(Clone, Copy)]
pub struct TagByte;

impl Class for TagByte {
    ghost test = { λ _. is_mupdate_tag_byte };

    #[tactic(auto, unfolding(crate::specs::Characters::is_mupdate_tag_byte))]
    fn holds(&self, byte: u8) -> bool {
        byte.is_ascii_alphanumeric() || byte == b'-'
    }
}

/// Reads the text of a tag that is not `*`.
pub fn tag_word_of(bytes: &[u8]) -> Result<(&[u8], &[u8]), Stop>
    ensures { Finds (λ x. (x.0.now, x.1.now)) result ((word mupdate_tags).at bytes.now) }
{
    let tags = RunUpTo {
        of: TagByte,
        most: TAG_MOST,
    };
    word_of(&tags, bytes)
}

/// Prints a tag.
#[tactic(auto, unfolding(crate::specs::Tags::mupdate_tag_text))]
pub fn put_tag(tag: &Tag, out: &mut Bytes) -> Result<(), Memory>
    ensures { OnOk result (out.new ≡ out.old ++ mupdate_tag_text tag.now) }
{
    match tag {
        Tag::Star => out.push(b'*'),
        Tag::Text(text) => out.extend_from_slice(text.as_slice()),
    }
}
