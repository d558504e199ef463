// What stands for a tag (RFC 9051, 2.2.1).
ghost use Rattle.std.specs.Prelude.{◌≡◌, ◌++◌, OnOk};
ghost use Rattle.imap_text.specs.Tags.{tag_text};

use imap_types::Tag;
use mur_base::{Bytes, Memory};

/// Writes what stands for a tag.
#[tactic(auto, unfolding(crate::specs::Tags::tag_text))]
pub fn put_tag(tag: &Tag, out: &mut Bytes) -> Result<(), Memory>
    ensures { OnOk result (out.new ≡ out.old ++ tag_text tag.now) }
{
    match tag {
        Tag::Star => out.extend_from_slice(b"*"),
        Tag::Text(text) => out.extend_from_slice(text.as_slice()),
    }
}
