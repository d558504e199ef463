// A name that a LIST found (RFC 9051, 7.3.1).
ghost use Rattle.std.specs.Prelude.{◌≡◌, ◌++◌, OnOk};
ghost use Rattle.imap_reply.specs.ListLine.{attribute_text, list_line};

use crate::mailbox::put_mailbox;
use imap_types::Attribute;
use mur_base::{Bytes, Memory};

/// Writes a name, what is told of it, and the separator of its levels.
#[tactic(auto, using(std::proofs::lemmas::Grind::common_steps), unfolding(crate::specs::ListLine::list_line))]
pub fn put_list(attribute: Attribute, name: &[u8], out: &mut Bytes) -> Result<(), Memory>
    ensures { OnOk result (out.new ≡ out.old ++ list_line attribute name.now) }
{
    out.extend_from_slice(b"* LIST (")?;
    out.extend_from_slice(attribute_text(attribute))?;
    out.extend_from_slice(b") \".\" ")?;
    put_mailbox(name, out)?;
    out.extend_from_slice(b"\r\n")
}

#[tactic(auto, unfolding(crate::specs::ListLine::attribute_text))]
fn attribute_text(attribute: Attribute) -> &'static [u8]
    ensures { result.now ≡ attribute_text attribute }
{
    match attribute {
        Attribute::None => b"",
        Attribute::NoSelect => b"\\Noselect",
        Attribute::NonExistent => b"\\NonExistent",
    }
}
