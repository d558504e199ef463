// BYE lines (RFC 9051, 7.1.5).
ghost use Rattle.std.specs.Prelude.{◌≡◌, ◌++◌, OnOk};
ghost use Rattle.imap_reply.specs.ByeLine.{bye_line, bye_text};

use imap_types::Bye;
use mur_base::{Bytes, Memory};

/// Writes the line that says that a connection ends: with the reply that holds it, or at once where it stands alone.
#[tactic(auto, unfolding(crate::specs::ByeLine::bye_line))]
pub fn put_bye(bye: Bye, out: &mut Bytes) -> Result<(), Memory>
    ensures { OnOk result (out.new ≡ out.old ++ bye_line bye) }
{
    out.extend_from_slice(b"* BYE ")?;
    out.extend_from_slice(bye_text(bye))?;
    out.extend_from_slice(b"\r\n")
}

#[tactic(auto, unfolding(crate::specs::ByeLine::bye_text))]
fn bye_text(bye: Bye) -> &'static [u8]
    ensures { result.now ≡ bye_text bye }
{
    match bye {
        Bye::Logout => b"bye",
        Bye::Gone => b"mailbox is gone",
        Bye::Lost => b"[UNAVAILABLE] server lost",
        Bye::LineTooLong => b"line too long",
        Bye::LiteralTooLong => b"literal too long",
    }
}
