// Names of mailboxes (RFC 9051, 9: mailbox).
ghost use Rattle.std.specs.Prelude.{◌≡◌, ◌++◌, OnOk};
ghost use Rattle.imap_reply.specs.Mailbox.{is_bare, is_nil, mailbox_text};

use imap_text::{is_atom, put_quoted};
use mur_base::{Bytes, Memory};

/// Whether a name is NIL, in any case.
#[tactic(auto, unfolding(crate::specs::Mailbox::is_nil))]
fn is_nil(name: &[u8]) -> bool
    ensures { result ≡ is_nil name.now }
{
    name.eq_ignore_ascii_case(b"nil")
}

/// Whether a name is printed as it is.
#[tactic(auto, unfolding(crate::specs::Mailbox::is_bare))]
fn is_bare(name: &[u8]) -> bool
    ensures { result ≡ is_bare name.now }
{
    is_atom(name) && !is_nil(name)
}

/// Writes a mailbox's name as an atom where it is one and isn't NIL, else in quotes.
#[tactic(auto, unfolding(crate::specs::Mailbox::mailbox_text))]
pub fn put_mailbox(name: &[u8], out: &mut Bytes) -> Result<(), Memory>
    ensures { OnOk result (out.new ≡ out.old ++ mailbox_text name.now) }
{
    if is_bare(name) {
        out.extend_from_slice(name)
    } else {
        put_quoted(name, out)
    }
}
