// The greeting (RFC 9051, 7.1.1).
ghost use Rattle.std.specs.Prelude.{◌≡◌, ◌++◌, OnOk};
ghost use Rattle.imap_reply.specs.Greeting.{greeting};

use mur_base::{Bytes, Memory};

/// Writes what a connection is given first.
#[tactic(auto, unfolding(crate::specs::Greeting::greeting))]
pub fn put_greeting(out: &mut Bytes) -> Result<(), Memory>
    ensures { OnOk result (out.new ≡ out.old ++ greeting) }
{
    out.extend_from_slice(b"* OK [CAPABILITY IMAP4rev2 AUTH=PLAIN] murder ready\r\n")
}
