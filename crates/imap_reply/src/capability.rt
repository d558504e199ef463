// What the server can do (RFC 9051, 7.2.2).
ghost use Rattle.std.specs.Prelude.{◌≡◌, ◌++◌, OnOk};
ghost use Rattle.imap_reply.specs.Capability.{capability_line};

use mur_base::{Bytes, Memory};

/// Writes the answer to CAPABILITY.
#[tactic(auto, unfolding(crate::specs::Capability::capability_line))]
pub fn put_capability(out: &mut Bytes) -> Result<(), Memory>
    ensures { OnOk result (out.new ≡ out.old ++ capability_line) }
{
    out.extend_from_slice(b"* CAPABILITY IMAP4rev2 AUTH=PLAIN\r\n")
}
