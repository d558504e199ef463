// What ENABLE has switched on (RFC 9051, 7.2.1).
ghost use Rattle.std.specs.Prelude.{◌≡◌, ◌++◌, OnOk};
ghost use Rattle.imap_reply.specs.Enabled.{enabled_line};

use mur_base::{Bytes, Memory};

/// Writes that no extension has been switched on.
#[tactic(auto, unfolding(crate::specs::Enabled::enabled_line))]
pub fn put_enabled(out: &mut Bytes) -> Result<(), Memory>
    ensures { OnOk result (out.new ≡ out.old ++ enabled_line) }
{
    out.extend_from_slice(b"* ENABLED\r\n")
}
