// The number of messages (RFC 9051, 7.4.1).
ghost use Rattle.std.specs.Prelude.{◌≡◌, ◌++◌, OnOk};
ghost use Rattle.imap_reply.specs.ExistsLine.{exists_line};

use crate::numbered::put_numbered;
use mur_base::{Bytes, Memory};

/// Writes how many messages the mailbox has.
#[tactic(auto, unfolding(crate::specs::ExistsLine::exists_line))]
pub fn put_exists(count: u32, out: &mut Bytes) -> Result<(), Memory>
    ensures { OnOk result (out.new ≡ out.old ++ exists_line count) }
{
    put_numbered(b"* ", count, b" EXISTS\r\n", out)
}
