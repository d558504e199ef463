// A message that is no more (RFC 9051, 7.5.1).
ghost use Rattle.std.specs.Prelude.{◌≡◌, ◌++◌, OnOk};
ghost use Rattle.imap_reply.specs.ExpungeLine.{expunge_line};

use crate::numbered::put_numbered;
use mur_base::{Bytes, Memory};

/// Writes that the message of this number is no more.
#[tactic(auto, unfolding(crate::specs::ExpungeLine::expunge_line))]
pub fn put_expunge(number: u32, out: &mut Bytes) -> Result<(), Memory>
    ensures { OnOk result (out.new ≡ out.old ++ expunge_line number) }
{
    put_numbered(b"* ", number, b" EXPUNGE\r\n", out)
}
