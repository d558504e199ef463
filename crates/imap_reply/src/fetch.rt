// What there is of a message (RFC 9051, 7.5.2).
ghost use Rattle.std.specs.Prelude.{◌≡◌, ◌++◌, OnOk};
ghost use Rattle.imap_reply.specs.FetchLine.{fetch_line};

use crate::spaced::put_spaced;
use mur_base::{Bytes, Memory, put_number};

/// Writes what there is of the message of this number, a part an item.
#[tactic(auto, using(std::proofs::lemmas::Grind::common_steps), unfolding(crate::specs::FetchLine::fetch_line))]
pub fn put_fetch(number: u32, parts: &[Bytes], out: &mut Bytes) -> Result<(), Memory>
    ensures { OnOk result (out.new ≡ out.old ++ fetch_line number parts.now) }
{
    out.extend_from_slice(b"* ")?;
    put_number(u64::from(number), out)?;
    out.extend_from_slice(b" FETCH (")?;
    put_spaced(parts, out)?;
    out.extend_from_slice(b")\r\n")
}
