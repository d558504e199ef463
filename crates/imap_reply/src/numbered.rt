// A number between two texts.
ghost use Rattle.std.specs.Prelude.{◌≡◌, ◌++◌, decimal, OnOk};

use mur_base::{Bytes, Memory, put_number};

/// Writes a number between two texts.
#[tactic(auto, using(std::proofs::lemmas::Grind::common_steps))]
pub fn put_numbered(front: &[u8], number: u32, behind: &[u8], out: &mut Bytes) -> Result<(), Memory>
    ensures { OnOk result (out.new ≡ out.old ++ (front.now ++ decimal number ++ behind.now)) }
{
    out.extend_from_slice(front)?;
    put_number(u64::from(number), out)?;
    out.extend_from_slice(behind)
}
