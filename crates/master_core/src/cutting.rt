// The lines that end as bytes of a connection come.
ghost use Rattle.std.specs.Prelude.{◌≡◌, ◌++◌, Some, OnOk, IfSome};
ghost use Rattle.master_core.specs.Cutting.{cut_from};

use mupdate_codec::Cutter;
use mur_base::{Bytes, Items, Memory};

/// Takes a whole piece, and puts the lines that end in it after the others.
pub fn cut_piece(cutter: &mut Cutter, piece: &[u8], lines: &mut Items<Bytes>) -> Result<(), Memory>
    ensures lines { OnOk result (IfSome cutter.old (λ begun. lines.new ≡ lines.old ++ (cut_from begun piece.now).lines)) }
    ensures begun { OnOk result (IfSome cutter.old (λ begun. cutter.new ≡ Some (cut_from begun piece.now).begun)) }
{
    let mut taken = 0;
    while taken < piece.len() && !cutter.spent() {
        let (line, more) = cutter.feed(&piece[taken..])?;
        taken += more;
        if let Some(line) = line {
            lines.push(line)?;
        }
    }
    Ok(())
}
