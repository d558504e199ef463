// UNSELECT (RFC 9051, 6.4.2).
ghost use Rattle.std.specs.Prelude.{◌≡◌, IfOk, codes};
ghost use Rattle.mur_model.specs.Close.{left_by};
ghost use Rattle.mur_model.specs.Need.{begun_of};
ghost use Rattle.mur_model.specs.Needed.{Turned};

use crate::commands::close::left_by;
use crate::need::Begun;
use crate::view::View;
use mur_base::Memory;
use std::alloc::Global;

/// What UNSELECT needs: nothing of the mailbox.
pub fn unselect(alloc: Global, view: &View) -> Result<Begun, Memory>
    ensures { IfOk result (λ begun. begun ≡ begun_of (Turned (left_by view.now (codes "UNSELECT")))) }
{
    let turn = left_by(alloc, view, b"UNSELECT")?;
    Ok(Begun::told(turn))
}
