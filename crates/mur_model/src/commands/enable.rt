// ENABLE (RFC 9051, 6.3.1).
ghost use Rattle.std.specs.Prelude.{◌≡◌, IfOk};
ghost use Rattle.mur_model.specs.AtOnce.{enable};
ghost use Rattle.mur_model.specs.Need.{begun_of};

use crate::at_once::told_at_once;
use crate::need::Begun;
use imap_types::ReplyLine;
use mur_base::Memory;
use std::alloc::Global;

/// What ENABLE needs.
pub fn enable(alloc: Global) -> Result<Begun, Memory>
    ensures { IfOk result (λ begun. begun ≡ begun_of enable) }
{
    let turn = told_at_once(alloc, ReplyLine::Enabled, b"ENABLE")?;
    Ok(Begun::told(turn))
}
