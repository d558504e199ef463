// CAPABILITY (RFC 9051, 6.1.1).
ghost use Rattle.std.specs.Prelude.{◌≡◌, IfOk};
ghost use Rattle.mur_model.specs.AtOnce.{capability};
ghost use Rattle.mur_model.specs.Need.{begun_of};

use crate::at_once::told_at_once;
use crate::need::Begun;
use imap_types::ReplyLine;
use mur_base::Memory;
use std::alloc::Global;

/// What CAPABILITY needs.
pub fn capability(alloc: Global) -> Result<Begun, Memory>
    ensures { IfOk result (λ begun. begun ≡ begun_of capability) }
{
    let turn = told_at_once(alloc, ReplyLine::Capability, b"CAPABILITY")?;
    Ok(Begun::told(turn))
}
