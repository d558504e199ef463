// LOGOUT (RFC 9051, 6.1.3).
ghost use Rattle.std.specs.Prelude.{◌≡◌, IfOk};
ghost use Rattle.mur_model.specs.AtOnce.{logout};
ghost use Rattle.mur_model.specs.Need.{begun_of};

use crate::at_once::told_at_once;
use crate::need::Begun;
use crate::session::{Sess, Turn};
use imap_types::{Bye, ReplyLine};
use mur_base::Memory;
use std::alloc::Global;

/// What LOGOUT needs.
pub fn logout(alloc: Global) -> Result<Begun, Memory>
    ensures { IfOk result (λ begun. begun ≡ begun_of logout) }
{
    let Turn { reply, .. } = told_at_once(alloc, ReplyLine::Bye(Bye::Logout), b"LOGOUT")?;
    Ok(Begun::told(Turn {
        session: Some(Sess::Ended),
        reply,
    }))
}
