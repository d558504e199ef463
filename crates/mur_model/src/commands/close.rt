// CLOSE (RFC 9051, 6.4.1), and how it and UNSELECT leave a mailbox.
ghost use Rattle.std.specs.Prelude.{◌≡◌, IfOk};
ghost use Rattle.mur_model.specs.Close.{close, close_at, left_by};
ghost use Rattle.mur_model.specs.Left.{IsLeft};
ghost use Rattle.mur_model.specs.Need.{begun_of};

use crate::need::{Begun, at_view};
use crate::session::{Sess, Turn};
use crate::view::View;
use crate::work::ViewWork;
use imap_types::{Op, completed};
use mail_message::MailBox;
use mail_store::expunge;
use mur_base::{Copied, Memory};
use std::alloc::Global;

/// No mailbox is selected any more, behind the command of this name.
pub fn left_by(alloc: Global, view: &View, name: &[u8]) -> Result<Turn, Memory>
    ensures { IfOk result (λ turn. turn ≡ left_by view.now name.now) }
{
    Ok(Turn {
        session: Some(Sess::In(view.user.copy(alloc)?)),
        reply: completed(alloc, name)?,
    })
}

/// What CLOSE needs: what was selected to be read is left at once.
#[tactic(auto, unfolding(crate::specs::Asking::view_op))]
pub fn close(alloc: Global, view: &View) -> Result<Begun, Memory>
    ensures { IfOk result (λ begun. begun ≡ begun_of (close view.now)) }
{
    if view.is_writable {
        at_view(alloc, view, Op::Expunge(None), ViewWork::Close)
    } else {
        Ok(Begun::told(left_by(alloc, view, b"CLOSE")?))
    }
}

/// Takes the messages with `\Deleted` away from the mailbox of a view, and leaves it.
#[tactic(auto, unfolding(crate::specs::Left::box_after))]
pub fn close_at(alloc: Global, view: &View, mailbox: &mut MailBox) -> Result<Turn, Memory>
    ensures { IfOk result (λ turn. IsLeft mailbox.old (close_at view.now mailbox.old) mailbox.new turn) }
{
    let _ = expunge(alloc, mailbox, None)?;
    left_by(alloc, view, b"CLOSE")
}
