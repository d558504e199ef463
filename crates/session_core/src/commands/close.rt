// CLOSE of a mailbox that was selected to be changed (RFC 9051, 6.4.1).
ghost use Rattle.std.specs.Prelude.{◌≡◌, IfOk};
ghost use Rattle.mur_model.specs.declared.work.ViewWork.TheVariants.{Close};
ghost use Rattle.mail_message.specs.declared.message.Snapshot.{Snapshot};
ghost use Rattle.session_core.specs.Viewed.{viewed_done};

use link_msg::Outcome;
use mur_base::Memory;
use mur_model::{Turn, View, left_by};
use std::alloc::Global;

/// What comes of an outcome, which is told nothing of; nothing of one that an expunge can't have.
#[tactic(auto, unfolding(crate::specs::Viewed::viewed_done))]
pub fn close_done(alloc: Global, view: &View, outcome: &Outcome) -> Result<Option<Turn>, Memory>
    ensures { (seen : Snapshot) → IfOk result (λ turn. turn ≡ viewed_done view.now Close outcome.now seen) }
{
    match outcome {
        Outcome::Uids(_) => Ok(Some(left_by(alloc, view, b"CLOSE")?)),
        _ => Ok(None),
    }
}
