// EXPUNGE and UID EXPUNGE (RFC 9051, 6.4.3 and 6.4.9).
ghost use Rattle.std.specs.Prelude.{◌≡◌, IfOk};
ghost use Rattle.std.specs.Option.{option_copied};
ghost use Rattle.mur_model.specs.declared.work.ViewWork.TheVariants.{Expunge};
ghost use Rattle.session_core.specs.Viewed.{viewed_done};

use link_msg::Outcome;
use mail_message::{Snapshot, Uids};
use mur_base::Memory;
use mur_model::{Turn, View, expunge_told};
use std::alloc::Global;

/// What comes of an outcome; nothing of one that an expunge can't have.
#[tactic(auto, unfolding(crate::specs::Viewed::viewed_done))]
pub fn expunge_done(
    alloc: Global,
    view: &View,
    only: &Option<Uids>,
    outcome: Outcome,
    seen: Snapshot,
) -> Result<Option<Turn>, Memory>
    ensures { IfOk result (λ turn. turn ≡ viewed_done view.now (Expunge only.now) outcome seen) }
{
    match outcome {
        Outcome::Uids(_) => Ok(Some(expunge_told(alloc, view, only_of(only), seen.rows)?)),
        _ => Ok(None),
    }
}

fn only_of(only: &Option<Uids>) -> Option<&[u32]>
    ensures { option_copied result ≡ only.now }
{
    match only {
        Some(uids) => Some(uids.as_slice()),
        None => None,
    }
}
