// STORE and UID STORE (RFC 9051, 6.4.6 and 6.4.9).
ghost use Rattle.std.specs.Prelude.{◌≡◌, IfOk};
ghost use Rattle.mur_model.specs.declared.work.ViewWork.TheVariants.{Store};
ghost use Rattle.session_core.specs.Viewed.{viewed_done};

use link_msg::Outcome;
use mail_message::Snapshot;
use mur_base::Memory;
use mur_model::{FlagStore, Turn, View, store_refused, store_told};
use std::alloc::Global;

/// What comes of an outcome; nothing of one that a change of flags can't have.
#[tactic(auto, unfolding(crate::specs::Viewed::viewed_done))]
pub fn store_done(
    alloc: Global,
    view: &View,
    it: &FlagStore,
    outcome: Outcome,
    seen: Snapshot,
) -> Result<Option<Turn>, Memory>
    ensures { IfOk result (λ turn. turn ≡ viewed_done view.now (Store it.now) outcome seen) }
{
    match outcome {
        Outcome::Rows(changes) => Ok(Some(store_told(alloc, view, it, &changes, seen.rows)?)),
        Outcome::Limit => Ok(Some(store_refused(alloc, view, it, seen.rows)?)),
        _ => Ok(None),
    }
}
