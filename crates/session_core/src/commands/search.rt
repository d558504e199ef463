// SEARCH and UID SEARCH (RFC 9051, 6.4.4 and 6.4.9).
ghost use Rattle.std.specs.Prelude.{◌≡◌, IfOk};
ghost use Rattle.mur_model.specs.declared.work.ViewWork.TheVariants.{Search};
ghost use Rattle.session_core.specs.Viewed.{viewed_done};

use link_msg::Outcome;
use mail_message::Snapshot;
use mur_base::Memory;
use mur_model::{Searching, Turn, View, rows_searched, search_told};
use std::alloc::Global;

/// What comes of an outcome; nothing of one that a read without the bodies or a look can't have.
#[tactic(auto, unfolding(crate::specs::Viewed::viewed_done))]
pub fn search_done(
    alloc: Global,
    view: &View,
    it: &Searching,
    outcome: Outcome,
    seen: Snapshot,
) -> Result<Option<Turn>, Memory>
    ensures { IfOk result (λ turn. turn ≡ viewed_done view.now (Search it.now) outcome seen) }
{
    match outcome {
        Outcome::None => Ok(Some(rows_searched(alloc, view, it, seen.rows)?)),
        Outcome::Summaries(found) => Ok(Some(search_told(alloc, view, it, &found, seen.rows)?)),
        _ => Ok(None),
    }
}
