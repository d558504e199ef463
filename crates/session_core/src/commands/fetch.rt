// FETCH and UID FETCH (RFC 9051, 6.4.5 and 6.4.9).
ghost use Rattle.std.specs.Prelude.{◌≡◌, IfOk};
ghost use Rattle.mur_model.specs.declared.work.ViewWork.TheVariants.{Fetch};
ghost use Rattle.session_core.specs.Viewed.{viewed_done};

use link_msg::Outcome;
use mail_message::Snapshot;
use mur_base::Memory;
use mur_model::{Fetching, Turn, View, fetch_told, rows_told, summaries_told};
use std::alloc::Global;

/// What comes of an outcome; nothing of one that a read, with the bodies or without them, or a look can't have.
#[tactic(auto, unfolding(crate::specs::Viewed::viewed_done))]
pub fn fetch_done(
    alloc: Global,
    view: &View,
    it: &Fetching,
    outcome: Outcome,
    seen: Snapshot,
) -> Result<Option<Turn>, Memory>
    ensures { IfOk result (λ turn. turn ≡ viewed_done view.now (Fetch it.now) outcome seen) }
{
    match outcome {
        Outcome::None => Ok(Some(rows_told(alloc, view, it, seen.rows)?)),
        Outcome::Summaries(summaries) => {
            Ok(Some(summaries_told(alloc, view, it, &summaries, seen.rows)?))
        }
        Outcome::Messages(before) => Ok(Some(fetch_told(alloc, view, it, &before, seen.rows)?)),
        _ => Ok(None),
    }
}
