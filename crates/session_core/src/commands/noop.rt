// NOOP and IDLE of a session that has a mailbox selected: the news (RFC 9051, 6.1.2 and 6.3.13).
ghost use Rattle.std.specs.Prelude.{◌≡◌, IfOk};
ghost use Rattle.mur_model.specs.declared.work.ViewWork.TheVariants.{News};
ghost use Rattle.session_core.specs.Viewed.{viewed_done};

use link_msg::Outcome;
use mail_message::Snapshot;
use mur_base::Memory;
use mur_model::{NewsFor, Turn, View, news_told};
use std::alloc::Global;

/// What comes of an outcome; nothing of one that a look can't have.
#[tactic(auto, unfolding(crate::specs::Viewed::viewed_done))]
pub fn news_done(
    alloc: Global,
    view: &View,
    why: NewsFor,
    outcome: Outcome,
    seen: Snapshot,
) -> Result<Option<Turn>, Memory>
    ensures { IfOk result (λ turn. turn ≡ viewed_done view.now (News why) outcome seen) }
{
    match outcome {
        Outcome::None => Ok(Some(news_told(alloc, view, why, seen.rows)?)),
        _ => Ok(None),
    }
}
