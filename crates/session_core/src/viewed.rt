// The commands of a selected session (RFC 9051, 6.4): what comes of the result.
ghost use Rattle.std.specs.Prelude.{◌≡◌, IfOk};
ghost use Rattle.session_core.specs.Viewed.{viewed_done, viewed_in, viewed_told, viewed_turn};

use crate::commands::close::close_done;
use crate::commands::expunge::expunge_done;
use crate::commands::fetch::fetch_done;
use crate::commands::noop::news_done;
use crate::commands::search::search_done;
use crate::commands::store::store_done;
use crate::result::OpResult;
use link_msg::Outcome;
use mail_message::Snapshot;
use mur_base::Memory;
use mur_model::{Sess, Turn, View, ViewWork, gone};
use std::alloc::Global;

/// What comes of the result of a command of a session that has a mailbox selected still; nothing of one that it can't have.
#[tactic(auto, unfolding(crate::specs::Viewed::viewed_in))]
pub fn viewed_in(
    alloc: Global,
    sess: &Sess,
    work: &ViewWork,
    op_result: OpResult,
) -> Result<Option<Turn>, Memory>
    ensures { IfOk result (λ turn. turn ≡ viewed_in sess.now work.now op_result) }
{
    match sess {
        Sess::Selected(view) => viewed_turn(alloc, view, work, op_result),
        _ => Ok(None),
    }
}

/// What comes of the result of a command of a selected session; nothing of one that it can't have.
#[tactic(auto, unfolding(crate::specs::Viewed::viewed_turn))]
fn viewed_turn(
    alloc: Global,
    view: &View,
    work: &ViewWork,
    op_result: OpResult,
) -> Result<Option<Turn>, Memory>
    ensures { IfOk result (λ turn. turn ≡ viewed_turn view.now work.now op_result) }
{
    match op_result {
        OpResult::Done(outcome, seen) => viewed_told(alloc, view, work, outcome, seen),
        OpResult::Missing => Ok(Some(gone(alloc)?)),
    }
}

/// What comes of an outcome; the mailbox is gone where the home has none of its name with this UIDVALIDITY.
#[tactic(auto, unfolding(crate::specs::Viewed::viewed_told))]
fn viewed_told(
    alloc: Global,
    view: &View,
    work: &ViewWork,
    outcome: Outcome,
    seen: Snapshot,
) -> Result<Option<Turn>, Memory>
    ensures { IfOk result (λ turn. turn ≡ viewed_told view.now work.now outcome seen) }
{
    match outcome {
        Outcome::Gone => Ok(Some(gone(alloc)?)),
        _ => viewed_done(alloc, view, work, outcome, seen),
    }
}

fn viewed_done(
    alloc: Global,
    view: &View,
    work: &ViewWork,
    outcome: Outcome,
    seen: Snapshot,
) -> Result<Option<Turn>, Memory>
    ensures { IfOk result (λ turn. turn ≡ viewed_done view.now work.now outcome seen) }
{
    match work {
        ViewWork::News(why) => news_done(alloc, view, *why, outcome, seen),
        ViewWork::Close => close_done(alloc, view, &outcome),
        ViewWork::Expunge(only) => expunge_done(alloc, view, only, outcome, seen),
        ViewWork::Store(it) => store_done(alloc, view, it, outcome, seen),
        ViewWork::Fetch(it) => fetch_done(alloc, view, it, outcome, seen),
        ViewWork::Search(it) => search_done(alloc, view, it, outcome, seen),
    }
}
