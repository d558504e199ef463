// The commands of a selected session (RFC 9051, 6.4) at its mailbox.
ghost use Rattle.std.specs.Prelude.{◌≡◌, IfOk, Some};
ghost use Rattle.mur_model.specs.Left.{IsLeft, store_after};
ghost use Rattle.mur_model.specs.Store.{box_at};
ghost use Rattle.mur_model.specs.Viewing.{viewed_on, work_there};

use crate::commands::close::close_at;
use crate::commands::expunge::expunge_at;
use crate::commands::fetch::fetch_at;
use crate::commands::noop::news_at;
use crate::commands::search::search_at;
use crate::commands::store::store_at;
use crate::selected::gone;
use crate::session::Turn;
use crate::store::Store;
use crate::view::View;
use crate::work::ViewWork;
use mail_message::MailBox;
use mur_base::{MailName, Memory};
use std::alloc::Global;

/// Carries out the command of a selected session at the mailbox of its view, if that is there still.
#[tactic(auto, unfolding(crate::specs::Left::store_after))]
pub fn viewed_at(
    alloc: Global,
    store: &mut Store,
    name: &MailName,
    view: &View,
    work: &ViewWork,
) -> Result<Turn, Memory>
    ensures { IfOk result (λ turn. let worked = viewed_on view.now work.now (box_at store.old name.now) in
        (store.new ≡ store_after store.old name.now worked.left) × (turn ≡ worked.turn)) }
{
    match store.boxes.get_mut(name) {
        Some(mailbox) => viewed_on(alloc, view, mailbox, work),
        None => gone(alloc),
    }
}

#[tactic(auto, unfolding(crate::specs::Viewing::viewed_on, crate::specs::Left::box_after))]
fn viewed_on(
    alloc: Global,
    view: &View,
    mailbox: &mut MailBox,
    work: &ViewWork,
) -> Result<Turn, Memory>
    ensures { IfOk result (λ turn. IsLeft mailbox.old (viewed_on view.now work.now (Some mailbox.old)) mailbox.new turn) }
{
    if mailbox.serial() == view.serial {
        work_there(alloc, view, mailbox, work)
    } else {
        gone(alloc)
    }
}

#[tactic(auto, unfolding(crate::specs::Viewing::work_there))]
fn work_there(
    alloc: Global,
    view: &View,
    mailbox: &mut MailBox,
    work: &ViewWork,
) -> Result<Turn, Memory>
    ensures { IfOk result (λ turn. IsLeft mailbox.old (work_there view.now work.now mailbox.old) mailbox.new turn) }
{
    match work {
        ViewWork::News(why) => news_at(alloc, view, *why, mailbox),
        ViewWork::Close => close_at(alloc, view, mailbox),
        ViewWork::Expunge(None) => expunge_at(alloc, view, mailbox, None),
        ViewWork::Expunge(Some(uids)) => expunge_at(alloc, view, mailbox, Some(uids.as_slice())),
        ViewWork::Store(it) => store_at(alloc, view, mailbox, it),
        ViewWork::Fetch(it) => fetch_at(alloc, view, mailbox, it),
        ViewWork::Search(it) => search_at(alloc, view, mailbox, it),
    }
}
