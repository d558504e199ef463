// EXPUNGE and UID EXPUNGE (RFC 9051, 6.4.3 and 6.4.9).
ghost use Rattle.std.specs.Prelude.{◌≡◌, IfOk};
ghost use Rattle.std.specs.Option.{option_copied};
ghost use Rattle.mur_model.specs.Expunge.{expunge, expunge_at, expunge_told, expunge_name};
ghost use Rattle.mur_model.specs.Left.{IsLeft};
ghost use Rattle.mur_model.specs.Need.{begun_of};

use crate::named_rows::named_uids;
use crate::need::{Begun, at_view, read_only};
use crate::news::news_of;
use crate::selected::with_news;
use crate::session::Turn;
use crate::view::View;
use crate::work::ViewWork;
use imap_types::{Code, Op, ReplyLines, Verdict};
use mail_message::{MailBox, OrderedRows, SetParts};
use mail_store::expunge as take_deleted;
use mur_base::{Bytes, Copied, Memory};
use std::alloc::Global;

/// What EXPUNGE needs, of all messages or of those of a set of UIDs.
#[tactic(auto, unfolding(crate::specs::Asking::view_op))]
pub fn expunge(alloc: Global, view: &View, only: &Option<SetParts>) -> Result<Begun, Memory>
    ensures { IfOk result (λ begun. begun ≡ begun_of (expunge view.now only.now)) }
{
    if !view.is_writable {
        return Ok(read_only(alloc));
    }
    match only {
        None => at_view(alloc, view, Op::Expunge(None), ViewWork::Expunge(None)),
        Some(set) => {
            let uids = named_uids(alloc, true, set, &view.rows)?;
            let asked = Op::Expunge(Some(uids.copy(alloc)?));
            at_view(alloc, view, asked, ViewWork::Expunge(Some(uids)))
        }
    }
}

/// Takes the messages with `\Deleted` away from the mailbox of a view, of all or of those with some UIDs. For want of memory nothing is
/// said of the mailbox. Time is linear in the view and the mailbox's messages.
#[tactic(auto, unfolding(crate::specs::Left::box_after))]
pub fn expunge_at(
    alloc: Global,
    view: &View,
    mailbox: &mut MailBox,
    only: Option<&[u32]>,
) -> Result<Turn, Memory>
    ensures { IfOk result (λ turn. IsLeft mailbox.old (expunge_at view.now (option_copied only.entry) mailbox.old) mailbox.new turn) }
{
    let _ = take_deleted(alloc, mailbox, only)?;
    let now = mailbox.look(alloc)?.rows;
    expunge_told(alloc, view, only, now)
}

/// What is told where a mailbox has these rows behind an EXPUNGE.
pub fn expunge_told(
    alloc: Global,
    view: &View,
    only: Option<&[u32]>,
    now: OrderedRows,
) -> Result<Turn, Memory>
    ensures { IfOk result (λ turn. turn ≡ expunge_told view.now (option_copied only.entry) now) }
{
    let news = news_of(alloc, &view.rows, now, true, &[])?;
    let verdict = Verdict::Ok(Code::None, Bytes::from_slice(alloc, expunge_name(only))?);
    with_news(alloc, view, ReplyLines::new(alloc), news, verdict)
}

fn expunge_name(only: Option<&[u32]>) -> &'static [u8]
    ensures { result.now ≡ expunge_name (option_copied only.entry) }
{
    match only {
        None => b"EXPUNGE",
        Some(_) => b"UID EXPUNGE",
    }
}
