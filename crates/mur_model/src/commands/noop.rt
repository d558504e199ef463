// NOOP (RFC 9051, 6.1.2), and the news that it and IDLE tell.
ghost use Rattle.std.specs.Prelude.{◌≡◌, IfOk};
ghost use Rattle.mur_model.specs.Act.{nothing_new};
ghost use Rattle.mur_model.specs.Left.{IsLeft};
ghost use Rattle.mur_model.specs.Need.{begun_of};
ghost use Rattle.mur_model.specs.Needed.{at_mailbox};
ghost use Rattle.mur_model.specs.declared.work.ViewWork.TheVariants.{News};
ghost use Rattle.mur_model.specs.Noop.{news_at, news_name, news_told};

use crate::need::{Begun, at_view};
use crate::news::news_of;
use crate::selected::with_news;
use crate::session::Turn;
use crate::view::View;
use crate::work::{NewsFor, ViewWork};
use imap_types::{Code, Op, ReplyLines, Verdict, completed};
use mail_message::{MailBox, OrderedRows};
use mur_base::{Bytes, Memory};
use std::alloc::Global;

/// What NOOP needs where no mailbox is selected.
pub fn nothing_new(alloc: Global) -> Result<Begun, Memory>
    ensures { IfOk result (λ begun. begun ≡ begun_of nothing_new) }
{
    Ok(Begun::told(Turn {
        session: None,
        reply: completed(alloc, b"NOOP")?,
    }))
}

/// The name of the command that news are told for.
#[tactic(auto, unfolding(crate::specs::Noop::news_name))]
fn news_name(why: NewsFor) -> &'static [u8]
    ensures { result.now ≡ news_name why }
{
    match why {
        NewsFor::Noop => b"NOOP",
        NewsFor::Idle => b"IDLE",
    }
}

/// What a command needs that tells the news: a look at the mailbox.
#[tactic(auto, unfolding(crate::specs::Asking::view_op))]
pub fn news_asks(alloc: Global, view: &View, why: NewsFor) -> Result<Begun, Memory>
    ensures { IfOk result (λ begun. begun ≡ begun_of (at_mailbox view.now (News why))) }
{
    at_view(alloc, view, Op::Look, ViewWork::News(why))
}

/// The news that are told of a mailbox that has these rows.
pub fn news_told(alloc: Global, view: &View, why: NewsFor, now: OrderedRows) -> Result<Turn, Memory>
    ensures { IfOk result (λ turn. turn ≡ news_told view.now why now) }
{
    let news = news_of(alloc, &view.rows, now, true, &[])?;
    let verdict = Verdict::Ok(Code::None, Bytes::from_slice(alloc, news_name(why))?);
    with_news(alloc, view, ReplyLines::new(alloc), news, verdict)
}

/// Tells the news of the mailbox of a view.
#[tactic(auto, unfolding(crate::specs::Left::box_after))]
pub fn news_at(
    alloc: Global,
    view: &View,
    why: NewsFor,
    mailbox: &mut MailBox,
) -> Result<Turn, Memory>
    ensures { IfOk result (λ turn. IsLeft mailbox.old (news_at view.now why mailbox.old) mailbox.new turn) }
{
    let now = mailbox.look(alloc)?.rows;
    news_told(alloc, view, why, now)
}
