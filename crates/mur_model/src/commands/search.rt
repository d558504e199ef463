// SEARCH and UID SEARCH (RFC 9051, 6.4.4 and 6.4.9).
ghost use Rattle.std.specs.Prelude.{◌≡◌, length, map, IfOk};
ghost use Rattle.mur_model.specs.Left.{IsLeft};
ghost use Rattle.mur_model.specs.ClientView.{uids};
ghost use Rattle.mur_model.specs.Search.{number_at, numbers_told, search_reply_line, search, search_name, search_told, search_at};
ghost use Rattle.mur_model.specs.StoreFlags.{code_for};
ghost use Rattle.mur_model.specs.Need.{begun_of};
ghost use Rattle.mur_model.specs.Needed.{at_mailbox};
ghost use Rattle.mur_model.specs.declared.work.ViewWork.TheVariants.{Search as search_work};
ghost use Rattle.mur_model.specs.Asking.{search_op};
ghost use Rattle.mur_model.specs.SearchRows.{are_keys_in_rows as are_of_rows};

use crate::commands::search_rows::are_keys_in_rows;
use crate::commands::store::code_for;
use crate::keys::{have_all_numbers, keys_at};
use crate::named_rows::{last_uid, uids_of};
use crate::need::{Begun, at_view, no_such_number};
use crate::news::{news_of, number_of};
use crate::selected::with_news;
use crate::session::Turn;
use crate::view::View;
use crate::work::ViewWork;
use imap_types::{Code, Op, ReplyLine, ReplyLines, Verdict};
use mail_message::{Keys, MailBox, OrderedRows, Summaries, Summary, Uids};
use mail_search::search as found;
use mur_base::{Bytes, Memory};
use std::alloc::Global;

/// A SEARCH, with numbers in the place of `*`.
#[derive(Drop)]
pub struct Searching {
    pub by_uid: bool,
    pub keys: Keys,
}

/// What SEARCH needs.
pub fn search(alloc: Global, view: &View, by_uid: bool, keys: &Keys) -> Result<Begun, Memory>
    ensures { IfOk result (λ begun. begun ≡ begun_of (search view.now by_uid keys.now)) }
{
    let count = view.rows.len();
    if !have_all_numbers(count, keys.as_slice()) {
        return Ok(no_such_number(alloc));
    }
    let last = last_uid(view.rows.as_slice());
    let keys = keys_at(alloc, number_of(count), last, keys.as_slice())?;
    search_asks(alloc, view, Searching { by_uid, keys })
}

/// The home of the mailbox is asked for the messages of the view without their bodies, or for a look where that tells what is found.
#[tactic(auto, unfolding(crate::specs::Asking::view_op))]
fn search_asks(alloc: Global, view: &View, it: Searching) -> Result<Begun, Memory>
    ensures { IfOk result (λ begun. begun ≡ begun_of (at_mailbox view.now (search_work it))) }
{
    let op = search_op(alloc, view, &it)?;
    at_view(alloc, view, op, ViewWork::Search(it))
}

#[tactic(auto, unfolding(crate::specs::Asking::search_op))]
fn search_op(alloc: Global, view: &View, it: &Searching) -> Result<Op, Memory>
    ensures { IfOk result (λ op. op ≡ search_op view.now (are_of_rows (it.now).keys)) }
{
    if are_keys_in_rows(it.keys.as_slice()) {
        return Ok(Op::Look);
    }
    Ok(Op::Summaries(uids_of(alloc, view.rows.as_slice())?))
}

/// The number of a message in a view that has it; looked for near a place first, as `OrderedRows::place` does.
fn number_at(rows: &OrderedRows, uid: u32, near: &mut usize) -> u32
    ensures { result ≡ number_at rows.now uid }
{
    match rows.place(uid, near) {
        Some(place) => number_of(place + 1),
        None => 0,
    }
}

/// The numbers of messages of a view.
fn numbers_of(alloc: Global, rows: &OrderedRows, messages: &[Summary]) -> Result<Uids, Memory>
    ensures numbers { IfOk result (λ numbers. numbers ≡ map (λ message. number_at rows.now message.uid) messages.now) }
    ensures length { IfOk result (λ numbers. length numbers ≡ length messages.now) }
{
    let mut numbers = Uids::new(alloc);
    let mut near = 0;
    for message in messages {
        numbers.push(number_at(rows, message.uid, &mut near))?;
    }
    Ok(numbers)
}

/// The numbers that are told of messages with these UIDs.
fn numbers_told(alloc: Global, by_uid: bool, rows: &OrderedRows, uids: Uids) -> Result<Uids, Memory>
    ensures { IfOk result (λ numbers. numbers ≡ numbers_told by_uid rows.now uids) }
{
    if by_uid {
        return Ok(uids);
    }
    numbers_by(alloc, rows, uids.as_slice())
}

fn numbers_by(alloc: Global, rows: &OrderedRows, uids: &[u32]) -> Result<Uids, Memory>
    ensures { IfOk result (λ numbers. numbers ≡ map (λ uid. number_at rows.now uid) uids.now) }
{
    let mut numbers = Uids::new(alloc);
    let mut near = 0;
    for uid in uids {
        numbers.push(number_at(rows, *uid, &mut near))?;
    }
    Ok(numbers)
}

/// The line of what was found among messages of a view. Each message costs what the keys cost.
fn search_line(
    alloc: Global,
    rows: &OrderedRows,
    it: &Searching,
    messages: &Summaries,
) -> Result<ReplyLine, Memory>
    ensures { IfOk result (λ line. line ≡ search_reply_line it.now rows.now messages.now) }
{
    let numbers = numbers_of(alloc, rows, messages.as_slice())?;
    let uids = found(alloc, &it.keys, messages, &numbers)?;
    let told = numbers_told(alloc, it.by_uid, rows, uids)?;
    Ok(ReplyLine::Search(it.by_uid, told))
}

/// Whether a message of the view is gone, where the search is by numbers.
fn search_code(
    alloc: Global,
    by_uid: bool,
    rows: &OrderedRows,
    now: &OrderedRows,
) -> Result<Code, Memory>
    ensures { IfOk result (λ code. code ≡ code_for by_uid now.now (uids rows.now)) }
{
    let named = uids_of(alloc, rows.as_slice())?;
    Ok(code_for(by_uid, now, named.as_slice()))
}

/// What is told where these messages of the view are there, and the mailbox has those rows now.
pub fn search_told(
    alloc: Global,
    view: &View,
    it: &Searching,
    messages: &Summaries,
    now: OrderedRows,
) -> Result<Turn, Memory>
    ensures { IfOk result (λ turn. turn ≡ search_told view.now it.now messages.now now) }
{
    let mut lines = ReplyLines::new(alloc);
    lines.push(search_line(alloc, &view.rows, it, messages)?)?;
    let code = search_code(alloc, it.by_uid, &view.rows, &now)?;
    let news = news_of(alloc, &view.rows, now, it.by_uid, &[])?;
    let verdict = Verdict::Ok(code, Bytes::from_slice(alloc, search_name(it.by_uid))?);
    with_news(alloc, view, lines, news, verdict)
}

fn search_name(by_uid: bool) -> &'static [u8]
    ensures { result.now ≡ search_name by_uid }
{
    if by_uid { b"UID SEARCH" } else { b"SEARCH" }
}

/// Searches the mailbox of a view, which stays as it is.
#[tactic(auto, unfolding(crate::specs::Left::box_after))]
pub fn search_at(
    alloc: Global,
    view: &View,
    mailbox: &mut MailBox,
    it: &Searching,
) -> Result<Turn, Memory>
    ensures { IfOk result (λ turn. IsLeft mailbox.old (search_at view.now it.now mailbox.old) mailbox.new turn) }
{
    let named = uids_of(alloc, view.rows.as_slice())?;
    let messages = mailbox.summaries(alloc, named.as_slice())?;
    let now = mailbox.look(alloc)?.rows;
    search_told(alloc, view, it, &messages, now)
}
