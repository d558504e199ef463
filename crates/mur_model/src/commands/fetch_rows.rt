// FETCH and UID FETCH of flags and UIDs alone (RFC 9051, 6.4.5).
ghost use Rattle.std.specs.Prelude.{◌≡◌, ◌+◌, ◌<◌, ◌^◌, ◌++◌, false, IfOk, OnOk, map};
ghost use Rattle.std.specs.List.{filter};
ghost use Rattle.std.specs.Option.{option_copied, option_map, IfSome};
ghost use Rattle.mur_model.specs.FetchRows.{asks_rows, is_in_row, row_line, row_lines, row_part, rows_told, told_uids};
ghost use Rattle.imap_types.specs.declared.reply.Verdict.TheVariants.{Ok as ok_reply};
ghost use Rattle.mail_store.specs.Named.{set_of};
ghost use Rattle.mur_model.specs.Fetch.{fetch_name, items_told};
ghost use Rattle.mur_model.specs.News.{has_row, news};
ghost use Rattle.mur_model.specs.Selected.{with_news};

use crate::commands::fetch::{Fetching, asks_flags, fetch_name, items_told};
use crate::commands::store::code_for;
use crate::news::{Told, news_of, number_of};
use crate::selected::with_news;
use crate::session::Turn;
use crate::view::View;
use imap_types::{Code, Parts, ReplyLine, ReplyLines, Verdict};
use mail_fetch::{flags_part, uid_part};
use mail_message::{Item, OrderedRows, Row, Uids};
use mur_base::{Bytes, Memory};
use std::alloc::Global;

/// Whether the rows of a mailbox tell all that is asked, so that no message has to be read.
pub fn asks_rows(it: &Fetching) -> bool
    ensures { result ≡ asks_rows it.now }
{
    it.items.as_slice().iter().all(|item| is_in_row(*item))
}

fn is_in_row(item: Item) -> bool
    ensures { result ≡ is_in_row item }
{
    matches!(item, Item::Flags | Item::Uid)
}

fn row_part(alloc: Global, item: Item, row: &Row) -> Result<Bytes, Memory>
    ensures { IfOk result (λ text. text ≡ row_part item row.now) }
{
    match item {
        Item::Uid => uid_part(alloc, row.uid),
        _ => flags_part(alloc, &row.flags),
    }
}

fn row_parts(alloc: Global, items: &[Item], row: &Row) -> Result<Parts, Memory>
    ensures { IfOk result (λ parts. parts ≡ map (λ asked. row_part asked row.now) items.now) }
{
    let mut parts = Parts::new(alloc);
    for item in items {
        parts.push(row_part(alloc, *item, row)?)?;
    }
    Ok(parts)
}

fn put_row_line(
    alloc: Global,
    lines: &mut ReplyLines,
    items: &[Item],
    place: Option<usize>,
    row: Option<&Row>,
) -> Result<(), Memory>
    requires { IfSome place (λ p. p + 1 < 2 ^ 32) }
    ensures { OnOk result (lines.new ≡ lines.old ++ row_line items.now (option_map (λ p. p + 1) place) (option_copied row.entry)) }
{
    match (place, row) {
        (Some(place), Some(row)) => {
            let number = number_of(place + 1);
            lines.push(ReplyLine::Fetch(number, row_parts(alloc, items, row)?))
        }
        _ => Ok(()),
    }
}

/// Puts a line for each UID whose message is there, under its number in the view.
fn put_row_lines(
    alloc: Global,
    lines: &mut ReplyLines,
    items: &[Item],
    rows: &OrderedRows,
    now: &OrderedRows,
    uids: &[u32],
) -> Result<(), Memory>
    ensures { OnOk result (lines.new ≡ lines.old ++ row_lines items.now rows.now now.now uids.now) }
{
    let mut near = 0;
    let mut near_now = 0;
    for uid in uids {
        let place = rows.place(*uid, &mut near);
        put_row_line(alloc, lines, items, place, now.find(*uid, &mut near_now))?;
    }
    Ok(())
}

/// The UIDs whose messages are there.
fn uids_there(alloc: Global, now: &OrderedRows, uids: &[u32]) -> Result<Uids, Memory>
    ensures { IfOk result (λ there. there ≡ filter (has_row now.now) uids.now) }
{
    let mut there = Uids::new(alloc);
    let mut near = 0;
    for uid in uids {
        if now.find(*uid, &mut near).is_some() {
            there.push(*uid)?;
        }
    }
    Ok(there)
}

fn told_uids(alloc: Global, it: &Fetching, now: &OrderedRows) -> Result<Uids, Memory>
    ensures { IfOk result (λ uids. uids ≡ told_uids it.now now.now) }
{
    if asks_flags(it.items.as_slice()) {
        uids_there(alloc, now, it.uids.as_slice())
    } else {
        Ok(Uids::new(alloc))
    }
}

/// The lines of the messages that the rows of a mailbox have.
fn row_lines(
    alloc: Global,
    view: &View,
    it: &Fetching,
    now: &OrderedRows,
) -> Result<ReplyLines, Memory>
    ensures { IfOk result (λ lines. lines ≡ row_lines (items_told it.now false) view.now.rows now.now it.now.uids) }
{
    let items = items_told(alloc, it, false)?;
    let mut lines = ReplyLines::new(alloc);
    put_row_lines(
        alloc,
        &mut lines,
        items.as_slice(),
        &view.rows,
        now,
        it.uids.as_slice(),
    )?;
    Ok(lines)
}

/// The news that stand behind the lines of a FETCH.
fn row_news(alloc: Global, view: &View, it: &Fetching, now: OrderedRows) -> Result<Told, Memory>
    ensures { IfOk result (λ told. told ≡ news view.now.rows now it.now.by_uid (set_of (told_uids it.now now))) }
{
    let told = told_uids(alloc, it, &now)?;
    news_of(alloc, &view.rows, now, it.by_uid, told.as_slice())
}

/// What is told of a FETCH with these lines, news and code.
pub fn fetched(
    alloc: Global,
    view: &View,
    by_uid: bool,
    lines: ReplyLines,
    news: Told,
    code: Code,
) -> Result<Turn, Memory>
    ensures { IfOk result (λ turn. turn ≡ with_news view.now lines news (ok_reply code (fetch_name by_uid))) }
{
    let verdict = Verdict::Ok(code, Bytes::from_slice(alloc, fetch_name(by_uid))?);
    with_news(alloc, view, lines, news, verdict)
}

/// What is told where a mailbox has these rows. Time is linear in the rows and the UIDs, but for the set of those whose flags are told,
/// which is made where something has changed.
pub fn rows_told(
    alloc: Global,
    view: &View,
    it: &Fetching,
    now: OrderedRows,
) -> Result<Turn, Memory>
    ensures { IfOk result (λ turn. turn ≡ rows_told view.now it.now now) }
{
    let lines = row_lines(alloc, view, it, &now)?;
    let code = code_for(it.by_uid, &now, it.uids.as_slice());
    let news = row_news(alloc, view, it, now)?;
    fetched(alloc, view, it.by_uid, lines, news, code)
}
