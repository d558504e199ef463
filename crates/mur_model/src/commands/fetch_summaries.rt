// FETCH and UID FETCH of flags, UIDs, dates and sizes alone (RFC 9051, 6.4.5).
ghost use Rattle.std.specs.Prelude.{◌≡◌, ◌+◌, ◌<◌, ◌^◌, ◌++◌, false, IfOk, OnOk, map};
ghost use Rattle.std.specs.Option.{option_map, IfSome};
ghost use Rattle.mail_store.specs.Named.{set_of};
ghost use Rattle.mur_model.specs.Fetch.{items_told};
ghost use Rattle.mur_model.specs.News.{news};
ghost use Rattle.mur_model.specs.FetchSummaries.{asks_summaries, is_in_summary, summaries_told, summary_line, summary_lines, summary_part, uids_told};

use crate::commands::fetch::{Fetching, asks_flags, items_told};
use crate::commands::fetch_rows::fetched;
use crate::commands::store::code_for;
use crate::news::{Told, news_of, number_of};
use crate::session::Turn;
use crate::view::View;
use imap_types::{Parts, ReplyLine, ReplyLines};
use mail_fetch::{date_part, flags_part, size_part, uid_part};
use mail_message::{Item, OrderedRows, Summaries, Summary, Uids};
use mur_base::{Bytes, Memory};
use std::alloc::Global;

/// Whether the summaries of messages tell all that is asked, so that no body has to be read.
pub fn asks_summaries(it: &Fetching) -> bool
    ensures { result ≡ asks_summaries it.now }
{
    it.items.as_slice().iter().all(|item| is_in_summary(*item))
}

fn is_in_summary(item: Item) -> bool
    ensures { result ≡ is_in_summary item }
{
    !matches!(item, Item::Body(_) | Item::BodyPeek(_))
}

fn summary_part(alloc: Global, item: Item, summary: &Summary) -> Result<Bytes, Memory>
    ensures { IfOk result (λ text. text ≡ summary_part item summary.now) }
{
    match item {
        Item::Uid => uid_part(alloc, summary.uid),
        Item::InternalDate => date_part(alloc, summary.date),
        Item::Size => size_part(alloc, summary.size),
        _ => flags_part(alloc, &summary.flags),
    }
}

fn summary_parts(alloc: Global, items: &[Item], summary: &Summary) -> Result<Parts, Memory>
    ensures { IfOk result (λ parts. parts ≡ map (λ asked. summary_part asked summary.now) items.now) }
{
    let mut parts = Parts::new(alloc);
    for item in items {
        parts.push(summary_part(alloc, *item, summary)?)?;
    }
    Ok(parts)
}

fn put_summary_line(
    alloc: Global,
    lines: &mut ReplyLines,
    items: &[Item],
    summary: &Summary,
    place: Option<usize>,
) -> Result<(), Memory>
    requires { IfSome place (λ p. p + 1 < 2 ^ 32) }
    ensures { OnOk result (lines.new ≡ lines.old ++ summary_line items.now summary.now (option_map (λ p. p + 1) place)) }
{
    match place {
        Some(place) => {
            let number = number_of(place + 1);
            lines.push(ReplyLine::Fetch(number, summary_parts(alloc, items, summary)?))
        }
        None => Ok(()),
    }
}

/// Puts a line for each message, under its number in the view.
fn put_summary_lines(
    alloc: Global,
    lines: &mut ReplyLines,
    items: &[Item],
    rows: &OrderedRows,
    summaries: &[Summary],
) -> Result<(), Memory>
    ensures { OnOk result (lines.new ≡ lines.old ++ summary_lines items.now rows.now summaries.now) }
{
    let mut near = 0;
    for summary in summaries {
        let place = rows.place(summary.uid, &mut near);
        put_summary_line(alloc, lines, items, summary, place)?;
    }
    Ok(())
}

fn uids_of(alloc: Global, summaries: &[Summary]) -> Result<Uids, Memory>
    ensures { IfOk result (λ uids. uids ≡ map (λ summary. summary.uid) summaries.now) }
{
    let mut uids = Uids::new(alloc);
    for summary in summaries {
        uids.push(summary.uid)?;
    }
    Ok(uids)
}

fn uids_told(alloc: Global, it: &Fetching, summaries: &[Summary]) -> Result<Uids, Memory>
    ensures { IfOk result (λ uids. uids ≡ uids_told it.now summaries.now) }
{
    if asks_flags(it.items.as_slice()) {
        uids_of(alloc, summaries)
    } else {
        Ok(Uids::new(alloc))
    }
}

/// The lines of messages with these summaries.
fn summary_lines(
    alloc: Global,
    view: &View,
    it: &Fetching,
    summaries: &Summaries,
) -> Result<ReplyLines, Memory>
    ensures { IfOk result (λ lines. lines ≡ summary_lines (items_told it.now false) view.now.rows summaries.now) }
{
    let items = items_told(alloc, it, false)?;
    let mut lines = ReplyLines::new(alloc);
    put_summary_lines(
        alloc,
        &mut lines,
        items.as_slice(),
        &view.rows,
        summaries.as_slice(),
    )?;
    Ok(lines)
}

/// The news that stand behind the lines of a FETCH.
fn summary_news(
    alloc: Global,
    view: &View,
    it: &Fetching,
    summaries: &Summaries,
    now: OrderedRows,
) -> Result<Told, Memory>
    ensures { IfOk result (λ told. told ≡ news view.now.rows now it.now.by_uid (set_of (uids_told it.now summaries.now))) }
{
    let told = uids_told(alloc, it, summaries.as_slice())?;
    news_of(alloc, &view.rows, now, it.by_uid, told.as_slice())
}

/// What is told of the named messages by their summaries, and of the mailbox's rows at the same moment. Time is linear in the rows and the
/// summaries, but for the set of the UIDs whose flags are told, which is made where something has changed.
pub fn summaries_told(
    alloc: Global,
    view: &View,
    it: &Fetching,
    summaries: &Summaries,
    now: OrderedRows,
) -> Result<Turn, Memory>
    ensures { IfOk result (λ turn. turn ≡ summaries_told view.now it.now summaries.now now) }
{
    let lines = summary_lines(alloc, view, it, summaries)?;
    let code = code_for(it.by_uid, &now, it.uids.as_slice());
    let news = summary_news(alloc, view, it, summaries, now)?;
    fetched(alloc, view, it.by_uid, lines, news, code)
}
