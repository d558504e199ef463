// What a client is told of its view (RFC 9051, 7.4 and 7.5).
ghost use Rattle.std.specs.Prelude.{◌≡◌, ◌+◌, ◌<◌, ◌≤◌, ◌^◌, ◌++◌, length, IfOk, OnOk};
ghost use Rattle.mail_message.specs.RowOrder.{AreRising, HaveNext};
ghost use Rattle.mail_store.specs.Named.{set_of};
ghost use Rattle.mur_model.specs.ClientView.{Known, Agrees, known_after_all, uids};
ghost use Rattle.mur_model.specs.News.{is_among, news, told_of, expunge_lines, rows_there, rows_behind, is_above};
ghost use Rattle.mur_model.specs.News.{fresh_rows, exists_lines, changed_lines, changed_line, flag_parts};
ghost use Rattle.mur_model.specs.Beside.{same_until};
ghost use Rattle.std.specs.Option.{option_copied};

use crate::beside::{same_until, told_unchanged, told_walked, walk};
use imap_types::{Parts, ReplyLine, ReplyLines};
use mail_fetch::{flags_part, uid_part};
use mail_message::{OrderedRows, Row, Rows};
use mail_store::set_of;
use mur_base::{Copied, Memory};
use std::alloc::Global;
use std::collections::BTreeSet;

/// What a client is told, and the rows of its view behind it.
#[derive(Drop)]
pub struct Told {
    pub lines: ReplyLines,
    pub rows: OrderedRows,
}

/// The news of a view of a mailbox that has these rows now. Expunged messages are told where numbers may change; the flags of the rows
/// with the UIDs that are told already stand in no line. One walk compares the view with the mailbox's rows, which become the view's without
/// a copy; the set of the UIDs that are told is made where something has changed. Only where a message is gone that may not be told yet, each
/// row is looked up and copied.
pub fn news_of(
    alloc: Global,
    rows: &OrderedRows,
    now: OrderedRows,
    expunges: bool,
    told: &[u32],
) -> Result<Told, Memory>
    ensures news { IfOk result (λ it. it ≡ news rows.now now expunges (set_of told.now)) }
    ensures client { IfOk result (λ it. (known : Known) → Agrees known (uids rows.now) → Agrees (known_after_all known it.lines) (uids it.rows)) }
{
    news_by(alloc, rows, now, expunges, told)
}

#[tactic(auto, using(crate::proofs::BesideLaw::unchanged_news))]
fn news_by(
    alloc: Global,
    rows: &OrderedRows,
    now: OrderedRows,
    expunges: bool,
    told: &[u32],
) -> Result<Told, Memory>
    ensures { IfOk result (λ it. it ≡ news rows.now now expunges (set_of told.now)) }
{
    let same = same_until(rows.as_slice(), now.as_slice());
    if same == rows.len() {
        return told_unchanged(alloc, same, now);
    }
    news_from(alloc, rows, now, expunges, &set_of(alloc, told)?, same)
}

/// The news where so many rows are the same first.
#[tactic(auto, using(crate::proofs::BesideLaw::walked_news))]
fn news_from(
    alloc: Global,
    rows: &OrderedRows,
    now: OrderedRows,
    expunges: bool,
    told: &BTreeSet<u32>,
    same: usize,
) -> Result<Told, Memory>
    requires is { same ≡ same_until rows.now now }
    requires within { same ≤ length rows.now }
    ensures { IfOk result (λ it. it ≡ news rows.now now expunges told.now.keys) }
{
    match walk(alloc, rows.as_slice(), now.as_slice(), expunges, told, same)? {
        Some(walked) => told_walked(walked, now),
        None => news_apart(alloc, rows, &now, expunges, told),
    }
}

/// The news by look-ups.
#[tactic(auto, unfolding(crate::specs::News::news))]
fn news_apart(
    alloc: Global,
    rows: &OrderedRows,
    now: &OrderedRows,
    expunges: bool,
    told: &BTreeSet<u32>,
) -> Result<Told, Memory>
    ensures { IfOk result (λ it. it ≡ news rows.now now.now expunges told.now.keys) }
{
    let mut lines = ReplyLines::new(alloc);
    if expunges {
        put_expunged(&mut lines, rows, now)?;
        let kept = rows_there(alloc, rows, now)?;
        told_of(alloc, lines, &kept, now, told)
    } else {
        told_of(alloc, lines, rows, now, told)
    }
}

/// The number of the last of so many messages (RFC 9051, 9: nz-number).
pub fn number_of(count: usize) -> u32
    requires { count < 2 ^ 32 }
    ensures { result ≡ count }
{
    count as u32
}

/// Puts a line for each message that is no more.
fn put_expunged(lines: &mut ReplyLines, rows: &OrderedRows, now: &OrderedRows) -> Result<(), Memory>
    ensures { OnOk result (lines.new ≡ lines.old ++ expunge_lines now.now 1 rows.now) }
{
    let mut near = 0;
    let mut kept = 0u32;
    for row in rows.as_slice() {
        if now.find(row.uid, &mut near).is_some() {
            kept += 1;
        } else {
            lines.push(ReplyLine::Expunge(kept + 1))?;
        }
    }
    Ok(())
}

/// The rows whose messages are there.
fn rows_there(alloc: Global, rows: &OrderedRows, now: &OrderedRows) -> Result<OrderedRows, Memory>
    ensures { IfOk result (λ there. there ≡ rows_there now.now rows.now) }
{
    let mut there = Rows::new(alloc);
    let mut near = 0;
    for row in rows.as_slice() {
        if now.find(row.uid, &mut near).is_some() {
            there.push(row.copy(alloc)?)?;
        }
    }
    Ok(OrderedRows::from_rising(there))
}

fn told_of(
    alloc: Global,
    lines: ReplyLines,
    rows: &OrderedRows,
    now: &OrderedRows,
    told: &BTreeSet<u32>,
) -> Result<Told, Memory>
    ensures { IfOk result (λ it. it ≡ told_of lines rows.now now.now told.now.keys) }
{
    let mut lines = lines;
    let view = view_of(alloc, rows, now)?;
    put_exists(&mut lines, rows.len(), view.len() - rows.len())?;
    put_changed(alloc, &mut lines, rows, now, told)?;
    Ok(Told { lines, rows: view })
}

/// The rows of a view as the mailbox has them, and those behind them.
fn view_of(alloc: Global, rows: &OrderedRows, now: &OrderedRows) -> Result<OrderedRows, Memory>
    ensures { IfOk result (λ view. view ≡ fresh_rows now.now rows.now ++ rows_behind rows.now now.now) }
{
    let mut view = fresh_rows(alloc, rows, now)?;
    put_behind(alloc, &mut view, rows, now)?;
    Ok(OrderedRows::from_rising(view))
}

/// The rows of a view as the mailbox has them.
fn fresh_rows(alloc: Global, rows: &OrderedRows, now: &OrderedRows) -> Result<Rows, Memory>
    ensures view { IfOk result (λ view. view ≡ fresh_rows now.now rows.now) }
    ensures rising { OnOk result (AreRising rows.now) }
    ensures next { OnOk result (HaveNext rows.now) }
{
    let mut view = Rows::new(alloc);
    let mut near = 0;
    for row in rows.as_slice() {
        let fresh = now.find(row.uid, &mut near).unwrap_or(row);
        view.push(fresh.copy(alloc)?)?;
    }
    Ok(view)
}

/// Puts the rows behind those of a view.
fn put_behind(
    alloc: Global,
    view: &mut Rows,
    rows: &OrderedRows,
    now: &OrderedRows,
) -> Result<(), Memory>
    ensures view { OnOk result (view.new ≡ view.old ++ rows_behind rows.now now.now) }
    ensures rising { OnOk result (AreRising now.now) }
    ensures next { OnOk result (HaveNext now.now) }
{
    for row in now.as_slice() {
        if is_behind(rows, row.uid) {
            view.push(row.copy(alloc)?)?;
        }
    }
    Ok(())
}

fn is_behind(rows: &OrderedRows, uid: u32) -> bool
    ensures { result ≡ is_above rows.now uid }
{
    rows.is_below(uid)
}

pub fn put_exists(lines: &mut ReplyLines, before: usize, more: usize) -> Result<(), Memory>
    requires { before + more < 2 ^ 32 }
    ensures { OnOk result (lines.new ≡ lines.old ++ exists_lines before more) }
{
    if more == 0 {
        return Ok(());
    }
    lines.push(ReplyLine::Exists(number_of(before + more)))
}

/// Puts a line for each message with other flags than were told.
fn put_changed(
    alloc: Global,
    lines: &mut ReplyLines,
    rows: &OrderedRows,
    now: &OrderedRows,
    told: &BTreeSet<u32>,
) -> Result<(), Memory>
    ensures { OnOk result (lines.new ≡ lines.old ++ changed_lines now.now told.now.keys 1 rows.now) }
{
    let mut near = 0;
    let mut number = 0u32;
    for row in rows.as_slice() {
        number += 1;
        let it = now.find(row.uid, &mut near);
        let is_told = is_among(told, row.uid);
        put_changed_line(alloc, lines, number, row, it, is_told)?;
    }
    Ok(())
}

#[tactic(auto, unfolding(crate::specs::News::is_among))]
pub fn is_among(uids: &BTreeSet<u32>, uid: u32) -> bool
    ensures { result ≡ is_among uids.now.keys uid }
{
    uids.contains(&uid)
}

pub fn put_changed_line(
    alloc: Global,
    lines: &mut ReplyLines,
    number: u32,
    row: &Row,
    it: Option<&Row>,
    is_told: bool,
) -> Result<(), Memory>
    ensures { OnOk result (lines.new ≡ lines.old ++ changed_line is_told number row.now (option_copied it.entry)) }
{
    match it {
        Some(it) => {
            if !is_told && !row.flags.is_same(&it.flags) {
                lines.push(ReplyLine::Fetch(number, flag_parts(alloc, true, it)?))?;
            }
            Ok(())
        }
        None => Ok(()),
    }
}

/// What a FETCH line says of a message's flags, under its UID where that is told too.
pub fn flag_parts(alloc: Global, by_uid: bool, row: &Row) -> Result<Parts, Memory>
    ensures { IfOk result (λ parts. parts ≡ flag_parts by_uid row.now) }
{
    let mut parts = Parts::new(alloc);
    if by_uid {
        parts.push(uid_part(alloc, row.uid)?)?;
    }
    parts.push(flags_part(alloc, &row.flags)?)?;
    Ok(parts)
}
