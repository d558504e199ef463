// FETCH and UID FETCH (RFC 9051, 6.4.5, 6.4.9 and 7.5.2).
ghost use Rattle.std.specs.Prelude.{◌≡◌, ◌+◌, ◌<◌, ◌^◌, ◌∷◌, [], ◌++◌, if◌then◌else◌, IfOk, OnOk, Some, map};
ghost use Rattle.std.specs.List.{list_any};
ghost use Rattle.std.specs.Option.{option_copied, option_map, IfSome};
ghost use Rattle.mail_fetch.specs.Parts.{part_text};
ghost use Rattle.mail_message.specs.Boxes.{relabelled};
ghost use Rattle.mail_message.specs.declared.mode.Mode.TheVariants.{Add};
ghost use Rattle.mail_store.specs.Store.{stored};
ghost use Rattle.mur_model.specs.Fetch.{fetch, fetch_at, fetch_told, fetch_name, fetch_lines, fetch_reply_line, items_told, is_body, is_uid_item};
ghost use Rattle.mur_model.specs.Fetch.{each_once, is_flags, same_item, same_partial, sees, seen_flags};
ghost use Rattle.mur_model.specs.Fetch.{tells_flags, flag_uids};
ghost use Rattle.mur_model.specs.Left.{IsLeft};
ghost use Rattle.mur_model.specs.Need.{begun_of};
ghost use Rattle.mur_model.specs.Needed.{at_mailbox};
ghost use Rattle.mur_model.specs.declared.work.ViewWork.TheVariants.{Fetch as fetch_work};
ghost use Rattle.mur_model.specs.Asking.{fetch_op};
ghost use Rattle.mur_model.specs.FetchRows.{asks_rows as is_of_rows};
ghost use Rattle.mur_model.specs.FetchSummaries.{asks_summaries as is_of_summaries};

use crate::commands::fetch_rows::asks_rows;
use crate::commands::fetch_summaries::asks_summaries;
use crate::commands::store::code_for;
use crate::named_rows::{named_uids, names_messages};
use crate::need::{Begun, at_view, no_such_number};
use crate::news::{news_of, number_of};
use crate::selected::with_news;
use crate::session::Turn;
use crate::view::View;
use crate::work::ViewWork;
use imap_types::{Op, Parts, ReplyLine, ReplyLines, Verdict};
use mail_fetch::{flags_part, part};
use mail_message::{
    FetchItems, FlagFault, FlagName, FlagSet, Item, MailBox, Message, Messages, Mode, OrderedRows,
    Partial, Row, SetParts, SystemFlag, Uids,
};
use mail_store::{StoreFault, set_flags};
use mur_base::{Bytes, Copied, Memory};
use std::alloc::Global;

/// A FETCH whose messages are named by their UIDs, whichever way its client named them, with each item once.
#[derive(Drop)]
pub struct Fetching {
    pub by_uid: bool,
    pub uids: Uids,
    pub items: FetchItems,
}

fn is_same_partial(one: Option<Partial>, other: Option<Partial>) -> bool
    ensures { result ≡ same_partial one other }
{
    match (one, other) {
        (None, None) => true,
        (Some(one), Some(other)) => one.from == other.from && one.count == other.count,
        _ => false,
    }
}

fn is_same_item(one: Item, other: Item) -> bool
    ensures { result ≡ same_item one other }
{
    match (one, other) {
        (Item::Flags, Item::Flags)
        | (Item::Uid, Item::Uid)
        | (Item::InternalDate, Item::InternalDate)
        | (Item::Size, Item::Size) => true,
        (Item::Body(one), Item::Body(other)) => is_same_partial(one, other),
        (Item::BodyPeek(one), Item::BodyPeek(other)) => is_same_partial(one, other),
        _ => false,
    }
}

fn has_item(told: &[Item], item: Item) -> bool
    ensures { result ≡ list_any (same_item item) told.now }
{
    told.iter().any(|other| is_same_item(item, *other))
}

/// The items, each where it was asked for first.
fn each_once(alloc: Global, items: &FetchItems) -> Result<FetchItems, Memory>
    ensures { IfOk result (λ once. once ≡ each_once [] items.now) }
{
    let mut once = FetchItems::new(alloc);
    for item in items.as_slice() {
        if !has_item(once.as_slice(), *item) {
            once.push(*item)?;
        }
    }
    Ok(once)
}

/// What FETCH needs.
pub fn fetch(
    alloc: Global,
    view: &View,
    by_uid: bool,
    set: &SetParts,
    items: &FetchItems,
) -> Result<Begun, Memory>
    ensures { IfOk result (λ begun. begun ≡ begun_of (fetch view.now by_uid set.now items.now)) }
{
    if !names_messages(view, by_uid, set) {
        return Ok(no_such_number(alloc));
    }
    let it = Fetching {
        by_uid,
        uids: named_uids(alloc, by_uid, set, &view.rows)?,
        items: each_once(alloc, items)?,
    };
    fetch_asks(alloc, view, it)
}

/// The home of the mailbox is asked for the named messages; for them without their bodies, or for a look, where that tells all.
#[tactic(auto, unfolding(crate::specs::Asking::view_op))]
fn fetch_asks(alloc: Global, view: &View, it: Fetching) -> Result<Begun, Memory>
    ensures { IfOk result (λ begun. begun ≡ begun_of (at_mailbox view.now (fetch_work it))) }
{
    let op = fetch_op(alloc, view, &it)?;
    at_view(alloc, view, op, ViewWork::Fetch(it))
}

#[tactic(auto, unfolding(crate::specs::Asking::fetch_op))]
fn fetch_op(alloc: Global, view: &View, it: &Fetching) -> Result<Op, Memory>
    ensures { IfOk result (λ op. op ≡ fetch_op view.now it.now (is_of_rows it.now) (is_of_summaries it.now)) }
{
    if asks_rows(it) {
        return Ok(Op::Look);
    }
    if asks_summaries(it) {
        return Ok(Op::Summaries(it.uids.copy(alloc)?));
    }
    Ok(Op::Read(it.uids.copy(alloc)?, sees(view, it)))
}

/// Whether the messages get `\Seen`: a body is asked for, in a mailbox that was selected to be changed (RFC 9051, 6.4.5).
pub fn sees(view: &View, it: &Fetching) -> bool
    ensures { result ≡ sees view.now it.now }
{
    view.is_writable && asks_body(it.items.as_slice())
}

fn asks_body(items: &[Item]) -> bool
    ensures { result ≡ list_any is_body items.now }
{
    items.iter().any(|item| is_body(*item))
}

fn asks_uid(items: &[Item]) -> bool
    ensures { result ≡ list_any is_uid_item items.now }
{
    items.iter().any(|item| is_uid(*item))
}

pub fn asks_flags(items: &[Item]) -> bool
    ensures { result ≡ list_any is_flags items.now }
{
    items.iter().any(|item| is_flags(*item))
}

fn is_body(item: Item) -> bool
    ensures { result ≡ is_body item }
{
    matches!(item, Item::Body(_))
}

fn is_uid(item: Item) -> bool
    ensures { result ≡ is_uid_item item }
{
    matches!(item, Item::Uid)
}

fn is_flags(item: Item) -> bool
    ensures { result ≡ is_flags item }
{
    matches!(item, Item::Flags)
}

/// The items that are told of a message: the UID first where it was named by UID, the flags last where the fetch changed them, unless they
/// were asked for.
pub fn items_told(alloc: Global, it: &Fetching, changes: bool) -> Result<FetchItems, Memory>
    ensures { IfOk result (λ items. items ≡ items_told it.now changes) }
{
    let asked = it.items.as_slice();
    let mut items = FetchItems::new(alloc);
    put_if(&mut items, it.by_uid && !asks_uid(asked), Item::Uid)?;
    put_items(&mut items, asked)?;
    put_if(&mut items, changes && !asks_flags(asked), Item::Flags)?;
    Ok(items)
}

fn put_if(items: &mut FetchItems, told: bool, item: Item) -> Result<(), Memory>
    ensures { OnOk result (items.new ≡ items.old ++ (if told then item ∷ [] else [])) }
{
    if told {
        items.push(item)?;
    }
    Ok(())
}

fn put_items(items: &mut FetchItems, asked: &[Item]) -> Result<(), Memory>
    ensures { OnOk result (items.new ≡ items.old ++ asked.now) }
{
    for item in asked {
        items.push(*item)?;
    }
    Ok(())
}

/// What items give of a message with these flags.
fn parts_of(
    alloc: Global,
    items: &FetchItems,
    message: &Message,
    flags: &FlagSet,
) -> Result<Parts, Memory>
    ensures { IfOk result (λ parts. parts ≡ map (λ asked. part_text asked (relabelled message.now flags.now)) items.now) }
{
    let mut parts = Parts::new(alloc);
    for item in items.as_slice() {
        parts.push(part_with(alloc, item, message, flags)?)?;
    }
    Ok(parts)
}

/// What an item gives of a message with these flags.
fn part_with(
    alloc: Global,
    item: &Item,
    message: &Message,
    flags: &FlagSet,
) -> Result<Bytes, Memory>
    ensures { IfOk result (λ text. text ≡ part_text item.now (relabelled message.now flags.now)) }
{
    match item {
        Item::Flags => flags_part(alloc, flags),
        _ => part(alloc, item, message),
    }
}

/// Puts a line for each message, under its number in the view.
fn put_lines(
    alloc: Global,
    lines: &mut ReplyLines,
    it: &Fetching,
    rows: &OrderedRows,
    now: &OrderedRows,
    before: &[Message],
) -> Result<(), Memory>
    ensures { OnOk result (lines.new ≡ lines.old ++ fetch_lines it.now rows.now now.now before.now) }
{
    let mut near = 0;
    let mut near_now = 0;
    for message in before {
        let place = rows.place(message.uid, &mut near);
        let row = now.find(message.uid, &mut near_now);
        put_line(alloc, lines, it, message, place, row)?;
    }
    Ok(())
}

fn put_line(
    alloc: Global,
    lines: &mut ReplyLines,
    it: &Fetching,
    message: &Message,
    place: Option<usize>,
    row: Option<&Row>,
) -> Result<(), Memory>
    requires { IfSome place (λ p. p + 1 < 2 ^ 32) }
    ensures { OnOk result (lines.new ≡ lines.old ++ fetch_reply_line it.now message.now (option_map (λ p. p + 1) place) (option_copied row.entry)) }
{
    match (place, row) {
        (Some(place), Some(row)) => put_some_line(alloc, lines, it, message, place, row),
        _ => Ok(()),
    }
}

fn put_some_line(
    alloc: Global,
    lines: &mut ReplyLines,
    it: &Fetching,
    message: &Message,
    place: usize,
    row: &Row,
) -> Result<(), Memory>
    requires { place + 1 < 2 ^ 32 }
    ensures { OnOk result (lines.new ≡ lines.old ++ fetch_reply_line it.now message.now (Some (place + 1)) (Some row.now)) }
{
    let number = number_of(place + 1);
    let changes = !message.flags.is_same(&row.flags);
    let items = items_told(alloc, it, changes)?;
    let parts = parts_of(alloc, &items, message, &row.flags)?;
    lines.push(ReplyLine::Fetch(number, parts))
}

fn tells_flags(it: &Fetching, message: &Message, row: Option<&Row>) -> bool
    ensures { result ≡ tells_flags it.now message.now (option_copied row.entry) }
{
    match row {
        Some(row) => { asks_flags(it.items.as_slice()) || !message.flags.is_same(&row.flags) }
        None => false,
    }
}

/// The UIDs of the messages whose flags are told.
fn flag_uids(
    alloc: Global,
    it: &Fetching,
    now: &OrderedRows,
    before: &[Message],
) -> Result<Uids, Memory>
    ensures { IfOk result (λ uids. uids ≡ flag_uids it.now now.now before.now) }
{
    let mut uids = Uids::new(alloc);
    let mut near = 0;
    for message in before {
        if tells_flags(it, message, now.find(message.uid, &mut near)) {
            uids.push(message.uid)?;
        }
    }
    Ok(uids)
}

/// What is told of the named messages as they were before, and of the mailbox's rows now. Time is linear in the rows and the messages, but for
/// the set of the UIDs whose flags are told; a body is copied once for each item that asks for it, and else not.
pub fn fetch_told(
    alloc: Global,
    view: &View,
    it: &Fetching,
    before: &Messages,
    now: OrderedRows,
) -> Result<Turn, Memory>
    ensures { IfOk result (λ turn. turn ≡ fetch_told view.now it.now before.now now) }
{
    let mut lines = ReplyLines::new(alloc);
    put_lines(alloc, &mut lines, it, &view.rows, &now, before.as_slice())?;
    let told = flag_uids(alloc, it, &now, before.as_slice())?;
    let code = code_for(it.by_uid, &now, it.uids.as_slice());
    let news = news_of(alloc, &view.rows, now, it.by_uid, told.as_slice())?;
    let verdict = Verdict::Ok(code, Bytes::from_slice(alloc, fetch_name(it.by_uid))?);
    with_news(alloc, view, lines, news, verdict)
}

pub fn fetch_name(by_uid: bool) -> &'static [u8]
    ensures { result.now ≡ fetch_name by_uid }
{
    if by_uid { b"UID FETCH" } else { b"FETCH" }
}

/// Reads the named messages of the mailbox of a view. For want of memory nothing is said of the mailbox.
#[tactic(auto, unfolding(crate::specs::Left::box_after))]
pub fn fetch_at(
    alloc: Global,
    view: &View,
    mailbox: &mut MailBox,
    it: &Fetching,
) -> Result<Turn, Memory>
    ensures { IfOk result (λ turn. IsLeft mailbox.old (fetch_at view.now it.now mailbox.old) mailbox.new turn) }
{
    let before = mailbox.read(alloc, it.uids.as_slice())?;
    if sees(view, it) {
        see(alloc, mailbox, it)?;
    }
    let now = mailbox.look(alloc)?.rows;
    fetch_told(alloc, view, it, &before, now)
}

/// Gives the named messages `\Seen`, which passes no limit.
fn see(alloc: Global, mailbox: &mut MailBox, it: &Fetching) -> Result<(), Memory>
    ensures { OnOk result (mailbox.new ≡ stored mailbox.old it.now.uids Add seen_flags) }
{
    let seen = seen_flags(alloc)?;
    match set_flags(alloc, mailbox, it.uids.as_slice(), Mode::Add, &seen) {
        Ok(_rows) => Ok(()),
        Err(StoreFault::Memory) => Err(Memory),
        Err(_) => unreachable!(),
    }
}

fn seen_flags(alloc: Global) -> Result<FlagSet, Memory>
    ensures { IfOk result (λ flags. flags ≡ seen_flags) }
{
    match FlagSet::new(alloc).with(alloc, &FlagName::System(SystemFlag::Seen)) {
        Ok(flags) => Ok(flags),
        Err(FlagFault::Memory) => Err(Memory),
        Err(_) => unreachable!(),
    }
}
