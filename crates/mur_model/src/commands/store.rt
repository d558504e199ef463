// STORE and UID STORE (RFC 9051, 6.4.6 and 6.4.9).
ghost use Rattle.std.specs.Prelude.{◌≡◌, ◌≢◌, ◌+◌, ◌<◌, ◌^◌, ◌++◌, IfOk, OnOk};
ghost use Rattle.std.specs.Option.{IfSome};
ghost use Rattle.mur_model.specs.Left.{IsLeft};
ghost use Rattle.mur_model.specs.Selected.{rows_of};
ghost use Rattle.mur_model.specs.StoreFlags.{store, store_at, store_told, store_refused};
ghost use Rattle.mur_model.specs.StoreFlags.{store_name, stored_lines, own_lines, some_gone, code_for};
ghost use Rattle.mur_model.specs.StoredLines.{placed_line, placed_lines};
ghost use Rattle.mur_model.specs.Need.{begun_of};
ghost use Rattle.mur_model.specs.Needed.{at_mailbox};
ghost use Rattle.mur_model.specs.declared.work.ViewWork.TheVariants.{Store as store_work};

use crate::named_rows::{named_uids, names_messages, uids_of};
use crate::need::{Begun, at_view, no_such_number, read_only};
use crate::news::{flag_parts, news_of, number_of};
use crate::selected::with_news;
use crate::session::Turn;
use crate::view::View;
use crate::work::ViewWork;
use imap_types::{Code, NoText, Op, ReplyLine, ReplyLines, Verdict};
use mail_message::{FlagSet, MailBox, Mode, OrderedRows, Row, SetParts, Uids};
use mail_store::{StoreFault, set_flags};
use mur_base::{Bytes, Copied, Memory};
use std::alloc::Global;

/// A STORE whose messages are named by their UIDs, whichever way its client named them.
#[derive(Drop)]
pub struct FlagStore {
    pub by_uid: bool,
    pub uids: Uids,
    pub mode: Mode,
    pub is_silent: bool,
    pub flags: FlagSet,
}

/// What STORE needs.
pub fn store(
    alloc: Global,
    view: &View,
    by_uid: bool,
    set: &SetParts,
    mode: Mode,
    is_silent: bool,
    flags: FlagSet,
) -> Result<Begun, Memory>
    ensures { IfOk result (λ begun. begun ≡ begun_of (store view.now by_uid set.now mode is_silent flags)) }
{
    if !names_messages(view, by_uid, set) {
        return Ok(no_such_number(alloc));
    }
    if !view.is_writable {
        return Ok(read_only(alloc));
    }
    let it = FlagStore {
        by_uid,
        uids: named_uids(alloc, by_uid, set, &view.rows)?,
        mode,
        is_silent,
        flags,
    };
    store_asks(alloc, view, it)
}

/// The home of the mailbox is asked to change the flags.
#[tactic(auto, unfolding(crate::specs::Asking::view_op))]
fn store_asks(alloc: Global, view: &View, it: FlagStore) -> Result<Begun, Memory>
    ensures { IfOk result (λ begun. begun ≡ begun_of (at_mailbox view.now (store_work it))) }
{
    let op = Op::Flags(it.uids.copy(alloc)?, it.mode, it.flags.copy(alloc)?);
    at_view(alloc, view, op, ViewWork::Store(it))
}

/// Changes the flags of the named messages in the mailbox of a view; those that aren't there are passed over. For want of memory nothing is
/// said of the mailbox. Time is linear in the view and the mailbox's messages.
pub fn store_at(
    alloc: Global,
    view: &View,
    mailbox: &mut MailBox,
    it: &FlagStore,
) -> Result<Turn, Memory>
    ensures { IfOk result (λ turn. IsLeft mailbox.old (store_at view.now it.now mailbox.old) mailbox.new turn) }
{
    match set_flags(alloc, mailbox, it.uids.as_slice(), it.mode, &it.flags) {
        Ok(changes) => stored(alloc, view, mailbox, it, &changes),
        Err(fault) => refused_for(alloc, view, mailbox, it, fault),
    }
}

fn stored(
    alloc: Global,
    view: &View,
    mailbox: &MailBox,
    it: &FlagStore,
    changes: &OrderedRows,
) -> Result<Turn, Memory>
    ensures { IfOk result (λ turn. turn ≡ store_told view.now it.now changes.now (rows_of mailbox.now)) }
{
    let now = mailbox.look(alloc)?.rows;
    store_told(alloc, view, it, changes, now)
}

/// What is told where the named messages that are there have these rows, and the mailbox has those now.
pub fn store_told(
    alloc: Global,
    view: &View,
    it: &FlagStore,
    changes: &OrderedRows,
    now: OrderedRows,
) -> Result<Turn, Memory>
    ensures { IfOk result (λ turn. turn ≡ store_told view.now it.now changes.now now) }
{
    let mut lines = ReplyLines::new(alloc);
    put_own_lines(alloc, &mut lines, it, changes, &view.rows)?;
    let told = uids_of(alloc, changes.as_slice())?;
    let code = code_for(it.by_uid, &now, it.uids.as_slice());
    let news = news_of(alloc, &view.rows, now, it.by_uid, told.as_slice())?;
    let verdict = Verdict::Ok(code, Bytes::from_slice(alloc, store_name(it.by_uid))?);
    with_news(alloc, view, lines, news, verdict)
}

fn refused_for(
    alloc: Global,
    view: &View,
    mailbox: &MailBox,
    it: &FlagStore,
    fault: StoreFault,
) -> Result<Turn, Memory>
    ensures { IfOk result (λ turn. (fault ≢ StoreFault.Memory) × (turn ≡ store_refused view.now it.now (rows_of mailbox.now))) }
{
    if matches!(fault, StoreFault::Memory) {
        return Err(Memory);
    }
    let now = mailbox.look(alloc)?.rows;
    store_refused(alloc, view, it, now)
}

/// What is told where a message would have too many keywords.
pub fn store_refused(
    alloc: Global,
    view: &View,
    it: &FlagStore,
    now: OrderedRows,
) -> Result<Turn, Memory>
    ensures { IfOk result (λ turn. turn ≡ store_refused view.now it.now now) }
{
    let news = news_of(alloc, &view.rows, now, it.by_uid, &[])?;
    let verdict = Verdict::No(NoText::Limit);
    with_news(alloc, view, ReplyLines::new(alloc), news, verdict)
}

fn put_own_lines(
    alloc: Global,
    lines: &mut ReplyLines,
    it: &FlagStore,
    changes: &OrderedRows,
    rows: &OrderedRows,
) -> Result<(), Memory>
    ensures { OnOk result (lines.new ≡ lines.old ++ own_lines it.now changes.now rows.now) }
{
    if it.is_silent {
        return Ok(());
    }
    put_stored_lines(alloc, lines, it.by_uid, changes, rows)
}

/// Puts a line for each named message that is there: each is looked up in the view.
#[tactic(auto, using(crate::proofs::StoredLaw::lines_by_change))]
fn put_stored_lines(
    alloc: Global,
    lines: &mut ReplyLines,
    by_uid: bool,
    changes: &OrderedRows,
    rows: &OrderedRows,
) -> Result<(), Memory>
    ensures { OnOk result (lines.new ≡ lines.old ++ stored_lines by_uid changes.now 1 rows.now) }
{
    if rows.as_slice().is_empty() {
        return Ok(());
    }
    put_placed_lines(alloc, lines, by_uid, rows, changes.as_slice())
}

/// Puts a line for each change of a message of the view.
fn put_placed_lines(
    alloc: Global,
    lines: &mut ReplyLines,
    by_uid: bool,
    rows: &OrderedRows,
    changes: &[Row],
) -> Result<(), Memory>
    ensures { OnOk result (lines.new ≡ lines.old ++ placed_lines by_uid 0 rows.now changes.now) }
{
    let mut near = 0;
    for change in changes {
        let place = rows.place(change.uid, &mut near);
        put_placed_line(alloc, lines, by_uid, place, change)?;
    }
    Ok(())
}

fn put_placed_line(
    alloc: Global,
    lines: &mut ReplyLines,
    by_uid: bool,
    place: Option<usize>,
    change: &Row,
) -> Result<(), Memory>
    requires { IfSome place (λ p. p + 1 < 2 ^ 32) }
    ensures { OnOk result (lines.new ≡ lines.old ++ placed_line by_uid place change.now) }
{
    match place {
        Some(place) => {
            let number = number_of(place + 1);
            let parts = flag_parts(alloc, by_uid, change)?;
            lines.push(ReplyLine::Fetch(number, parts))
        }
        None => Ok(()),
    }
}

/// Whether some of the named messages are no more.
fn some_gone(now: &OrderedRows, uids: &[u32]) -> bool
    ensures { result ≡ some_gone now.now uids.now }
{
    let mut near = 0;
    for uid in uids {
        if now.find(*uid, &mut near).is_none() {
            return true;
        }
    }
    false
}

/// The code of a command by numbers, some of whose messages are no more (RFC 9051, 7.1: EXPUNGEISSUED).
pub fn code_for(by_uid: bool, now: &OrderedRows, uids: &[u32]) -> Code
    ensures { result ≡ code_for by_uid now.now uids.now }
{
    if !by_uid && some_gone(now, uids) {
        Code::ExpungeIssued
    } else {
        Code::None
    }
}

fn store_name(by_uid: bool) -> &'static [u8]
    ensures { result.now ≡ store_name by_uid }
{
    if by_uid { b"UID STORE" } else { b"STORE" }
}
