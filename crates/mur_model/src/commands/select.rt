// SELECT and EXAMINE (RFC 9051, 6.3.2 and 6.3.3).
ghost use Rattle.std.specs.Prelude.{◌≡◌, ◌++◌, map, IfOk, OnOk};
ghost use Rattle.mail_message.specs.declared.flag_name.FlagName.TheVariants.{Keyword as named};
ghost use Rattle.mur_model.specs.Needed.{Turned, Mailbox, Select as select_work};
ghost use Rattle.mail_message.specs.Keywords.{with_keywords};
ghost use Rattle.mur_model.specs.Rights.{has_rights};
ghost use Rattle.mur_model.specs.Left.{store_after};
ghost use Rattle.mur_model.specs.Store.{box_at};
ghost use Rattle.mur_model.specs.Select.{select, select_by, select_on, opening, select_name, select_lines, select_told, closed_lines, unselected, access_code};
ghost use Rattle.mur_model.specs.Select.{keywords_in, flags_of, permanent_reply_line, system_flags};
ghost use Rattle.mur_model.specs.Need.{begun_of};

use crate::need::{Awaited, Begun};
use crate::news::number_of;
use crate::rights::has_rights;
use crate::session::{Sess, Turn};
use crate::setting::Setting;
use crate::store::Store;
use crate::view::View;
use imap_types::{Attribute, Code, FlagNames, NoText, Op, Reply, ReplyLine, ReplyLines, Verdict};
use mail_message::{FlagName, Keyword, Keywords, Row, Snapshot, SystemFlag};
use mur_base::{Bytes, Copied, MailName, Memory, NameFault, UserName, shown, taken};
use std::alloc::Global;
use std::collections::BTreeSet;

/// A mailbox that is to be selected.
#[derive(Drop)]
pub struct Opening {
    pub user: UserName,
    /// Its name as it is shown to the user.
    pub shown: Bytes,
    /// Whether it is selected to be changed.
    pub is_writable: bool,
    /// Whether one was selected before.
    pub was_selected: bool,
}

/// What SELECT or EXAMINE of a text needs: the mailbox, where the user has rights to it. A refusal leaves none selected.
#[tactic(auto, unfolding(crate::specs::Select::select, crate::specs::Select::select_as))]
pub fn select(
    alloc: Global,
    with: &Setting,
    user: &UserName,
    text: &[u8],
    is_writable: bool,
    was_selected: bool,
) -> Result<Begun, Memory>
    ensures { IfOk result (λ begun. begun ≡ begun_of (select with.now user.now text.now is_writable was_selected)) }
{
    match taken(alloc, user, text) {
        Ok(name) => select_named(alloc, with, user, name, is_writable, was_selected),
        Err(NameFault::Memory) => Err(Memory),
        Err(_) => refused(alloc, user, was_selected, NoText::NonExistent),
    }
}

#[tactic(auto, unfolding(crate::specs::Select::select_by))]
fn select_named(
    alloc: Global,
    with: &Setting,
    user: &UserName,
    name: MailName,
    is_writable: bool,
    was_selected: bool,
) -> Result<Begun, Memory>
    ensures { IfOk result (λ begun. begun ≡ begun_of (select_by name (opening user.now name is_writable was_selected) (has_rights with.now.users user.now name))) }
{
    if !has_rights(&with.users, user, &name) {
        return refused(alloc, user, was_selected, NoText::NoPerm);
    }
    let it = Opening {
        user: user.copy(alloc)?,
        shown: shown(alloc, user, &name)?,
        is_writable,
        was_selected,
    };
    select_asks(alloc, name, it)
}

/// The home of the mailbox is asked for a look at it.
#[tactic(auto, unfolding(crate::specs::Need::begun_of, crate::specs::Asking::asked_for))]
fn select_asks(alloc: Global, name: MailName, it: Opening) -> Result<Begun, Memory>
    ensures { IfOk result (λ begun. begun ≡ begun_of (Mailbox name (select_work it))) }
{
    let awaited = Awaited::Select(name.copy(alloc)?, it);
    Ok(Begun::asks_any(name, Op::Look, awaited))
}

fn refused(alloc: Global, user: &UserName, was_selected: bool, why: NoText) -> Result<Begun, Memory>
    ensures { IfOk result (λ begun. begun ≡ begun_of (Turned (unselected user.now was_selected why))) }
{
    Ok(Begun::told(unselected(alloc, user, was_selected, why)?))
}

/// A refusal, which leaves no mailbox selected.
pub fn unselected(
    alloc: Global,
    user: &UserName,
    was_selected: bool,
    why: NoText,
) -> Result<Turn, Memory>
    ensures { IfOk result (λ turn. turn ≡ unselected user.now was_selected why) }
{
    Ok(Turn {
        session: Some(Sess::In(user.copy(alloc)?)),
        reply: Reply {
            lines: closed_lines(alloc, was_selected)?,
            verdict: Verdict::No(why),
        },
    })
}

fn closed_lines(alloc: Global, was_selected: bool) -> Result<ReplyLines, Memory>
    ensures { IfOk result (λ lines. lines ≡ closed_lines was_selected) }
{
    let mut lines = ReplyLines::new(alloc);
    if was_selected {
        lines.push(ReplyLine::Closed)?;
    }
    Ok(lines)
}

/// What is told of a mailbox that looks so, and the session behind it. Time is linear in the messages.
pub fn select_told(
    alloc: Global,
    it: &Opening,
    name: &MailName,
    seen: Snapshot,
) -> Result<Turn, Memory>
    ensures { IfOk result (λ turn. turn ≡ select_told it.now name.now seen) }
{
    let lines = select_lines(alloc, it, &seen)?;
    let verdict = Verdict::Ok(
        access_code(it.is_writable),
        Bytes::from_slice(alloc, select_name(it.is_writable))?,
    );
    let view = View {
        user: it.user.copy(alloc)?,
        name: name.copy(alloc)?,
        serial: seen.serial,
        is_writable: it.is_writable,
        rows: seen.rows,
    };
    Ok(Turn {
        session: Some(Sess::Selected(view)),
        reply: Reply { lines, verdict },
    })
}

fn select_lines(alloc: Global, it: &Opening, seen: &Snapshot) -> Result<ReplyLines, Memory>
    ensures { IfOk result (λ lines. lines ≡ select_lines it.now seen.now) }
{
    let keywords = keywords_in(alloc, seen.rows.as_slice())?;
    let mut lines = closed_lines(alloc, it.was_selected)?;
    lines.push(ReplyLine::Flags(flags_of(alloc, &keywords)?))?;
    lines.push(ReplyLine::Exists(number_of(seen.rows.len())))?;
    let shown = Bytes::from_slice(alloc, it.shown.as_slice())?;
    lines.push(ReplyLine::Listed(Attribute::None, shown))?;
    lines.push(permanent_line(alloc, it.is_writable, &keywords)?)?;
    lines.push(ReplyLine::UidNext(seen.next))?;
    lines.push(ReplyLine::UidValidity(seen.serial))?;
    Ok(lines)
}

/// The flags that the client can change for good, and whether it can make keywords (RFC 9051, 7.1: PERMANENTFLAGS).
fn permanent_line(
    alloc: Global,
    is_writable: bool,
    keywords: &BTreeSet<Keyword>,
) -> Result<ReplyLine, Memory>
    ensures { IfOk result (λ line. line ≡ permanent_reply_line is_writable keywords.now.keys) }
{
    if is_writable {
        Ok(ReplyLine::Permanent(flags_of(alloc, keywords)?, true))
    } else {
        Ok(ReplyLine::Permanent(FlagNames::new(alloc), false))
    }
}

/// The flags of a mailbox whose messages have these keywords: the system flags, and the keywords (RFC 9051, 7.3.5).
fn flags_of(alloc: Global, keywords: &BTreeSet<Keyword>) -> Result<FlagNames, Memory>
    ensures { IfOk result (λ flags. flags ≡ flags_of keywords.now.keys) }
{
    let mut flags = system_flags(alloc)?;
    put_keywords(alloc, &mut flags, keywords)?;
    Ok(flags)
}

fn system_flags(alloc: Global) -> Result<FlagNames, Memory>
    ensures { IfOk result (λ flags. flags ≡ system_flags) }
{
    let mut flags = FlagNames::new(alloc);
    flags.push(FlagName::System(SystemFlag::Answered))?;
    flags.push(FlagName::System(SystemFlag::Flagged))?;
    flags.push(FlagName::System(SystemFlag::Deleted))?;
    flags.push(FlagName::System(SystemFlag::Seen))?;
    flags.push(FlagName::System(SystemFlag::Draft))?;
    Ok(flags)
}

/// The keywords of some messages, in byte order: a tree, since they may be many more than those of one message.
fn keywords_in(alloc: Global, rows: &[Row]) -> Result<BTreeSet<Keyword>, Memory>
    ensures { IfOk result (λ keywords. keywords.keys ≡ keywords_in rows.now) }
{
    let mut keywords = BTreeSet::new(alloc);
    for row in rows {
        add_keywords(alloc, &mut keywords, row.flags.keywords())?;
    }
    Ok(keywords)
}

fn add_keywords(
    alloc: Global,
    keywords: &mut BTreeSet<Keyword>,
    more: &Keywords,
) -> Result<(), Memory>
    ensures { OnOk result (keywords.new.keys ≡ with_keywords keywords.old.keys more.now) }
{
    for keyword in more.iter() {
        keywords.insert(keyword.copy(alloc)?)?;
    }
    Ok(())
}

fn put_keywords(
    alloc: Global,
    flags: &mut FlagNames,
    keywords: &BTreeSet<Keyword>,
) -> Result<(), Memory>
    ensures { OnOk result (flags.new ≡ flags.old ++ map named keywords.now.keys) }
{
    for keyword in keywords.iter() {
        flags.push(FlagName::Keyword(keyword.copy(alloc)?))?;
    }
    Ok(())
}

fn access_code(is_writable: bool) -> Code
    ensures { result ≡ access_code is_writable }
{
    if is_writable {
        Code::ReadWrite
    } else {
        Code::ReadOnly
    }
}

fn select_name(is_writable: bool) -> &'static [u8]
    ensures { result.now ≡ select_name is_writable }
{
    if is_writable { b"SELECT" } else { b"EXAMINE" }
}

/// What a SELECT or an EXAMINE finds in the store.
#[tactic(auto, unfolding(crate::specs::Select::select_on, crate::specs::Left::store_after))]
pub fn select_at(
    alloc: Global,
    store: &mut Store,
    name: &MailName,
    it: &Opening,
) -> Result<Turn, Memory>
    ensures { IfOk result (λ turn. let worked = select_on it.now name.now (box_at store.old name.now) in
        (store.new ≡ store_after store.old name.now worked.left) × (turn ≡ worked.turn)) }
{
    match store.boxes.get(name) {
        Some(mailbox) => {
            let seen = mailbox.look(alloc)?;
            select_told(alloc, it, name, seen)
        }
        None => unselected(alloc, &it.user, it.was_selected, NoText::NonExistent),
    }
}
