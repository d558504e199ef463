// STATUS (RFC 9051, 6.3.11).
ghost use Rattle.std.specs.Prelude.{◌≡◌, IfOk, map};
ghost use Rattle.mur_model.specs.Left.{replied, store_after};
ghost use Rattle.mur_model.specs.Store.{box_at};
ghost use Rattle.mur_model.specs.Rights.{has_rights};
ghost use Rattle.mur_model.specs.Status.{status, status_by, unseen as count_unseen, deleted as count_deleted, count_of, status_reply, status_on};
ghost use Rattle.mur_model.specs.Need.{begun_of};
ghost use Rattle.mur_model.specs.Needed.{Mailbox, Status as status_work};

use crate::need::{Awaited, Begun};
use crate::rights::has_rights;
use crate::setting::Setting;
use crate::store::Store;
use imap_types::{
    Code, NoText, Op, Reply, ReplyLine, ReplyLines, StatusCount, StatusCounts, StatusItem,
    StatusItems, Verdict, refused,
};
use mail_message::{Row, Snapshot};
use mur_base::{Bytes, MailName, Memory, NameFault, UserName, shown, taken};
use std::alloc::Global;

/// What STATUS of a mailbox needs: the mailbox, where the user has rights to it.
#[tactic(auto, unfolding(crate::specs::Status::status, crate::specs::Status::status_as))]
pub fn status(
    alloc: Global,
    with: &Setting,
    user: &UserName,
    text: &[u8],
    items: StatusItems,
) -> Result<Begun, Memory>
    ensures { IfOk result (λ begun. begun ≡ begun_of (status with.now user.now text.now items)) }
{
    match taken(alloc, user, text) {
        Ok(name) => status_by(alloc, with, user, name, items),
        Err(NameFault::Memory) => Err(Memory),
        Err(_) => Ok(Begun::refused(alloc, Verdict::No(NoText::NonExistent))),
    }
}

#[tactic(auto, unfolding(crate::specs::Status::status_by))]
fn status_by(
    alloc: Global,
    with: &Setting,
    user: &UserName,
    name: MailName,
    items: StatusItems,
) -> Result<Begun, Memory>
    ensures { IfOk result (λ begun. begun ≡ begun_of (status_by user.now name items (has_rights with.now.users user.now name))) }
{
    if !has_rights(&with.users, user, &name) {
        return Ok(Begun::refused(alloc, Verdict::No(NoText::NoPerm)));
    }
    let shown = shown(alloc, user, &name)?;
    Ok(status_asks(name, shown, items))
}

/// The home of the mailbox is asked for a look at it.
#[tactic(auto, unfolding(crate::specs::Need::begun_of, crate::specs::Asking::asked_for))]
fn status_asks(name: MailName, shown: Bytes, items: StatusItems) -> Begun
    ensures { result ≡ begun_of (Mailbox name (status_work shown items)) }
{
    Begun::asks_any(name, Op::Look, Awaited::Status(shown, items))
}

/// What is told of a mailbox that looks so, under the name as it is shown. It looks at each row twice.
#[tactic(auto, unfolding(crate::specs::Status::status_reply))]
pub fn status_reply(
    alloc: Global,
    shown: Bytes,
    items: &StatusItems,
    seen: &Snapshot,
) -> Result<Reply, Memory>
    ensures { IfOk result (λ reply. reply ≡ status_reply shown items.now seen.now) }
{
    let unseen = unseen(seen.rows.as_slice());
    let deleted = deleted(seen.rows.as_slice());
    let counts = counts_of(alloc, items, seen, unseen, deleted)?;
    let mut lines = ReplyLines::new(alloc);
    lines.push(ReplyLine::Status(shown, counts))?;
    Ok(Reply {
        lines,
        verdict: Verdict::Ok(Code::None, Bytes::from_slice(alloc, b"STATUS")?),
    })
}

/// How many messages don't have `\Seen`.
fn unseen(rows: &[Row]) -> usize
    ensures { result ≡ count_unseen rows.now }
{
    rows.iter().filter(|row| !row.flags.system().seen).count()
}

/// How many messages have `\Deleted`.
fn deleted(rows: &[Row]) -> usize
    ensures { result ≡ count_deleted rows.now }
{
    rows.iter().filter(|row| row.flags.system().deleted).count()
}

fn counts_of(
    alloc: Global,
    items: &StatusItems,
    seen: &Snapshot,
    unseen: usize,
    deleted: usize,
) -> Result<StatusCounts, Memory>
    requires unseen { unseen ≡ count_unseen (seen.now).rows }
    requires deleted { deleted ≡ count_deleted (seen.now).rows }
    ensures { IfOk result (λ counts. counts ≡ map (count_of seen.now) items.now) }
{
    let mut counts = StatusCounts::new(alloc);
    for item in items.as_slice() {
        counts.push(count_of(seen, unseen, deleted, *item))?;
    }
    Ok(counts)
}

#[tactic(auto, unfolding(crate::specs::Status::amount))]
fn count_of(seen: &Snapshot, unseen: usize, deleted: usize, item: StatusItem) -> StatusCount
    requires unseen { unseen ≡ count_unseen (seen.now).rows }
    requires deleted { deleted ≡ count_deleted (seen.now).rows }
    ensures { result ≡ count_of seen.now item }
{
    let count = match item {
        StatusItem::Messages => seen.rows.len() as u64,
        StatusItem::UidNext => u64::from(seen.next),
        StatusItem::UidValidity => u64::from(seen.serial),
        StatusItem::Unseen => unseen as u64,
        StatusItem::Deleted => deleted as u64,
        StatusItem::Size => seen.size,
    };
    StatusCount { item, count }
}

/// Tells of a mailbox, if it is there.
#[tactic(auto, unfolding(crate::specs::Status::status_on, crate::specs::Left::store_after))]
pub fn status_at(
    alloc: Global,
    store: &Store,
    name: &MailName,
    shown: Bytes,
    items: &StatusItems,
) -> Result<Reply, Memory>
    ensures reply { IfOk result (λ reply. replied reply ≡ (status_on shown items.now (box_at store.now name.now)).turn) }
    ensures kept { store_after store.now name.now (status_on shown items.now (box_at store.now name.now)).left ≡ store.now }
{
    match store.boxes.get(name) {
        Some(mailbox) => status_reply(alloc, shown, items, &mailbox.look(alloc)?),
        None => Ok(refused(alloc, NoText::NonExistent)),
    }
}
