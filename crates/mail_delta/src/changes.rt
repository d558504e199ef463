// The changes since a snapshot that was kept.
ghost use Rattle.std.specs.Prelude.{◌≡◌, [], IfOk};
ghost use Rattle.std.specs.List.{filter};
ghost use Rattle.std.specs.Option.{option_copied};
ghost use Rattle.mail_message.specs.Boxes.{snapshot_of};
ghost use Rattle.mail_message.specs.RowOrder.{AreOrdered};
ghost use Rattle.mail_delta.specs.Deltas.{is_same_row, is_changed, gone_of, delta_of, applied};

use crate::delta::Delta;
use mail_message::{MailBox, OrderedRows, Row, Rows, Snapshot, Uids};
use mur_base::{Copied, Memory};
use std::alloc::Global;

/// What changed in a mailbox since a snapshot of it. Applied to that snapshot, it gives what the mailbox tells of itself now. One
/// pass over the rows of both.
pub fn changes_since(alloc: Global, old: &Snapshot, now: &MailBox) -> Result<Delta, Memory>
    ensures delta { IfOk result (λ delta. delta ≡ delta_of old.now.rows now.now) }
    ensures complete { IfOk result (λ delta. applied old.now delta ≡ snapshot_of now.now) }
{
    let seen = now.look(alloc)?;
    let changed = changed_rows(alloc, &old.rows, seen.rows.as_slice())?;
    let gone = gone_uids(alloc, old.rows.as_slice(), &seen.rows)?;
    Ok(Delta {
        serial: seen.serial,
        next: seen.next,
        size: seen.size,
        changed,
        gone,
    })
}

/// The changes for a frontend that has nothing of the mailbox: all rows. One pass over the messages.
pub fn all_changes(alloc: Global, now: &MailBox) -> Result<Delta, Memory>
    ensures { IfOk result (λ delta. delta ≡ delta_of [] now.now) }
{
    let seen = now.look(alloc)?;
    Ok(Delta {
        serial: seen.serial,
        next: seen.next,
        size: seen.size,
        changed: seen.rows,
        gone: Uids::new(alloc),
    })
}

fn changed_rows(alloc: Global, old: &OrderedRows, now: &[Row]) -> Result<OrderedRows, Memory>
    requires { AreOrdered now.now }
    ensures { IfOk result (λ rows. rows ≡ filter (is_changed old.now) now.now) }
{
    let mut near = 0;
    let mut changed = Rows::new(alloc);
    for row in now {
        if !is_same_row(old.find(row.uid, &mut near), row) {
            changed.push(row.copy(alloc)?)?;
        }
    }
    Ok(OrderedRows::from_rising(changed))
}

/// Whether there was a row, with the flags of this one.
fn is_same_row(old: Option<&Row>, row: &Row) -> bool
    ensures { result ≡ is_same_row (option_copied old.entry) row.now }
{
    match old {
        Some(old) => old.flags.is_same(&row.flags),
        None => false,
    }
}

fn gone_uids(alloc: Global, old: &[Row], now: &OrderedRows) -> Result<Uids, Memory>
    ensures { IfOk result (λ uids. uids ≡ gone_of now.now old.now) }
{
    let mut near = 0;
    let mut gone = Uids::new(alloc);
    for row in old {
        if now.find(row.uid, &mut near).is_none() {
            gone.push(row.uid)?;
        }
    }
    Ok(gone)
}
