// STORE.
ghost use Rattle.std.specs.Prelude.{◌≡◌, ◌==◌, ℕ, false, [], IfOk, IfErr, OnOk, OnErr};
ghost use Rattle.std.specs.List.{list_any};
ghost use Rattle.mail_message.specs.Boxes.{message_at};
ghost use Rattle.mail_message.specs.FlagSets.{flags_after};
ghost use Rattle.mail_store.specs.Store.{rows_stored, stored_rows, stored, flag_changes, IsMadeRow, IsStored};
ghost use Rattle.mail_store.specs.declared.fault.StoreFault.TheVariants.{Memory as memory};

use crate::fault::StoreFault;
use crate::named::set_of;
use mail_message::{
    Change, Changes, FlagFault, FlagSet, MailBox, Message, Mode, OrderedRows, Row, Rows,
};
use mur_base::{Copied, Memory};
use std::alloc::Global;
use std::collections::BTreeSet;

/// Changes the flags of the messages with some UIDs, and gives their rows after it in rising order of UID, each once
/// (RFC 9051, 6.4.6). The UIDs are taken as a set; those that aren't there are passed over. After a refusal the box
/// is as it was. Flags that are no keywords pass no limit. Each message takes time logarithmic in the box.
pub fn set_flags(
    alloc: Global,
    to: &mut MailBox,
    uids: &[u32],
    mode: Mode,
    flags: &FlagSet,
) -> Result<OrderedRows, StoreFault>
    ensures answer { IsStored (rows_stored to.old uids.now mode flags.now) result }
    ensures ok { OnOk result (to.new ≡ stored to.old uids.now mode flags.now) }
    ensures others { IfOk result (λ rows. (uid : ℕ) → list_any (λ row. row.uid == uid) rows ≡ false
        → message_at to.new.messages uid ≡ message_at to.old.messages uid) }
    ensures next { to.new.next ≡ to.old.next }
    ensures err { OnErr result (to.new ≡ to.old) }
    ensures system { flags.now.keywords ≡ [] → IfErr result (λ fault. fault ≡ memory) }
{
    let rows = rows_stored(alloc, to, uids, mode, flags)?;
    let changes = flag_changes(alloc, rows.as_slice())?;
    to.apply_all(alloc, changes)?;
    Ok(rows)
}

/// The rows that the messages with some UIDs get by a STORE, in rising order of UID, each once. UIDs that aren't there are passed
/// over. Each message takes time logarithmic in the box.
pub fn rows_stored(
    alloc: Global,
    from: &MailBox,
    uids: &[u32],
    mode: Mode,
    flags: &FlagSet,
) -> Result<OrderedRows, StoreFault>
    ensures rows { IsStored (rows_stored from.now uids.now mode flags.now) result }
    ensures system { flags.now.keywords ≡ [] → IfErr result (λ fault. fault ≡ memory) }
{
    let named = set_of(alloc, uids)?;
    rows_after(alloc, from, &named, mode, flags)
}

fn rows_after(
    alloc: Global,
    from: &MailBox,
    named: &BTreeSet<u32>,
    mode: Mode,
    flags: &FlagSet,
) -> Result<OrderedRows, StoreFault>
    ensures rows { IsStored (stored_rows from.now.messages mode flags.now named.now.keys) result }
    ensures system { flags.now.keywords ≡ [] → IfErr result (λ fault. fault ≡ memory) }
{
    let mut rows = Rows::new(alloc);
    for uid in named.iter() {
        if let Some(message) = from.find(*uid) {
            rows.push(row_after(alloc, message, mode, flags)?)?;
        }
    }
    Ok(OrderedRows::from_rising(rows))
}

/// The row that a message gets.
fn row_after(
    alloc: Global,
    message: &Message,
    mode: Mode,
    flags: &FlagSet,
) -> Result<Row, StoreFault>
    ensures row { IsMadeRow (record { uid = message.now.uid; flags = flags_after mode message.now.flags flags.now }) result }
    ensures system { flags.now.keywords ≡ [] → IfErr result (λ fault. fault ≡ memory) }
{
    match message.flags.after(alloc, mode, flags) {
        Ok(flags) => Ok(Row {
            uid: message.uid,
            flags,
        }),
        Err(FlagFault::TooMany) => Err(StoreFault::TooManyFlags),
        Err(FlagFault::Memory) => Err(StoreFault::Memory),
        Err(_) => unreachable!(),
    }
}

fn flag_changes(alloc: Global, rows: &[Row]) -> Result<Changes, Memory>
    ensures { IfOk result (λ changes. changes ≡ flag_changes rows.now) }
{
    let mut changes = Changes::new(alloc);
    for row in rows {
        changes.push(Change::SetFlags(row.uid, row.flags.copy(alloc)?))?;
    }
    Ok(changes)
}
