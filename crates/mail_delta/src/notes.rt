// Rows as they were before they changed.
ghost use Rattle.std.specs.Prelude.{◌≡◌, IfOk, OnOk, OnErr};
ghost use Rattle.std.specs.Option.{option_map};
ghost use Rattle.std.specs.Ordering.{nat_cmp};
ghost use Rattle.mur_base.specs.Map.{with_entry, IsInOrder};
ghost use Rattle.mail_message.specs.Boxes.{row_of};
ghost use Rattle.mail_message.specs.RowOrder.{AreRising};
ghost use Rattle.mail_delta.specs.Deltas.{is_same_row};
ghost use Rattle.mail_delta.specs.Notes.{row_in, with_note, with_later, with_earlier, changed_in, gone_in};

use mail_message::{MailBox, Message, OrderedRows, Row, Rows, Uids};
use mur_base::{Copied, Map, Memory};
use std::alloc::Global;

/// For some UIDs the row before, if there was one.
pub type Notes = Map<u32, Option<Row>>;

/// Notes the row of a UID, unless the UID was noted before. For want of memory the notes stay as they were.
pub fn note(alloc: Global, notes: &mut Notes, content: &MailBox, uid: u32) -> Result<(), Memory>
    ensures ok { OnOk result (notes.new ≡ with_note notes.old uid (row_in content.now uid)) }
    ensures err { OnErr result (notes.new ≡ notes.old) }
{
    if notes.contains_key(&uid) {
        return Ok(());
    }
    let row = row_in(alloc, content, uid)?;
    put(notes, uid, row)
}

/// Puts later notes beside these, of the UIDs that these lack.
pub fn put_later(alloc: Global, notes: &mut Notes, later: &Notes) -> Result<(), Memory>
    ensures { OnOk result (notes.new ≡ with_later notes.old later.now) }
{
    for (uid, was) in later.iter() {
        if !notes.contains_key(uid) {
            put(notes, *uid, copied(alloc, was)?)?;
        }
    }
    Ok(())
}

/// Puts earlier notes in the place of these.
pub fn put_earlier(alloc: Global, notes: &mut Notes, earlier: &Notes) -> Result<(), Memory>
    ensures notes { OnOk result (notes.new ≡ with_earlier notes.old earlier.now) }
    ensures ordered { IsInOrder nat_cmp earlier.now }
{
    for (uid, was) in earlier.iter() {
        put(notes, *uid, copied(alloc, was)?)?;
    }
    Ok(())
}

/// The rows of noted messages that are there and aren't as they were noted.
pub fn changed_in(alloc: Global, notes: &Notes, content: &MailBox) -> Result<OrderedRows, Memory>
    ensures rows { IfOk result (λ rows. rows ≡ changed_in content.now notes.now) }
    ensures ordered { IsInOrder nat_cmp notes.now }
{
    let mut changed = Rows::new(alloc);
    for (uid, was) in notes.iter() {
        if let Some(message) = content.find(*uid) {
            if !is_same(was, message) {
                changed.push(message.row(alloc)?)?;
            }
        }
    }
    Ok(OrderedRows::from_rising(changed))
}

/// The noted UIDs at which messages were that are gone.
pub fn gone_in(alloc: Global, notes: &Notes, content: &MailBox) -> Result<Uids, Memory>
    ensures { IfOk result (λ uids. uids ≡ gone_in content.now notes.now) }
{
    let mut gone = Uids::new(alloc);
    for (uid, was) in notes.iter() {
        if was.is_some() && content.find(*uid).is_none() {
            gone.push(*uid)?;
        }
    }
    Ok(gone)
}

/// Whether a message has the flags that its row had.
fn is_same(was: &Option<Row>, message: &Message) -> bool
    ensures { result ≡ is_same_row was.now (row_of message.now) }
{
    match was {
        Some(row) => row.flags.is_same(&message.flags),
        None => false,
    }
}

fn row_in(alloc: Global, content: &MailBox, uid: u32) -> Result<Option<Row>, Memory>
    ensures { IfOk result (λ row. row ≡ row_in content.now uid) }
{
    match content.find(uid) {
        Some(message) => Ok(Some(message.row(alloc)?)),
        None => Ok(None),
    }
}

fn copied(alloc: Global, row: &Option<Row>) -> Result<Option<Row>, Memory>
    ensures { IfOk result (λ copy. copy ≡ row.now) }
{
    match row {
        Some(row) => Ok(Some(row.copy(alloc)?)),
        None => Ok(None),
    }
}

fn put(notes: &mut Notes, uid: u32, was: Option<Row>) -> Result<(), Memory>
    ensures ok { OnOk result (notes.new ≡ with_entry nat_cmp notes.old uid was) }
    ensures err { OnErr result (notes.new ≡ notes.old) }
{
    let _ = notes.insert(uid, was)?;
    Ok(())
}
