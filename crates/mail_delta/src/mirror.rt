// A mailbox as a frontend has it.
ghost use Rattle.std.specs.Prelude.{◌≡◌, ℕ, ◌<◌, ◌≤◌, length, IfOk, IsTrue, OnOk, is_some};
ghost use Rattle.std.specs.List.{filter, fold, slice_get};
ghost use Rattle.std.specs.Ordering.{nat_cmp};
ghost use Rattle.mur_base.specs.Map.{value_at};
ghost use Rattle.mail_message.specs.RowOrder.{AreRising, IsPlace};
ghost use Rattle.mail_delta.specs.Deltas.{applied, nothing_seen, is_among, with_row, without_rows, has_uid_at, is_left};

use crate::delta::Delta;
use mail_message::Row;
use mur_base::{Copied, Map, Memory};
use std::alloc::Global;
use std::marker::Model;

/// A mailbox as a frontend has it: what it was last told of it, changed in place by each delta. Contracts see it as a snapshot.
#[derive(Drop)]
pub struct Mirror {
    serial: u32,
    next: u32,
    size: u64,
    /// In rising order of UID.
    rows: Vec<Row>,
}

impl Model for Mirror {
    ghost use Rattle.mail_message.specs.declared.message.Snapshot.{Snapshot};
    ghost use Rattle.mail_message.specs.RowOrder.{AreRising};

    ghost Value = { Snapshot };

    ghost view = { λ mirror. record { serial = mirror.serial; next = mirror.next; size = mirror.size; rows = mirror.rows.items } };

    ghost invariant = { λ mirror. AreRising mirror.rows.items };
}

impl Mirror {
    /// Nothing of a mailbox. It takes no memory.
    pub fn new(alloc: Global) -> Mirror
        ensures { result ≡ nothing_seen }
    {
        Mirror {
            serial: 0,
            next: 1,
            size: 0,
            rows: Vec::new(alloc),
        }
    }

    /// Its UIDVALIDITY.
    pub fn serial(&self) -> u32
        ensures { result ≡ self.now.serial }
    {
        self.serial
    }

    /// Its UIDNEXT.
    pub fn next(&self) -> u32
        ensures { result ≡ self.now.next }
    {
        self.next
    }

    /// Bytes of all bodies together, at most the greatest `u64`.
    pub fn size(&self) -> u64
        ensures { result ≡ self.now.size }
    {
        self.size
    }

    /// The rows in rising order of UID: the place of a row is the number of its message, less one.
    pub fn rows(&self) -> &[Row]
        ensures rows { result.now ≡ self.now.rows }
        ensures rising { AreRising self.now.rows }
    {
        self.rows.as_slice()
    }

    /// Changes it by a delta. For want of memory it is spent. A changed row takes time logarithmic in the rows if its UID is there, or
    /// is above all; else those after it are moved. If a message is gone, one pass goes over the rows.
    pub fn apply(&mut self, alloc: Global, delta: &Delta) -> Result<(), Memory>
        ensures { OnOk result (self.new ≡ applied self.old delta.now) }
    {
        take_away(alloc, &mut self.rows, delta.gone.as_slice())?;
        put_all(alloc, &mut self.rows, delta.changed.as_slice())?;
        self.serial = delta.serial;
        self.next = delta.next;
        self.size = delta.size;
        Ok(())
    }
}

fn take_away(alloc: Global, rows: &mut Vec<Row>, gone: &[u32]) -> Result<(), Memory>
    requires { AreRising rows.old.items }
    ensures value { OnOk result (rows.new.items ≡ without_rows rows.old.items gone.now) }
    ensures rising { AreRising rows.new.items }
{
    if gone.is_empty() {
        return Ok(());
    }
    let set = set_of(alloc, gone)?;
    keep_others(rows, &set);
    Ok(())
}

/// Keeps the rows whose UIDs aren't in a set, in one pass.
fn keep_others(rows: &mut Vec<Row>, gone: &Map<u32, ()>)
    ensures { rows.new.items ≡ filter (is_left gone.now) rows.old.items }
{
    rows.retain(|row| !gone.contains_key(&row.uid));
}

fn set_of(alloc: Global, uids: &[u32]) -> Result<Map<u32, ()>, Memory>
    ensures { IfOk result (λ set. (uid : ℕ) → is_some (value_at nat_cmp set uid) ≡ is_among uids.now uid) }
{
    let mut set = Map::new(alloc);
    for uid in uids {
        set.insert(*uid, ())?;
    }
    Ok(set)
}

fn put_all(alloc: Global, rows: &mut Vec<Row>, changed: &[Row]) -> Result<(), Memory>
    requires { AreRising rows.old.items }
    ensures value { OnOk result (rows.new.items ≡ fold with_row rows.old.items changed.now) }
    ensures rising { AreRising rows.new.items }
{
    for row in changed {
        put(rows, row.copy(alloc)?)?;
    }
    Ok(())
}

fn put(rows: &mut Vec<Row>, row: Row) -> Result<(), Memory>
    requires { AreRising rows.old.items }
    ensures value { OnOk result (rows.new.items ≡ with_row rows.old.items row) }
    ensures rising { AreRising rows.new.items }
{
    let place = place_of(rows.as_slice(), row.uid);
    if has_uid_at(rows.as_slice(), place, row.uid) {
        rows[place] = row;
    } else {
        rows.insert(place, row)?;
    }
    Ok(())
}

/// How many rows have a lower UID.
fn place_of(rows: &[Row], uid: u32) -> usize
    requires { AreRising rows.now }
    ensures place { IsPlace rows.now uid result }
    ensures within { result ≤ length rows.now }
{
    rows.partition_point(|row| row.uid < uid)
}

/// Whether the row at a place has a UID.
fn has_uid_at(rows: &[Row], place: usize, uid: u32) -> bool
    ensures value { result ≡ has_uid_at uid (slice_get rows.now place) }
    ensures within { IsTrue result → place < length rows.now }
{
    match rows.get(place) {
        Some(row) => row.uid == uid,
        None => false,
    }
}
