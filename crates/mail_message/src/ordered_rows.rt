// Rows by UID: a list that rises, so that a look-up is a binary search, and whose rows 32 bits number.
ghost use Rattle.std.specs.Prelude.{◌≡◌, ◌+◌, ◌<◌, ◌≤◌, ◌^◌, ◌↔◌, [], ◌∷◌, ◌++◌, length, OnOk, OnErr, IsTrue, IfOk};
ghost use Rattle.std.specs.List.{AllWithin, position_from};
ghost use Rattle.std.specs.Option.{option_copied, IfSome};
ghost use Rattle.mail_message.specs.RowOrder.{AreOrdered, AreRising, HasNext, HaveNext, IsAbove, IsPlace, is_row_of, row_at, if_row_of, place_if_row_of};

use crate::message::{Row, Rows};
use mur_base::{Copied, Memory};
use std::alloc::Global;
use std::marker::Model;

/// Rows of a mailbox in strictly rising order of UID, below a UIDNEXT (RFC 9051, 2.3.1.1), so that the number of each has 32 bits
/// (2.3.1.2). Contracts see them as a list.
#[derive(Drop)]
pub struct OrderedRows {
    rows: Rows,
}

impl Model for OrderedRows {
    ghost use Rattle.std.specs.Prelude.{List};
    ghost use Rattle.mail_message.specs.declared.message.Row.{Row};
    ghost use Rattle.mail_message.specs.RowOrder.{AreOrdered};

    ghost Value = { List Row };

    ghost view = { λ list. list.rows };

    ghost invariant = { λ list. AreOrdered list.rows };
}

impl OrderedRows {
    /// No rows. It takes no memory until one is put in.
    pub fn new(alloc: Global) -> OrderedRows
        ensures { result ≡ [] }
    {
        OrderedRows {
            rows: Rows::new(alloc),
        }
    }

    /// No rows, with room for so many.
    pub fn with_room(alloc: Global, room: usize) -> Result<OrderedRows, Memory>
        ensures { IfOk result (λ rows. rows ≡ []) }
    {
        Ok(OrderedRows {
            rows: Rows::from_vec(Vec::with_capacity(alloc, room)?),
        })
    }

    /// Rows that rise below a UIDNEXT, which aren't copied.
    pub fn from_rising(rows: Rows) -> OrderedRows
        requires { AreOrdered rows }
        ensures { result ≡ rows }
    {
        OrderedRows { rows }
    }

    pub fn len(&self) -> usize
        ensures count { result ≡ length self.now }
        ensures numbers { result < 2 ^ 32 }
    {
        self.rows.len()
    }

    pub fn is_empty(&self) -> bool
        ensures { IsTrue result ↔ (length self.now ≡ 0) }
    {
        self.rows.is_empty()
    }

    /// The rows in their order.
    pub fn as_slice(&self) -> &[Row]
        ensures rows { result.now ≡ self.now }
        ensures rising { AreRising self.now }
        ensures next { HaveNext self.now }
        ensures numbers { length self.now < 2 ^ 32 }
    {
        self.rows.as_slice()
    }

    /// Whether a UID is higher than that of each row, so that its row may be put at the end.
    pub fn is_below(&self, uid: u32) -> bool
        ensures { IsTrue result ↔ IsAbove self.now uid }
    {
        match self.rows.as_slice().last() {
            Some(row) => row.uid < uid,
            None => true,
        }
    }

    /// Puts a row at the end; for want of memory the list stays as it was.
    pub fn push(&mut self, row: Row) -> Result<(), Memory>
        requires above { IsAbove self.old row.uid }
        requires next { HasNext row.uid }
        ensures ok { OnOk result (self.new ≡ self.old ++ row ∷ []) }
        ensures err { OnErr result (self.new ≡ self.old) }
    {
        self.rows.push(row)
    }

    /// How many rows stand before the one with a UID, if that is there; looked for near a place first, as `find` does.
    pub fn place(&self, uid: u32, near: &mut usize) -> Option<usize>
        ensures place { result ≡ position_from (is_row_of uid) 0 self.now }
        ensures numbers { IfSome result (λ place. place + 1 < 2 ^ 32) }
    {
        *near = place_of(self.rows.as_slice(), uid, *near);
        place_if_row_of(*near, self.rows.get(*near), uid)
    }

    /// The row with a UID, if it is there, looked for near a place first, which becomes the place found: so a walk over
    /// rising UIDs costs a step for each row, and a UID elsewhere a binary search. Any place gives the same row.
    pub fn find(&self, uid: u32, near: &mut usize) -> Option<&Row>
        ensures { option_copied result ≡ row_at self.now uid }
    {
        *near = place_of(self.rows.as_slice(), uid, *near);
        if_row_of(self.rows.get(*near), uid)
    }
}

impl Copied for OrderedRows {
    fn copy(&self, alloc: Global) -> Result<OrderedRows, Memory> {
        Ok(OrderedRows {
            rows: self.rows.copy(alloc)?,
        })
    }
}

fn if_row_of(row: Option<&Row>, uid: u32) -> Option<&Row>
    ensures { option_copied result ≡ if_row_of uid (option_copied row.entry) }
{
    match row {
        Some(row) => { if row.uid == uid { Some(row) } else { None } }
        None => None,
    }
}

fn place_if_row_of(place: usize, row: Option<&Row>, uid: u32) -> Option<usize>
    ensures { result ≡ place_if_row_of uid place (option_copied row.entry) }
{
    match row {
        Some(row) => { if row.uid == uid { Some(place) } else { None } }
        None => None,
    }
}

/// How many rows have a lower UID: looked for near a place, and then among all.
fn place_of(rows: &[Row], uid: u32, near: usize) -> usize
    requires { AreRising rows.now }
    ensures { IsPlace rows.now uid result }
{
    if is_place(rows, uid, near) {
        return near;
    }
    let next = near.saturating_add(1);
    if is_place(rows, uid, next) {
        return next;
    }
    rows.partition_point(|row| row.uid < uid)
}

fn is_place(rows: &[Row], uid: u32, place: usize) -> bool
    requires { AreRising rows.now }
    ensures { IsTrue result → IsPlace rows.now uid place }
{
    are_below(rows, uid, place) && are_from(rows, uid, place)
}

/// Whether so many rows have a lower UID.
fn are_below(rows: &[Row], uid: u32, place: usize) -> bool
    requires { AreRising rows.now }
    ensures { IsTrue result → AllWithin (λ row. row.uid < uid) rows.now 0 place }
{
    if place == 0 {
        return true;
    }
    match rows.get(place - 1) {
        Some(row) => row.uid < uid,
        None => false,
    }
}

/// Whether all rows but so many have the UID or a higher one.
fn are_from(rows: &[Row], uid: u32, place: usize) -> bool
    requires { AreRising rows.now }
    ensures { IsTrue result → AllWithin (λ row. uid ≤ row.uid) rows.now place (length rows.now) }
{
    match rows.get(place) {
        Some(row) => uid <= row.uid,
        None => true,
    }
}
