// The messages that a command of a selected session names (RFC 9051, 9: sequence-set; 6.4.9).
ghost use Rattle.std.specs.Prelude.{◌≡◌, ◌-◌, ◌<◌, ◌≤◌, ◌^◌, max, [], ◌∷◌, drop, length, take, IfOk};
ghost use Rattle.std.specs.List.{zip};
ghost use Rattle.std.specs.List.Sorted.{IsPartitionPoint};
ghost use Rattle.mail_message.specs.RowOrder.{AreRising};
ghost use Rattle.mail_message.specs.Sets.{set_at};
ghost use Rattle.mur_model.specs.ClientView.{uids};
ghost use Rattle.mur_model.specs.NamedRows.{has_number, has_numbers, has_all_numbers, last_uid, named_uids, names_messages, numbers_from, picked, uids_by};

use crate::news::number_of;
use crate::view::View;
use mail_message::{OrderedRows, Row, SetEnd, SetPart, SetParts, Uids};
use mail_search::marks_of_set;
use mur_base::Memory;
use std::alloc::Global;

/// Whether each number of a set is that of a message, of so many.
pub fn has_all_numbers(count: usize, set: &SetParts) -> bool
    ensures { result ≡ has_all_numbers count set.now }
{
    set.as_slice().iter().all(|part| has_numbers(count, *part))
}

fn has_numbers(count: usize, part: SetPart) -> bool
    ensures { result ≡ has_numbers count part }
{
    match part {
        SetPart::One(end) => has_number(count, end),
        SetPart::Range(one, other) => has_number(count, one) && has_number(count, other),
    }
}

fn has_number(count: usize, end: SetEnd) -> bool
    ensures { result ≡ has_number count end }
{
    match end {
        SetEnd::Number(number) => number as usize <= count,
        SetEnd::Last => 0 < count,
    }
}

/// Whether a set names messages of a view: one of UIDs may name none.
pub fn names_messages(view: &View, by_uid: bool, set: &SetParts) -> bool
    ensures { result ≡ names_messages view.now by_uid set.now }
{
    by_uid || has_all_numbers(view.rows.len(), set)
}

/// The UIDs of the messages that a set names, in rising order, by their numbers or by their UIDs. Those of a single part are neighbours,
/// and no other row is looked at but for a binary search. A set of more parts is brought into order once; then time is linear in the rows.
pub fn named_uids(
    alloc: Global,
    by_uid: bool,
    set: &SetParts,
    rows: &OrderedRows,
) -> Result<Uids, Memory>
    ensures { IfOk result (λ uids. uids ≡ named_uids by_uid set.now rows.now) }
{
    match set.as_slice() {
        [part] => uids_of_part(alloc, by_uid, *part, rows.as_slice()),
        _ => uids_of_set(alloc, by_uid, set, rows.as_slice()),
    }
}

#[tactic(auto, unfolding(crate::specs::NamedRows::named_uids))]
fn uids_of_part(alloc: Global, by_uid: bool, part: SetPart, rows: &[Row]) -> Result<Uids, Memory>
    requires rising { AreRising rows.now }
    requires numbers { length rows.now < 2 ^ 32 }
    ensures { IfOk result (λ uids. uids ≡ named_uids by_uid (part ∷ []) rows.now) }
{
    if by_uid {
        uids_in_part(alloc, part.at(last_uid(rows)), rows)
    } else {
        numbered_in_part(alloc, part.at(number_of(rows.len())), rows)
    }
}

/// The UIDs that a part holds.
#[tactic(auto, using(crate::proofs::PartLaw::no_uids))]
fn uids_in_part(alloc: Global, part: SetPart, rows: &[Row]) -> Result<Uids, Memory>
    requires { AreRising rows.now }
    ensures { IfOk result (λ list. list ≡ uids_by (part ∷ []) (uids rows.now) rows.now) }
{
    match part.bounds() {
        Some((least, greatest)) => {
            let from = rows_below(rows, least);
            let to = rows_until(rows, greatest);
            uids_between(alloc, rows, from, to)
        }
        None => Ok(Uids::new(alloc)),
    }
}

/// The UIDs of the rows whose numbers a part holds.
#[tactic(auto, using(crate::proofs::PartLaw::no_numbers))]
fn numbered_in_part(alloc: Global, part: SetPart, rows: &[Row]) -> Result<Uids, Memory>
    ensures { IfOk result (λ list. list ≡ uids_by (part ∷ []) (numbers_from 1 rows.now) rows.now) }
{
    match part.bounds() {
        Some((least, greatest)) => {
            let from = (least.saturating_sub(1) as usize).min(rows.len());
            let to = (greatest as usize).min(rows.len());
            uids_between(alloc, rows, from, to)
        }
        None => Ok(Uids::new(alloc)),
    }
}

/// The UIDs of neighbouring rows, of which so many stand before the first and so many up to the last.
fn uids_between(alloc: Global, rows: &[Row], from: usize, to: usize) -> Result<Uids, Memory>
    requires from { from ≤ length rows.now }
    requires to { to ≤ length rows.now }
    ensures { IfOk result (λ list. list ≡ uids (take (max from to - from) (drop from rows.now))) }
{
    uids_of(alloc, &rows[from..from.max(to)])
}

/// How many rows have a lower UID.
fn rows_below(rows: &[Row], uid: u32) -> usize
    requires { AreRising rows.now }
    ensures within { result ≤ length rows.now }
    ensures place { IsPartitionPoint (λ row. row.uid < uid) (λ row. uid ≤ row.uid) rows.now result }
{
    rows.partition_point(|row| row.uid < uid)
}

/// How many rows have a UID up to one.
fn rows_until(rows: &[Row], uid: u32) -> usize
    requires { AreRising rows.now }
    ensures within { result ≤ length rows.now }
    ensures place { IsPartitionPoint (λ row. row.uid ≤ uid) (λ row. uid < row.uid) rows.now result }
{
    rows.partition_point(|row| row.uid <= uid)
}

#[tactic(auto, unfolding(crate::specs::NamedRows::named_uids))]
fn uids_of_set(alloc: Global, by_uid: bool, set: &SetParts, rows: &[Row]) -> Result<Uids, Memory>
    requires { length rows.now < 2 ^ 32 }
    ensures { IfOk result (λ uids. uids ≡ named_uids by_uid set.now rows.now) }
{
    if by_uid {
        let numbers = uids_of(alloc, rows)?;
        uids_by(alloc, &set_at(alloc, last_uid(rows), set)?, &numbers, rows)
    } else {
        let numbers = numbers_of(alloc, rows)?;
        uids_by(
            alloc,
            &set_at(alloc, number_of(rows.len()), set)?,
            &numbers,
            rows,
        )
    }
}

fn uids_by(alloc: Global, set: &SetParts, numbers: &Uids, rows: &[Row]) -> Result<Uids, Memory>
    requires { length numbers.now ≡ length rows.now }
    ensures { IfOk result (λ picked. picked ≡ uids_by set.now numbers.now rows.now) }
{
    let marks = marks_of_set(alloc, set.as_slice(), numbers.as_slice())?;
    picked(alloc, rows, &marks)
}

/// The set with a number in the place of `*`.
pub fn set_at(alloc: Global, last: u32, set: &SetParts) -> Result<SetParts, Memory>
    ensures { IfOk result (λ made. made ≡ set_at last set.now) }
{
    let mut made = SetParts::new(alloc);
    for part in set.as_slice() {
        made.push(part.at(last))?;
    }
    Ok(made)
}

/// The UID of the last row, 0 where there is none.
pub fn last_uid(rows: &[Row]) -> u32
    ensures { result ≡ last_uid rows.now }
{
    match rows.last() {
        Some(row) => row.uid,
        None => 0,
    }
}

/// The UIDs of rows, in their order.
pub fn uids_of(alloc: Global, rows: &[Row]) -> Result<Uids, Memory>
    ensures list { IfOk result (λ list. list ≡ uids rows.now) }
    ensures length { IfOk result (λ list. length list ≡ length rows.now) }
{
    let mut list = Uids::new(alloc);
    for row in rows {
        list.push(row.uid)?;
    }
    Ok(list)
}

/// The numbers of rows, from 1 on.
fn numbers_of(alloc: Global, rows: &[Row]) -> Result<Uids, Memory>
    requires { length rows.now < 2 ^ 32 }
    ensures list { IfOk result (λ list. list ≡ numbers_from 1 rows.now) }
    ensures length { IfOk result (λ list. length list ≡ length rows.now) }
{
    let mut list = Uids::new(alloc);
    let mut number = 0u32;
    for _row in rows {
        number += 1;
        list.push(number)?;
    }
    Ok(list)
}

/// The UIDs of the rows that have a mark.
fn picked(alloc: Global, rows: &[Row], marks: &[bool]) -> Result<Uids, Memory>
    requires { length marks.now ≡ length rows.now }
    ensures { IfOk result (λ list. list ≡ picked (zip rows.now marks.now)) }
{
    let mut list = Uids::new(alloc);
    for (at, row) in rows.iter().enumerate() {
        if marks[at] {
            list.push(row.uid)?;
        }
    }
    Ok(list)
}
