// FETCH and its items (RFC 9051, 6.4.5).
ghost use Rattle.std.specs.Prelude.{◌≡◌, ◌++◌, OnOk, Some};
ghost use Rattle.grammar.specs.Gives.{Finds, Gives};
ghost use Rattle.imap_command.specs.Fetch.{partial, item_name_text, name_of, behind_name, item_of, item, single_of, item_list, items};
ghost use Rattle.imap_command.specs.Fetch.{fetch_form};

use crate::sets::{put_set, set_of};
use grammar::{
    Only, Production, ReadError, Stop, begins, byte_of, number_of, put_decimal, put_several,
    several_of, table_of,
};
use mail_message::{FetchItems, Item, Partial, SetParts};
use mur_base::{Bytes, Memory};
use std::alloc::Global;

/// The name of an item.
#[derive(Clone, Copy)]
pub enum ItemName {
    Flags,
    Uid,
    InternalDate,
    Size,
    Body,
    BodyPeek,
}

/// The names of fetch-att.
const ITEM_ROWS: [(&[u8], ItemName); 6] = [
    (b"FLAGS", ItemName::Flags),
    (b"UID", ItemName::Uid),
    (b"INTERNALDATE", ItemName::InternalDate),
    (b"RFC822.SIZE", ItemName::Size),
    (b"BODY[]", ItemName::Body),
    (b"BODY.PEEK[]", ItemName::BodyPeek),
];

/// FAST, and the names of fetch-att.
const SINGLE_ROWS: [(&[u8], Option<ItemName>); 7] = [
    (b"FAST", None),
    (b"FLAGS", Some(ItemName::Flags)),
    (b"UID", Some(ItemName::Uid)),
    (b"INTERNALDATE", Some(ItemName::InternalDate)),
    (b"RFC822.SIZE", Some(ItemName::Size)),
    (b"BODY[]", Some(ItemName::Body)),
    (b"BODY.PEEK[]", Some(ItemName::BodyPeek)),
];

/// The greatest number64, of 63 bits.
pub const NUMBER64_MOST: u64 = 9_223_372_036_854_775_807;

/// Reads which part of a body is asked for, if not the whole.
fn partial_of(bytes: &[u8]) -> Result<(Option<Partial>, &[u8]), Stop>
    ensures { Finds (λ x. (x.0, x.1.now)) result (partial.part.at bytes.now) }
{
    if begins(&Only(b'<'), bytes) {
        let rest = byte_of(b'<', bytes)?;
        let (from, rest) = number_of(true, NUMBER64_MOST, rest)?;
        let rest = byte_of(b'.', rest)?;
        let (count, rest) = number_of(false, NUMBER64_MOST, rest)?;
        let rest = byte_of(b'>', rest)?;
        Ok((Some(Partial { from, count }), rest))
    } else {
        Ok((None, bytes))
    }
}

#[tactic(auto, using(std::proofs::lemmas::Grind::common_steps))]
fn put_some_partial(part: Partial, out: &mut Bytes) -> Result<(), Memory>
    ensures { OnOk result (out.new ≡ out.old ++ partial.text (Some part)) }
{
    out.push(b'<')?;
    put_decimal(part.from, out)?;
    out.push(b'.')?;
    put_decimal(part.count, out)?;
    out.push(b'>')
}

fn put_partial(part: Option<Partial>, out: &mut Bytes) -> Result<(), Memory>
    ensures { OnOk result (out.new ≡ out.old ++ partial.text part) }
{
    match part {
        Some(part) => put_some_partial(part, out),
        None => Ok(()),
    }
}

/// Reads what stands behind the name of an item.
#[tactic(auto, unfolding(crate::specs::Fetch::item_of))]
fn item_of(name: ItemName, bytes: &[u8]) -> Result<(Item, &[u8]), Stop>
    ensures { Finds (λ x. (x.0, x.1.now)) result ((item_of name).part.at bytes.now) }
{
    match name {
        ItemName::Flags => Ok((Item::Flags, bytes)),
        ItemName::Uid => Ok((Item::Uid, bytes)),
        ItemName::InternalDate => Ok((Item::InternalDate, bytes)),
        ItemName::Size => Ok((Item::Size, bytes)),
        ItemName::Body => {
            let (part, rest) = partial_of(bytes)?;
            Ok((Item::Body(part), rest))
        }
        ItemName::BodyPeek => {
            let (part, rest) = partial_of(bytes)?;
            Ok((Item::BodyPeek(part), rest))
        }
    }
}

#[tactic(auto, unfolding(crate::specs::Fetch::item_name_text, crate::specs::Fetch::name_of))]
fn put_item_name(item: Item, out: &mut Bytes) -> Result<(), Memory>
    ensures { OnOk result (out.new ≡ out.old ++ item_name_text (name_of item)) }
{
    match item {
        Item::Flags => out.extend_from_slice(b"FLAGS"),
        Item::Uid => out.extend_from_slice(b"UID"),
        Item::InternalDate => out.extend_from_slice(b"INTERNALDATE"),
        Item::Size => out.extend_from_slice(b"RFC822.SIZE"),
        Item::Body(_) => out.extend_from_slice(b"BODY[]"),
        Item::BodyPeek(_) => out.extend_from_slice(b"BODY.PEEK[]"),
    }
}

#[tactic(auto, unfolding(crate::specs::Fetch::behind_name))]
fn put_behind_name(item: Item, out: &mut Bytes) -> Result<(), Memory>
    ensures { OnOk result (out.new ≡ out.old ++ behind_name item) }
{
    match item {
        Item::Body(part) | Item::BodyPeek(part) => put_partial(part, out),
        Item::Flags | Item::Uid | Item::InternalDate | Item::Size => Ok(()),
    }
}

/// fetch-att.
#[derive(Clone, Copy)]
struct ItemForm;

impl Production for ItemForm {
    type Value = Item;

    ghost form = { λ _. item };

    fn read<'a>(&self, _alloc: Global, bytes: &'a [u8]) -> Result<(Item, &'a [u8]), ReadError> {
        let (name, rest) = table_of(ItemName::Flags, &ITEM_ROWS, bytes)?;
        Ok(item_of(name, rest)?)
    }

    #[tactic(auto, using(std::proofs::lemmas::Grind::common_steps, crate::proofs::FetchLaw::behind_item))]
    fn put(&self, value: &Item, out: &mut Bytes) -> Result<(), Memory> {
        put_item_name(*value, out)?;
        put_behind_name(*value, out)
    }
}

/// Reads what stands behind FAST or the name of an item that stands alone.
#[tactic(auto, unfolding(crate::specs::Fetch::single_of))]
fn single_of(
    alloc: Global,
    name: Option<ItemName>,
    bytes: &[u8],
) -> Result<(FetchItems, &[u8]), ReadError>
    ensures { Gives (λ x. (x.0, x.1.now)) result ((single_of name).part.at bytes.now) }
{
    let mut list = FetchItems::new(alloc);
    match name {
        None => {
            list.push(Item::Flags)?;
            list.push(Item::InternalDate)?;
            list.push(Item::Size)?;
            Ok((list, bytes))
        }
        Some(name) => {
            let (item, rest) = item_of(name, bytes)?;
            list.push(item)?;
            Ok((list, rest))
        }
    }
}

/// Reads items in parentheses.
fn item_list_of(alloc: Global, bytes: &[u8]) -> Result<(FetchItems, &[u8]), ReadError>
    ensures { Gives (λ x. (x.0, x.1.now)) result (item_list.part.at bytes.now) }
{
    let rest = byte_of(b'(', bytes)?;
    let (list, rest) = several_of(alloc, b' ', &ItemForm, rest)?;
    let rest = byte_of(b')', rest)?;
    Ok((list, rest))
}

/// Reads the items of a FETCH.
fn items_of(alloc: Global, bytes: &[u8]) -> Result<(FetchItems, &[u8]), ReadError>
    ensures { Gives (λ x. (x.0, x.1.now)) result (items.part.at bytes.now) }
{
    if begins(&Only(b'('), bytes) {
        item_list_of(alloc, bytes)
    } else {
        let (name, rest) = table_of(None, &SINGLE_ROWS, bytes)?;
        single_of(alloc, name, rest)
    }
}

/// Prints the items of a FETCH.
#[tactic(auto, using(std::proofs::lemmas::Grind::common_steps))]
fn put_items(list: &FetchItems, out: &mut Bytes) -> Result<(), Memory>
    ensures { OnOk result (out.new ≡ out.old ++ items.text list.now) }
{
    out.push(b'(')?;
    put_several(b' ', &ItemForm, list.as_slice(), out)?;
    out.push(b')')
}

/// Reads what stands behind the name FETCH.
pub fn fetch_of(alloc: Global, bytes: &[u8]) -> Result<((SetParts, FetchItems), &[u8]), ReadError>
    ensures { Gives (λ x. (x.0, x.1.now)) result (fetch_form.part.at bytes.now) }
{
    let rest = byte_of(b' ', bytes)?;
    let (set, rest) = set_of(alloc, rest)?;
    let rest = byte_of(b' ', rest)?;
    let (list, rest) = items_of(alloc, rest)?;
    Ok(((set, list), rest))
}

/// Prints what stands behind the name FETCH.
#[tactic(auto, using(std::proofs::lemmas::Grind::common_steps))]
pub fn put_fetch(set: &SetParts, list: &FetchItems, out: &mut Bytes) -> Result<(), Memory>
    ensures { OnOk result (out.new ≡ out.old ++ fetch_form.text (set.now, list.now)) }
{
    out.push(b' ')?;
    put_set(set, out)?;
    out.push(b' ')?;
    put_items(list, out)
}
