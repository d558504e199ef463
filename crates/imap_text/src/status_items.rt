// The items of a STATUS (RFC 9051, 9: status-att).
ghost use Rattle.std.specs.Prelude.{◌≡◌, ◌++◌, OnOk};
ghost use Rattle.imap_text.specs.StatusItems.{item_text, status_item};

use grammar::{Production, ReadError, table_of};
use imap_types::StatusItem;
use mur_base::{Bytes, Memory};
use std::alloc::Global;

/// The names of status-att.
const ITEM_ROWS: [(&[u8], StatusItem); 6] = [
    (b"MESSAGES", StatusItem::Messages),
    (b"UIDNEXT", StatusItem::UidNext),
    (b"UIDVALIDITY", StatusItem::UidValidity),
    (b"UNSEEN", StatusItem::Unseen),
    (b"DELETED", StatusItem::Deleted),
    (b"SIZE", StatusItem::Size),
];

/// Prints the name of an item (RFC 9051, 9: status-att).
#[tactic(auto, unfolding(crate::specs::StatusItems::item_text))]
pub fn put_item(item: StatusItem, out: &mut Bytes) -> Result<(), Memory>
    ensures { OnOk result (out.new ≡ out.old ++ item_text item) }
{
    match item {
        StatusItem::Messages => out.extend_from_slice(b"MESSAGES"),
        StatusItem::UidNext => out.extend_from_slice(b"UIDNEXT"),
        StatusItem::UidValidity => out.extend_from_slice(b"UIDVALIDITY"),
        StatusItem::Unseen => out.extend_from_slice(b"UNSEEN"),
        StatusItem::Deleted => out.extend_from_slice(b"DELETED"),
        StatusItem::Size => out.extend_from_slice(b"SIZE"),
    }
}

/// status-att.
#[derive(Clone, Copy)]
pub struct StatusItemForm;

impl Production for StatusItemForm {
    type Value = StatusItem;

    ghost form = { λ _. status_item };

    fn read<'a>(
        &self,
        _alloc: Global,
        bytes: &'a [u8],
    ) -> Result<(StatusItem, &'a [u8]), ReadError> {
        Ok(table_of(StatusItem::Messages, &ITEM_ROWS, bytes)?)
    }

    fn put(&self, value: &StatusItem, out: &mut Bytes) -> Result<(), Memory> {
        put_item(*value, out)
    }
}
