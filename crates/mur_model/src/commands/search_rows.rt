// SEARCH and UID SEARCH by keys that ask for neither date nor size of a message (RFC 9051, 6.4.4).
ghost use Rattle.std.specs.Prelude.{◌≡◌, ◌++◌, IfOk, OnOk};
ghost use Rattle.std.specs.Option.{option_copied, option_map, option_to_list};
ghost use Rattle.mur_model.specs.SearchRows.{are_keys_in_rows, bare_at, bare_summary, is_key_in_row, no_date, rows_searched};

use crate::commands::search::{Searching, search_told};
use crate::named_rows::uids_of;
use crate::session::Turn;
use crate::view::View;
use mail_message::{DateText, Key, OrderedRows, Row, Summaries, Summary, date};
use mur_base::{Copied, Memory};
use std::alloc::Global;

/// Whether the rows of a mailbox tell which messages a key matches. It goes no deeper than keys nest.
#[cycle(rows)]
fn is_key_in_row(key: &Key) -> bool
    ensures { result ≡ is_key_in_row key.now }
{
    match key {
        Key::Larger(_) | Key::Smaller(_) | Key::Before(_) | Key::On(_) | Key::Since(_) => false,
        Key::Not(key) => is_key_in_row(key.get()),
        Key::Or(one, other) => is_key_in_row(one.get()) && is_key_in_row(other.get()),
        Key::Group(keys) => are_keys_in_rows(keys.as_slice()),
        _ => true,
    }
}

/// Whether the rows of a mailbox tell which messages all of some keys match, so that no message has to be looked up.
#[cycle(rows)]
pub fn are_keys_in_rows(keys: &[Key]) -> bool
    ensures { result ≡ are_keys_in_rows keys.now }
{
    for key in keys {
        if !is_key_in_row(key) {
            return false;
        }
    }
    true
}

/// The date of a message of which the row alone is known.
fn no_date() -> DateText
    ensures { result ≡ no_date }
{
    date(b" 1-Jan-1970 00:00:00 +0000").unwrap()
}

/// A message of which the row alone is known: a copy of its flags.
fn bare(alloc: Global, row: &Row, date: DateText) -> Result<Summary, Memory>
    requires { date ≡ no_date }
    ensures { IfOk result (λ message. message ≡ bare_summary row.now) }
{
    Ok(Summary {
        uid: row.uid,
        flags: row.flags.copy(alloc)?,
        date,
        size: 0,
    })
}

fn put_bare(
    alloc: Global,
    messages: &mut Summaries,
    row: Option<&Row>,
    date: DateText,
) -> Result<(), Memory>
    requires { date ≡ no_date }
    ensures { OnOk result (messages.new ≡ messages.old ++ option_to_list (option_map bare_summary (option_copied row.entry))) }
{
    match row {
        Some(row) => messages.push(bare(alloc, row, date)?),
        None => Ok(()),
    }
}

/// For each UID in its turn such a message, if its row is there.
fn bare_at(alloc: Global, rows: &OrderedRows, uids: &[u32]) -> Result<Summaries, Memory>
    ensures { IfOk result (λ messages. messages ≡ bare_at rows.now uids.now) }
{
    let date = no_date();
    let mut messages = Summaries::new(alloc);
    let mut near = 0;
    for uid in uids {
        put_bare(alloc, &mut messages, rows.find(*uid, &mut near), date)?;
    }
    Ok(messages)
}

/// What is told where a mailbox has these rows now. Each row costs what the keys cost, and a copy of its flags.
pub fn rows_searched(
    alloc: Global,
    view: &View,
    it: &Searching,
    now: OrderedRows,
) -> Result<Turn, Memory>
    ensures { IfOk result (λ turn. turn ≡ rows_searched view.now it.now now) }
{
    let named = uids_of(alloc, view.rows.as_slice())?;
    let messages = bare_at(alloc, &now, named.as_slice())?;
    search_told(alloc, view, it, &messages, now)
}
