// RESERVE (RFC 3656, 4.9).
ghost use Rattle.std.specs.Prelude.{◌≡◌, ◌<◌, None, IfOk};
ghost use Rattle.std.specs.Option.{option_copied};
ghost use Rattle.grammar.specs.Numbers.{decimal_text};
ghost use Rattle.node_record.specs.Table.{record_at};
ghost use Rattle.master_core.specs.Refusals.{reserve_refusal, is_active};
ghost use Rattle.master_core.specs.Replies.{reserve_counts, reserve_reply};

use crate::refusal::Refusal;
use crate::reply::Reply;
use crate::sender::Sender;
use grammar::put_decimal;
use link_msg::Counts;
use mur_base::{Bytes, Location, MailName, Memory};
use node_record::{MasterRecord, Record, State, Table};
use std::alloc::Global;

/// Whether a name that has a record is active.
pub fn is_active(it: &Record) -> bool
    ensures { result ≡ is_active (Some it.now) }
{
    matches!(it.state, State::Active(_))
}

#[tactic(auto, unfolding(crate::specs::Refusals::reserve_refusal))]
fn refusal(
    table: &Table,
    from: &Sender,
    found: Option<&Record>,
    place: &Location,
) -> Option<Refusal>
    ensures why { result ≡ reserve_refusal table.now from.now (option_copied found.entry) place.now }
    ensures room { result ≡ None → table.now.serial < 4294967295 }
{
    if !from.is_backend() || !from.is_server(place) {
        return Some(Refusal::NotYours);
    }
    if let Some(it) = found {
        if is_active(it) {
            return Some(Refusal::Exists);
        }
        return Some(Refusal::Reserved);
    }
    if table.serial() == u32::MAX {
        return Some(Refusal::SerialsSpent);
    }
    None
}

/// When a refused RESERVE counts.
fn counts_of(why: Refusal) -> Option<Counts>
    ensures { result ≡ reserve_counts why }
{
    match why {
        Refusal::Exists | Refusal::SerialsSpent => Some(Counts::IfAnswered),
        _ => None,
    }
}

/// The text of a serial.
fn serial_text(alloc: Global, serial: u32) -> Result<Bytes, Memory>
    ensures { IfOk result (λ text. text ≡ decimal_text serial) }
{
    let mut text = Bytes::new(alloc);
    put_decimal(u64::from(serial), &mut text)?;
    Ok(text)
}

/// Reserves a name that has no record, under the next serial.
#[tactic(auto, unfolding(crate::specs::Replies::reserve_reply))]
pub fn reserve(
    alloc: Global,
    table: &Table,
    from: &Sender,
    name: MailName,
    place: Location,
) -> Result<Reply, Memory>
    ensures { IfOk result (λ reply. reply ≡ reserve_reply table.now from.now name place) }
{
    if let Some(why) = refusal(table, from, table.record(&name), &place) {
        return Reply::refused(alloc, counts_of(why), why);
    }
    let serial = table.serial() + 1;
    let text = serial_text(alloc, serial)?;
    Reply::changed(
        alloc,
        MasterRecord::Reserved(name, place, serial),
        None,
        text,
    )
}
