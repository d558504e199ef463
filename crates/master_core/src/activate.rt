// ACTIVATE (RFC 3656, 4.1).
ghost use Rattle.std.specs.Prelude.{◌≡◌, IfOk, if◌then◌else◌};
ghost use Rattle.std.specs.Option.{option_copied};
ghost use Rattle.master_core.specs.Refusals.{activate_refusal, is_full, place_in};
ghost use Rattle.master_core.specs.Replies.{activate_reply};
ghost use Rattle.master_core.specs.Senders.{is_server};

use crate::refusal::Refusal;
use crate::reply::Reply;
use crate::sender::Sender;
use link_msg::Counts;
use mur_base::limits::MAILBOX_LIMIT;
use mur_base::{Bytes, Location, MailName, Memory};
use node_record::{MasterRecord, Record, Table};
use std::alloc::Global;

/// Whether the name would be one mailbox more than there may be.
fn is_full(table: &Table, found: Option<&Record>) -> bool
    ensures { result ≡ is_full table.now (option_copied found.entry) }
{
    let is_mailbox = match found {
        Some(it) => it.is_mailbox(),
        None => false,
    };
    !is_mailbox && table.mailboxes() >= MAILBOX_LIMIT as u64
}

#[tactic(auto, unfolding(crate::specs::Refusals::activate_refusal))]
fn refusal(
    table: &Table,
    from: &Sender,
    found: Option<&Record>,
    place: &Location,
) -> Option<Refusal>
    ensures { result ≡ activate_refusal table.now from.now (option_copied found.entry) place.now }
{
    let holder = match found {
        Some(it) => &it.place,
        None => place,
    };
    if !from.is_backend() || !from.is_server(holder) {
        Some(Refusal::NotYours)
    } else if is_full(table, found) {
        Some(Refusal::Full)
    } else {
        None
    }
}

/// When an ACTIVATE that is taken counts.
fn counts_at(from: &Sender, place: &Location) -> Option<Counts>
    ensures { result ≡ (if is_server from.now place.now then Some Counts.Always else None) }
{
    if from.is_server(place) {
        Some(Counts::Always)
    } else {
        None
    }
}

/// Makes a name active at a location, with an access list.
#[tactic(auto, unfolding(crate::specs::Replies::activate_reply))]
pub fn activate(
    alloc: Global,
    table: &Table,
    from: &Sender,
    name: MailName,
    place: Location,
    acl: Bytes,
) -> Result<Reply, Memory>
    ensures { IfOk result (λ reply. reply ≡ activate_reply table.now from.now name place acl) }
{
    if let Some(why) = refusal(table, from, table.record(&name), &place) {
        return Reply::refused(alloc, Some(Counts::IfAnswered), why);
    }
    let counts = counts_at(from, &place);
    let text = Bytes::from_slice(alloc, b"done")?;
    Reply::changed(alloc, MasterRecord::Active(name, place, acl), counts, text)
}
