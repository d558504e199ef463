// DEACTIVATE (RFC 3656, 4.3).
ghost use Rattle.std.specs.Prelude.{◌≡◌, IfOk};
ghost use Rattle.std.specs.Option.{option_copied};
ghost use Rattle.master_core.specs.Refusals.{deactivate_refusal};
ghost use Rattle.master_core.specs.Replies.{deactivate_reply};

use crate::refusal::Refusal;
use crate::reply::Reply;
use crate::reserve::is_active;
use crate::sender::Sender;
use mur_base::{Bytes, Location, MailName, Memory};
use node_record::{MasterRecord, Record, Table};
use std::alloc::Global;

#[tactic(auto, unfolding(crate::specs::Refusals::deactivate_refusal))]
fn refusal(from: &Sender, found: Option<&Record>, place: &Location) -> Option<Refusal>
    ensures { result ≡ deactivate_refusal from.now (option_copied found.entry) place.now }
{
    if !from.is_backend() {
        return Some(Refusal::NotYours);
    }
    let Some(it) = found else {
        return Some(Refusal::NoSuchName);
    };
    if !from.is_server(&it.place) || !from.is_server(place) {
        Some(Refusal::NotYours)
    } else if !is_active(it) {
        Some(Refusal::NotActive)
    } else {
        None
    }
}

/// Reserves an active name at a location of the same server; it keeps its access list.
#[tactic(auto, unfolding(crate::specs::Replies::deactivate_reply))]
pub fn deactivate(
    alloc: Global,
    table: &Table,
    from: &Sender,
    name: MailName,
    place: Location,
) -> Result<Reply, Memory>
    ensures { IfOk result (λ reply. reply ≡ deactivate_reply table.now from.now name place) }
{
    if let Some(why) = refusal(from, table.record(&name), &place) {
        return Reply::refused(alloc, None, why);
    }
    let text = Bytes::from_slice(alloc, b"done")?;
    Reply::changed(alloc, MasterRecord::Inactive(name, place), None, text)
}
