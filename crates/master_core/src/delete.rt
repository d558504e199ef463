// DELETE (RFC 3656, 4.4).
ghost use Rattle.std.specs.Prelude.{◌≡◌, IfOk};
ghost use Rattle.std.specs.Option.{option_copied};
ghost use Rattle.master_core.specs.Refusals.{delete_refusal};
ghost use Rattle.master_core.specs.Replies.{delete_reply};

use crate::refusal::Refusal;
use crate::reply::Reply;
use crate::sender::Sender;
use link_msg::Counts;
use mur_base::{Bytes, MailName, Memory};
use node_record::{MasterRecord, Record, Table};
use std::alloc::Global;

#[tactic(auto, unfolding(crate::specs::Refusals::delete_refusal))]
fn refusal(from: &Sender, found: Option<&Record>) -> Option<Refusal>
    ensures { result ≡ delete_refusal from.now (option_copied found.entry) }
{
    if !from.is_backend() {
        return Some(Refusal::NotYours);
    }
    let Some(it) = found else {
        return Some(Refusal::NoSuchName);
    };
    if from.is_server(&it.place) {
        None
    } else {
        Some(Refusal::NotYours)
    }
}

/// Takes the record of a name away.
#[tactic(auto, unfolding(crate::specs::Replies::delete_reply))]
pub fn delete(alloc: Global, table: &Table, from: &Sender, name: MailName) -> Result<Reply, Memory>
    ensures { IfOk result (λ reply. reply ≡ delete_reply table.now from.now name) }
{
    if let Some(why) = refusal(from, table.record(&name)) {
        return Reply::refused(alloc, None, why);
    }
    let text = Bytes::from_slice(alloc, b"done")?;
    Reply::changed(
        alloc,
        MasterRecord::Deleted(name),
        Some(Counts::Always),
        text,
    )
}
