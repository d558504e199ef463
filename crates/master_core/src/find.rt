// FIND (RFC 3656, 4.5).
ghost use Rattle.std.specs.Prelude.{◌≡◌, IfOk};
ghost use Rattle.master_core.specs.Replies.{find_reply};

use crate::records::found_line;
use crate::reply::Reply;
use mur_base::{MailName, Memory};
use node_record::Table;
use std::alloc::Global;

/// Tells the record of a name, if there is one. Logarithmic in the records.
#[tactic(auto, unfolding(crate::specs::Replies::find_reply))]
pub fn find(alloc: Global, table: &Table, name: &MailName) -> Result<Reply, Memory>
    ensures { IfOk result (λ reply. reply ≡ find_reply table.now name.now) }
{
    let lines = found_line(alloc, name, table.record(name))?;
    Reply::told(alloc, lines)
}
