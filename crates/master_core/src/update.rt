// UPDATE (RFC 3656, 4.11).
ghost use Rattle.std.specs.Prelude.{◌≡◌, IfOk};
ghost use Rattle.std.specs.List.{flat_map};
ghost use Rattle.master_core.specs.Records.{record_lines};
ghost use Rattle.master_core.specs.Replies.{update_reply};

use crate::records::put_record_lines;
use crate::reply::{Answers, Reply};
use mur_base::Memory;
use node_record::Table;
use std::alloc::Global;

fn all_lines(alloc: Global, table: &Table) -> Result<Answers, Memory>
    ensures { IfOk result (λ lines. lines ≡ flat_map record_lines table.now.records) }
{
    let mut lines = Answers::new(alloc);
    for (name, it) in table.records().iter() {
        put_record_lines(alloc, name, it, &mut lines)?;
    }
    Ok(lines)
}

/// Tells all records.
#[tactic(auto, unfolding(crate::specs::Replies::update_reply))]
pub fn update(alloc: Global, table: &Table) -> Result<Reply, Memory>
    ensures { IfOk result (λ reply. reply ≡ update_reply table.now) }
{
    Reply::told(alloc, all_lines(alloc, table)?)
}
