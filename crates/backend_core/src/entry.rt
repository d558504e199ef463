// The entries of operations on messages: none where nothing changes.
ghost use Rattle.std.specs.Prelude.{◌≡◌, IfOk};
ghost use Rattle.node_record.specs.declared.backend.BackendRecord.TheVariants.{Added, Flagged, Gone};
ghost use Rattle.backend_core.specs.OpPlan.{entry_of};

use crate::op_plan::Entries;
use mail_message::{Messages, Rows, Uids};
use mur_base::{Copied, MailName, Memory};
use node_record::BackendRecord;
use std::alloc::Global;

/// Messages are put. No body is copied.
#[tactic(auto, using(crate::proofs::EntryOf::entry_none, crate::proofs::EntryOf::entry_some))]
pub fn added(alloc: Global, name: MailName, messages: Messages) -> Result<Entries, Memory>
    ensures { IfOk result (λ entries. entries ≡ entry_of (Added name) messages) }
{
    let mut entries = Entries::new(alloc);
    if !messages.is_empty() {
        entries.push(BackendRecord::Added(name, messages))?;
    }
    Ok(entries)
}

/// Messages get other flags.
#[tactic(auto, using(crate::proofs::EntryOf::entry_none, crate::proofs::EntryOf::entry_some))]
pub fn flagged(alloc: Global, name: &MailName, rows: Rows) -> Result<Entries, Memory>
    ensures { IfOk result (λ entries. entries ≡ entry_of (Flagged name.now) rows) }
{
    let mut entries = Entries::new(alloc);
    if !rows.is_empty() {
        entries.push(BackendRecord::Flagged(name.copy(alloc)?, rows))?;
    }
    Ok(entries)
}

/// Messages are taken away.
#[tactic(auto, using(crate::proofs::EntryOf::entry_none, crate::proofs::EntryOf::entry_some))]
pub fn gone(alloc: Global, name: &MailName, uids: Uids) -> Result<Entries, Memory>
    ensures { IfOk result (λ entries. entries ≡ entry_of (Gone name.now) uids) }
{
    let mut entries = Entries::new(alloc);
    if !uids.is_empty() {
        entries.push(BackendRecord::Gone(name.copy(alloc)?, uids))?;
    }
    Ok(entries)
}
