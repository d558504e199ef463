// A read of messages.
ghost use Rattle.std.specs.Prelude.{◌≡◌, IfOk};
ghost use Rattle.std.specs.Option.{option_copied};
ghost use Rattle.mail_message.specs.declared.mode.Mode.TheVariants.{Add};
ghost use Rattle.mail_store.specs.Store.{rows_stored};
ghost use Rattle.backend_core.specs.Read.{read_plan, read_from, seen_entries, seen_flag};

use crate::entry::flagged;
use crate::op_plan::{Entries, OpPlan, Telling};
use crate::refusal::refusal;
use crate::response::Response;
use crate::rows::differing;
use link_msg::Outcome;
use mail_message::{FlagFault, FlagName, FlagSet, MailBox, Mode, OrderedRows, SystemFlag, Uids};
use mail_store::{StoreFault, rows_stored};
use mur_base::{MailName, Memory};
use node_record::Held;
use std::alloc::Global;

/// Reads messages of a mailbox, and gives them `\Seen` where that is asked, where it is Open here. Each message takes time
/// logarithmic in the mailbox, and a copy of its body.
#[tactic(auto, unfolding(crate::specs::Read::read_plan, crate::specs::OpPlan::plans, crate::specs::OpPlan::plans_unless))]
pub fn read(
    alloc: Global,
    name: MailName,
    selected: Option<u32>,
    uids: &Uids,
    sees: bool,
    found: Option<&Held>,
) -> Result<OpPlan, Memory>
    ensures { IfOk result (λ plan. plan ≡ read_plan name selected uids.now sees (option_copied found.entry)) }
{
    let Some(held) = found else {
        return Ok(OpPlan::tells(alloc, Response::not_now()));
    };
    match refusal(alloc, selected, held)? {
        Some(response) => Ok(OpPlan::tells(alloc, response)),
        None => read_from(alloc, name, &held.content, uids, sees),
    }
}

fn read_from(
    alloc: Global,
    name: MailName,
    content: &MailBox,
    uids: &Uids,
    sees: bool,
) -> Result<OpPlan, Memory>
    ensures { IfOk result (λ plan. plan ≡ read_from name content.now uids.now sees) }
{
    let messages = content.read(alloc, uids.as_slice())?;
    Ok(OpPlan {
        entries: seen_entries(alloc, &name, content, uids, sees)?,
        telling: Telling::Look(name, Outcome::Messages(messages)),
    })
}

/// What gives messages `\Seen`, where that is asked.
#[tactic(auto, unfolding(crate::specs::Read::seen_entries))]
fn seen_entries(
    alloc: Global,
    name: &MailName,
    content: &MailBox,
    uids: &Uids,
    sees: bool,
) -> Result<Entries, Memory>
    ensures { IfOk result (λ entries. entries ≡ seen_entries name.now content.now uids.now sees) }
{
    if !sees {
        return Ok(Entries::new(alloc));
    }
    let rows = seen_rows(alloc, content, uids)?;
    flagged(alloc, name, differing(alloc, content, rows.as_slice())?)
}

/// The rows of messages with `\Seen`. It is no keyword, so that none gets too many.
fn seen_rows(alloc: Global, content: &MailBox, uids: &Uids) -> Result<OrderedRows, Memory>
    ensures { IfOk result (λ rows. rows ≡ rows_stored content.now uids.now Add seen_flag) }
{
    match rows_stored(
        alloc,
        content,
        uids.as_slice(),
        Mode::Add,
        &seen_flag(alloc)?,
    ) {
        Ok(rows) => Ok(rows),
        Err(StoreFault::Memory) => Err(Memory),
        Err(_) => unreachable!(),
    }
}

fn seen_flag(alloc: Global) -> Result<FlagSet, Memory>
    ensures { IfOk result (λ flags. flags ≡ seen_flag) }
{
    match FlagSet::new(alloc).with(alloc, &FlagName::System(SystemFlag::Seen)) {
        Ok(flags) => Ok(flags),
        Err(FlagFault::Memory) => Err(Memory),
        Err(_) => unreachable!(),
    }
}
