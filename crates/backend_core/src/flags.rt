// Other flags for messages.
ghost use Rattle.std.specs.Prelude.{◌≡◌, IfOk};
ghost use Rattle.std.specs.Option.{option_copied};
ghost use Rattle.backend_core.specs.Flags.{flags_plan, rows_plan, relabels_to};

use crate::entry::flagged;
use crate::op_plan::{OpPlan, Telling};
use crate::refusal::refusal;
use crate::response::Response;
use crate::rows::differing;
use link_msg::Outcome;
use mail_message::{FlagSet, MailBox, Mode, OrderedRows, Uids};
use mail_store::{StoreFault, rows_stored};
use mur_base::{MailName, Memory};
use node_record::Held;
use std::alloc::Global;

/// Gives messages of a mailbox other flags, where it is Open here. Only what differs is written. Each message takes time
/// logarithmic in the mailbox.
#[tactic(auto, unfolding(crate::specs::Flags::flags_plan, crate::specs::OpPlan::plans, crate::specs::OpPlan::plans_unless))]
pub fn set_flags(
    alloc: Global,
    name: MailName,
    selected: Option<u32>,
    uids: &Uids,
    mode: Mode,
    flags: &FlagSet,
    found: Option<&Held>,
) -> Result<OpPlan, Memory>
    ensures { IfOk result (λ plan. plan ≡ flags_plan name selected uids.now mode flags.now (option_copied found.entry)) }
{
    let Some(held) = found else {
        return Ok(OpPlan::tells(alloc, Response::not_now()));
    };
    match refusal(alloc, selected, held)? {
        Some(response) => Ok(OpPlan::tells(alloc, response)),
        None => relabel(alloc, name, &held.content, uids, mode, flags),
    }
}

fn relabel(
    alloc: Global,
    name: MailName,
    content: &MailBox,
    uids: &Uids,
    mode: Mode,
    flags: &FlagSet,
) -> Result<OpPlan, Memory>
    ensures { IfOk result (λ plan. plan ≡ relabels_to name content.now uids.now mode flags.now) }
{
    match rows_stored(alloc, content, uids.as_slice(), mode, flags) {
        Ok(rows) => relabel_rows(alloc, name, content, rows),
        Err(StoreFault::TooManyFlags) => Ok(OpPlan::looks(alloc, name, Outcome::Limit)),
        Err(StoreFault::Memory) => Err(Memory),
        Err(_) => unreachable!(),
    }
}

fn relabel_rows(
    alloc: Global,
    name: MailName,
    content: &MailBox,
    rows: OrderedRows,
) -> Result<OpPlan, Memory>
    ensures { IfOk result (λ plan. plan ≡ rows_plan name content.now rows) }
{
    Ok(OpPlan {
        entries: flagged(alloc, &name, differing(alloc, content, rows.as_slice())?)?,
        telling: Telling::Look(name, Outcome::Rows(rows)),
    })
}
