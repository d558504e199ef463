// A read of messages without their bodies.
ghost use Rattle.std.specs.Prelude.{◌≡◌, IfOk};
ghost use Rattle.std.specs.Option.{option_copied};
ghost use Rattle.backend_core.specs.Summaries.{summaries_plan};

use crate::op_plan::OpPlan;
use crate::refusal::refusal;
use crate::response::Response;
use link_msg::Outcome;
use mail_message::Uids;
use mur_base::{MailName, Memory};
use node_record::Held;
use std::alloc::Global;

/// The messages with these UIDs without their bodies, where the mailbox is Open here. Each takes time logarithmic in the mailbox.
#[tactic(auto, unfolding(crate::specs::Summaries::summaries_plan, crate::specs::OpPlan::plans, crate::specs::OpPlan::plans_unless))]
pub fn summaries(
    alloc: Global,
    name: MailName,
    selected: Option<u32>,
    uids: &Uids,
    found: Option<&Held>,
) -> Result<OpPlan, Memory>
    ensures { IfOk result (λ plan. plan ≡ summaries_plan name selected uids.now (option_copied found.entry)) }
{
    let Some(held) = found else {
        return Ok(OpPlan::tells(alloc, Response::not_now()));
    };
    match refusal(alloc, selected, held)? {
        Some(response) => Ok(OpPlan::tells(alloc, response)),
        None => {
            let summaries = held.content.summaries(alloc, uids.as_slice())?;
            Ok(OpPlan::looks(alloc, name, Outcome::Summaries(summaries)))
        }
    }
}
