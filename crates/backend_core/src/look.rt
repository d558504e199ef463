// A look at a mailbox.
ghost use Rattle.std.specs.Prelude.{◌≡◌, IfOk};
ghost use Rattle.std.specs.Option.{option_copied};
ghost use Rattle.backend_core.specs.Look.{look_plan};

use crate::op_plan::OpPlan;
use crate::refusal::refusal;
use crate::response::Response;
use link_msg::Outcome;
use mur_base::{MailName, Memory};
use node_record::Held;
use std::alloc::Global;

/// A look at a mailbox, where it is Open here.
#[tactic(auto, unfolding(crate::specs::Look::look_plan, crate::specs::OpPlan::plans, crate::specs::OpPlan::plans_unless))]
pub fn look(
    alloc: Global,
    name: MailName,
    selected: Option<u32>,
    found: Option<&Held>,
) -> Result<OpPlan, Memory>
    ensures { IfOk result (λ plan. plan ≡ look_plan name selected (option_copied found.entry)) }
{
    let Some(held) = found else {
        return Ok(OpPlan::tells(alloc, Response::not_now()));
    };
    match refusal(alloc, selected, held)? {
        Some(response) => Ok(OpPlan::tells(alloc, response)),
        None => Ok(OpPlan::looks(alloc, name, Outcome::None)),
    }
}
