// What a home does with an ask.
ghost use Rattle.std.specs.Prelude.{◌≡◌, IfOk};
ghost use Rattle.backend_core.specs.AskPlan.{ask_plan};
ghost use Rattle.backend_core.specs.declared.op_plan.OpPlan.{OpPlan};

use crate::append::append;
use crate::backend::Backend;
use crate::expunge::expunge;
use crate::flags::set_flags;
use crate::look::look;
use crate::op_plan::OpPlan;
use crate::read::read;
use crate::summaries::summaries;
use link_msg::{FrontAsk, Op};
use mur_base::Memory;
use std::alloc::Global;

/// What is written of an ask, and what is told of it, if it is one for messages.
#[tactic(auto, unfolding(crate::specs::AskPlan::ask_plan, crate::specs::AskPlan::op_plan))]
pub fn serve(alloc: Global, home: &Backend, ask: FrontAsk) -> Result<Option<OpPlan>, Memory>
    ensures { IfOk result (λ plan. plan ≡ ask_plan home.now ask) }
{
    let FrontAsk {
        id: _,
        user: _,
        name,
        selected,
        op,
    } = ask;
    let found = home.held.get(&name);
    let plan = match op {
        Op::Append(messages) => append(alloc, name, selected, messages, found),
        Op::Look => look(alloc, name, selected, found),
        Op::Read(uids, sees) => read(alloc, name, selected, &uids, sees, found),
        Op::Summaries(uids) => summaries(alloc, name, selected, &uids, found),
        Op::Flags(uids, mode, flags) => set_flags(
            alloc, name, selected, &uids, mode, &flags, found,
        ),
        Op::Expunge(only) => expunge(alloc, name, selected, &only, found),
        Op::Create | Op::Delete | Op::Xfer(_, _) => return Ok(None),
    };
    Ok(Some(plan?))
}
