// SELECT and EXAMINE (RFC 9051, 6.3.2 and 6.3.3): what comes of the result.
ghost use Rattle.std.specs.Prelude.{◌≡◌, IfOk};
ghost use Rattle.session_core.specs.Select.{select_done, select_turn};

use crate::result::OpResult;
use link_msg::Outcome;
use mail_message::Snapshot;
use mur_base::{MailName, Memory};
use mur_model::{NoText, Opening, Turn, select_told, unselected as refused_select};
use std::alloc::Global;

/// What comes of the result of a SELECT or an EXAMINE; nothing of one that it can't have.
#[tactic(auto, unfolding(crate::specs::Select::select_turn))]
pub fn select_turn(
    alloc: Global,
    name: &MailName,
    it: &Opening,
    op_result: OpResult,
) -> Result<Option<Turn>, Memory>
    ensures { IfOk result (λ turn. turn ≡ select_turn name.now it.now op_result) }
{
    match op_result {
        OpResult::Done(outcome, seen) => select_done(alloc, name, it, &outcome, seen),
        OpResult::Missing => Ok(Some(refused_select(
            alloc,
            &it.user,
            it.was_selected,
            NoText::NonExistent,
        )?)),
    }
}

#[tactic(auto, unfolding(crate::specs::Select::select_done))]
fn select_done(
    alloc: Global,
    name: &MailName,
    it: &Opening,
    outcome: &Outcome,
    seen: Snapshot,
) -> Result<Option<Turn>, Memory>
    ensures { IfOk result (λ turn. turn ≡ select_done name.now it.now outcome.now seen) }
{
    match outcome {
        Outcome::None => Ok(Some(select_told(alloc, it, name, seen)?)),
        _ => Ok(None),
    }
}
