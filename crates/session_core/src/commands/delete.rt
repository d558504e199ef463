// DELETE (RFC 9051, 6.3.5): what comes of the result.
ghost use Rattle.std.specs.Prelude.{◌≡◌, IfOk};
ghost use Rattle.session_core.specs.Delete.{reply_to_delete, reply_to_deleted};

use crate::result::OpResult;
use link_msg::Outcome;
use mur_base::Memory;
use mur_model::{NoText, Reply, completed, refused};
use std::alloc::Global;

/// What is replied to the result of a DELETE; nothing to one that it can't have.
#[tactic(auto, unfolding(crate::specs::Delete::reply_to_delete))]
pub fn delete_reply(alloc: Global, op_result: OpResult) -> Result<Option<Reply>, Memory>
    ensures { IfOk result (λ reply. reply ≡ reply_to_delete op_result) }
{
    match op_result {
        OpResult::Done(outcome, _) => reply_to_done(alloc, &outcome),
        OpResult::Missing => Ok(Some(refused(alloc, NoText::NonExistent))),
    }
}

#[tactic(auto, unfolding(crate::specs::Delete::reply_to_deleted))]
fn reply_to_done(alloc: Global, outcome: &Outcome) -> Result<Option<Reply>, Memory>
    ensures { IfOk result (λ reply. reply ≡ reply_to_deleted outcome.now) }
{
    match outcome {
        Outcome::None => Ok(Some(completed(alloc, b"DELETE")?)),
        _ => Ok(None),
    }
}
