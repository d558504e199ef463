// CREATE (RFC 9051, 6.3.4): what comes of the result.
ghost use Rattle.std.specs.Prelude.{◌≡◌, IfOk};
ghost use Rattle.session_core.specs.Create.{reply_to_create, reply_to_created};

use crate::result::OpResult;
use link_msg::Outcome;
use mur_base::Memory;
use mur_model::{NoText, Reply, completed, refused};
use std::alloc::Global;

/// What is replied to the result of a CREATE; nothing to one that it can't have.
#[tactic(auto, unfolding(crate::specs::Create::reply_to_create))]
pub fn create_reply(alloc: Global, op_result: OpResult) -> Result<Option<Reply>, Memory>
    ensures { IfOk result (λ reply. reply ≡ reply_to_create op_result) }
{
    match op_result {
        OpResult::Done(outcome, _) => reply_to_done(alloc, &outcome),
        OpResult::Missing => Ok(None),
    }
}

#[tactic(auto, unfolding(crate::specs::Create::reply_to_created))]
fn reply_to_done(alloc: Global, outcome: &Outcome) -> Result<Option<Reply>, Memory>
    ensures { IfOk result (λ reply. reply ≡ reply_to_created outcome.now) }
{
    match outcome {
        Outcome::None => Ok(Some(completed(alloc, b"CREATE")?)),
        Outcome::Exists => Ok(Some(refused(alloc, NoText::AlreadyExists))),
        Outcome::Limit => Ok(Some(refused(alloc, NoText::Limit))),
        _ => Ok(None),
    }
}
