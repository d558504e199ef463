// APPEND (RFC 9051, 6.3.12): what comes of the result.
ghost use Rattle.std.specs.Prelude.{◌≡◌, IfOk};
ghost use Rattle.session_core.specs.Append.{reply_to_append, reply_to_appended, reply_to_uids};

use crate::result::OpResult;
use link_msg::Outcome;
use mail_message::Snapshot;
use mur_base::Memory;
use mur_model::{NoText, Reply, append_reply as reply_with_uid, refused};
use std::alloc::Global;

/// What is replied to the result of an APPEND; nothing to one that it can't have.
#[tactic(auto, unfolding(crate::specs::Append::reply_to_append))]
pub fn append_reply(alloc: Global, op_result: OpResult) -> Result<Option<Reply>, Memory>
    ensures { IfOk result (λ reply. reply ≡ reply_to_append op_result) }
{
    match op_result {
        OpResult::Done(outcome, seen) => reply_to_done(alloc, &outcome, &seen),
        OpResult::Missing => Ok(Some(refused(alloc, NoText::TryCreate))),
    }
}

#[tactic(auto, unfolding(crate::specs::Append::reply_to_appended))]
fn reply_to_done(alloc: Global, outcome: &Outcome, seen: &Snapshot) -> Result<Option<Reply>, Memory>
    ensures { IfOk result (λ reply. reply ≡ reply_to_appended outcome.now seen.now) }
{
    match outcome {
        Outcome::Uids(uids) => reply_to_uids(alloc, seen.serial, uids.as_slice()),
        Outcome::Limit => Ok(Some(refused(alloc, NoText::Limit))),
        _ => Ok(None),
    }
}

#[tactic(auto, unfolding(crate::specs::Append::reply_to_uids))]
fn reply_to_uids(alloc: Global, serial: u32, uids: &[u32]) -> Result<Option<Reply>, Memory>
    ensures { IfOk result (λ reply. reply ≡ reply_to_uids serial uids.now) }
{
    match uids {
        [uid] => Ok(Some(reply_with_uid(alloc, serial, *uid)?)),
        _ => Ok(None),
    }
}
