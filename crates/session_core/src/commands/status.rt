// STATUS (RFC 9051, 6.3.11): what comes of the result.
ghost use Rattle.std.specs.Prelude.{◌≡◌, IfOk};
ghost use Rattle.session_core.specs.Status.{reply_to_counted, reply_to_status};

use crate::result::OpResult;
use link_msg::Outcome;
use mail_message::Snapshot;
use mur_base::{Bytes, Memory};
use mur_model::{NoText, Reply, StatusItems, refused, status_reply as reply_with_counts};
use std::alloc::Global;

/// What is replied to the result of a STATUS under this name; nothing to one that it can't have.
#[tactic(auto, unfolding(crate::specs::Status::reply_to_status))]
pub fn status_reply(
    alloc: Global,
    shown: &Bytes,
    items: &StatusItems,
    op_result: OpResult,
) -> Result<Option<Reply>, Memory>
    ensures { IfOk result (λ reply. reply ≡ reply_to_status shown.now items.now op_result) }
{
    match op_result {
        OpResult::Done(outcome, seen) => reply_to_done(alloc, shown, items, &outcome, &seen),
        OpResult::Missing => Ok(Some(refused(alloc, NoText::NonExistent))),
    }
}

#[tactic(auto, unfolding(crate::specs::Status::reply_to_counted))]
fn reply_to_done(
    alloc: Global,
    shown: &Bytes,
    items: &StatusItems,
    outcome: &Outcome,
    seen: &Snapshot,
) -> Result<Option<Reply>, Memory>
    ensures { IfOk result (λ reply. reply ≡ reply_to_counted shown.now items.now outcome.now seen.now) }
{
    match outcome {
        Outcome::None => {
            let shown = Bytes::from_slice(alloc, shown.as_slice())?;
            let reply = reply_with_counts(alloc, shown, items, seen)?;
            Ok(Some(reply))
        }
        _ => Ok(None),
    }
}
