// Which asks for messages aren't carried out.
ghost use Rattle.std.specs.Prelude.{◌≡◌, IfOk};
ghost use Rattle.backend_core.specs.Refusal.{is_other, refusal};

use crate::response::{Response, no_snapshot};
use link_msg::Outcome;
use mail_message::MailBox;
use mur_base::{Copied, Memory, Phase};
use node_record::Held;
use std::alloc::Global;

/// What is answered instead, where an operation on messages isn't carried out: the name isn't Open here, or the asking
/// session has selected another mailbox.
#[tactic(auto, unfolding(crate::specs::Refusal::refusal, crate::specs::Refusal::refusal_in))]
pub fn refusal(
    alloc: Global,
    selected: Option<u32>,
    held: &Held,
) -> Result<Option<Response>, Memory>
    ensures { IfOk result (λ response. response ≡ refusal selected held.now) }
{
    match &held.phase {
        Phase::Open => {
            if is_other(selected, &held.content) {
                Ok(Some(Response::done(Outcome::Gone, no_snapshot(alloc))))
            } else {
                Ok(None)
            }
        }
        Phase::Pointer(server) => Ok(Some(Response::moved(server.copy(alloc)?))),
        _ => Ok(Some(Response::not_now())),
    }
}

#[tactic(auto, unfolding(crate::specs::Refusal::is_other))]
fn is_other(selected: Option<u32>, content: &MailBox) -> bool
    ensures { result ≡ is_other selected content.now }
{
    match selected {
        None => false,
        Some(serial) => serial != content.serial(),
    }
}
