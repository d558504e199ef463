// EXPUNGE.
ghost use Rattle.std.specs.Prelude.{◌≡◌, IfOk};
ghost use Rattle.std.specs.Option.{option_copied};
ghost use Rattle.mail_store.specs.Expunge.{expunged_uids, deleted_among};
ghost use Rattle.backend_core.specs.Expunge.{expunge_plan, removes};

use crate::entry::gone;
use crate::op_plan::{OpPlan, Telling};
use crate::refusal::refusal;
use crate::response::Response;
use link_msg::Outcome;
use mail_message::{MailBox, Uids};
use mail_store::set_of;
use mur_base::{Copied, MailName, Memory};
use node_record::Held;
use std::alloc::Global;
use std::collections::BTreeSet;

/// Takes the messages with `\Deleted` away from a mailbox, of all or of those with some UIDs, where it is Open here. Among some
/// UIDs each takes time logarithmic in the mailbox; of all the flags of each message are looked at once.
#[tactic(auto, unfolding(crate::specs::Expunge::expunge_plan, crate::specs::OpPlan::plans, crate::specs::OpPlan::plans_unless))]
pub fn expunge(
    alloc: Global,
    name: MailName,
    selected: Option<u32>,
    only: &Option<Uids>,
    found: Option<&Held>,
) -> Result<OpPlan, Memory>
    ensures { IfOk result (λ plan. plan ≡ expunge_plan name selected only.now (option_copied found.entry)) }
{
    let Some(held) = found else {
        return Ok(OpPlan::tells(alloc, Response::not_now()));
    };
    match refusal(alloc, selected, held)? {
        Some(response) => Ok(OpPlan::tells(alloc, response)),
        None => expunge_from(alloc, name, &held.content, only),
    }
}

fn expunge_from(
    alloc: Global,
    name: MailName,
    content: &MailBox,
    only: &Option<Uids>,
) -> Result<OpPlan, Memory>
    ensures { IfOk result (λ plan. plan ≡ removes name content.now only.now) }
{
    let uids = expunged_uids(alloc, content, only)?;
    Ok(OpPlan {
        entries: gone(alloc, &name, uids.copy(alloc)?)?,
        telling: Telling::Look(name, Outcome::Uids(uids)),
    })
}

/// The UIDs of the messages that go, in rising order.
fn expunged_uids(alloc: Global, content: &MailBox, only: &Option<Uids>) -> Result<Uids, Memory>
    ensures { IfOk result (λ uids. uids ≡ expunged_uids content.now only.now) }
{
    match only {
        None => content.deleted(alloc),
        Some(only) => deleted_among(alloc, content, &set_of(alloc, only.as_slice())?),
    }
}

fn deleted_among(alloc: Global, content: &MailBox, named: &BTreeSet<u32>) -> Result<Uids, Memory>
    ensures { IfOk result (λ uids. uids ≡ deleted_among content.now.messages named.now.keys) }
{
    let mut uids = Uids::new(alloc);
    for uid in named.iter() {
        if let Some(message) = content.find(*uid) {
            if message.is_deleted() {
                uids.push(message.uid)?;
            }
        }
    }
    Ok(uids)
}
