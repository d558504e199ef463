// The order of what a step asks.
ghost use Rattle.std.specs.Prelude.{◌≡◌, IfOk};
ghost use Rattle.std.specs.Option.{option_copied};
ghost use Rattle.front_core.specs.AskOrder.{ask_cmp, asked_name, in_ask_order};

use link_msg::{LinkMsg, Out, Outs};
use mur_base::{MailName, Memory};
use std::cmp::Ordering;

/// The mailbox of which an output asks, if it asks of one.
fn asked_name(out: &Out) -> Option<&MailName>
    ensures { option_copied result ≡ asked_name out.now }
{
    match out {
        Out::Link(_, LinkMsg::Ask(ask)) => Some(&ask.name),
        _ => None,
    }
}

/// How outputs go by the names of which they ask: what asks of none is first.
fn ask_cmp(one: &Out, other: &Out) -> Ordering
    ensures { result ≡ ask_cmp one.now other.now }
{
    asked_name(one).cmp(&asked_name(other))
}

/// The outputs of a step, its asks behind all else and by the names of their mailboxes. Behind a refusal for want of memory the step is spent.
pub(crate) fn in_ask_order(outs: Outs) -> Result<Outs, Memory>
    ensures { IfOk result (λ all. all ≡ in_ask_order outs) }
{
    let mut all = outs.into_vec();
    all.sort_by(|one, other| ask_cmp(one, other))?;
    Ok(Outs::from_vec(all))
}
