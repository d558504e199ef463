// The phase of a name at this backend.
ghost use Rattle.std.specs.Prelude.{◌≡◌};
ghost use Rattle.std.specs.Option.{option_copied};
ghost use Rattle.node_record.specs.Held.{held_at};
ghost use Rattle.name_flows.specs.Phases.{is_creating, is_open, is_closing, pointer_in};

use mur_base::{MailName, NodeName, Phase};
use node_record::HeldNames;

/// Whether the mailbox was made and isn't yet known to be active.
pub fn is_creating(held: &HeldNames, name: &MailName) -> bool
    ensures { result ≡ is_creating (held_at held.now name.now) }
{
    match held.get(name) {
        Some(it) => matches!(it.phase, Phase::Creating),
        None => false,
    }
}

/// Whether the mailbox is open.
pub fn is_open(held: &HeldNames, name: &MailName) -> bool
    ensures { result ≡ is_open (held_at held.now name.now) }
{
    match held.get(name) {
        Some(it) => matches!(it.phase, Phase::Open),
        None => false,
    }
}

/// Whether the mailbox is closed.
pub fn is_closing(held: &HeldNames, name: &MailName) -> bool
    ensures { result ≡ is_closing (held_at held.now name.now) }
{
    match held.get(name) {
        Some(it) => matches!(it.phase, Phase::Closing),
        None => false,
    }
}

/// The server that the mailbox has moved to, if it has.
pub fn pointer_at<'a>(held: &'a HeldNames, name: &MailName) -> Option<&'a NodeName>
    ensures { option_copied result ≡ pointer_in (held_at held.now name.now) }
{
    match &held.get(name)?.phase {
        Phase::Pointer(server) => Some(server),
        _ => None,
    }
}
