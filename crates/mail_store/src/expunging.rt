// EXPUNGE.
ghost use Rattle.std.specs.Prelude.{◌≡◌, ◌==◌, ℕ, false, IfOk, OnOk, OnErr};
ghost use Rattle.std.specs.List.{list_any};
ghost use Rattle.std.specs.Option.{option_copied};
ghost use Rattle.mail_message.specs.Boxes.{message_at};
ghost use Rattle.mail_store.specs.Expunge.{expunged, expunged_uids, deleted_among};

use crate::named::set_of;
use mail_message::{MailBox, Uids};
use mur_base::Memory;
use std::alloc::Global;
use std::collections::BTreeSet;

/// Takes the messages with `\Deleted` away, of all or of those with some UIDs, and gives their UIDs in rising order
/// (RFC 9051, 6.4.3 and 6.4.9). The UIDs are taken as a set; those that aren't there are passed over. UIDNEXT stays.
/// For want of memory the box stays as it was.
///
/// Among some UIDs each takes time logarithmic in the box; of all the flags of each message are looked at once.
pub fn expunge(alloc: Global, to: &mut MailBox, only: Option<&[u32]>) -> Result<Uids, Memory>
    ensures uids { IfOk result (λ uids. uids ≡ expunged_uids to.old (option_copied only.entry)) }
    ensures ok { OnOk result (to.new ≡ expunged to.old (option_copied only.entry)) }
    ensures others { IfOk result (λ uids. (uid : ℕ) → list_any (λ gone. gone == uid) uids ≡ false
        → message_at to.new.messages uid ≡ message_at to.old.messages uid) }
    ensures next { to.new.next ≡ to.old.next }
    ensures err { OnErr result (to.new ≡ to.old) }
{
    let uids = match only {
        None => to.deleted(alloc)?,
        Some(uids) => deleted_among(alloc, to, &set_of(alloc, uids)?)?,
    };
    to.remove_all(uids.as_slice());
    Ok(uids)
}

fn deleted_among(alloc: Global, from: &MailBox, named: &BTreeSet<u32>) -> Result<Uids, Memory>
    ensures { IfOk result (λ uids. uids ≡ deleted_among from.now.messages named.now.keys) }
{
    let mut uids = Uids::new(alloc);
    for uid in named.iter() {
        if let Some(message) = from.find(*uid) {
            if message.is_deleted() {
                uids.push(message.uid)?;
            }
        }
    }
    Ok(uids)
}
