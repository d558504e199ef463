// APPEND.
ghost use Rattle.std.specs.Prelude.{◌≡◌, ◌==◌, ℕ, false, ◌+◌, ◌^◌, ◌<◌, length, IfOk, OnOk, OnErr};
ghost use Rattle.std.specs.List.{list_any};
ghost use Rattle.mail_message.specs.Boxes.{message_at};
ghost use Rattle.mail_store.specs.Append.{append_fault, appended, uids_from, puts_from};
ghost use Rattle.mail_store.specs.Faults.{IsValueUnless};

use crate::fault::StoreFault;
use mail_message::{Change, Changes, MailBox, Messages, Uids};
use mur_base::Memory;
use std::alloc::Global;

/// Puts messages into a box at the UIDs from UIDNEXT on, which are given in their order, and moves UIDNEXT behind
/// them; the UIDs that they had count for nothing (RFC 9051, 6.3.12). After a refusal the box is as it was.
///
/// Each message takes time logarithmic in the box; no body is copied.
pub fn append_all(alloc: Global, to: &mut MailBox, list: Messages) -> Result<Uids, StoreFault>
    ensures answer { IsValueUnless (append_fault to.old list) (uids_from to.old.next list) result }
    ensures ok { OnOk result (to.new ≡ appended to.old list) }
    ensures others { IfOk result (λ uids. (uid : ℕ) → list_any (λ given. given == uid) uids ≡ false
        → message_at to.new.messages uid ≡ message_at to.old.messages uid) }
    ensures next { OnOk result (to.new.next ≡ to.old.next + length list) }
    ensures err { OnErr result (to.new ≡ to.old) }
{
    let count = list.len();
    if !to.has_room(count) {
        return Err(StoreFault::TooMany);
    }
    let first = to.next();
    if u64::from(first) + count as u64 > u64::from(u32::MAX) {
        return Err(StoreFault::UidsSpent);
    }
    let (uids, changes) = puts(alloc, first, list)?;
    to.apply_all(alloc, changes)?;
    Ok(uids)
}

/// The UIDs of messages from a first one on, and the changes that put them there.
fn puts(alloc: Global, first: u32, list: Messages) -> Result<(Uids, Changes), Memory>
    requires { first + length list < 2 ^ 32 }
    ensures uids { IfOk result (λ made. made.0 ≡ uids_from first list) }
    ensures changes { IfOk result (λ made. made.1 ≡ puts_from first list) }
{
    let mut uids = Uids::new(alloc);
    let mut changes = Changes::new(alloc);
    let mut uid = first;
    for message in list.into_vec() {
        let mut message = message;
        message.uid = uid;
        uids.push(uid)?;
        changes.push(Change::Put(message))?;
        uid += 1;
    }
    changes.push(Change::NextUid(uid))?;
    Ok((uids, changes))
}
