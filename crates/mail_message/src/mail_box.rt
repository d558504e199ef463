// A mailbox's content.
ghost use Rattle.std.specs.Prelude.{◌≡◌, ℕ, false, ◌+◌, ◌≤◌, ◌↔◌, length, map, IsTrue, IfOk, OnOk, OnErr};
ghost use Rattle.std.specs.List.{AllByRecursion, filter, fold, list_any};
ghost use Rattle.std.specs.Option.{option_copied, IfSome};
ghost use Rattle.mail_message.specs.Boxes.{empty_box, message_at, messages_after, next_after, content_after, content_after_all};
ghost use Rattle.mail_message.specs.Boxes.{messages_at, snapshot_of, summary_of, uids_of, without_uid, is_deleted, is_touched};
ghost use Rattle.mail_message.specs.Boxes.{IsRising, LeavesNext};
ghost use Rattle.mail_message.specs.RowOrder.{HasNext};
ghost use Rattle.mail_message.specs.Slots.{filled, HasPlaceFor, HasPlaces, KeepsPlaces};

use crate::change::{Change, Changes};
use crate::message::{Message, Messages, Snapshot, Summaries, Uids};
use crate::slots::{Slots, clear_all, remove_all};
use mur_base::limits::MAILBOX_MESSAGE_LIMIT;
use mur_base::{Bytes, Copied, Memory};
use std::alloc::Global;
use std::marker::Model;

/// A mailbox: its UIDVALIDITY, UIDNEXT, access list and messages (RFC 9051, 2.3). Contracts see it as that content,
/// with the messages in rising order of UID.
#[derive(Drop)]
pub struct MailBox {
    serial: u32,
    next: u32,
    acl: Bytes,
    slots: Slots,
}

impl Model for MailBox {
    ghost use Rattle.mail_message.specs.Boxes.{Content};
    ghost use Rattle.mail_message.specs.Slots.{filled};

    ghost Value = { Content };

    ghost view = { λ box. record { serial = box.serial; next = box.next; acl = box.acl; messages = filled box.slots } };
}

impl MailBox {
    /// An empty mailbox whose first message gets UID 1. It takes no memory.
    pub fn make(alloc: Global, serial: u32, acl: Bytes) -> MailBox
        ensures { result ≡ empty_box serial acl }
    {
        MailBox {
            serial,
            next: 1,
            acl,
            slots: Slots::new(alloc),
        }
    }

    /// Its UIDVALIDITY.
    pub fn serial(&self) -> u32
        ensures { result ≡ self.now.serial }
    {
        self.serial
    }

    /// Its UIDNEXT: the UID that the next message gets.
    pub fn next(&self) -> u32
        ensures { result ≡ self.now.next }
    {
        self.next
    }

    /// The access list.
    pub fn acl(&self) -> &[u8]
        ensures { result.now ≡ self.now.acl }
    {
        self.acl.as_slice()
    }

    /// Puts another access list in the place of this one.
    pub fn set_acl(&mut self, acl: Bytes)
        ensures { self.new ≡ record self.old { acl = acl } }
    {
        self.acl = acl;
    }

    /// The message with a UID, if it is there. Logarithmic in the messages.
    pub fn find(&self, uid: u32) -> Option<&Message>
        ensures message { option_copied result ≡ message_at self.now.messages uid }
        ensures next { IfSome result (λ message. HasNext message.now.uid) }
    {
        self.slots.find(uid)
    }

    /// Copies of the messages with these UIDs, in their order. UIDs that aren't there are passed over.
    pub fn read(&self, alloc: Global, uids: &[u32]) -> Result<Messages, Memory>
        ensures { IfOk result (λ messages. messages ≡ messages_at self.now.messages uids.now) }
    {
        let mut messages = Messages::new(alloc);
        for uid in uids {
            if let Some(message) = self.find(*uid) {
                messages.push(message.copy(alloc)?)?;
            }
        }
        Ok(messages)
    }

    /// The messages with these UIDs without their bodies, in their order. UIDs that aren't there are passed over.
    pub fn summaries(&self, alloc: Global, uids: &[u32]) -> Result<Summaries, Memory>
        ensures { IfOk result (λ summaries. summaries ≡ map summary_of (messages_at self.now.messages uids.now)) }
    {
        let mut summaries = Summaries::new(alloc);
        for uid in uids {
            if let Some(message) = self.find(*uid) {
                summaries.push(message.summary(alloc)?)?;
            }
        }
        Ok(summaries)
    }

    /// What the box tells of itself, in one pass over its messages.
    pub fn look(&self, alloc: Global) -> Result<Snapshot, Memory>
        ensures value { IfOk result (λ seen. seen ≡ snapshot_of self.now) }
        ensures rising { OnOk result (IsRising self.now.messages) }
    {
        let (rows, size) = self.slots.look(alloc)?;
        Ok(Snapshot {
            serial: self.serial,
            next: self.next,
            size,
            rows,
        })
    }

    /// The UIDs of the messages with `\Deleted`, in rising order, in one pass over the messages' flags.
    pub fn deleted(&self, alloc: Global) -> Result<Uids, Memory>
        ensures { IfOk result (λ uids. uids ≡ uids_of (filter is_deleted self.now.messages)) }
    {
        self.slots.deleted(alloc)
    }

    /// How many messages there are. It looks at each.
    pub fn len(&self) -> usize
        ensures { result ≡ length self.now.messages }
    {
        self.slots.len()
    }

    /// Whether the box would have at most 20,000 messages with so many more. Only a box that is nearly full is counted.
    pub fn has_room(&self, more: usize) -> bool
        ensures { IsTrue result ↔ (length self.now.messages + more ≤ MAILBOX_MESSAGE_LIMIT) }
    {
        if more > MAILBOX_MESSAGE_LIMIT {
            return false;
        }
        let room = MAILBOX_MESSAGE_LIMIT - more;
        self.slots.places() <= room || self.slots.len() <= room
    }

    /// Carries a change out; for want of memory the box stays as it was. No message that it puts may have the greatest UID of 32 bits, since a
    /// UIDNEXT has to be above (RFC 9051, 2.3.1.1). Logarithmic in the messages.
    pub fn apply(&mut self, change: Change) -> Result<(), Memory>
        requires { LeavesNext change }
        ensures ok { OnOk result (self.new ≡ content_after self.old change) }
        ensures err { OnErr result (self.new ≡ self.old) }
    {
        let gone = gone_uid(&change);
        self.slots.reserve_for(&change)?;
        carry_out(&mut self.slots, &mut self.next, change);
        if let Some(uid) = gone {
            self.slots.clear(uid);
        }
        Ok(())
    }

    /// Carries changes out in their order; for want of memory the box stays as it was. Each takes time logarithmic
    /// in the messages, and no body is copied.
    pub fn apply_all(&mut self, alloc: Global, changes: Changes) -> Result<(), Memory>
        requires { AllByRecursion LeavesNext changes }
        ensures ok { OnOk result (self.new ≡ content_after_all self.old changes) }
        ensures others { OnOk result ((uid : ℕ) → list_any (is_touched uid) changes ≡ false
            → message_at self.new.messages uid ≡ message_at self.old.messages uid) }
        ensures err { OnErr result (self.new ≡ self.old) }
    {
        let gone = gone_uids(alloc, changes.as_slice())?;
        self.slots.reserve_all(changes.as_slice())?;
        carry_out_all(&mut self.slots, &mut self.next, changes.into_vec());
        clear_all(&mut self.slots, &gone);
        Ok(())
    }

    /// Takes the messages with some UIDs away, if they are there. It wants no memory, and each takes time logarithmic in the messages.
    pub fn remove_all(&mut self, uids: &[u32])
        ensures { self.new ≡ record self.old { messages = fold without_uid self.old.messages uids.now } }
    {
        remove_all(&mut self.slots, uids);
    }
}

/// The UID whose place a change empties.
fn gone_uid(change: &Change) -> Option<u32> {
    match change {
        Change::Gone(uid) => Some(*uid),
        _ => None,
    }
}

/// The UIDs whose places changes empty.
fn gone_uids(alloc: Global, changes: &[Change]) -> Result<Vec<u32>, Memory> {
    let mut uids = Vec::new(alloc);
    for change in changes {
        if let Some(uid) = gone_uid(change) {
            uids.push(uid)?;
        }
    }
    Ok(uids)
}

fn carry_out(slots: &mut Slots, next: &mut u32, change: Change)
    requires { HasPlaceFor slots.old change }
    ensures messages { filled slots.new ≡ messages_after (filled slots.old) change }
    ensures next { next.new ≡ next_after next.old change }
    ensures kept { KeepsPlaces slots.old slots.new }
{
    match change {
        Change::Put(message) => slots.put(message),
        Change::SetFlags(uid, flags) => slots.set_flags(uid, flags),
        Change::Gone(uid) => slots.take(uid),
        Change::NextUid(later) => *next = later,
    }
}

fn carry_out_all(slots: &mut Slots, next: &mut u32, changes: Vec<Change>)
    requires { HasPlaces slots.old changes.items }
    ensures messages { filled slots.new ≡ fold messages_after (filled slots.old) changes.items }
    ensures next { next.new ≡ fold next_after next.old changes.items }
{
    for change in changes {
        carry_out(slots, next, change);
    }
}
