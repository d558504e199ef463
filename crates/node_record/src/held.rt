// What a backend has of its names, and the fold of its entries.
ghost use Rattle.std.specs.Prelude.{◌≡◌, OnOk, IfOk, None, Some};
ghost use Rattle.std.specs.List.{AllByRecursion, fold};
ghost use Rattle.mail_message.specs.Boxes.{LeavesNext, empty_box};
ghost use Rattle.mail_message.specs.RowOrder.{HasNext};
ghost use Rattle.node_record.specs.Held.{puts, relabels, removals, with_changes, with_phase, took_in, ready_in, has_content, is_receiving, changed, placed, forgotten, pointer, held_after, EntryLeavesNext};

use crate::backend::{BackendRecord, MailNames};
use mail_message::{Change, Changes, MailBox, Messages, Rows, Uids};
use mur_base::{Bytes, MailName, Map, Memory, NodeName, Phase};
use std::alloc::Global;

/// What a backend has of a name.
#[derive(Drop)]
pub struct Held {
    pub phase: Phase,
    /// The backend that its content came from, as long as it is Receiving or Ready.
    pub giver: Option<NodeName>,
    /// The mailbox; that of a Pointer is empty.
    pub content: MailBox,
}

/// What a backend has, by name.
pub type HeldNames = Map<MailName, Held>;

/// The changes that put messages into a mailbox. No body is copied.
fn puts(alloc: Global, messages: Messages) -> Result<Changes, Memory>
    ensures { IfOk result (λ changes. changes ≡ puts messages) }
{
    let mut changes = Changes::new(alloc);
    let mut last = None;
    for message in messages.into_vec() {
        last = Some(message.uid);
        changes.push(Change::Put(message))?;
    }
    if let Some(uid) = last {
        changes.push(Change::NextUid(uid.saturating_add(1)))?;
    }
    Ok(changes)
}

/// The changes that give messages other flags.
fn relabels(alloc: Global, rows: Rows) -> Result<Changes, Memory>
    ensures { IfOk result (λ changes. changes ≡ relabels rows) }
{
    let mut changes = Changes::new(alloc);
    for row in rows.into_vec() {
        changes.push(Change::SetFlags(row.uid, row.flags))?;
    }
    Ok(changes)
}

/// The changes that take messages away.
fn removals(alloc: Global, uids: &Uids) -> Result<Changes, Memory>
    ensures { IfOk result (λ changes. changes ≡ removals uids.now) }
{
    let mut changes = Changes::new(alloc);
    for uid in uids.as_slice() {
        changes.push(Change::Gone(*uid))?;
    }
    Ok(changes)
}

impl Held {
    /// Whether there is a content: all but a Pointer have one.
    fn has_content(&self) -> bool
        ensures { result ≡ has_content self.now.phase }
    {
        !matches!(self.phase, Phase::Pointer(_))
    }

    /// Whether its content is coming in.
    fn is_receiving(&self) -> bool
        ensures { result ≡ is_receiving self.now.phase }
    {
        matches!(self.phase, Phase::Receiving)
    }
}

/// Puts what a backend has of a name in the place of what it had.
fn place(held: &mut HeldNames, name: MailName, it: Held) -> Result<(), Memory>
    ensures { OnOk result (held.new ≡ placed held.old name it) }
{
    held.insert(name, it)?;
    Ok(())
}

/// Brings a name with content into a phase.
fn bring(held: &mut HeldNames, name: &MailName, phase: Phase)
    ensures { held.new ≡ changed held.old name.now (with_phase phase) }
{
    if let Some(it) = held.get_mut(name) {
        if it.has_content() {
            it.phase = phase;
            it.giver = None;
        }
    }
}

/// Changes the content of a name that has one.
fn change(
    alloc: Global,
    held: &mut HeldNames,
    name: &MailName,
    changes: Changes,
) -> Result<(), Memory>
    requires { AllByRecursion LeavesNext changes }
    ensures { OnOk result (held.new ≡ changed held.old name.now (with_changes changes)) }
{
    if let Some(it) = held.get_mut(name) {
        if it.has_content() {
            it.content.apply_all(alloc, changes)?;
        }
    }
    Ok(())
}

/// Changes the content of a name, where it is coming in.
fn take_in(
    alloc: Global,
    held: &mut HeldNames,
    name: &MailName,
    changes: Changes,
) -> Result<(), Memory>
    requires { AllByRecursion LeavesNext changes }
    ensures { OnOk result (held.new ≡ changed held.old name.now (took_in changes)) }
{
    if let Some(it) = held.get_mut(name) {
        if it.is_receiving() {
            it.content.apply_all(alloc, changes)?;
        }
    }
    Ok(())
}

/// Makes a name whose content was coming in Ready.
fn make_ready(held: &mut HeldNames, name: &MailName, next: u32) -> Result<(), Memory>
    ensures { OnOk result (held.new ≡ changed held.old name.now (ready_in next)) }
{
    if let Some(it) = held.get_mut(name) {
        if it.is_receiving() {
            it.content.apply(Change::NextUid(next))?;
            it.phase = Phase::Ready;
        }
    }
    Ok(())
}

/// Takes names away.
fn forget(held: &mut HeldNames, names: &MailNames)
    ensures { held.new ≡ fold forgotten held.old names.now }
{
    for name in names.as_slice() {
        let _ = held.remove(name);
    }
}

/// Puts messages into the mailbox of a name.
fn add(
    alloc: Global,
    held: &mut HeldNames,
    name: &MailName,
    messages: Messages,
) -> Result<(), Memory>
    requires { AllByRecursion (λ message. HasNext message.uid) messages }
    ensures { OnOk result (held.new ≡ changed held.old name.now (with_changes (puts messages))) }
{
    change(alloc, held, name, puts(alloc, messages)?)
}

/// Gives messages in the mailbox of a name other flags.
fn relabel(alloc: Global, held: &mut HeldNames, name: &MailName, rows: Rows) -> Result<(), Memory>
    ensures { OnOk result (held.new ≡ changed held.old name.now (with_changes (relabels rows))) }
{
    change(alloc, held, name, relabels(alloc, rows)?)
}

/// Takes messages away from the mailbox of a name.
fn take_away(
    alloc: Global,
    held: &mut HeldNames,
    name: &MailName,
    uids: &Uids,
) -> Result<(), Memory>
    ensures { OnOk result (held.new ≡ changed held.old name.now (with_changes (removals uids.now))) }
{
    change(alloc, held, name, removals(alloc, uids)?)
}

/// A mailbox that was made here and is not yet known to be active.
fn created(alloc: Global, serial: u32, acl: Bytes) -> Held
    ensures { result ≡ record { phase = Phase.Creating; giver = None; content = empty_box serial acl } }
{
    Held {
        phase: Phase::Creating,
        giver: None,
        content: MailBox::make(alloc, serial, acl),
    }
}

/// A mailbox whose content comes in from a backend.
fn receiving(alloc: Global, giver: NodeName, serial: u32, acl: Bytes) -> Held
    ensures { result ≡ record { phase = Phase.Receiving; giver = Some giver; content = empty_box serial acl } }
{
    Held {
        phase: Phase::Receiving,
        giver: Some(giver),
        content: MailBox::make(alloc, serial, acl),
    }
}

/// A pointer to a server.
fn pointer(alloc: Global, server: NodeName) -> Held
    ensures { result ≡ pointer server }
{
    Held {
        phase: Phase::Pointer(server),
        giver: None,
        content: MailBox::make(alloc, 0, Bytes::new(alloc)),
    }
}

/// Carries an entry of a backend's disk out; after want of memory nothing is said of what the backend has. No body is copied.
/// No message of the entry may have the greatest UID of 32 bits: a reader of entries tests that. A name costs time logarithmic in the names, and a
/// message time logarithmic in the messages.
pub fn apply_backend(
    alloc: Global,
    held: &mut HeldNames,
    entry: BackendRecord,
) -> Result<(), Memory>
    requires { EntryLeavesNext entry }
    ensures { OnOk result (held.new ≡ held_after held.old entry) }
{
    match entry {
        BackendRecord::Make(name, serial, acl) => place(held, name, created(alloc, serial, acl)),
        BackendRecord::Opened(name) => {
            bring(held, &name, Phase::Open);
            Ok(())
        }
        BackendRecord::Added(name, messages) => add(alloc, held, &name, messages),
        BackendRecord::Flagged(name, rows) => relabel(alloc, held, &name, rows),
        BackendRecord::Gone(name, uids) => take_away(alloc, held, &name, &uids),
        BackendRecord::Closing(name) => {
            bring(held, &name, Phase::Closing);
            Ok(())
        }
        BackendRecord::Begun(name, giver, serial, acl) => {
            place(held, name, receiving(alloc, giver, serial, acl))
        }
        BackendRecord::Took(name, changes) => take_in(alloc, held, &name, changes),
        BackendRecord::Ready(name, next) => make_ready(held, &name, next),
        BackendRecord::Pointer(name, server) => place(held, name, pointer(alloc, server)),
        BackendRecord::Forget(names) => {
            forget(held, &names);
            Ok(())
        }
    }
}
