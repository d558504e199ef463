// CREATE (RFC 9051, 6.3.4).
ghost use Rattle.std.specs.Prelude.{◌≡◌, ◌++◌, ◌∷◌, [], IfOk, OnOk};
ghost use Rattle.mail_message.specs.FirstAcl.{first_acl};
ghost use Rattle.mail_message.specs.Boxes.{empty_box};
ghost use Rattle.mur_model.specs.Create.{without_separator, is_inbox, create, create_meant, create_by, create_on};
ghost use Rattle.mur_model.specs.Left.{replied, store_after};
ghost use Rattle.mur_model.specs.Rights.{may_create};
ghost use Rattle.mur_model.specs.Store.{box_at, is_full, with_new_box};
ghost use Rattle.mur_model.specs.Need.{begun_of};
ghost use Rattle.mur_model.specs.Needed.{Mailbox, Make};

use crate::need::{Awaited, Begun};
use crate::rights::may_create;
use crate::setting::Setting;
use crate::store::{Pair, Store};
use imap_types::{NoText, Op, Reply, Verdict, completed, refused};
use mail_message::{MailBox, first_acl};
use mur_base::limits::MAILBOX_LIMIT;
use mur_base::{Copied, MailName, Memory, NameFault, UserName, taken};
use std::alloc::Global;

/// What CREATE of a text needs: a mailbox that is made, where the user may make it.
#[tactic(auto, unfolding(crate::specs::Create::create))]
pub fn create(alloc: Global, with: &Setting, user: &UserName, text: &[u8]) -> Result<Begun, Memory>
    ensures { IfOk result (λ begun. begun ≡ begun_of (create with.now user.now text.now)) }
{
    create_meant(alloc, with, user, without_separator(text))
}

/// A text without the separator that may stand behind it.
#[tactic(auto, unfolding(crate::specs::Create::without_separator))]
fn without_separator(text: &[u8]) -> &[u8]
    ensures { result.now ≡ without_separator text.now }
{
    if text.ends_with(b".") {
        &text[..text.len().saturating_sub(1)]
    } else {
        text
    }
}

#[tactic(auto, unfolding(crate::specs::Create::create_meant, crate::specs::Create::create_as))]
fn create_meant(
    alloc: Global,
    with: &Setting,
    user: &UserName,
    text: &[u8],
) -> Result<Begun, Memory>
    ensures { IfOk result (λ begun. begun ≡ begun_of (create_meant with.now user.now text.now)) }
{
    if is_inbox(text) {
        return Ok(Begun::refused(alloc, Verdict::No(NoText::Cannot)));
    }
    match taken(alloc, user, text) {
        Ok(name) => Ok(create_by(alloc, with, user, name)),
        Err(NameFault::Memory) => Err(Memory),
        Err(_) => Ok(Begun::refused(alloc, Verdict::No(NoText::NonExistent))),
    }
}

#[tactic(auto, unfolding(crate::specs::Create::is_inbox))]
pub fn is_inbox(text: &[u8]) -> bool
    ensures { result ≡ is_inbox text.now }
{
    text.eq_ignore_ascii_case(b"inbox")
}

#[tactic(auto, unfolding(crate::specs::Create::create_by))]
fn create_by(alloc: Global, with: &Setting, user: &UserName, name: MailName) -> Begun
    ensures { result ≡ begun_of (create_by name (may_create with.now.users user.now name)) }
{
    if may_create(&with.users, user, &name) {
        create_asks(name)
    } else {
        Begun::refused(alloc, Verdict::No(NoText::NoPerm))
    }
}

/// Makes a mailbox, unless it is there or there are as many mailboxes as there may be.
#[tactic(auto, unfolding(crate::specs::Create::create_on, crate::specs::Create::make, crate::specs::Left::store_after))]
pub fn make(alloc: Global, store: &mut Store, name: &MailName, serial: u32) -> Result<Reply, Memory>
    ensures { IfOk result (λ reply. let worked = create_on name.now serial (is_full store.old) (box_at store.old name.now) in
        (store.new ≡ store_after store.old name.now worked.left) × (replied reply ≡ worked.turn)) }
{
    if store.boxes.contains_key(name) {
        return Ok(refused(alloc, NoText::AlreadyExists));
    }
    if is_full(store) {
        return Ok(refused(alloc, NoText::Limit));
    }
    put_new(alloc, store, name.copy(alloc)?, serial)?;
    completed(alloc, b"CREATE")
}

/// Puts an empty mailbox into the store.
fn put_new(alloc: Global, store: &mut Store, name: MailName, serial: u32) -> Result<(), Memory>
    ensures { OnOk result (store.new ≡ with_new_box store.old name (empty_box serial (first_acl name))) }
{
    note_given(alloc, store, &name, serial)?;
    let new = MailBox::make(alloc, serial, first_acl(alloc, &name)?);
    store.boxes.insert(name, new)?;
    Ok(())
}

/// Notes that a mailbox of this name was given a UIDVALIDITY.
fn note_given(alloc: Global, store: &mut Store, name: &MailName, serial: u32) -> Result<(), Memory>
    ensures { OnOk result (store.new ≡ record store.old { given = store.old.given ++ record { name = name.now; serial = serial } ∷ [] }) }
{
    let name = name.copy(alloc)?;
    store.given.push(Pair { name, serial })
}

/// The home of the mailbox is asked to make it.
#[tactic(auto, unfolding(crate::specs::Need::begun_of, crate::specs::Asking::asked_for))]
fn create_asks(name: MailName) -> Begun
    ensures { result ≡ begun_of (Mailbox name Make) }
{
    Begun::asks_any(name, Op::Create, Awaited::Create)
}

#[tactic(auto, unfolding(crate::specs::Store::is_full))]
fn is_full(store: &Store) -> bool
    ensures { result ≡ is_full store.now }
{
    store.boxes.len() >= MAILBOX_LIMIT
}
