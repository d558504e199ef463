// DELETE (RFC 9051, 6.3.5).
ghost use Rattle.std.specs.Prelude.{◌≡◌, IfOk};
ghost use Rattle.mur_model.specs.Delete.{delete, delete_by, delete_on};
ghost use Rattle.mur_model.specs.Left.{replied, store_after};
ghost use Rattle.mur_model.specs.Need.{begun_of};
ghost use Rattle.mur_model.specs.Needed.{Mailbox, Delete};
ghost use Rattle.mur_model.specs.Rights.{has_rights};
ghost use Rattle.mur_model.specs.Store.{box_at, without_box};

use crate::commands::create::is_inbox;
use crate::need::{Awaited, Begun};
use crate::rights::has_rights;
use crate::setting::Setting;
use crate::store::Store;
use imap_types::{NoText, Op, Reply, Verdict, completed, refused};
use mur_base::{MailName, Memory, NameFault, UserName, taken};
use std::alloc::Global;

/// What DELETE of a text needs: the mailbox, where the user has rights to it.
#[tactic(auto, unfolding(crate::specs::Delete::delete, crate::specs::Delete::delete_as))]
pub fn delete(alloc: Global, with: &Setting, user: &UserName, text: &[u8]) -> Result<Begun, Memory>
    ensures { IfOk result (λ begun. begun ≡ begun_of (delete with.now user.now text.now)) }
{
    if is_inbox(text) {
        return Ok(Begun::refused(alloc, Verdict::No(NoText::Cannot)));
    }
    match taken(alloc, user, text) {
        Ok(name) => Ok(delete_by(alloc, with, user, name)),
        Err(NameFault::Memory) => Err(Memory),
        Err(_) => Ok(Begun::refused(alloc, Verdict::No(NoText::NonExistent))),
    }
}

#[tactic(auto, unfolding(crate::specs::Delete::delete_by))]
fn delete_by(alloc: Global, with: &Setting, user: &UserName, name: MailName) -> Begun
    ensures { result ≡ begun_of (delete_by name (has_rights with.now.users user.now name)) }
{
    if has_rights(&with.users, user, &name) {
        delete_asks(name)
    } else {
        Begun::refused(alloc, Verdict::No(NoText::NoPerm))
    }
}

/// The home of the mailbox is asked to delete it.
#[tactic(auto, unfolding(crate::specs::Need::begun_of, crate::specs::Asking::asked_for))]
fn delete_asks(name: MailName) -> Begun
    ensures { result ≡ begun_of (Mailbox name Delete) }
{
    Begun::asks_any(name, Op::Delete, Awaited::Delete)
}

/// Takes a mailbox out of the store, if it is there.
#[tactic(auto, unfolding(crate::specs::Delete::delete_on, crate::specs::Left::store_after))]
pub fn delete_at(alloc: Global, store: &mut Store, name: &MailName) -> Result<Reply, Memory>
    ensures { IfOk result (λ reply. let worked = delete_on (box_at store.old name.now) in
        (store.new ≡ store_after store.old name.now worked.left) × (replied reply ≡ worked.turn)) }
{
    if !store.boxes.contains_key(name) {
        return Ok(refused(alloc, NoText::NonExistent));
    }
    take_out(store, name);
    completed(alloc, b"DELETE")
}

fn take_out(store: &mut Store, name: &MailName)
    ensures { store.new ≡ without_box store.old name.now }
{
    // The entries stand in order, so that one at most has the name.
    let _ordered = store.boxes.iter();
    store.boxes.remove(name);
}
