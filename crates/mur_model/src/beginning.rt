// What a session begins with a command (RFC 9051, 6).
ghost use Rattle.std.specs.Prelude.{◌≡◌, IfOk};
ghost use Rattle.mur_model.specs.Act.{need_off, need_in, need_begun, need_selected, need_of, need_taken, not_yet};
ghost use Rattle.mur_model.specs.Need.{begun_of};

use crate::commands::append::{append, new_message};
use crate::commands::authenticate::authenticate;
use crate::commands::capability::capability;
use crate::commands::close::close;
use crate::commands::create::create;
use crate::commands::delete::delete;
use crate::commands::enable::enable;
use crate::commands::expunge::expunge;
use crate::commands::fetch::fetch;
use crate::commands::idle::{idled_in, idled_selected};
use crate::commands::list::list;
use crate::commands::login::login;
use crate::commands::logout::logout;
use crate::commands::noop::{news_asks, nothing_new};
use crate::commands::search::search;
use crate::commands::select::select;
use crate::commands::status::status;
use crate::commands::store::store;
use crate::commands::unselect::unselect;
use crate::need::Begun;
use crate::session::Sess;
use crate::setting::Setting;
use crate::traits::traits_of;
use crate::view::View;
use crate::work::NewsFor;
use imap_types::{BadText, Command, NoText, Verdict};
use mur_base::{Memory, UserName};
use std::alloc::Global;

/// What a command of a session needs of the store: it is refused or answered whatever mailboxes there are, or there is work
/// at a mailbox (RFC 9051, 6). The message of an APPEND isn't copied.
#[tactic(auto, unfolding(crate::specs::Act::need_of))]
pub fn begin(alloc: Global, with: &Setting, sess: &Sess, command: Command) -> Result<Begun, Memory>
    ensures { IfOk result (λ begun. begun ≡ begun_of (need_of with.now sess.now command)) }
{
    if !traits_of(&command).states.include(sess) {
        return Ok(Begun::refused(alloc, Verdict::Bad(BadText::State)));
    }
    begin_taken(alloc, with, sess, command)
}

/// What a command needs that the state of its session has.
#[tactic(auto, unfolding(crate::specs::Act::need_taken))]
fn begin_taken(
    alloc: Global,
    with: &Setting,
    sess: &Sess,
    command: Command,
) -> Result<Begun, Memory>
    ensures { IfOk result (λ begun. begun ≡ begun_of (need_taken with.now sess.now command)) }
{
    match sess {
        Sess::Off => begin_off(alloc, with, command),
        Sess::In(user) => begin_in(alloc, with, user, command),
        Sess::Selected(view) => begin_selected(alloc, with, view, command),
        Sess::Ended => Ok(Begun::refused(alloc, Verdict::Bad(BadText::State))),
    }
}

#[tactic(auto, unfolding(crate::specs::Act::need_off))]
fn begin_off(alloc: Global, with: &Setting, command: Command) -> Result<Begun, Memory>
    ensures { IfOk result (λ begun. begun ≡ begun_of (need_off with.now command)) }
{
    match command {
        Command::Capability => capability(alloc),
        Command::Noop => nothing_new(alloc),
        Command::Logout => logout(alloc),
        Command::Login(name, password) => {
            login(
                alloc,
                &with.users,
                b"LOGIN",
                name.as_slice(),
                password.as_slice(),
            )
        }
        Command::Authenticate(Some(response)) => authenticate(alloc, &with.users, &response),
        _ => Ok(not_yet(alloc)),
    }
}

#[tactic(auto, unfolding(crate::specs::Act::need_in))]
fn begin_in(
    alloc: Global,
    with: &Setting,
    user: &UserName,
    command: Command,
) -> Result<Begun, Memory>
    ensures { IfOk result (λ begun. begun ≡ begun_of (need_in with.now user.now command)) }
{
    match command {
        Command::Noop => nothing_new(alloc),
        Command::Idle(Some(line)) => idled_in(alloc, &line),
        it => begin_begun(alloc, with, user, false, it),
    }
}

/// What a command needs that a session has whether a mailbox is selected or not.
#[tactic(auto, unfolding(crate::specs::Act::need_begun))]
fn begin_begun(
    alloc: Global,
    with: &Setting,
    user: &UserName,
    is_selected: bool,
    command: Command,
) -> Result<Begun, Memory>
    ensures { IfOk result (λ begun. begun ≡ begun_of (need_begun with.now user.now is_selected command)) }
{
    match command {
        Command::Capability => capability(alloc),
        Command::Logout => logout(alloc),
        Command::Enable(_) => enable(alloc),
        Command::Create(text) => create(alloc, with, user, text.as_slice()),
        Command::Append(text, flags, date, body) => {
            let message = new_message(with, flags, date, body);
            append(alloc, with, user, text.as_slice(), message)
        }
        Command::Status(text, items) => status(alloc, with, user, text.as_slice(), items),
        Command::Select(text) => select(alloc, with, user, text.as_slice(), true, is_selected),
        Command::Examine(text) => select(alloc, with, user, text.as_slice(), false, is_selected),
        Command::List(reference, mailbox) => {
            list(alloc, with, user, reference.as_slice(), mailbox.as_slice())
        }
        Command::Delete(text) => delete(alloc, with, user, text.as_slice()),
        Command::Copy(..) | Command::Xfer(..) | Command::LeftOut(_) => Ok(Begun::refused(
            alloc,
            Verdict::No(NoText::Cannot),
        )),
        _ => Ok(not_yet(alloc)),
    }
}

#[tactic(auto, unfolding(crate::specs::Act::need_selected))]
fn begin_selected(
    alloc: Global,
    with: &Setting,
    view: &View,
    command: Command,
) -> Result<Begun, Memory>
    ensures { IfOk result (λ begun. begun ≡ begun_of (need_selected with.now view.now command)) }
{
    match command {
        Command::Noop => news_asks(alloc, view, NewsFor::Noop),
        Command::Idle(Some(line)) => idled_selected(alloc, view, &line),
        Command::Close => close(alloc, view),
        Command::Unselect => unselect(alloc, view),
        Command::Expunge(only) => expunge(alloc, view, &only),
        Command::Store(by_uid, set, mode, is_silent, flags) => {
            store(alloc, view, by_uid, &set, mode, is_silent, flags)
        }
        Command::Fetch(by_uid, set, items) => fetch(alloc, view, by_uid, &set, &items),
        Command::Search(by_uid, keys) => search(alloc, view, by_uid, &keys),
        it => begin_begun(alloc, with, &view.user, true, it),
    }
}

/// The refusal of a command that is read and that no state has, that lacks the line which it waits for, or whose line is another.
fn not_yet(alloc: Global) -> Begun
    ensures { result ≡ begun_of not_yet }
{
    Begun::refused(alloc, Verdict::Bad(BadText::Syntax))
}
