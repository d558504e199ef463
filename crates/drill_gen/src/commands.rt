// The bytes that a drill's clients send.
ghost use Rattle.std.specs.Prelude.{◌≡◌, ◌≤◌, ◌++◌, OnOk, IfOk};
ghost use Rattle.drill_gen.specs.Commands.{letters, append_text, delete_text, command_of_kind, command_text, create_text, creates, making_text, selecting_text, moving_text};

use crate::values::{kind_of, size_of, uid_of};
use mur_base::{Bytes, Memory, put_number};
use std::alloc::Global;

/// The command of a turn.
#[tactic(auto, unfolding(crate::specs::Commands::command_text))]
pub fn command_text(alloc: Global, value: u64) -> Result<Bytes, Memory>
    ensures { IfOk result (λ text. text ≡ command_text value) }
{
    let mut out = Bytes::new(alloc);
    put_command(kind_of(value), value, &mut out)?;
    Ok(out)
}

#[tactic(auto, unfolding(crate::specs::Commands::command_of_kind))]
fn put_command(kind: u64, value: u64, out: &mut Bytes) -> Result<(), Memory>
    ensures { OnOk result (out.new ≡ out.old ++ command_of_kind kind value) }
{
    match kind {
        0..=5 => put_append(size_of(value), out),
        6..=8 => out.extend_from_slice(b"t UID FETCH 1:* (FLAGS)\r\n"),
        9..=10 => out.extend_from_slice(b"t UID STORE 1:* +FLAGS (\\Flagged)\r\n"),
        11 => put_delete(uid_of(value), out),
        12 => out.extend_from_slice(b"t EXPUNGE\r\n"),
        13 => out.extend_from_slice(b"t NOOP\r\n"),
        14 => out.extend_from_slice(b"t LIST \"\" \"*\"\r\n"),
        _ => out.extend_from_slice(b"t UID SEARCH FLAGGED\r\n"),
    }
}

#[tactic(auto, unfolding(crate::specs::Commands::append_text))]
fn put_append(size: u64, out: &mut Bytes) -> Result<(), Memory>
    ensures { OnOk result (out.new ≡ out.old ++ append_text size) }
{
    out.extend_from_slice(b"t APPEND INBOX {")?;
    put_number(size, out)?;
    out.extend_from_slice(b"+}\r\n")?;
    put_letters(size, out)?;
    out.extend_from_slice(b"\r\n")
}

#[tactic(auto, unfolding(crate::specs::Commands::letters))]
fn put_letters(size: u64, out: &mut Bytes) -> Result<(), Memory>
    ensures { OnOk result (out.new ≡ out.old ++ letters size) }
{
    for before in 0..size {
        out.push(b'x')?;
    }
    Ok(())
}

#[tactic(auto, unfolding(crate::specs::Commands::delete_text))]
fn put_delete(uid: u64, out: &mut Bytes) -> Result<(), Memory>
    ensures { OnOk result (out.new ≡ out.old ++ delete_text uid) }
{
    out.extend_from_slice(b"t UID STORE ")?;
    put_number(uid, out)?;
    out.extend_from_slice(b" +FLAGS.SILENT (\\Deleted)\r\n")?;
    Ok(())
}

/// The administrator's commands that make the users' mailboxes.
#[tactic(auto, unfolding(crate::specs::Commands::making_text))]
pub fn making_text(alloc: Global) -> Result<Bytes, Memory>
    ensures { IfOk result (λ text. text ≡ making_text) }
{
    let mut out = Bytes::new(alloc);
    out.extend_from_slice(b"a LOGIN adm x\r\n")?;
    put_creates(8, &mut out)?;
    Ok(out)
}

#[tactic(auto, unfolding(crate::specs::Commands::creates))]
fn put_creates(users: u64, out: &mut Bytes) -> Result<(), Memory>
    ensures { OnOk result (out.new ≡ out.old ++ creates users) }
{
    for before in 0..users {
        put_create(before + 1, out)?;
    }
    Ok(())
}

#[tactic(auto, unfolding(crate::specs::Commands::create_text))]
fn put_create(user: u64, out: &mut Bytes) -> Result<(), Memory>
    ensures { OnOk result (out.new ≡ out.old ++ create_text user) }
{
    out.extend_from_slice(b"a CREATE user.u")?;
    put_number(user, out)?;
    out.extend_from_slice(b"\r\n")?;
    Ok(())
}

/// What a user sends on a new connection.
#[tactic(auto, unfolding(crate::specs::Commands::selecting_text))]
pub fn selecting_text(alloc: Global, user: u64) -> Result<Bytes, Memory>
    ensures { IfOk result (λ text. text ≡ selecting_text user) }
{
    let mut out = Bytes::new(alloc);
    out.extend_from_slice(b"s LOGIN u")?;
    put_number(user, &mut out)?;
    out.extend_from_slice(b" p\r\ns SELECT INBOX\r\n")?;
    Ok(out)
}

/// The administrator's commands that move a user's mailbox to a backend.
#[tactic(auto, unfolding(crate::specs::Commands::moving_text))]
pub fn moving_text(alloc: Global, user: u64, backend: u64) -> Result<Bytes, Memory>
    ensures { IfOk result (λ text. text ≡ moving_text user backend) }
{
    let mut out = Bytes::new(alloc);
    out.extend_from_slice(b"x LOGIN adm x\r\nx XFER user.u")?;
    put_number(user, &mut out)?;
    out.extend_from_slice(b" b")?;
    put_number(backend, &mut out)?;
    out.extend_from_slice(b"\r\n")?;
    Ok(out)
}
