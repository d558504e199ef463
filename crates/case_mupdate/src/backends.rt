// Steps of a backend.
ghost use Rattle.std.specs.Option.{IfSome};
ghost use Rattle.node_record.specs.Held.{EntryLeavesNext};

use crate::outs::put_outs;
use back_node::{BackNode, Rest};
use case_base::{Fault, bytes_of, wide_number_of};
use link_msg::{FrontAsk, LinkMsg, Op};
use mail_message::{FlagSet, Message, Messages, date};
use mur_base::{AskId, Bytes, Items, Location, MailName, Memory, mail_name, node_name, user_name};
use node_record::BackendRecord;
use std::alloc::Global;

/// Takes steps of a backend that begins without mailboxes, and prints what each gives.
pub fn put(alloc: Global, steps: &[&str], out: &mut Bytes) -> Result<(), Fault> {
    let mut node = first(alloc)?;
    for step in steps {
        if !out.is_empty() {
            out.extend_from_slice(b" | ")?;
        }
        let before = out.len();
        put_step(alloc, &mut node, step, out)?;
        if out.len() == before {
            out.push(b'-')?;
        }
    }
    Ok(())
}

/// The backend b1 of the master m.
fn first(alloc: Global) -> Result<BackNode, Fault> {
    let server = node_name(alloc, b"b1")?;
    let partition = Bytes::from_slice(alloc, b"p")?;
    let master = node_name(alloc, b"m")?;
    Ok(BackNode::new(alloc, Location { server, partition }, master)?)
}

fn put_step(alloc: Global, node: &mut BackNode, step: &str, out: &mut Bytes) -> Result<(), Fault> {
    let (word, rest) = step.split_once(' ').unwrap_or((step, ""));
    match word {
        "up" => put_taken(alloc, node, rest, LinkMsg::Up, out),
        "end" => put_taken(alloc, node, rest, LinkMsg::End, out),
        "line" => put_line(alloc, node, rest, out),
        front => put_ask(alloc, node, front, rest, out),
    }
}

fn put_line(alloc: Global, node: &mut BackNode, rest: &str, out: &mut Bytes) -> Result<(), Fault> {
    let (from, text) = rest.split_once(' ').unwrap_or((rest, ""));
    let line = bytes_of(alloc, text)?;
    put_taken(alloc, node, from, LinkMsg::Line(line), out)
}

fn put_ask(
    alloc: Global,
    node: &mut BackNode,
    front: &str,
    rest: &str,
    out: &mut Bytes,
) -> Result<(), Fault> {
    let ask = ask_of(alloc, rest)?;
    put_taken(alloc, node, front, LinkMsg::Ask(ask), out)
}

/// Gives the backend a message, and prints the entry of the step in `[]`, if it has one, and then what goes out.
fn put_taken(
    alloc: Global,
    node: &mut BackNode,
    from: &str,
    message: LinkMsg,
    out: &mut Bytes,
) -> Result<(), Fault> {
    let from = node_name(alloc, from.as_bytes())?;
    let rest = node.plan(alloc, from, message)?;
    Ok(put_rest(alloc, node, rest, out)?)
}

fn put_rest(alloc: Global, node: &mut BackNode, rest: Rest, out: &mut Bytes) -> Result<(), Memory>
    requires { IfSome rest.entry EntryLeavesNext }
{
    let writes = rest.entry.is_some();
    if let Some(entry) = &rest.entry {
        put_entry(alloc, entry, out)?;
    }
    let outs = node.settle(alloc, rest)?;
    if writes && !outs.is_empty() {
        out.push(b' ')?;
    }
    put_outs(alloc, outs.as_slice(), out)
}

/// What bob asks: the command for which, an operation and a mailbox.
fn ask_of(alloc: Global, text: &str) -> Result<FrontAsk, Fault> {
    let (id, rest) = text.split_once(' ').unwrap_or((text, ""));
    let (op, name) = rest.split_once(' ').unwrap_or((rest, ""));
    let op = op_of(alloc, op)?;
    Ok(FrontAsk {
        id: id_of(id)?,
        user: user_name(alloc, b"bob")?,
        name: mail_name(alloc, name.as_bytes())?,
        selected: None,
        op,
    })
}

fn id_of(text: &str) -> Result<AskId, Fault> {
    let (conn, command) = text.split_once('.').unwrap_or((text, ""));
    Ok(AskId {
        conn: wide_number_of(conn)?,
        command: wide_number_of(command)?,
    })
}

fn op_of(alloc: Global, word: &str) -> Result<Op, Fault> {
    match word {
        "create" => Ok(Op::Create),
        "delete" => Ok(Op::Delete),
        "look" => Ok(Op::Look),
        "append" => Ok(Op::Append(hello(alloc)?)),
        _ => Err(Fault::Unreadable("no such operation")),
    }
}

/// One message of five bytes.
fn hello(alloc: Global) -> Result<Messages, Fault> {
    let Some(date) = date(b"17-Jul-1996 02:44:25 -0700") else {
        return Err(Fault::Unreadable("no date"));
    };
    let mut messages = Messages::new(alloc);
    messages.push(Message {
        uid: 0,
        flags: FlagSet::new(alloc),
        date,
        body: Bytes::from_slice(alloc, b"hello")?,
    })?;
    Ok(messages)
}

fn put_entry(alloc: Global, entry: &BackendRecord, out: &mut Bytes) -> Result<(), Memory> {
    out.push(b'[')?;
    match entry {
        BackendRecord::Make(name, serial, _acl) => {
            put_named("make", name, out)?;
            out.extend_from_slice(format!(in alloc; " {serial}")?.as_bytes())?;
        }
        BackendRecord::Opened(name) => put_named("opened", name, out)?,
        BackendRecord::Added(name, messages) => {
            put_named("added", name, out)?;
            put_uids(alloc, messages.as_slice(), out)?;
        }
        BackendRecord::Closing(name) => put_named("closing", name, out)?,
        BackendRecord::Pointer(name, server) => {
            put_named("pointer", name, out)?;
            out.push(b' ')?;
            out.extend_from_slice(server.as_bytes())?;
        }
        BackendRecord::Forget(names) => put_forgotten(names, out)?,
        _ => out.extend_from_slice(b"another entry")?,
    }
    out.push(b']')
}

fn put_named(word: &str, name: &MailName, out: &mut Bytes) -> Result<(), Memory> {
    out.extend_from_slice(word.as_bytes())?;
    out.push(b' ')?;
    out.extend_from_slice(name.as_bytes())
}

fn put_uids(alloc: Global, messages: &[Message], out: &mut Bytes) -> Result<(), Memory> {
    for message in messages {
        out.extend_from_slice(format!(in alloc; " {}", message.uid)?.as_bytes())?;
    }
    Ok(())
}

fn put_forgotten(names: &Items<MailName>, out: &mut Bytes) -> Result<(), Memory> {
    out.extend_from_slice(b"forget")?;
    for name in names.as_slice() {
        out.push(b' ')?;
        out.extend_from_slice(name.as_bytes())?;
    }
    Ok(())
}
