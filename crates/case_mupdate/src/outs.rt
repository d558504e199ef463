// What goes out, in words.
use link_msg::{AnswerBody, BackAnswer, FrontAsk, How, LinkMsg, Out, Outcome};
use mail_message::Snapshot;
use mur_base::{Bytes, Memory, NodeName};
use schedule_text::put_text;
use std::alloc::Global;

/// Prints outputs, with `; ` between two of them.
pub fn put_outs(alloc: Global, outs: &[Out], text: &mut Bytes) -> Result<(), Memory> {
    for (at, out) in outs.iter().enumerate() {
        if at > 0 {
            text.extend_from_slice(b"; ")?;
        }
        put_out(alloc, out, text)?;
    }
    Ok(())
}

fn put_out(alloc: Global, out: &Out, text: &mut Bytes) -> Result<(), Memory> {
    match out {
        Out::Client(conn, bytes) => {
            text.extend_from_slice(format!(in alloc; "{conn}: ")?.as_bytes())?;
            put_text(bytes.as_slice(), text)
        }
        Out::Close(conn) => {
            text.extend_from_slice(format!(in alloc; "close {conn}")?.as_bytes())
        }
        Out::Link(node, LinkMsg::Line(line)) => {
            put_node(node, text)?;
            put_text(line.as_slice(), text)
        }
        Out::Link(node, LinkMsg::Answer(answer)) => {
            put_node(node, text)?;
            put_answer(alloc, answer, text)
        }
        Out::Mark(ask, counts) => {
            let mark = format!(in alloc; "{}.{} {counts:?}", ask.conn, ask.command)?;
            text.extend_from_slice(mark.as_bytes())
        }
        Out::Link(node, LinkMsg::Ask(ask)) => {
            put_node(node, text)?;
            put_ask(alloc, ask, text)
        }
        Out::Link(_, _) => text.extend_from_slice(b"another message"),
        Out::Told(ask, how) => {
            let told = format!(in alloc; "{}.{} ", ask.conn, ask.command)?;
            text.extend_from_slice(told.as_bytes())?;
            put_how(how, text)
        }
    }
}

/// Prints how a client is told of its command.
fn put_how(how: &How, text: &mut Bytes) -> Result<(), Memory> {
    match how {
        How::Here => text.extend_from_slice(b"told here"),
        How::Behind => text.extend_from_slice(b"told behind"),
        How::Reserved => text.extend_from_slice(b"refused reserved"),
        How::Unreached(node) => put_at("refused unreached ", node, text),
    }
}

/// Prints the command for which a frontend asks, and the mailbox.
fn put_ask(alloc: Global, ask: &FrontAsk, text: &mut Bytes) -> Result<(), Memory> {
    let id = format!(in alloc; "{}.{} asks ", ask.id.conn, ask.id.command)?;
    text.extend_from_slice(id.as_bytes())?;
    text.extend_from_slice(ask.name.as_bytes())
}

fn put_node(node: &NodeName, text: &mut Bytes) -> Result<(), Memory> {
    text.extend_from_slice(node.as_bytes())?;
    text.extend_from_slice(b": ")
}

fn put_answer(alloc: Global, answer: &BackAnswer, text: &mut Bytes) -> Result<(), Memory> {
    let id = format!(in alloc; "{}.{} ", answer.id.conn, answer.id.command)?;
    text.extend_from_slice(id.as_bytes())?;
    match &answer.body {
        AnswerBody::Done(outcome, seen) => {
            put_outcome(alloc, outcome, text)?;
            put_seen(alloc, seen, text)
        }
        AnswerBody::NotNow => text.extend_from_slice(b"not now"),
        AnswerBody::Moved(server) => put_at("moved ", server, text),
        AnswerBody::Unreached(node) => put_at("unreached ", node, text),
        AnswerBody::Lost => text.extend_from_slice(b"lost"),
    }
}

fn put_at(word: &str, node: &NodeName, text: &mut Bytes) -> Result<(), Memory> {
    text.extend_from_slice(word.as_bytes())?;
    text.extend_from_slice(node.as_bytes())
}

fn put_outcome(alloc: Global, outcome: &Outcome, text: &mut Bytes) -> Result<(), Memory> {
    match outcome {
        Outcome::None => text.extend_from_slice(b"done"),
        Outcome::Exists => text.extend_from_slice(b"exists"),
        Outcome::Limit => text.extend_from_slice(b"limit"),
        Outcome::Gone => text.extend_from_slice(b"gone"),
        Outcome::Uids(uids) => {
            let uids = format!(in alloc; "uids {:?}", uids.as_slice())?;
            text.extend_from_slice(uids.as_bytes())
        }
        _ => text.extend_from_slice(b"another outcome"),
    }
}

/// Prints the UIDVALIDITY and the UIDNEXT of the mailbox, if the answer tells them.
fn put_seen(alloc: Global, seen: &Snapshot, text: &mut Bytes) -> Result<(), Memory> {
    if seen.serial == 0 {
        return Ok(());
    }
    let seen = format!(in alloc; " {} {}", seen.serial, seen.next)?;
    text.extend_from_slice(seen.as_bytes())
}
