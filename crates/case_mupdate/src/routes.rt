// Whom a frontend asks for a command, and its barriers.
use ask_routes::{
    AskFor, Next, Why, barrier_answered, behind_answer, behind_ok, first_step, noop_line,
};
use case_base::{Fault, Steps, bytes_of, put_steps, wide_number_of};
use feed_core::Replica;
use link_msg::{AnswerBody, Op};
use mur_base::{AskId, Bytes, Memory, NodeName, mail_name, node_name, put_number};
use schedule_text::put_text;
use std::alloc::Global;

/// A frontend's replica, and the first backend.
#[derive(Drop)]
struct Stage {
    replica: Replica,
    first: NodeName,
}

/// Takes steps of a frontend whose replica was told nothing, and prints what each gives.
pub fn put(alloc: Global, steps: &[&str], out: &mut Bytes) -> Result<(), Fault> {
    let mut stage = Stage {
        replica: Replica::new(alloc),
        first: node_name(alloc, b"b1")?,
    };
    put_steps(alloc, &mut stage, steps, out)
}

impl Steps for Stage {
    fn take_step(&mut self, alloc: Global, step: &str, out: &mut Bytes) -> Result<(), Fault> {
        let (word, rest) = step.split_once(' ').unwrap_or((step, ""));
        match word {
            "hear" => Ok(self.replica.hear(alloc, bytes_of(alloc, rest)?.as_slice())?),
            "first" => {
                let what = about(alloc, rest)?;
                let next = first_step(alloc, &self.replica, &self.first, &what)?;
                Ok(put_next(&next, out)?)
            }
            "home" => put_behind_answer(alloc, rest, out),
            "ok" => put_behind_ok(alloc, self, rest, out),
            _ => Err(Fault::Unreadable("no such step")),
        }
    }
}

/// Prints what is done behind an answer of a home.
fn put_behind_answer(alloc: Global, text: &str, out: &mut Bytes) -> Result<(), Fault> {
    match &next_behind(alloc, text)? {
        Some(next) => Ok(put_next(next, out)?),
        None => Ok(out.extend_from_slice(b"nothing")?),
    }
}

fn next_behind(alloc: Global, text: &str) -> Result<Option<Next>, Fault> {
    let body = body_of(alloc, text)?;
    Ok(behind_answer(alloc, &body)?)
}

fn body_of(alloc: Global, text: &str) -> Result<AnswerBody, Fault> {
    let Some((word, node)) = text.split_once(' ') else {
        return Ok(if text == "lost" {
            AnswerBody::Lost
        } else {
            AnswerBody::NotNow
        });
    };
    let node = node_name(alloc, node.as_bytes())?;
    match word {
        "moved" => Ok(AnswerBody::Moved(node)),
        "unreached" => Ok(AnswerBody::Unreached(node)),
        _ => Err(Fault::Unreadable("no such answer")),
    }
}

/// Prints what is done behind the OK of a barrier.
fn put_behind_ok(alloc: Global, stage: &Stage, text: &str, out: &mut Bytes) -> Result<(), Fault> {
    let (why, rest) = text.split_once(' ').unwrap_or((text, ""));
    let why = match why {
        "missing" => Why::Missing,
        "notnow" => Why::NotNow,
        _ => return Err(Fault::Unreadable("no such reason")),
    };
    let what = about(alloc, rest)?;
    let next = behind_ok(alloc, &stage.replica, &stage.first, &what, why)?;
    Ok(put_next(&next, out)?)
}

/// What a command is about.
fn about(alloc: Global, text: &str) -> Result<AskFor, Fault> {
    let Some((word, name)) = text.split_once(' ') else {
        return Err(Fault::Unreadable("no name"));
    };
    let name = mail_name(alloc, name.as_bytes())?;
    Ok(AskFor::at(name, &op_of(word)?))
}

fn op_of(word: &str) -> Result<Op, Fault> {
    match word {
        "look" => Ok(Op::Look),
        "delete" => Ok(Op::Delete),
        "create" => Ok(Op::Create),
        _ => Err(Fault::Unreadable("no such command")),
    }
}

fn put_next(next: &Next, out: &mut Bytes) -> Result<(), Memory> {
    match next {
        Next::Ask(server) => {
            out.extend_from_slice(b"ask ")?;
            out.extend_from_slice(server.as_bytes())
        }
        Next::Barrier(Why::Missing) => out.extend_from_slice(b"wait, no record"),
        Next::Barrier(Why::NotNow) => out.extend_from_slice(b"wait, not now"),
        Next::Missing => out.extend_from_slice(b"missing"),
        Next::Refused => out.extend_from_slice(b"refused"),
    }
}

/// Prints the NOOP of a command.
pub fn put_noop(alloc: Global, conn: &str, command: &str, out: &mut Bytes) -> Result<(), Fault> {
    let (conn, command) = (wide_number_of(conn)?, wide_number_of(command)?);
    let line = noop_line(alloc, &AskId { conn, command })?;
    Ok(put_text(line.as_slice(), out)?)
}

/// Prints the command whose barrier's OK the bytes are.
pub fn put_answered(alloc: Global, given: &str, out: &mut Bytes) -> Result<(), Fault> {
    let bytes = bytes_of(alloc, given)?;
    match barrier_answered(alloc, bytes.as_slice())? {
        Some(ask) => {
            put_number(ask.conn, out)?;
            out.push(b'.')?;
            Ok(put_number(ask.command, out)?)
        }
        None => Ok(out.extend_from_slice(b"none")?),
    }
}
