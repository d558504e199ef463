// What a home puts out, in words.
use link_msg::{AnswerBody, LinkMsg, Out, Outcome};
use mail_fetch::{date_part, flags_part, size_part};
use mail_message::{FlagSet, Message, Row, Snapshot, Summary};
use mur_base::{Bytes, Memory};
use std::alloc::Global;

/// Prints outputs: an answer, or when the step counts.
pub fn put_outs(alloc: Global, outs: &[Out], text: &mut Bytes) -> Result<(), Memory> {
    for out in outs {
        match out {
            Out::Link(node, LinkMsg::Answer(answer)) => {
                text.extend_from_slice(node.as_bytes())?;
                put_body(alloc, &answer.body, text)?;
            }
            Out::Mark(_, counts) => {
                text.extend_from_slice(format!(in alloc; "; {counts:?}")?.as_bytes())?;
            }
            _ => text.extend_from_slice(b"another output")?,
        }
    }
    Ok(())
}

fn put_body(alloc: Global, body: &AnswerBody, text: &mut Bytes) -> Result<(), Memory> {
    match body {
        AnswerBody::Done(outcome, seen) => {
            put_outcome(alloc, outcome, text)?;
            put_snapshot(alloc, seen, text)
        }
        AnswerBody::NotNow => text.extend_from_slice(b" not now"),
        AnswerBody::Moved(node) => {
            text.extend_from_slice(b" moved ")?;
            text.extend_from_slice(node.as_bytes())
        }
        AnswerBody::Unreached(_) | AnswerBody::Lost => text.extend_from_slice(b" another answer"),
    }
}

/// Prints what came of an operation.
fn put_outcome(alloc: Global, outcome: &Outcome, text: &mut Bytes) -> Result<(), Memory> {
    match outcome {
        Outcome::None => text.extend_from_slice(b" done"),
        Outcome::Exists => text.extend_from_slice(b" exists"),
        Outcome::Limit => text.extend_from_slice(b" limit"),
        Outcome::Gone => text.extend_from_slice(b" gone"),
        Outcome::Uids(uids) => {
            text.extend_from_slice(b" uids")?;
            put_uids(alloc, uids.as_slice(), text)
        }
        Outcome::Messages(messages) => put_messages(alloc, messages.as_slice(), text),
        Outcome::Summaries(summaries) => put_summaries(alloc, summaries.as_slice(), text),
        Outcome::Rows(rows) => {
            text.extend_from_slice(b" rows")?;
            put_rows(alloc, rows.as_slice(), text)
        }
    }
}

/// Prints UIDs.
pub fn put_uids(alloc: Global, uids: &[u32], text: &mut Bytes) -> Result<(), Memory> {
    for uid in uids {
        text.extend_from_slice(format!(in alloc; " {uid}")?.as_bytes())?;
    }
    Ok(())
}

fn put_messages(alloc: Global, messages: &[Message], text: &mut Bytes) -> Result<(), Memory> {
    text.extend_from_slice(b" messages")?;
    for message in messages {
        put_row(alloc, message.uid, &message.flags, text)?;
    }
    Ok(())
}

fn put_summaries(alloc: Global, summaries: &[Summary], text: &mut Bytes) -> Result<(), Memory> {
    text.extend_from_slice(b" summaries")?;
    for summary in summaries {
        put_row(alloc, summary.uid, &summary.flags, text)?;
        text.push(b' ')?;
        text.extend_from_slice(date_part(alloc, summary.date)?.as_slice())?;
        text.push(b' ')?;
        text.extend_from_slice(size_part(alloc, summary.size)?.as_slice())?;
    }
    Ok(())
}

/// Prints rows.
pub fn put_rows(alloc: Global, rows: &[Row], text: &mut Bytes) -> Result<(), Memory> {
    for row in rows {
        put_row(alloc, row.uid, &row.flags, text)?;
    }
    Ok(())
}

/// Prints UIDVALIDITY, UIDNEXT, the bytes of all bodies, and the rows.
fn put_snapshot(alloc: Global, seen: &Snapshot, text: &mut Bytes) -> Result<(), Memory> {
    let front = format!(in alloc; " seen {} {} {}", seen.serial, seen.next, seen.size)?;
    text.extend_from_slice(front.as_bytes())?;
    put_rows(alloc, seen.rows.as_slice(), text)
}

/// Prints a UID and its flags.
pub fn put_row(alloc: Global, uid: u32, flags: &FlagSet, text: &mut Bytes) -> Result<(), Memory> {
    text.extend_from_slice(format!(in alloc; " {uid} ")?.as_bytes())?;
    text.extend_from_slice(flags_part(alloc, flags)?.as_slice())
}
