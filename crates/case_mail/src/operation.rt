// What is asked of a mailbox.
use crate::messages::message;
use case_base::{Fault, number_of};
use link_msg::Op;
use mail_message::{FlagSet, Message, Messages, Mode, Uids, flag};
use mur_base::Bytes;
use std::alloc::Global;

/// The operation that words write: its name and what it takes.
pub fn op_of(alloc: Global, words: &[&str]) -> Result<Op, Fault> {
    match words {
        ["create"] => Ok(Op::Create),
        ["delete"] => Ok(Op::Delete),
        ["look"] => Ok(Op::Look),
        ["append", count] => Ok(Op::Append(messages_of(alloc, count)?)),
        ["read", uids] => Ok(Op::Read(uids_of(alloc, uids)?, false)),
        ["fetch", uids] => Ok(Op::Read(uids_of(alloc, uids)?, true)),
        ["summaries", uids] => Ok(Op::Summaries(uids_of(alloc, uids)?)),
        ["expunge"] => Ok(Op::Expunge(None)),
        ["flag", uids, name] => flag_op(alloc, uids, name),
        _ => Err(Fault::Unreadable("no operation")),
    }
}

fn flag_op(alloc: Global, uids: &str, name: &str) -> Result<Op, Fault> {
    let uids = uids_of(alloc, uids)?;
    Ok(Op::Flags(uids, Mode::Add, flags_of(alloc, name)?))
}

/// So many messages of two bytes without flags.
fn messages_of(alloc: Global, count: &str) -> Result<Messages, Fault> {
    let mut messages = Messages::new(alloc);
    for _ in 0..number_of(count)? {
        messages.push(hi(alloc)?)?;
    }
    Ok(messages)
}

fn hi(alloc: Global) -> Result<Message, Fault> {
    message(alloc, 0, Bytes::from_slice(alloc, b"hi")?)
}

/// The UIDs between commas.
fn uids_of(alloc: Global, field: &str) -> Result<Uids, Fault> {
    let mut uids = Uids::new(alloc);
    for word in field.split(',') {
        uids.push(number_of(word)?)?;
    }
    Ok(uids)
}

/// One flag.
fn flags_of(alloc: Global, name: &str) -> Result<FlagSet, Fault> {
    let Ok(name) = flag(name.as_bytes()) else {
        return Err(Fault::Unreadable("no flag"));
    };
    match FlagSet::new(alloc).with(alloc, &name) {
        Ok(flags) => Ok(flags),
        Err(_) => Err(Fault::Unreadable("no flags")),
    }
}
