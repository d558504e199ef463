// Replies that no command is given yet: what a client is told of access lists, listings, copies, and mailboxes that have moved.
use case_base::{Fault, bytes_of, number_of, put_field};
use imap_reply::write;
use imap_types::{Attribute, Bye, Code, NoText, Reply, ReplyLine, Tag, Verdict, refused};
use mur_base::{Bytes, Items, Memory};
use std::alloc::Global;

/// Prints the reply that tells a client of something under a tag.
pub fn put_reply(alloc: Global, tag: &str, told: &[&str], out: &mut Bytes) -> Result<(), Fault> {
    let reply = reply_of(alloc, told)?;
    put_under(alloc, tag, &reply, out)
}

fn put_under(alloc: Global, tag: &str, reply: &Reply, out: &mut Bytes) -> Result<(), Fault> {
    let tag = Tag::Text(bytes_of(alloc, tag)?);
    Ok(put_written(alloc, &tag, reply, out)?)
}

fn put_written(alloc: Global, tag: &Tag, reply: &Reply, out: &mut Bytes) -> Result<(), Memory> {
    let mut text = Bytes::new(alloc);
    write(tag, reply, &mut text)?;
    put_field(text.as_slice(), out)
}

fn reply_of(alloc: Global, told: &[&str]) -> Result<Reply, Fault> {
    match told {
        ["being moved"] => Ok(refused(alloc, NoText::BeingMoved)),
        ["not reached"] => Ok(refused(alloc, NoText::NotReached)),
        ["copied", serial, uids, copies] => {
            let code = copied(alloc, number_of(serial)?, uids, copies)?;
            Ok(copy_done(alloc, code)?)
        }
        _ => Ok(line_alone(alloc, line_of(alloc, told)?)?),
    }
}

fn copy_done(alloc: Global, code: Code) -> Result<Reply, Memory> {
    let verdict = Verdict::Ok(code, Bytes::from_slice(alloc, b"COPY")?);
    Ok(Reply {
        lines: Items::new(alloc),
        verdict,
    })
}

fn copied(alloc: Global, serial: u32, uids: &str, copies: &str) -> Result<Code, Fault> {
    let uids = numbers_of(alloc, uids)?;
    Ok(Code::CopyUid(serial, uids, numbers_of(alloc, copies)?))
}

fn numbers_of(alloc: Global, text: &str) -> Result<Items<u32>, Fault> {
    let mut numbers = Items::new(alloc);
    for number in text.split(' ') {
        numbers.push(number_of(number)?)?;
    }
    Ok(numbers)
}

fn line_alone(alloc: Global, line: ReplyLine) -> Result<Reply, Memory> {
    let mut lines = Items::new(alloc);
    lines.push(line)?;
    Ok(Reply {
        lines,
        verdict: Verdict::Nothing,
    })
}

/// The line that is told.
fn line_of(alloc: Global, told: &[&str]) -> Result<ReplyLine, Fault> {
    match told {
        ["gone"] => Ok(ReplyLine::Bye(Bye::Gone)),
        ["lost"] => Ok(ReplyLine::Bye(Bye::Lost)),
        ["list", attribute, name] => {
            let attribute = attribute_of(attribute)?;
            Ok(ReplyLine::Listed(attribute, bytes_of(alloc, name)?))
        }
        ["acl", name, list] => {
            let name = bytes_of(alloc, name)?;
            Ok(ReplyLine::Acl(name, bytes_of(alloc, list)?))
        }
        ["rights", name, rights] => {
            let name = bytes_of(alloc, name)?;
            Ok(ReplyLine::MyRights(name, bytes_of(alloc, rights)?))
        }
        _ => Err(Fault::Unreadable("nothing is told")),
    }
}

fn attribute_of(word: &str) -> Result<Attribute, Fault> {
    match word {
        "here" => Ok(Attribute::None),
        "not selectable" => Ok(Attribute::NoSelect),
        "not there" => Ok(Attribute::NonExistent),
        _ => Err(Fault::Unreadable("no attribute")),
    }
}
