// The lines that tell of a record (RFC 3656, 3.5 and 3.6).
ghost use Rattle.std.specs.Prelude.{◌≡◌, ◌++◌, IfOk, OnOk};
ghost use Rattle.std.specs.Option.{option_copied};
ghost use Rattle.master_core.specs.Records.{record_line, record_lines, found_line};

use crate::reply::Answers;
use mupdate_codec::MResponse;
use mur_base::{Bytes, Copied, Location, MailName, Memory};
use node_record::{Record, State, copied_place};
use std::alloc::Global;

/// MAILBOX.
pub fn mailbox_line(
    alloc: Global,
    name: &MailName,
    place: &Location,
    acl: &Bytes,
) -> Result<MResponse, Memory>
    ensures { IfOk result (λ line. line ≡ MResponse.Mailbox name.now place.now acl.now) }
{
    let place = copied_place(alloc, place)?;
    let acl = Bytes::from_slice(alloc, acl.as_slice())?;
    Ok(MResponse::Mailbox(name.copy(alloc)?, place, acl))
}

/// RESERVE.
pub fn reserve_line(alloc: Global, name: &MailName, place: &Location) -> Result<MResponse, Memory>
    ensures { IfOk result (λ line. line ≡ MResponse.Reserve name.now place.now) }
{
    let place = copied_place(alloc, place)?;
    Ok(MResponse::Reserve(name.copy(alloc)?, place))
}

/// The one line of a record: MAILBOX where the name is active, RESERVE where it is reserved.
pub fn record_line(alloc: Global, name: &MailName, it: &Record) -> Result<MResponse, Memory>
    ensures { IfOk result (λ line. line ≡ record_line name.now it.now) }
{
    match &it.state {
        State::Bare(_) | State::Kept(_) => reserve_line(alloc, name, &it.place),
        State::Active(acl) => mailbox_line(alloc, name, &it.place, acl),
    }
}

/// All lines of a record: MAILBOX where there is an access list, and then RESERVE where the name is reserved.
pub fn put_record_lines(
    alloc: Global,
    name: &MailName,
    it: &Record,
    lines: &mut Answers,
) -> Result<(), Memory>
    ensures { OnOk result (lines.new ≡ lines.old ++ record_lines (name.now, it.now)) }
{
    match &it.state {
        State::Bare(_) => lines.push(reserve_line(alloc, name, &it.place)?),
        State::Kept(acl) => {
            lines.push(mailbox_line(alloc, name, &it.place, acl)?)?;
            lines.push(reserve_line(alloc, name, &it.place)?)
        }
        State::Active(acl) => lines.push(mailbox_line(alloc, name, &it.place, acl)?),
    }
}

/// The line of a record, if there is one.
pub fn found_line(alloc: Global, name: &MailName, found: Option<&Record>) -> Result<Answers, Memory>
    ensures { IfOk result (λ lines. lines ≡ found_line name.now (option_copied found.entry)) }
{
    let mut lines = Answers::new(alloc);
    if let Some(it) = found {
        lines.push(record_line(alloc, name, it)?)?;
    }
    Ok(lines)
}
