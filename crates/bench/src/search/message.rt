// A message that is searched.
use crate::fault::Fault;
use crate::making::{read_date, set_flag};
use mail_message::{DateText, FlagSet, Message, SystemFlag};
use mur_base::Bytes;
use std::alloc::Global;

/// A message of one of four days.
pub fn message(alloc: Global, uid: u32) -> Result<Message, Fault> {
    let date = day(uid)?;
    let body = Bytes::from_slice(alloc, b"a body")?;
    Ok(Message {
        uid,
        flags: flags(alloc, uid)?,
        date,
        body,
    })
}

/// Every second message is flagged, every third one is seen.
fn flags(alloc: Global, uid: u32) -> Result<FlagSet, Fault> {
    let mut flags = FlagSet::new(alloc);
    if uid % 2 == 0 {
        set_flag(alloc, &mut flags, SystemFlag::Flagged)?;
    }
    if uid % 3 == 0 {
        set_flag(alloc, &mut flags, SystemFlag::Seen)?;
    }
    Ok(flags)
}

/// Four days, one after the other.
pub fn day(place: u32) -> Result<DateText, Fault> {
    match place % 4 {
        0 => read_date(b"17-Jul-2026 02:44:25 -0700"),
        1 => read_date(b"18-Jul-2026 02:44:25 -0700"),
        2 => read_date(b" 1-Aug-2026 23:59:59 +0200"),
        _ => read_date(b"31-Dec-2025 00:00:00 +0000"),
    }
}
