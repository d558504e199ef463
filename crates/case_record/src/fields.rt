// The parts of entries, in words.
use case_base::put_field;
use mail_message::{Change, FlagSet, Message, Row, SystemFlag};
use mur_base::{Bytes, Location, Memory, put_number};

/// Puts a number as a field.
pub fn put_count(number: u32, out: &mut Bytes) -> Result<(), Memory> {
    put_field(b"", out)?;
    put_number(u64::from(number), out)
}

/// Puts a word and a number as a field.
pub fn put_worded(word: &[u8], number: u64, out: &mut Bytes) -> Result<(), Memory> {
    put_field(word, out)?;
    out.push(b' ')?;
    put_number(number, out)
}

/// Puts a location as a field.
pub fn put_place(place: &Location, out: &mut Bytes) -> Result<(), Memory> {
    put_field(place.server.as_bytes(), out)?;
    out.push(b'!')?;
    out.extend_from_slice(place.partition.as_slice())
}

const SYSTEM_FLAGS: [(&[u8], SystemFlag); 5] = [
    (b" answered", SystemFlag::Answered),
    (b" flagged", SystemFlag::Flagged),
    (b" deleted", SystemFlag::Deleted),
    (b" seen", SystemFlag::Seen),
    (b" draft", SystemFlag::Draft),
];

/// Puts flags as a field: `flags` and their names.
pub fn put_flags(flags: &FlagSet, out: &mut Bytes) -> Result<(), Memory> {
    put_field(b"flags", out)?;
    for (name, flag) in SYSTEM_FLAGS.iter() {
        if flags.system().has(*flag) {
            out.extend_from_slice(name)?;
        }
    }
    for keyword in flags.keywords().iter() {
        out.push(b' ')?;
        out.extend_from_slice(keyword.as_bytes())?;
    }
    Ok(())
}

/// Puts a message: its UID, its flags, its date and its body.
pub fn put_message(message: &Message, out: &mut Bytes) -> Result<(), Memory> {
    put_count(message.uid, out)?;
    put_flags(&message.flags, out)?;
    put_field(message.date.as_bytes(), out)?;
    put_field(message.body.as_slice(), out)
}

/// Puts a UID and flags.
pub fn put_row(row: &Row, out: &mut Bytes) -> Result<(), Memory> {
    put_count(row.uid, out)?;
    put_flags(&row.flags, out)
}

/// Puts a change.
pub fn put_change(change: &Change, out: &mut Bytes) -> Result<(), Memory> {
    match change {
        Change::Put(message) => {
            put_field(b"put", out)?;
            put_message(message, out)
        }
        Change::SetFlags(uid, flags) => {
            put_worded(b"set flags", u64::from(*uid), out)?;
            put_flags(flags, out)
        }
        Change::Gone(uid) => put_worded(b"gone", u64::from(*uid), out),
        Change::NextUid(uid) => put_worded(b"next", u64::from(*uid), out),
    }
}
