// LIST (RFC 3656, 4.6).
ghost use Rattle.std.specs.Prelude.{◌≡◌, IfOk, filter, map};
ghost use Rattle.master_core.specs.Records.{has_prefix, is_listed, listed_line};
ghost use Rattle.master_core.specs.Replies.{list_reply};
ghost use Rattle.text_parts.specs.Locations.{location_text};

use crate::records::record_line;
use crate::reply::{Answers, Reply};
use mur_base::{Bytes, Location, Memory};
use node_record::Table;
use std::alloc::Global;

/// The text of a location: its server, `!`, and its partition.
fn location_text(alloc: Global, place: &Location) -> Result<Bytes, Memory>
    ensures { IfOk result (λ text. text ≡ location_text place.now) }
{
    let mut text = Bytes::from_slice(alloc, place.server.as_bytes())?;
    text.push(b'!')?;
    text.extend_from_slice(place.partition.as_slice())?;
    Ok(text)
}

/// Whether the text of a location begins with the prefix, if one is asked for.
fn has_prefix(alloc: Global, prefix: &Option<Bytes>, place: &Location) -> Result<bool, Memory>
    ensures { IfOk result (λ has. has ≡ has_prefix prefix.now place.now) }
{
    match prefix {
        None => Ok(true),
        Some(prefix) => {
            let text = location_text(alloc, place)?;
            Ok(text.as_slice().starts_with(prefix.as_slice()))
        }
    }
}

fn listed_lines(alloc: Global, table: &Table, prefix: &Option<Bytes>) -> Result<Answers, Memory>
    ensures { IfOk result (λ lines. lines ≡ map listed_line (filter (is_listed prefix.now) table.now.records)) }
{
    let mut lines = Answers::new(alloc);
    for (name, it) in table.records().iter() {
        if has_prefix(alloc, prefix, &it.place)? {
            lines.push(record_line(alloc, name, it)?)?;
        }
    }
    Ok(lines)
}

/// Tells the records whose locations begin with the prefix.
#[tactic(auto, unfolding(crate::specs::Replies::list_reply))]
pub fn list(alloc: Global, table: &Table, prefix: &Option<Bytes>) -> Result<Reply, Memory>
    ensures { IfOk result (λ reply. reply ≡ list_reply table.now prefix.now) }
{
    Reply::told(alloc, listed_lines(alloc, table, prefix)?)
}
