// Locations as arguments: `server!partition`.
ghost use Rattle.std.specs.Prelude.{◌≡◌, ◌++◌, None, IfOk, OnOk};
ghost use Rattle.mur_base.specs.Names.{short_name_fault};
ghost use Rattle.grammar.specs.Part.{◌then◌};
ghost use Rattle.grammar.specs.Gives.{Finds, Gives};
ghost use Rattle.text_parts.specs.Locations.{located, location_of, clamped};
ghost use Rattle.mupdate_codec.specs.Strings.{quoted_location, header, location, location_form};
ghost use Rattle.mupdate_codec.specs.Told.{told_texts};

use crate::limits::{LOCATION_LEAST, LOCATION_MOST};
use crate::place::told_stop;
use crate::strings::header_of;
use grammar::{Only, ReadError, RunUpTo, Stop, begins, byte_of, word_of};
use mur_base::limits::SHORT_NAME_LIMIT;
use mur_base::{Bytes, Location, Memory};
use std::alloc::Global;
use text_parts::{ShortByte, Texts, made_location, texts_of};

/// Reads a location in quotes.
fn quoted_texts(bytes: &[u8]) -> Result<(Texts<'_>, &[u8]), Stop>
    ensures reads { Finds (λ x. (located x.0.server.now x.0.partition.now, x.1.now)) result (quoted_location.at bytes.now) }
    ensures named { IfOk result (λ x. short_name_fault x.0.server.now ≡ None) }
{
    let names = RunUpTo {
        of: ShortByte,
        most: SHORT_NAME_LIMIT,
    };
    let rest = byte_of(b'"', bytes)?;
    let (server, rest) = word_of(&names, rest)?;
    let rest = byte_of(b'!', rest)?;
    let (partition, rest) = word_of(&names, rest)?;
    let rest = byte_of(b'"', rest)?;
    Ok((Texts { server, partition }, rest))
}

/// Reads a location as a literal.
fn sized_texts(bytes: &[u8]) -> Result<(Texts<'_>, &[u8]), Stop>
    ensures reads { Finds (λ x. (located x.0.server.now x.0.partition.now, x.1.now)) result
        ((header LOCATION_LEAST LOCATION_MOST then λ n. location_of (clamped LOCATION_LEAST LOCATION_MOST n)).at bytes.now) }
    ensures named { IfOk result (λ x. short_name_fault x.0.server.now ≡ None) }
{
    let (size, rest) = header_of(LOCATION_LEAST, LOCATION_MOST, bytes)?;
    texts_of(size.min(LOCATION_MOST).max(LOCATION_LEAST), rest)
}

/// Reads the texts of a location.
#[tactic(auto, unfolding(crate::specs::Strings::location))]
pub fn location_texts(bytes: &[u8]) -> Result<(Texts<'_>, &[u8]), Stop>
    ensures reads { Finds (λ x. (located x.0.server.now x.0.partition.now, x.1.now)) result (location.at bytes.now) }
    ensures named { IfOk result (λ x. short_name_fault x.0.server.now ≡ None) }
{
    if begins(&Only(b'"'), bytes) {
        quoted_texts(bytes)
    } else {
        sized_texts(bytes)
    }
}

/// Reads a location. A stop is at its beginning, where a string of any text would go on further.
pub fn location_of(alloc: Global, bytes: &[u8]) -> Result<(Location, &[u8]), ReadError>
    ensures { Gives (λ x. (x.0, x.1.now)) result (told_texts.locations.part.at bytes.now) }
{
    match location_texts(bytes) {
        Ok((texts, rest)) => Ok((made_location(alloc, texts.server, texts.partition)?, rest)),
        Err(stop) => Err(ReadError::Stopped(told_stop(alloc, stop, bytes)?)),
    }
}

/// Prints a location, all of whose bytes stand in quotes for themselves.
#[tactic(auto, using(std::proofs::lemmas::Grind::common_steps))]
pub fn put_location(location: &Location, out: &mut Bytes) -> Result<(), Memory>
    ensures { OnOk result (out.new ≡ out.old ++ location_form.text location.now) }
{
    out.push(b'"')?;
    out.extend_from_slice(location.server.as_bytes())?;
    out.push(b'!')?;
    out.extend_from_slice(location.partition.as_slice())?;
    out.push(b'"')
}
