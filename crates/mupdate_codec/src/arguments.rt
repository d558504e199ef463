// The arguments of lines, each behind a space (RFC 3656, 3 and 4).
ghost use Rattle.std.specs.Prelude.{◌≡◌, ◌++◌, OnOk};
ghost use Rattle.grammar.specs.Forms.{◌spaced◌};
ghost use Rattle.grammar.specs.Gives.{Gives};
ghost use Rattle.mupdate_codec.specs.Arguments.{exact, a_string, maybe_string, a_name, a_place, a_mailbox};
ghost use Rattle.mupdate_codec.specs.Strings.{string_form};
ghost use Rattle.mupdate_codec.specs.Told.{told_texts};

use crate::location::{location_of, put_location};
use crate::name::name_of;
use crate::strings::{put_string, string_of};
use grammar::{Only, ReadError, begins, byte_of};
use mur_base::{Bytes, Location, MailName, Memory};
use std::alloc::Global;

/// Reads a string.
pub fn a_string_of(alloc: Global, bytes: &[u8]) -> Result<(Bytes, &[u8]), ReadError>
    ensures { Gives (λ x. (x.0, x.1.now)) result (a_string.part.at bytes.now) }
{
    let rest = byte_of(b' ', bytes)?;
    string_of(alloc, rest)
}

/// Reads a string, where one is there.
pub fn maybe_string_of(alloc: Global, bytes: &[u8]) -> Result<(Option<Bytes>, &[u8]), ReadError>
    ensures { Gives (λ x. (x.0, x.1.now)) result (maybe_string.part.at bytes.now) }
{
    if begins(&Only(b' '), bytes) {
        let (text, rest) = a_string_of(alloc, bytes)?;
        Ok((Some(text), rest))
    } else {
        Ok((None, bytes))
    }
}

/// Reads a name.
pub fn a_name_of(alloc: Global, bytes: &[u8]) -> Result<(MailName, &[u8]), ReadError>
    ensures { Gives (λ x. (x.0, x.1.now)) result ((a_name told_texts).part.at bytes.now) }
{
    let rest = byte_of(b' ', bytes)?;
    name_of(alloc, rest)
}

/// Reads a name and a location.
pub fn a_place_of(alloc: Global, bytes: &[u8]) -> Result<((MailName, Location), &[u8]), ReadError>
    ensures { Gives (λ x. (x.0, x.1.now)) result ((a_place told_texts).part.at bytes.now) }
{
    let (name, rest) = a_name_of(alloc, bytes)?;
    let rest = byte_of(b' ', rest)?;
    let (place, rest) = location_of(alloc, rest)?;
    Ok(((name, place), rest))
}

/// Reads a location and, behind a space, an access list.
fn location_with_acl_of(
    alloc: Global,
    bytes: &[u8],
) -> Result<((Location, Bytes), &[u8]), ReadError>
    ensures { Gives (λ x. (x.0, x.1.now)) result (((told_texts.locations) spaced string_form).part.at bytes.now) }
{
    let (place, rest) = location_of(alloc, bytes)?;
    let (acl, rest) = a_string_of(alloc, rest)?;
    Ok(((place, acl), rest))
}

/// Reads a name, a location and an access list.
pub fn a_mailbox_of(
    alloc: Global,
    bytes: &[u8],
) -> Result<((MailName, (Location, Bytes)), &[u8]), ReadError>
    ensures { Gives (λ x. (x.0, x.1.now)) result ((a_mailbox told_texts).part.at bytes.now) }
{
    let (name, rest) = a_name_of(alloc, bytes)?;
    let rest = byte_of(b' ', rest)?;
    let (place_with_acl, rest) = location_with_acl_of(alloc, rest)?;
    Ok(((name, place_with_acl), rest))
}

/// Prints a string.
#[tactic(auto, using(std::proofs::lemmas::Grind::common_steps))]
pub fn put_a_string(text: &Bytes, out: &mut Bytes) -> Result<(), Memory>
    ensures { OnOk result (out.new ≡ out.old ++ a_string.text text.now) }
{
    out.push(b' ')?;
    put_string(text.as_slice(), out)
}

/// Prints a string, where there is one.
pub fn put_maybe_string(text: &Option<Bytes>, out: &mut Bytes) -> Result<(), Memory>
    ensures { OnOk result (out.new ≡ out.old ++ maybe_string.text text.now) }
{
    match text {
        Some(text) => put_a_string(text, out),
        None => Ok(()),
    }
}

/// Prints a name.
#[tactic(auto, using(std::proofs::lemmas::Grind::common_steps))]
pub fn put_a_name(name: &MailName, out: &mut Bytes) -> Result<(), Memory>
    ensures { OnOk result (out.new ≡ out.old ++ (a_name exact).text name.now) }
{
    out.push(b' ')?;
    put_string(name.as_bytes(), out)
}

/// Prints a name and a location.
#[tactic(auto, using(std::proofs::lemmas::Grind::common_steps))]
pub fn put_a_place(name: &MailName, place: &Location, out: &mut Bytes) -> Result<(), Memory>
    ensures { OnOk result (out.new ≡ out.old ++ (a_place exact).text (name.now, place.now)) }
{
    out.push(b' ')?;
    put_string(name.as_bytes(), out)?;
    out.push(b' ')?;
    put_location(place, out)
}

/// Prints a name, a location and an access list.
#[tactic(auto, using(std::proofs::lemmas::Grind::common_steps))]
pub fn put_a_mailbox(
    name: &MailName,
    place: &Location,
    acl: &Bytes,
    out: &mut Bytes,
) -> Result<(), Memory>
    ensures { OnOk result (out.new ≡ out.old ++ (a_mailbox exact).text (name.now, (place.now, acl.now))) }
{
    put_a_place(name, place, out)?;
    put_a_string(acl, out)
}
