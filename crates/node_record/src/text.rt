// Texts, names, locations and dates, each behind its number of bytes.
ghost use Rattle.std.specs.Prelude.{◌≡◌, ◌++◌, true, OnOk, IfOk};
ghost use Rattle.mail_message.specs.Date.{is_date};
ghost use Rattle.grammar.specs.Gives.{Finds, Gives};
ghost use Rattle.node_record.specs.Parts.{text, sized_text, name, node, place, place_text, date};

use crate::number::{number_of, put_length, put_number, small_of};
use grammar::{Between, Only, Production, ReadError, Stop, exactly_of, word_of};
use mur_base::{Bytes, Location, MailName, Memory, NodeName};
use std::alloc::Global;
use text_parts::{Any, Dates, sized_location_of, sized_name_of, sized_server_of};

/// Reads a text of any bytes, which isn't copied.
fn octets_of(bytes: &[u8]) -> Result<(&[u8], &[u8]), Stop>
    ensures { Finds (λ x. (x.0.now, x.1.now)) result (text.part.at bytes.now) }
{
    let (size, rest) = number_of(bytes)?;
    exactly_of(&Any, size as usize, rest)
}

/// Reads a text of any bytes.
pub fn text_of(alloc: Global, bytes: &[u8]) -> Result<(Bytes, &[u8]), ReadError>
    ensures { Gives (λ x. (x.0, x.1.now)) result (text.part.at bytes.now) }
{
    let (octets, rest) = octets_of(bytes)?;
    Ok((Bytes::from_slice(alloc, octets)?, rest))
}

/// Reads the name of a mailbox.
pub fn name_of(alloc: Global, bytes: &[u8]) -> Result<(MailName, &[u8]), ReadError>
    ensures { Gives (λ x. (x.0, x.1.now)) result (name.part.at bytes.now) }
{
    let (size, rest) = small_of(&Between(1, 255), bytes)?;
    sized_name_of(alloc, usize::from(size), rest)
}

/// Reads the name of a node.
pub fn node_of(alloc: Global, bytes: &[u8]) -> Result<(NodeName, &[u8]), ReadError>
    ensures { Gives (λ x. (x.0, x.1.now)) result (node.part.at bytes.now) }
{
    let (size, rest) = small_of(&Between(1, 64), bytes)?;
    sized_server_of(alloc, usize::from(size), rest)
}

/// Reads a location.
pub fn place_of(alloc: Global, bytes: &[u8]) -> Result<(Location, &[u8]), ReadError>
    ensures { Gives (λ x. (x.0, x.1.now)) result (place.part.at bytes.now) }
{
    let (size, rest) = small_of(&Between(3, 129), bytes)?;
    sized_location_of(alloc, usize::from(size).min(129).max(3), rest)
}

/// Reads the text of a date.
pub fn date_text_of(bytes: &[u8]) -> Result<(&[u8], &[u8]), Stop>
    ensures reads { Finds (λ x. (x.0.now, x.1.now)) result (date.part.at bytes.now) }
    ensures dated { IfOk result (λ x. is_date x.0.now ≡ true) }
{
    let (_, rest) = small_of(&Only(26), bytes)?;
    word_of(&Dates, rest)
}

/// Puts a text at the end of bytes.
#[tactic(auto, using(std::proofs::lemmas::Grind::common_steps), unfolding(crate::specs::Parts::sized_text))]
pub fn put_text(text: &[u8], out: &mut Bytes) -> Result<(), Memory>
    ensures { OnOk result (out.new ≡ out.old ++ sized_text text.now) }
{
    put_length(text.len(), out)?;
    out.extend_from_slice(text)
}

/// Puts a location at the end of bytes.
#[tactic(auto, using(std::proofs::lemmas::Grind::common_steps, crate::proofs::NumberSteps::number_rest, crate::proofs::NumberSteps::place_length), unfolding(crate::specs::Parts::sized_text))]
pub fn put_place(place: &Location, out: &mut Bytes) -> Result<(), Memory>
    ensures { OnOk result (out.new ≡ out.old ++ place_text place.now) }
{
    let server = place.server.as_bytes();
    let partition = place.partition.as_slice();
    let len = server.len() as u128 + partition.len() as u128 + 1;
    put_number((len % 4_294_967_296) as u32, out)?;
    out.extend_from_slice(server)?;
    out.push(b'!')?;
    out.extend_from_slice(partition)
}

/// Names of mailboxes, as members of a list.
#[derive(Clone, Copy)]
pub struct Name;

impl Production for Name {
    type Value = MailName;

    ghost form = { λ _. name };

    fn read<'a>(&self, alloc: Global, bytes: &'a [u8]) -> Result<(MailName, &'a [u8]), ReadError> {
        name_of(alloc, bytes)
    }

    fn put(&self, value: &MailName, out: &mut Bytes) -> Result<(), Memory> {
        put_text(value.as_bytes(), out)
    }
}
