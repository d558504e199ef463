// Locations of so many bytes: `server!partition`.
ghost use Rattle.std.specs.Prelude.{◌≡◌, ◌≤◌, None, IfOk};
ghost use Rattle.mur_base.specs.Names.{short_name_fault, is_short_name_byte};
ghost use Rattle.grammar.specs.Part.{exactly};
ghost use Rattle.grammar.specs.Gives.{Finds, Gives};
ghost use Rattle.text_parts.specs.Locations.{run_within, located, location_of};

use grammar::{Class, Kind, ReadError, Stop, byte_of, exactly_of, word_of};
use mur_base::limits::SHORT_NAME_LIMIT;
use mur_base::{Bytes, Location, Memory, NameFault, NodeName, node_name};
use std::alloc::Global;

/// A byte of a server's or a partition's name.
#[derive(Clone, Copy)]
pub struct ShortByte;

impl Class for ShortByte {
    ghost test = { λ _. is_short_name_byte };

    #[tactic(auto, unfolding(mur_base::specs::Names::is_short_name_byte))]
    fn holds(&self, byte: u8) -> bool {
        byte.is_ascii_alphanumeric() || matches!(byte, b'-' | b'_')
    }
}

/// From `least` to `most` bytes of a server's name.
#[derive(Clone, Copy)]
struct Servers {
    least: usize,
    most: usize,
}

impl Kind for Servers {
    ghost words = { λ kind. run_within kind.least kind.most is_short_name_byte };

    fn goes_on(&self, front: &[u8], byte: u8) -> bool {
        ShortByte.holds(byte) && front.len() < self.most
    }

    fn is_whole(&self, text: &[u8]) -> bool {
        self.least <= text.len()
    }

    ghost use Rattle.std.proofs.Common.{rules};

    ghost empty_begins = { λ kind. Prim.search rules };
}

/// The texts of a location.
#[derive(Clone, Copy)]
pub struct Texts<'a> {
    pub server: &'a [u8],
    pub partition: &'a [u8],
}

/// Reads the texts of a location of so many bytes.
pub fn texts_of(size: usize, bytes: &[u8]) -> Result<(Texts<'_>, &[u8]), Stop>
    ensures reads { Finds (λ x. (located x.0.server.now x.0.partition.now, x.1.now)) result ((location_of size).at bytes.now) }
    ensures named { IfOk result (λ x. short_name_fault x.0.server.now ≡ None) }
{
    let servers = Servers {
        least: size
            .saturating_sub(1)
            .saturating_sub(SHORT_NAME_LIMIT)
            .max(1),
        most: size.saturating_sub(2).min(SHORT_NAME_LIMIT),
    };
    let (server, rest) = word_of(&servers, bytes)?;
    let rest = byte_of(b'!', rest)?;
    let left = size.saturating_sub(1).saturating_sub(server.len());
    let (partition, rest) = exactly_of(&ShortByte, left, rest)?;
    Ok((Texts { server, partition }, rest))
}

/// The name of a server that a text is.
pub fn made_server(alloc: Global, text: &[u8]) -> Result<NodeName, Memory>
    requires { short_name_fault text.now ≡ None }
    ensures { IfOk result (λ name. name ≡ text.now) }
{
    match node_name(alloc, text) {
        Ok(name) => Ok(name),
        Err(NameFault::Memory) => Err(Memory),
        Err(_) => unreachable!(),
    }
}

/// The location of these names.
pub fn made_location(alloc: Global, server: &[u8], partition: &[u8]) -> Result<Location, Memory>
    requires { short_name_fault server.now ≡ None }
    ensures { IfOk result (λ it. it ≡ located server.now partition.now) }
{
    Ok(Location {
        server: made_server(alloc, server)?,
        partition: Bytes::from_slice(alloc, partition)?,
    })
}

/// Reads the name of a server of so many bytes.
pub fn sized_server_of(
    alloc: Global,
    size: usize,
    bytes: &[u8],
) -> Result<(NodeName, &[u8]), ReadError>
    requires some { 1 ≤ size }
    requires few { size ≤ 64 }
    ensures { Gives (λ x. (x.0, x.1.now)) result ((exactly is_short_name_byte size).at bytes.now) }
{
    let (text, rest) = exactly_of(&ShortByte, size, bytes)?;
    Ok((made_server(alloc, text)?, rest))
}

/// Reads a location of so many bytes.
pub fn sized_location_of(
    alloc: Global,
    size: usize,
    bytes: &[u8],
) -> Result<(Location, &[u8]), ReadError>
    ensures { Gives (λ x. (x.0, x.1.now)) result ((location_of size).at bytes.now) }
{
    let (texts, rest) = texts_of(size, bytes)?;
    Ok((made_location(alloc, texts.server, texts.partition)?, rest))
}
