// The entries of the master's disk.
ghost use Rattle.std.specs.Prelude.{◌≡◌, ◌⊎◌, ◌++◌, ℕ, OnOk, IfOk, Ok, Err};
ghost use Rattle.grammar.specs.Gives.{Finds, Gives};
ghost use Rattle.node_record.specs.MasterEntries.{master_entry, master_fields, master_kinds, master_number, master_of, kind_of_master};
ghost use Rattle.node_record.specs.Ruled.{IsMasterRecord};
ghost use Rattle.node_record.specs.Stored.{IsStored, IsFirstBad};

use crate::fault::RecordFault;
use crate::number::{number_of, put_number};
use crate::text::{name_of, place_of, put_place, put_text, text_of};
use grammar::{Between, Grammar, ReadError, Stop, byte_in, whole_of};
use mur_base::{Bytes, Copied, Location, MailName, Memory};
use std::alloc::Global;

/// What the master writes to its disk, one entry a change of its table.
#[derive(Drop)]
pub enum MasterRecord {
    /// The name is reserved at a location, under this serial, and has no access list.
    Reserved(MailName, Location, u32),
    /// The name is active at a location with an access list.
    Active(MailName, Location, Bytes),
    /// The name is reserved at a location, and keeps its access list.
    Inactive(MailName, Location),
    /// The name has no record any more.
    Deleted(MailName),
}

/// A copy of a location.
pub fn copied_place(alloc: Global, place: &Location) -> Result<Location, Memory>
    ensures { IfOk result (λ copy. copy ≡ place.now) }
{
    Ok(Location {
        server: place.server.copy(alloc)?,
        partition: Bytes::from_slice(alloc, place.partition.as_slice())?,
    })
}

fn copied_reserved(
    alloc: Global,
    name: &MailName,
    place: &Location,
    serial: u32,
) -> Result<MasterRecord, Memory>
    ensures { IfOk result (λ copy. copy ≡ MasterRecord.Reserved name.now place.now serial) }
{
    let place = copied_place(alloc, place)?;
    Ok(MasterRecord::Reserved(name.copy(alloc)?, place, serial))
}

fn copied_active(
    alloc: Global,
    name: &MailName,
    place: &Location,
    acl: &Bytes,
) -> Result<MasterRecord, Memory>
    ensures { IfOk result (λ copy. copy ≡ MasterRecord.Active name.now place.now acl.now) }
{
    let place = copied_place(alloc, place)?;
    let acl = Bytes::from_slice(alloc, acl.as_slice())?;
    Ok(MasterRecord::Active(name.copy(alloc)?, place, acl))
}

fn copied_inactive(alloc: Global, name: &MailName, place: &Location) -> Result<MasterRecord, Memory>
    ensures { IfOk result (λ copy. copy ≡ MasterRecord.Inactive name.now place.now) }
{
    let place = copied_place(alloc, place)?;
    Ok(MasterRecord::Inactive(name.copy(alloc)?, place))
}

impl Copied for MasterRecord {
    fn copy(&self, alloc: Global) -> Result<MasterRecord, Memory> {
        match self {
            MasterRecord::Reserved(name, place, serial) => {
                copied_reserved(alloc, name, place, *serial)
            }
            MasterRecord::Active(name, place, acl) => copied_active(alloc, name, place, acl),
            MasterRecord::Inactive(name, place) => copied_inactive(alloc, name, place),
            MasterRecord::Deleted(name) => Ok(MasterRecord::Deleted(name.copy(alloc)?)),
        }
    }
}

/// The kinds of the master's entries.
#[derive(Clone, Copy, Debug, PartialEq, Eq)]
pub enum MasterKind {
    Reserved,
    Active,
    Inactive,
    Deleted,
}

/// Reads a kind.
fn kind_of(bytes: &[u8]) -> Result<(MasterKind, &[u8]), Stop>
    ensures { Finds (λ x. (x.0, x.1.now)) result (master_kinds.part.at bytes.now) }
{
    let (number, rest) = byte_in(&Between(1, 4), bytes)?;
    let kind = match number {
        1 => MasterKind::Reserved,
        2 => MasterKind::Active,
        3 => MasterKind::Inactive,
        _ => MasterKind::Deleted,
    };
    Ok((kind, rest))
}

#[tactic(auto, unfolding(crate::specs::MasterEntries::master_of))]
fn reserved_of(alloc: Global, bytes: &[u8]) -> Result<(MasterRecord, &[u8]), ReadError>
    ensures { Gives (λ x. (x.0, x.1.now)) result ((master_of MasterKind.Reserved).part.at bytes.now) }
{
    let (name, rest) = name_of(alloc, bytes)?;
    let (place, rest) = place_of(alloc, rest)?;
    let (serial, rest) = number_of(rest)?;
    Ok((MasterRecord::Reserved(name, place, serial), rest))
}

#[tactic(auto, unfolding(crate::specs::MasterEntries::master_of))]
fn active_of(alloc: Global, bytes: &[u8]) -> Result<(MasterRecord, &[u8]), ReadError>
    ensures { Gives (λ x. (x.0, x.1.now)) result ((master_of MasterKind.Active).part.at bytes.now) }
{
    let (name, rest) = name_of(alloc, bytes)?;
    let (place, rest) = place_of(alloc, rest)?;
    let (acl, rest) = text_of(alloc, rest)?;
    Ok((MasterRecord::Active(name, place, acl), rest))
}

#[tactic(auto, unfolding(crate::specs::MasterEntries::master_of))]
fn inactive_of(alloc: Global, bytes: &[u8]) -> Result<(MasterRecord, &[u8]), ReadError>
    ensures { Gives (λ x. (x.0, x.1.now)) result ((master_of MasterKind.Inactive).part.at bytes.now) }
{
    let (name, rest) = name_of(alloc, bytes)?;
    let (place, rest) = place_of(alloc, rest)?;
    Ok((MasterRecord::Inactive(name, place), rest))
}

#[tactic(auto, unfolding(crate::specs::MasterEntries::master_of))]
fn deleted_of(alloc: Global, bytes: &[u8]) -> Result<(MasterRecord, &[u8]), ReadError>
    ensures { Gives (λ x. (x.0, x.1.now)) result ((master_of MasterKind.Deleted).part.at bytes.now) }
{
    let (name, rest) = name_of(alloc, bytes)?;
    Ok((MasterRecord::Deleted(name), rest))
}

/// Reads the fields behind a kind.
fn fields_of(
    alloc: Global,
    kind: MasterKind,
    bytes: &[u8],
) -> Result<(MasterRecord, &[u8]), ReadError>
    ensures { Gives (λ x. (x.0, x.1.now)) result ((master_of kind).part.at bytes.now) }
{
    match kind {
        MasterKind::Reserved => reserved_of(alloc, bytes),
        MasterKind::Active => active_of(alloc, bytes),
        MasterKind::Inactive => inactive_of(alloc, bytes),
        MasterKind::Deleted => deleted_of(alloc, bytes),
    }
}

/// The master's entries.
#[derive(Clone, Copy)]
struct MasterEntries;

impl Grammar for MasterEntries {
    type Value = MasterRecord;

    ghost part = { λ _. master_entry.part };

    fn read<'a>(
        &self,
        alloc: Global,
        bytes: &'a [u8],
    ) -> Result<(MasterRecord, &'a [u8]), ReadError> {
        let (kind, rest) = kind_of(bytes)?;
        fields_of(alloc, kind, rest)
    }
}

/// The number of the kind of an entry.
#[tactic(auto, unfolding(crate::specs::MasterEntries::master_parts))]
fn number_of_kind(entry: &MasterRecord) -> u8
    ensures { result ≡ master_number (kind_of_master entry.now) }
{
    match entry {
        MasterRecord::Reserved(_, _, _) => 1,
        MasterRecord::Active(_, _, _) => 2,
        MasterRecord::Inactive(_, _) => 3,
        MasterRecord::Deleted(_) => 4,
    }
}

/// Puts the fields of an entry at the end of bytes.
#[tactic(auto, using(std::proofs::lemmas::Grind::common_steps), unfolding(crate::specs::MasterEntries::master_parts))]
fn put_fields(entry: &MasterRecord, out: &mut Bytes) -> Result<(), Memory>
    ensures { OnOk result (out.new ≡ out.old ++ master_fields entry.now) }
{
    match entry {
        MasterRecord::Reserved(name, place, serial) => {
            put_text(name.as_bytes(), out)?;
            put_place(place, out)?;
            put_number(*serial, out)
        }
        MasterRecord::Active(name, place, acl) => {
            put_text(name.as_bytes(), out)?;
            put_place(place, out)?;
            put_text(acl.as_slice(), out)
        }
        MasterRecord::Inactive(name, place) => {
            put_text(name.as_bytes(), out)?;
            put_place(place, out)
        }
        MasterRecord::Deleted(name) => put_text(name.as_bytes(), out),
    }
}

/// The bytes of an entry. [`decode_master`] gives it back, where its access list has fewer than 4,294,967,296 bytes and its
/// partition is a name of 1 to 64 letters, digits, `-` and `_`.
#[tactic(auto, using(std::proofs::lemmas::Grind::common_steps, crate::proofs::TextLaw::master_text))]
pub fn encode_master(alloc: Global, entry: &MasterRecord) -> Result<Bytes, Memory>
    ensures { IfOk result (λ bytes. bytes ≡ master_entry.text entry.now) }
{
    let mut out = Bytes::new(alloc);
    out.push(number_of_kind(entry))?;
    put_fields(entry, &mut out)?;
    Ok(out)
}

/// The entry that bytes are: each is read of its own bytes alone. Other bytes are refused at the first place at which no entry goes on.
pub fn decode_master(alloc: Global, bytes: &[u8]) -> Result<MasterRecord, RecordFault>
    ensures found { IfOk result (λ entry. IsStored IsMasterRecord master_entry bytes.now entry) }
    ensures only { (entry : MasterRecord) → IsStored IsMasterRecord master_entry bytes.now entry
        → (result ≡ Ok entry) ⊎ (result ≡ Err RecordFault.Memory) }
    ensures bad { (at : ℕ) → result ≡ Err (RecordFault.Bad at) → IsFirstBad IsMasterRecord master_entry bytes.now at }
{
    match whole_of(alloc, &MasterEntries, bytes) {
        Ok(entry) => Ok(entry),
        Err(ReadError::Memory) => Err(RecordFault::Memory),
        Err(ReadError::Stopped(stop)) => Err(RecordFault::Bad(bytes.len() - stop.left)),
    }
}
