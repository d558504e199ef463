// The entries of a backend's disk.
ghost use Rattle.std.specs.Prelude.{◌≡◌, ◌⊎◌, ◌++◌, ℕ, OnOk, IfOk, Ok, Err};
ghost use Rattle.grammar.specs.Gives.{Finds, Gives};
ghost use Rattle.node_record.specs.BackendEntries.{backend_entry, backend_fields, backend_kinds, backend_number, backend_of, kind_of_backend, kind_of_number};
ghost use Rattle.node_record.specs.Parts.{list_text, number_text, sized_text};
ghost use Rattle.node_record.specs.Ruled.{IsBackendRecord};
ghost use Rattle.node_record.specs.Stored.{IsStored, IsFirstBad};

use crate::change::ChangeForm;
use crate::fault::RecordFault;
use crate::list::{list_of, put_list};
use crate::message::{MessageForm, RowForm};
use crate::number::{Number, number_of, put_number};
use crate::text::{Name, name_of, node_of, put_text, text_of};
use grammar::{Between, Grammar, Production, ReadError, Stop, byte_in, whole_of};
use mail_message::{Changes, Messages, Rows, Uids};
use mur_base::{Bytes, Items, MailName, Memory, NodeName};
use std::alloc::Global;

/// Names of mailboxes.
pub type MailNames = Items<MailName>;

/// What a backend writes to its disk, one entry a step.
#[derive(Drop)]
pub enum BackendRecord {
    /// The mailbox is here with this UIDVALIDITY and access list, empty and not yet known to be active.
    Make(MailName, u32, Bytes),
    /// The mailbox is open: it takes changes.
    Opened(MailName),
    /// Messages are put, and the next message gets the UID behind the last of them.
    Added(MailName, Messages),
    /// Messages have these flags.
    Flagged(MailName, Rows),
    /// Messages are taken away.
    Gone(MailName, Uids),
    /// The mailbox is closed for a transfer or a deletion.
    Closing(MailName),
    /// A transfer from a backend begins: the mailbox is empty, with this UIDVALIDITY and access list, and its content comes in.
    Begun(MailName, NodeName, u32, Bytes),
    /// Changes of a mailbox whose content comes in.
    Took(MailName, Changes),
    /// The content of the mailbox is whole, with this UIDNEXT, and not yet active here.
    Ready(MailName, u32),
    /// The mailbox has moved to this server.
    Pointer(MailName, NodeName),
    /// The names are not here.
    Forget(MailNames),
}

/// The kinds of a backend's entries.
#[derive(Clone, Copy, Debug, PartialEq, Eq)]
pub enum BackendKind {
    Make,
    Opened,
    Added,
    Flagged,
    Gone,
    Closing,
    Begun,
    Took,
    Ready,
    Pointer,
    Forget,
}

/// The kind of a number.
fn kind_named(number: u8) -> BackendKind
    ensures { result ≡ kind_of_number number }
{
    match number {
        1 => BackendKind::Make,
        2 => BackendKind::Opened,
        3 => BackendKind::Added,
        4 => BackendKind::Flagged,
        5 => BackendKind::Gone,
        6 => BackendKind::Closing,
        7 => BackendKind::Begun,
        8 => BackendKind::Took,
        9 => BackendKind::Ready,
        10 => BackendKind::Pointer,
        _ => BackendKind::Forget,
    }
}

/// Reads a kind.
fn kind_of(bytes: &[u8]) -> Result<(BackendKind, &[u8]), Stop>
    ensures { Finds (λ x. (x.0, x.1.now)) result (backend_kinds.part.at bytes.now) }
{
    let (number, rest) = byte_in(&Between(1, 11), bytes)?;
    Ok((kind_named(number), rest))
}

#[tactic(auto, unfolding(crate::specs::BackendEntries::backend_of))]
fn make_of(alloc: Global, bytes: &[u8]) -> Result<(BackendRecord, &[u8]), ReadError>
    ensures { Gives (λ x. (x.0, x.1.now)) result ((backend_of BackendKind.Make).part.at bytes.now) }
{
    let (name, rest) = name_of(alloc, bytes)?;
    let (serial, rest) = number_of(rest)?;
    let (acl, rest) = text_of(alloc, rest)?;
    Ok((BackendRecord::Make(name, serial, acl), rest))
}

#[tactic(auto, unfolding(crate::specs::BackendEntries::backend_of))]
fn opened_of(alloc: Global, bytes: &[u8]) -> Result<(BackendRecord, &[u8]), ReadError>
    ensures { Gives (λ x. (x.0, x.1.now)) result ((backend_of BackendKind.Opened).part.at bytes.now) }
{
    let (name, rest) = name_of(alloc, bytes)?;
    Ok((BackendRecord::Opened(name), rest))
}

#[tactic(auto, unfolding(crate::specs::BackendEntries::backend_of))]
fn added_of(alloc: Global, bytes: &[u8]) -> Result<(BackendRecord, &[u8]), ReadError>
    ensures { Gives (λ x. (x.0, x.1.now)) result ((backend_of BackendKind.Added).part.at bytes.now) }
{
    let (name, rest) = name_of(alloc, bytes)?;
    let (messages, rest) = list_of(alloc, &MessageForm, rest)?;
    Ok((BackendRecord::Added(name, messages), rest))
}

#[tactic(auto, unfolding(crate::specs::BackendEntries::backend_of))]
fn flagged_of(alloc: Global, bytes: &[u8]) -> Result<(BackendRecord, &[u8]), ReadError>
    ensures { Gives (λ x. (x.0, x.1.now)) result ((backend_of BackendKind.Flagged).part.at bytes.now) }
{
    let (name, rest) = name_of(alloc, bytes)?;
    let (rows, rest) = list_of(alloc, &RowForm, rest)?;
    Ok((BackendRecord::Flagged(name, rows), rest))
}

#[tactic(auto, unfolding(crate::specs::BackendEntries::backend_of))]
fn gone_of(alloc: Global, bytes: &[u8]) -> Result<(BackendRecord, &[u8]), ReadError>
    ensures { Gives (λ x. (x.0, x.1.now)) result ((backend_of BackendKind.Gone).part.at bytes.now) }
{
    let (name, rest) = name_of(alloc, bytes)?;
    let (uids, rest) = list_of(alloc, &Number, rest)?;
    Ok((BackendRecord::Gone(name, uids), rest))
}

#[tactic(auto, unfolding(crate::specs::BackendEntries::backend_of))]
fn closing_of(alloc: Global, bytes: &[u8]) -> Result<(BackendRecord, &[u8]), ReadError>
    ensures { Gives (λ x. (x.0, x.1.now)) result ((backend_of BackendKind.Closing).part.at bytes.now) }
{
    let (name, rest) = name_of(alloc, bytes)?;
    Ok((BackendRecord::Closing(name), rest))
}

#[tactic(auto, unfolding(crate::specs::BackendEntries::backend_of))]
fn begun_of(alloc: Global, bytes: &[u8]) -> Result<(BackendRecord, &[u8]), ReadError>
    ensures { Gives (λ x. (x.0, x.1.now)) result ((backend_of BackendKind.Begun).part.at bytes.now) }
{
    let (name, rest) = name_of(alloc, bytes)?;
    let (giver, rest) = node_of(alloc, rest)?;
    let (serial, rest) = number_of(rest)?;
    let (acl, rest) = text_of(alloc, rest)?;
    Ok((BackendRecord::Begun(name, giver, serial, acl), rest))
}

#[tactic(auto, unfolding(crate::specs::BackendEntries::backend_of))]
fn took_of(alloc: Global, bytes: &[u8]) -> Result<(BackendRecord, &[u8]), ReadError>
    ensures { Gives (λ x. (x.0, x.1.now)) result ((backend_of BackendKind.Took).part.at bytes.now) }
{
    let (name, rest) = name_of(alloc, bytes)?;
    let (changes, rest) = list_of(alloc, &ChangeForm, rest)?;
    Ok((BackendRecord::Took(name, changes), rest))
}

#[tactic(auto, unfolding(crate::specs::BackendEntries::backend_of))]
fn ready_of(alloc: Global, bytes: &[u8]) -> Result<(BackendRecord, &[u8]), ReadError>
    ensures { Gives (λ x. (x.0, x.1.now)) result ((backend_of BackendKind.Ready).part.at bytes.now) }
{
    let (name, rest) = name_of(alloc, bytes)?;
    let (next, rest) = number_of(rest)?;
    Ok((BackendRecord::Ready(name, next), rest))
}

#[tactic(auto, unfolding(crate::specs::BackendEntries::backend_of))]
fn pointer_of(alloc: Global, bytes: &[u8]) -> Result<(BackendRecord, &[u8]), ReadError>
    ensures { Gives (λ x. (x.0, x.1.now)) result ((backend_of BackendKind.Pointer).part.at bytes.now) }
{
    let (name, rest) = name_of(alloc, bytes)?;
    let (server, rest) = node_of(alloc, rest)?;
    Ok((BackendRecord::Pointer(name, server), rest))
}

#[tactic(auto, unfolding(crate::specs::BackendEntries::backend_of))]
fn forget_of(alloc: Global, bytes: &[u8]) -> Result<(BackendRecord, &[u8]), ReadError>
    ensures { Gives (λ x. (x.0, x.1.now)) result ((backend_of BackendKind.Forget).part.at bytes.now) }
{
    let (names, rest) = list_of(alloc, &Name, bytes)?;
    Ok((BackendRecord::Forget(names), rest))
}

/// Reads the fields behind a kind.
fn fields_of(
    alloc: Global,
    kind: BackendKind,
    bytes: &[u8],
) -> Result<(BackendRecord, &[u8]), ReadError>
    ensures { Gives (λ x. (x.0, x.1.now)) result ((backend_of kind).part.at bytes.now) }
{
    match kind {
        BackendKind::Make => make_of(alloc, bytes),
        BackendKind::Opened => opened_of(alloc, bytes),
        BackendKind::Added => added_of(alloc, bytes),
        BackendKind::Flagged => flagged_of(alloc, bytes),
        BackendKind::Gone => gone_of(alloc, bytes),
        BackendKind::Closing => closing_of(alloc, bytes),
        BackendKind::Begun => begun_of(alloc, bytes),
        BackendKind::Took => took_of(alloc, bytes),
        BackendKind::Ready => ready_of(alloc, bytes),
        BackendKind::Pointer => pointer_of(alloc, bytes),
        BackendKind::Forget => forget_of(alloc, bytes),
    }
}

/// A backend's entries.
#[derive(Clone, Copy)]
struct BackendEntries;

impl Grammar for BackendEntries {
    type Value = BackendRecord;

    ghost part = { λ _. backend_entry.part };

    fn read<'a>(
        &self,
        alloc: Global,
        bytes: &'a [u8],
    ) -> Result<(BackendRecord, &'a [u8]), ReadError> {
        let (kind, rest) = kind_of(bytes)?;
        fields_of(alloc, kind, rest)
    }
}

/// The number of the kind of an entry.
#[tactic(auto, unfolding(crate::specs::BackendEntries::backend_parts))]
fn number_of_kind(entry: &BackendRecord) -> u8
    ensures { result ≡ backend_number (kind_of_backend entry.now) }
{
    match entry {
        BackendRecord::Make(_, _, _) => 1,
        BackendRecord::Opened(_) => 2,
        BackendRecord::Added(_, _) => 3,
        BackendRecord::Flagged(_, _) => 4,
        BackendRecord::Gone(_, _) => 5,
        BackendRecord::Closing(_) => 6,
        BackendRecord::Begun(_, _, _, _) => 7,
        BackendRecord::Took(_, _) => 8,
        BackendRecord::Ready(_, _) => 9,
        BackendRecord::Pointer(_, _) => 10,
        BackendRecord::Forget(_) => 11,
    }
}

#[tactic(auto, using(std::proofs::lemmas::Grind::common_steps))]
fn put_make(name: &MailName, serial: u32, acl: &Bytes, out: &mut Bytes) -> Result<(), Memory>
    ensures { OnOk result (out.new ≡ out.old ++ (sized_text name.now ++ (number_text serial ++ sized_text acl.now))) }
{
    put_text(name.as_bytes(), out)?;
    put_number(serial, out)?;
    put_text(acl.as_slice(), out)
}

#[tactic(auto, using(std::proofs::lemmas::Grind::common_steps))]
fn put_begun(
    name: &MailName,
    giver: &NodeName,
    serial: u32,
    acl: &Bytes,
    out: &mut Bytes,
) -> Result<(), Memory>
    ensures { OnOk result (out.new ≡ out.old ++ (sized_text name.now ++ (sized_text giver.now ++ (number_text serial ++ sized_text acl.now)))) }
{
    put_text(name.as_bytes(), out)?;
    put_text(giver.as_bytes(), out)?;
    put_number(serial, out)?;
    put_text(acl.as_slice(), out)
}

#[tactic(auto, using(std::proofs::lemmas::Grind::common_steps))]
fn put_ready(name: &MailName, next: u32, out: &mut Bytes) -> Result<(), Memory>
    ensures { OnOk result (out.new ≡ out.old ++ (sized_text name.now ++ number_text next)) }
{
    put_text(name.as_bytes(), out)?;
    put_number(next, out)
}

#[tactic(auto, using(std::proofs::lemmas::Grind::common_steps))]
fn put_pointer(name: &MailName, server: &NodeName, out: &mut Bytes) -> Result<(), Memory>
    ensures { OnOk result (out.new ≡ out.old ++ (sized_text name.now ++ sized_text server.now)) }
{
    put_text(name.as_bytes(), out)?;
    put_text(server.as_bytes(), out)
}

/// Puts the name of a mailbox and a list at the end of bytes.
#[tactic(auto, using(std::proofs::lemmas::Grind::common_steps))]
fn put_named_list<P: Production>(
    name: &MailName,
    of: &P,
    members: &[P::Value],
    out: &mut Bytes,
) -> Result<(), Memory>
    ensures { OnOk result (out.new ≡ out.old ++ (sized_text name.now ++ list_text (P.form of.now).text members.now)) }
{
    put_text(name.as_bytes(), out)?;
    put_list(of, members, out)
}

/// Puts the fields of an entry at the end of bytes.
#[tactic(auto, unfolding(crate::specs::BackendEntries::backend_parts))]
fn put_fields(entry: &BackendRecord, out: &mut Bytes) -> Result<(), Memory>
    ensures { OnOk result (out.new ≡ out.old ++ backend_fields entry.now) }
{
    match entry {
        BackendRecord::Make(name, serial, acl) => put_make(name, *serial, acl, out),
        BackendRecord::Opened(name) | BackendRecord::Closing(name) => {
            put_text(name.as_bytes(), out)
        }
        BackendRecord::Added(name, messages) => {
            put_named_list(name, &MessageForm, messages.as_slice(), out)
        }
        BackendRecord::Flagged(name, rows) => put_named_list(name, &RowForm, rows.as_slice(), out),
        BackendRecord::Gone(name, uids) => put_named_list(name, &Number, uids.as_slice(), out),
        BackendRecord::Begun(name, giver, serial, acl) => {
            put_begun(name, giver, *serial, acl, out)
        }
        BackendRecord::Took(name, changes) => {
            put_named_list(name, &ChangeForm, changes.as_slice(), out)
        }
        BackendRecord::Ready(name, next) => put_ready(name, *next, out),
        BackendRecord::Pointer(name, server) => put_pointer(name, server, out),
        BackendRecord::Forget(names) => put_list(&Name, names.as_slice(), out),
    }
}

/// The bytes of an entry. [`decode_backend`] gives it back, where each of its texts and lists has a length below 4,294,967,296.
#[tactic(auto, using(std::proofs::lemmas::Grind::common_steps, crate::proofs::TextLaw::backend_text))]
pub fn encode_backend(alloc: Global, entry: &BackendRecord) -> Result<Bytes, Memory>
    ensures { IfOk result (λ bytes. bytes ≡ backend_entry.text entry.now) }
{
    let mut out = Bytes::new(alloc);
    out.push(number_of_kind(entry))?;
    put_fields(entry, &mut out)?;
    Ok(out)
}

/// The entry that bytes are: each is read of its own bytes alone. Other bytes are refused at the first place at which no entry goes on.
pub fn decode_backend(alloc: Global, bytes: &[u8]) -> Result<BackendRecord, RecordFault>
    ensures found { IfOk result (λ entry. IsStored IsBackendRecord backend_entry bytes.now entry) }
    ensures only { (entry : BackendRecord) → IsStored IsBackendRecord backend_entry bytes.now entry
        → (result ≡ Ok entry) ⊎ (result ≡ Err RecordFault.Memory) }
    ensures bad { (at : ℕ) → result ≡ Err (RecordFault.Bad at) → IsFirstBad IsBackendRecord backend_entry bytes.now at }
{
    match whole_of(alloc, &BackendEntries, bytes) {
        Ok(entry) => Ok(entry),
        Err(ReadError::Memory) => Err(RecordFault::Memory),
        Err(ReadError::Stopped(stop)) => Err(RecordFault::Bad(bytes.len() - stop.left)),
    }
}
