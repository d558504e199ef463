// Changes of a mailbox: a kind, which is one byte, and what stands behind it.
ghost use Rattle.std.specs.Prelude.{◌≡◌, ◌++◌, OnOk};
ghost use Rattle.grammar.specs.Gives.{Finds, Gives};
ghost use Rattle.node_record.specs.Messages.{change, change_fields, change_kinds, change_number, change_of, kind_of_change};

use crate::flags::{flags_of, put_flags};
use crate::message::{message_of, put_message};
use crate::number::{number_of, put_number};
use grammar::{Between, Production, ReadError, Stop, byte_in};
use mail_message::Change;
use mur_base::{Bytes, Memory};
use std::alloc::Global;

/// The kinds of changes.
#[derive(Clone, Copy, Debug, PartialEq, Eq)]
pub enum ChangeKind {
    Put,
    SetFlags,
    Gone,
    NextUid,
}

/// Reads a kind.
fn kind_of(bytes: &[u8]) -> Result<(ChangeKind, &[u8]), Stop>
    ensures { Finds (λ x. (x.0, x.1.now)) result (change_kinds.part.at bytes.now) }
{
    let (number, rest) = byte_in(&Between(1, 4), bytes)?;
    let kind = match number {
        1 => ChangeKind::Put,
        2 => ChangeKind::SetFlags,
        3 => ChangeKind::Gone,
        _ => ChangeKind::NextUid,
    };
    Ok((kind, rest))
}

/// Reads what stands behind a kind.
#[tactic(auto, unfolding(crate::specs::Messages::change_of))]
fn fields_of(alloc: Global, kind: ChangeKind, bytes: &[u8]) -> Result<(Change, &[u8]), ReadError>
    ensures { Gives (λ x. (x.0, x.1.now)) result ((change_of kind).part.at bytes.now) }
{
    match kind {
        ChangeKind::Put => {
            let (message, rest) = message_of(alloc, bytes)?;
            Ok((Change::Put(message), rest))
        }
        ChangeKind::SetFlags => {
            let (uid, rest) = number_of(bytes)?;
            let (flags, rest) = flags_of(alloc, rest)?;
            Ok((Change::SetFlags(uid, flags), rest))
        }
        ChangeKind::Gone => {
            let (uid, rest) = number_of(bytes)?;
            Ok((Change::Gone(uid), rest))
        }
        ChangeKind::NextUid => {
            let (uid, rest) = number_of(bytes)?;
            Ok((Change::NextUid(uid), rest))
        }
    }
}

/// Puts what stands behind the kind of a change at the end of bytes.
#[tactic(auto, using(std::proofs::lemmas::Grind::common_steps), unfolding(crate::specs::Messages::change_parts))]
fn put_fields(change: &Change, out: &mut Bytes) -> Result<(), Memory>
    ensures { OnOk result (out.new ≡ out.old ++ change_fields change.now) }
{
    match change {
        Change::Put(message) => put_message(message, out),
        Change::SetFlags(uid, flags) => {
            put_number(*uid, out)?;
            put_flags(flags, out)
        }
        Change::Gone(uid) | Change::NextUid(uid) => put_number(*uid, out),
    }
}

/// The number of the kind of a change.
#[tactic(auto, unfolding(crate::specs::Messages::change_parts))]
fn number_of_kind(change: &Change) -> u8
    ensures { result ≡ change_number (kind_of_change change.now) }
{
    match change {
        Change::Put(_) => 1,
        Change::SetFlags(_, _) => 2,
        Change::Gone(_) => 3,
        Change::NextUid(_) => 4,
    }
}

/// Changes, as members of a list.
#[derive(Clone, Copy)]
pub struct ChangeForm;

impl Production for ChangeForm {
    type Value = Change;

    ghost form = { λ _. change };

    fn read<'a>(&self, alloc: Global, bytes: &'a [u8]) -> Result<(Change, &'a [u8]), ReadError> {
        let (kind, rest) = kind_of(bytes)?;
        fields_of(alloc, kind, rest)
    }

    #[tactic(auto, using(std::proofs::lemmas::Grind::common_steps, crate::proofs::TextLaw::change_text))]
    fn put(&self, value: &Change, out: &mut Bytes) -> Result<(), Memory> {
        out.push(number_of_kind(value))?;
        put_fields(value, out)
    }
}
