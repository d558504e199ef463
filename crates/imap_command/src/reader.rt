// The reader of commands.
ghost use Rattle.std.specs.Prelude.{◌≡◌, ◌⊎◌, Ok, Err, IfOk, nat_le, if◌then◌else◌};
ghost use Rattle.grammar.specs.Part.{map};
ghost use Rattle.grammar.specs.Gives.{Finds, Gives};
ghost use Rattle.grammar.specs.Exact.{whole_at};
ghost use Rattle.imap_text.specs.Strings.{crlf_part};
ghost use Rattle.imap_command.specs.LeftOut.{left_out};
ghost use Rattle.imap_command.specs.Spells.{Spells, known, commands, tagged_command};
ghost use Rattle.imap_command.specs.Bad.{IsBad, IsFirstTag};

use crate::commands::arguments_of;
use crate::fault::{Bad, ReadFault};
use crate::left_out::left_out_of;
use crate::verb::{VERBS, Verb};
use grammar::{
    Class, Grammar, Only, ReadError, RunUpTo, Stop, begins, byte_of, ended, table_of, whole_of,
    word_of,
};
use imap_text::crlf_of;
use imap_types::{Command, Tag};
use mur_base::{Bytes, Memory};
use std::alloc::Global;

/// A byte of a tag.
#[derive(Clone, Copy)]
struct TagByte;

impl Class for TagByte {
    ghost use Rattle.imap_text.specs.Characters.{is_tag_byte};

    ghost test = { λ _. is_tag_byte };

    #[tactic(auto, unfolding(imap_text::specs::Characters::is_tag_byte))]
    fn holds(&self, byte: u8) -> bool {
        byte.is_ascii_graphic()
            && !matches!(byte, b'(' | b')' | b'{' | b'%' | b'*' | b'"' | b'\\' | b'+')
    }
}

/// The greatest length of a tag in bytes.
const TAG_MOST: usize = 32;

/// A value, and the bytes behind the CRLF that stands behind it.
fn before_crlf<T: Drop>(value: T, bytes: &[u8]) -> Result<(T, &[u8]), Stop>
    ensures { Finds (λ x. (x.0, x.1.now)) result ((map (λ _. value) crlf_part).at bytes.now) }
{
    let rest = crlf_of(bytes)?;
    Ok((value, rest))
}

/// Reads a known command behind its tag, to the end of its line.
fn known_of(alloc: Global, bytes: &[u8]) -> Result<(Command, &[u8]), ReadError>
    ensures { Gives (λ x. (x.0, x.1.now)) result (known.part.at bytes.now) }
{
    let (verb, rest) = table_of(Verb::Uid, &VERBS, bytes)?;
    let (command, rest) = arguments_of(alloc, verb, rest)?;
    Ok(before_crlf(command, rest)?)
}

/// Reads a known command behind its tag, to the end of the bytes.
fn only_known(alloc: Global, bytes: &[u8]) -> Result<Command, ReadError>
    ensures { Gives (λ command. command) result (whole_at known.part bytes.now) }
{
    let (command, rest) = known_of(alloc, bytes)?;
    Ok(ended(command, rest)?)
}

/// Reads a command that is left out behind its tag, to the end of the bytes.
fn only_left_out(alloc: Global, bytes: &[u8]) -> Result<Command, ReadError>
    ensures { Gives (λ command. command) result (whole_at left_out bytes.now) }
{
    let (command, rest) = left_out_of(alloc, bytes)?;
    Ok(ended(command, rest)?)
}

/// Reads a command behind its tag, to the end of the bytes; a stop is that of the reader which goes further.
fn command_of(alloc: Global, bytes: &[u8]) -> Result<(Command, &[u8]), ReadError>
    ensures { Gives (λ x. (x.0, x.1.now)) result (commands.part.at bytes.now) }
{
    let end = &bytes[bytes.len()..];
    match only_known(alloc, bytes) {
        Ok(command) => Ok((command, end)),
        Err(ReadError::Memory) => Err(ReadError::Memory),
        Err(ReadError::Stopped(one)) => match only_left_out(alloc, bytes) {
            Ok(command) => Ok((command, end)),
            Err(ReadError::Memory) => Err(ReadError::Memory),
            Err(ReadError::Stopped(other)) => Err(ReadError::Stopped(further(one, other))),
        },
    }
}

/// The stop with fewer bytes left.
fn further(one: Stop, other: Stop) -> Stop
    ensures { result.left ≡ (if nat_le one.left other.left then one.left else other.left) }
{
    if one.left <= other.left { one } else { other }
}

/// The commands under their tags.
#[derive(Clone, Copy)]
struct Commands;

impl Grammar for Commands {
    type Value = (Tag, Command);

    ghost part = { λ _. tagged_command };

    #[tactic(auto, unfolding(crate::specs::Spells::tagged_command))]
    fn read<'a>(
        &self,
        alloc: Global,
        bytes: &'a [u8],
    ) -> Result<((Tag, Command), &'a [u8]), ReadError> {
        let (tag, rest) = word_of(
            &RunUpTo {
                of: TagByte,
                most: TAG_MOST,
            },
            bytes,
        )?;
        let rest = byte_of(b' ', rest)?;
        let tag = Bytes::from_slice(alloc, tag)?;
        let (command, rest) = command_of(alloc, rest)?;
        Ok(((Tag::Text(tag), command), rest))
    }
}

/// The first word of a frame, where it is a tag with a space behind it.
pub fn first_tag(alloc: Global, frame: &[u8]) -> Result<Option<Tag>, Memory>
    ensures { IfOk result (λ tag. IsFirstTag frame.now tag) }
{
    match word_of(
        &RunUpTo {
            of: TagByte,
            most: TAG_MOST,
        },
        frame,
    ) {
        Ok((text, rest)) => {
            if begins(&Only(b' '), rest) {
                let text = Bytes::from_slice(alloc, text)?;
                Ok(Some(Tag::Text(text)))
            } else {
                Ok(None)
            }
        }
        Err(_) => Ok(None),
    }
}

/// Reads a frame: the command that it spells, under its tag, or where and under which tag it spells none (RFC 9051, 9: command).
pub fn read(alloc: Global, frame: &[u8]) -> Result<(Tag, Command), ReadFault>
    ensures found { IfOk result (λ tagged. Spells frame.now tagged) }
    ensures only { (tagged : Tag × Command) → Spells frame.now tagged → (result ≡ Ok tagged) ⊎ (result ≡ Err ReadFault.Memory) }
    ensures bad { (bad : Bad) → result ≡ Err (ReadFault.Bad bad) → IsBad frame.now bad }
{
    match whole_of(alloc, &Commands, frame) {
        Ok(tagged) => Ok(tagged),
        Err(ReadError::Memory) => Err(ReadFault::Memory),
        Err(ReadError::Stopped(stop)) => Err(ReadFault::Bad(Bad {
            tag: first_tag(alloc, frame)?,
            at: frame.len() - stop.left,
        })),
    }
}
