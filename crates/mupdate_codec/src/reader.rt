// The readers of lines.
ghost use Rattle.std.specs.Prelude.{◌≡◌, ◌≤◌, ◌⊎◌, ◌-◌, ◌++◌, ℕ, List, Ok, Err, IfOk, length, take, nat_eq, if◌then◌else◌};
ghost use Rattle.grammar.specs.Forms.{dispatch};
ghost use Rattle.grammar.specs.Part.{byte, map};
ghost use Rattle.grammar.specs.Gives.{Finds, Gives};
ghost use Rattle.mupdate_codec.specs.Answers.{IsBegun, BeginsNone};
ghost use Rattle.mupdate_codec.specs.Arguments.{ended_line};
ghost use Rattle.mupdate_codec.specs.Commands.{command_arguments, command_line, command_verb, command_verb_form, IsCommandLine};
ghost use Rattle.mupdate_codec.specs.Responses.{kind_form, response_arguments, response_kind, response_line, IsResponseLine};
ghost use Rattle.mupdate_codec.specs.Tags.{command_tag, response_tag};
ghost use Rattle.mupdate_codec.specs.Told.{told_texts, IsTold};

use crate::command::{MCommand, MResponse};
use crate::commands::{command_arguments, response_arguments};
use crate::fault::LineFault;
use crate::tag::{Tag, tag_word_of};
use crate::word::{KINDS, Kind, VERBS, Verb};
use grammar::{Only, ReadError, Stop, begins, byte_of, table_of};
use mur_base::Bytes;
use std::alloc::Global;

/// Reads the tag of a command.
fn command_tag_of(alloc: Global, bytes: &[u8]) -> Result<(Tag, &[u8]), ReadError>
    ensures { Gives (λ x. (x.0, x.1.now)) result (command_tag.part.at bytes.now) }
{
    let (text, rest) = tag_word_of(bytes)?;
    Ok((Tag::Text(Bytes::from_slice(alloc, text)?), rest))
}

/// Reads the tag of a response.
fn response_tag_of(alloc: Global, bytes: &[u8]) -> Result<(Tag, &[u8]), ReadError>
    ensures { Gives (λ x. (x.0, x.1.now)) result (response_tag.part.at bytes.now) }
{
    if begins(&Only(b'*'), bytes) {
        let rest = byte_of(b'*', bytes)?;
        Ok((Tag::Star, rest))
    } else {
        command_tag_of(alloc, bytes)
    }
}

/// A value, and the bytes behind a byte that stands behind it.
fn followed_by<T: Drop>(value: T, wanted: u8, bytes: &[u8]) -> Result<(T, &[u8]), Stop>
    ensures { Finds (λ x. (x.0, x.1.now)) result ((map (λ _. value) (byte wanted)).at bytes.now) }
{
    let rest = byte_of(wanted, bytes)?;
    Ok((value, rest))
}

/// Reads the word of a command and its arguments.
fn command_of(alloc: Global, bytes: &[u8]) -> Result<(MCommand, &[u8]), ReadError>
    ensures { Gives (λ x. (x.0, x.1.now)) result ((dispatch command_verb_form command_verb (command_arguments told_texts)).part.at bytes.now) }
{
    let (verb, rest) = table_of(Verb::Update, &VERBS, bytes)?;
    command_arguments(alloc, verb, rest)
}

/// Reads a command and the end of its line.
fn ended_command(alloc: Global, bytes: &[u8]) -> Result<(MCommand, &[u8]), ReadError>
    ensures { Gives (λ x. (x.0, x.1.now)) result ((ended_line (dispatch command_verb_form command_verb (command_arguments told_texts))).part.at bytes.now) }
{
    let (command, rest) = command_of(alloc, bytes)?;
    let (command, rest) = followed_by(command, b'\r', rest)?;
    Ok(followed_by(command, b'\n', rest)?)
}

/// Reads a command under its tag.
#[tactic(auto, unfolding(crate::specs::Commands::command_line))]
fn tagged_command(alloc: Global, bytes: &[u8]) -> Result<((Tag, MCommand), &[u8]), ReadError>
    ensures { Gives (λ x. (x.0, x.1.now)) result ((command_line told_texts).part.at bytes.now) }
{
    let (tag, rest) = command_tag_of(alloc, bytes)?;
    let rest = byte_of(b' ', rest)?;
    let (command, rest) = ended_command(alloc, rest)?;
    Ok(((tag, command), rest))
}

/// Reads the word of a response and its arguments.
fn response_of(alloc: Global, bytes: &[u8]) -> Result<(MResponse, &[u8]), ReadError>
    ensures { Gives (λ x. (x.0, x.1.now)) result ((dispatch kind_form response_kind (response_arguments told_texts)).part.at bytes.now) }
{
    let (kind, rest) = table_of(Kind::Bad, &KINDS, bytes)?;
    response_arguments(alloc, kind, rest)
}

/// Reads a response and the end of its line.
fn ended_response(alloc: Global, bytes: &[u8]) -> Result<(MResponse, &[u8]), ReadError>
    ensures { Gives (λ x. (x.0, x.1.now)) result ((ended_line (dispatch kind_form response_kind (response_arguments told_texts))).part.at bytes.now) }
{
    let (response, rest) = response_of(alloc, bytes)?;
    let (response, rest) = followed_by(response, b'\r', rest)?;
    Ok(followed_by(response, b'\n', rest)?)
}

/// Reads a response under its tag.
#[tactic(auto, unfolding(crate::specs::Responses::response_line))]
fn tagged_response(alloc: Global, bytes: &[u8]) -> Result<((Tag, MResponse), &[u8]), ReadError>
    ensures { Gives (λ x. (x.0, x.1.now)) result ((response_line told_texts).part.at bytes.now) }
{
    let (tag, rest) = response_tag_of(alloc, bytes)?;
    let rest = byte_of(b' ', rest)?;
    let (response, rest) = ended_response(alloc, rest)?;
    Ok(((tag, response), rest))
}

/// What a stop says of so many bytes.
fn fault_of(stop: Stop, length: usize) -> LineFault
    requires { stop.left ≤ length }
    ensures { result ≡ (if nat_eq stop.left 0 then LineFault.More else LineFault.Bad (length - stop.left)) }
{
    if stop.left == 0 {
        LineFault::More
    } else {
        LineFault::Bad(length - stop.left)
    }
}

/// Reads the command that the bytes begin with, and says how many bytes its line has (RFC 3656, 4).
pub fn read_command(alloc: Global, bytes: &[u8]) -> Result<(Tag, MCommand, usize), LineFault>
    ensures within { IfOk result (λ x. x.2 ≤ length bytes.now) }
    ensures line { IfOk result (λ x. IsCommandLine (take x.2 bytes.now) (x.0, x.1)) }
    // Each line is read, whatever follows.
    ensures only { (line rest : List ℕ) (it : Tag × MCommand) → bytes.now ≡ line ++ rest → IsCommandLine line it
        → (result ≡ Ok (it.0, it.1, length line)) ⊎ (result ≡ Err LineFault.Memory) }
    ensures more { result ≡ Err LineFault.More → IsBegun IsCommandLine bytes.now }
    ensures waits { IsBegun IsCommandLine bytes.now → (result ≡ Err LineFault.More) ⊎ (result ≡ Err LineFault.Memory) }
    ensures bad { (at : ℕ) → result ≡ Err (LineFault.Bad at) → BeginsNone IsCommandLine bytes.now }
    ensures place { (at : ℕ) → result ≡ Err (LineFault.Bad at) → IsTold command_line bytes.now at }
{
    match tagged_command(alloc, bytes) {
        Ok((tagged, rest)) => {
            let used = bytes.len() - rest.len();
            let (tag, command) = tagged;
            Ok((tag, command, used))
        }
        Err(ReadError::Memory) => Err(LineFault::Memory),
        Err(ReadError::Stopped(stop)) => Err(fault_of(stop, bytes.len())),
    }
}

/// Reads the response that the bytes begin with, and says how many bytes its line has (RFC 3656, 3).
pub fn read_response(alloc: Global, bytes: &[u8]) -> Result<(Tag, MResponse, usize), LineFault>
    ensures within { IfOk result (λ x. x.2 ≤ length bytes.now) }
    ensures line { IfOk result (λ x. IsResponseLine (take x.2 bytes.now) (x.0, x.1)) }
    // Each line is read, whatever follows.
    ensures only { (line rest : List ℕ) (it : Tag × MResponse) → bytes.now ≡ line ++ rest → IsResponseLine line it
        → (result ≡ Ok (it.0, it.1, length line)) ⊎ (result ≡ Err LineFault.Memory) }
    ensures more { result ≡ Err LineFault.More → IsBegun IsResponseLine bytes.now }
    ensures waits { IsBegun IsResponseLine bytes.now → (result ≡ Err LineFault.More) ⊎ (result ≡ Err LineFault.Memory) }
    ensures bad { (at : ℕ) → result ≡ Err (LineFault.Bad at) → BeginsNone IsResponseLine bytes.now }
    ensures place { (at : ℕ) → result ≡ Err (LineFault.Bad at) → IsTold response_line bytes.now at }
{
    match tagged_response(alloc, bytes) {
        Ok((tagged, rest)) => {
            let used = bytes.len() - rest.len();
            let (tag, response) = tagged;
            Ok((tag, response, used))
        }
        Err(ReadError::Memory) => Err(LineFault::Memory),
        Err(ReadError::Stopped(stop)) => Err(fault_of(stop, bytes.len())),
    }
}
