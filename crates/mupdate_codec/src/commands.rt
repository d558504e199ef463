// The readers of what stands behind the words of commands and responses, and the printers (RFC 3656, 3 and 4).
ghost use Rattle.std.specs.Prelude.{◌≡◌, ◌++◌, OnOk};
ghost use Rattle.grammar.specs.Gives.{Gives};
ghost use Rattle.mupdate_codec.specs.Commands.{command_arguments, command_arguments_text as command_text};
ghost use Rattle.mupdate_codec.specs.Responses.{response_arguments, response_arguments_text as response_text};
ghost use Rattle.mupdate_codec.specs.Told.{told_texts};

use crate::arguments::{
    a_mailbox_of, a_name_of, a_place_of, a_string_of, maybe_string_of, put_a_mailbox, put_a_name,
    put_a_place, put_a_string, put_maybe_string,
};
use crate::command::{MCommand, MResponse};
use crate::word::{Kind, Verb};
use grammar::ReadError;
use mur_base::{Bytes, Memory};
use std::alloc::Global;

#[tactic(auto, unfolding(crate::specs::Commands::command_arguments))]
fn reserve_command(alloc: Global, bytes: &[u8]) -> Result<(MCommand, &[u8]), ReadError>
    ensures { Gives (λ x. (x.0, x.1.now)) result ((command_arguments told_texts Verb.Reserve).part.at bytes.now) }
{
    let ((name, place), rest) = a_place_of(alloc, bytes)?;
    Ok((MCommand::Reserve(name, place), rest))
}

#[tactic(auto, unfolding(crate::specs::Commands::command_arguments))]
fn activate_command(alloc: Global, bytes: &[u8]) -> Result<(MCommand, &[u8]), ReadError>
    ensures { Gives (λ x. (x.0, x.1.now)) result ((command_arguments told_texts Verb.Activate).part.at bytes.now) }
{
    let ((name, (place, acl)), rest) = a_mailbox_of(alloc, bytes)?;
    Ok((MCommand::Activate(name, place, acl), rest))
}

#[tactic(auto, unfolding(crate::specs::Commands::command_arguments))]
fn deactivate_command(alloc: Global, bytes: &[u8]) -> Result<(MCommand, &[u8]), ReadError>
    ensures { Gives (λ x. (x.0, x.1.now)) result ((command_arguments told_texts Verb.Deactivate).part.at bytes.now) }
{
    let ((name, place), rest) = a_place_of(alloc, bytes)?;
    Ok((MCommand::Deactivate(name, place), rest))
}

#[tactic(auto, unfolding(crate::specs::Commands::command_arguments))]
fn delete_command(alloc: Global, bytes: &[u8]) -> Result<(MCommand, &[u8]), ReadError>
    ensures { Gives (λ x. (x.0, x.1.now)) result ((command_arguments told_texts Verb.Delete).part.at bytes.now) }
{
    let (name, rest) = a_name_of(alloc, bytes)?;
    Ok((MCommand::Delete(name), rest))
}

#[tactic(auto, unfolding(crate::specs::Commands::command_arguments))]
fn find_command(alloc: Global, bytes: &[u8]) -> Result<(MCommand, &[u8]), ReadError>
    ensures { Gives (λ x. (x.0, x.1.now)) result ((command_arguments told_texts Verb.Find).part.at bytes.now) }
{
    let (name, rest) = a_name_of(alloc, bytes)?;
    Ok((MCommand::Find(name), rest))
}

#[tactic(auto, unfolding(crate::specs::Commands::command_arguments))]
fn list_command(alloc: Global, bytes: &[u8]) -> Result<(MCommand, &[u8]), ReadError>
    ensures { Gives (λ x. (x.0, x.1.now)) result ((command_arguments told_texts Verb.List).part.at bytes.now) }
{
    let (prefix, rest) = maybe_string_of(alloc, bytes)?;
    Ok((MCommand::List(prefix), rest))
}

/// Reads what stands behind the word of a command.
#[tactic(auto, unfolding(crate::specs::Commands::command_arguments))]
pub fn command_arguments(
    alloc: Global,
    verb: Verb,
    bytes: &[u8],
) -> Result<(MCommand, &[u8]), ReadError>
    ensures { Gives (λ x. (x.0, x.1.now)) result ((command_arguments told_texts verb).part.at bytes.now) }
{
    match verb {
        Verb::Activate => activate_command(alloc, bytes),
        Verb::Deactivate => deactivate_command(alloc, bytes),
        Verb::Delete => delete_command(alloc, bytes),
        Verb::Find => find_command(alloc, bytes),
        Verb::List => list_command(alloc, bytes),
        Verb::Logout => Ok((MCommand::Logout, bytes)),
        Verb::Noop => Ok((MCommand::Noop, bytes)),
        Verb::Reserve => reserve_command(alloc, bytes),
        Verb::Update => Ok((MCommand::Update, bytes)),
    }
}

#[tactic(auto, unfolding(crate::specs::Responses::response_arguments))]
fn mailbox_response(alloc: Global, bytes: &[u8]) -> Result<(MResponse, &[u8]), ReadError>
    ensures { Gives (λ x. (x.0, x.1.now)) result ((response_arguments told_texts Kind.Mailbox).part.at bytes.now) }
{
    let ((name, (place, acl)), rest) = a_mailbox_of(alloc, bytes)?;
    Ok((MResponse::Mailbox(name, place, acl), rest))
}

#[tactic(auto, unfolding(crate::specs::Responses::response_arguments))]
fn reserve_response(alloc: Global, bytes: &[u8]) -> Result<(MResponse, &[u8]), ReadError>
    ensures { Gives (λ x. (x.0, x.1.now)) result ((response_arguments told_texts Kind.Reserve).part.at bytes.now) }
{
    let ((name, place), rest) = a_place_of(alloc, bytes)?;
    Ok((MResponse::Reserve(name, place), rest))
}

#[tactic(auto, unfolding(crate::specs::Responses::response_arguments))]
fn delete_response(alloc: Global, bytes: &[u8]) -> Result<(MResponse, &[u8]), ReadError>
    ensures { Gives (λ x. (x.0, x.1.now)) result ((response_arguments told_texts Kind.Delete).part.at bytes.now) }
{
    let (name, rest) = a_name_of(alloc, bytes)?;
    Ok((MResponse::Delete(name), rest))
}

#[tactic(auto, unfolding(crate::specs::Responses::response_arguments))]
fn ok_response(alloc: Global, bytes: &[u8]) -> Result<(MResponse, &[u8]), ReadError>
    ensures { Gives (λ x. (x.0, x.1.now)) result ((response_arguments told_texts Kind.Ok).part.at bytes.now) }
{
    let (text, rest) = a_string_of(alloc, bytes)?;
    Ok((MResponse::Ok(text), rest))
}

#[tactic(auto, unfolding(crate::specs::Responses::response_arguments))]
fn no_response(alloc: Global, bytes: &[u8]) -> Result<(MResponse, &[u8]), ReadError>
    ensures { Gives (λ x. (x.0, x.1.now)) result ((response_arguments told_texts Kind.No).part.at bytes.now) }
{
    let (text, rest) = a_string_of(alloc, bytes)?;
    Ok((MResponse::No(text), rest))
}

#[tactic(auto, unfolding(crate::specs::Responses::response_arguments))]
fn bad_response(alloc: Global, bytes: &[u8]) -> Result<(MResponse, &[u8]), ReadError>
    ensures { Gives (λ x. (x.0, x.1.now)) result ((response_arguments told_texts Kind.Bad).part.at bytes.now) }
{
    let (text, rest) = a_string_of(alloc, bytes)?;
    Ok((MResponse::Bad(text), rest))
}

/// Reads what stands behind the word of a response.
#[tactic(auto, unfolding(crate::specs::Responses::response_arguments))]
pub fn response_arguments(
    alloc: Global,
    kind: Kind,
    bytes: &[u8],
) -> Result<(MResponse, &[u8]), ReadError>
    ensures { Gives (λ x. (x.0, x.1.now)) result ((response_arguments told_texts kind).part.at bytes.now) }
{
    match kind {
        Kind::Bad => bad_response(alloc, bytes),
        Kind::Delete => delete_response(alloc, bytes),
        Kind::Mailbox => mailbox_response(alloc, bytes),
        Kind::No => no_response(alloc, bytes),
        Kind::Ok => ok_response(alloc, bytes),
        Kind::Reserve => reserve_response(alloc, bytes),
    }
}

/// Prints the arguments of a command.
#[tactic(auto, unfolding(crate::specs::Commands::command_printed_as))]
pub fn put_command_arguments(command: &MCommand, out: &mut Bytes) -> Result<(), Memory>
    ensures { OnOk result (out.new ≡ out.old ++ command_text command.now) }
{
    match command {
        MCommand::Reserve(name, place) | MCommand::Deactivate(name, place) => {
            put_a_place(name, place, out)
        }
        MCommand::Activate(name, place, acl) => put_a_mailbox(name, place, acl, out),
        MCommand::Delete(name) | MCommand::Find(name) => put_a_name(name, out),
        MCommand::List(prefix) => put_maybe_string(prefix, out),
        MCommand::Update | MCommand::Noop | MCommand::Logout => Ok(()),
    }
}

/// Prints the arguments of a response.
#[tactic(auto, unfolding(crate::specs::Responses::response_printed_as))]
pub fn put_response_arguments(response: &MResponse, out: &mut Bytes) -> Result<(), Memory>
    ensures { OnOk result (out.new ≡ out.old ++ response_text response.now) }
{
    match response {
        MResponse::Mailbox(name, place, acl) => put_a_mailbox(name, place, acl, out),
        MResponse::Reserve(name, place) => put_a_place(name, place, out),
        MResponse::Delete(name) => put_a_name(name, out),
        MResponse::Ok(text) | MResponse::No(text) | MResponse::Bad(text) => put_a_string(text, out),
    }
}
