// The words that lines begin with (RFC 3656, 3 and 4).
ghost use Rattle.std.specs.Prelude.{◌≡◌};
ghost use Rattle.mupdate_codec.specs.Commands.{command_word, command_verb as command_verb_of};
ghost use Rattle.mupdate_codec.specs.Responses.{response_word, response_kind as response_verb_of};

use crate::command::{MCommand, MResponse};

/// What the first word of a command says.
#[derive(Clone, Copy)]
pub enum Verb {
    Activate,
    Deactivate,
    Delete,
    Find,
    List,
    Logout,
    Noop,
    Reserve,
    Update,
}

/// The words of the commands.
pub const VERBS: [(&[u8], Verb); 9] = [
    (b"ACTIVATE", Verb::Activate),
    (b"DEACTIVATE", Verb::Deactivate),
    (b"DELETE", Verb::Delete),
    (b"FIND", Verb::Find),
    (b"LIST", Verb::List),
    (b"LOGOUT", Verb::Logout),
    (b"NOOP", Verb::Noop),
    (b"RESERVE", Verb::Reserve),
    (b"UPDATE", Verb::Update),
];

/// What the first word of a response says.
#[derive(Clone, Copy)]
pub enum Kind {
    Bad,
    Delete,
    Mailbox,
    No,
    Ok,
    Reserve,
}

/// The words of the responses.
pub const KINDS: [(&[u8], Kind); 6] = [
    (b"BAD", Kind::Bad),
    (b"DELETE", Kind::Delete),
    (b"MAILBOX", Kind::Mailbox),
    (b"NO", Kind::No),
    (b"OK", Kind::Ok),
    (b"RESERVE", Kind::Reserve),
];

/// The word that a command begins with.
#[tactic(auto, unfolding(crate::specs::Commands::command_printed_as, crate::specs::Commands::command_word))]
pub fn word_of_command(command: &MCommand) -> &'static [u8]
    ensures { result.now ≡ command_word (command_verb_of command.now) }
{
    match command {
        MCommand::Reserve(..) => b"RESERVE",
        MCommand::Activate(..) => b"ACTIVATE",
        MCommand::Deactivate(..) => b"DEACTIVATE",
        MCommand::Delete(_) => b"DELETE",
        MCommand::Find(_) => b"FIND",
        MCommand::List(_) => b"LIST",
        MCommand::Update => b"UPDATE",
        MCommand::Noop => b"NOOP",
        MCommand::Logout => b"LOGOUT",
    }
}

/// The word that a response begins with.
#[tactic(auto, unfolding(crate::specs::Responses::response_printed_as, crate::specs::Responses::response_word))]
pub fn word_of_response(response: &MResponse) -> &'static [u8]
    ensures { result.now ≡ response_word (response_verb_of response.now) }
{
    match response {
        MResponse::Mailbox(..) => b"MAILBOX",
        MResponse::Reserve(..) => b"RESERVE",
        MResponse::Delete(_) => b"DELETE",
        MResponse::Ok(_) => b"OK",
        MResponse::No(_) => b"NO",
        MResponse::Bad(_) => b"BAD",
    }
}
