//! The commands of mail clients: what a frame spells (RFC 9051, 9), its reader and its printer.
//!
//! A frame is a line with its literals and its CRLF. `specs/Spells.antt` says which frames spell which command; [`read`]
//! takes just these, and tells of each other frame the longest prefix that begins some command. What [`print`] gives
//! spells just its command, so [`reread`] gives back what it is given.
//!
//! A name that is left out has its own reader (`left_out`), which keeps the frame as it is; each other command begins with a verb.
//! What stands behind the name of a command is a form of the crate `grammar`. Arguments that several commands have (a
//! mailbox, two strings, a string that may be left out) are in `arguments`; others have a file in `src/commands`, reader and printer,
//! one in `specs`, the form, and its law in `proofs`. A new command has its rows in `src/verb.rt` and `specs/Verbs.antt`, its
//! lines in `src/commands.rt`, `src/printer.rt` and `specs/Commands.antt`, and a line in `proofs/CommandsLaw.antt`, which says
//! both that it is read exactly and that it is spelled as it is printed. The names behind which just a mailbox stands are
//! told apart by `MailboxVerb` (`src/verb.rt`), and have one reader, one form and one such line.
#![tactic(auto)]

mod arguments;
mod commands;
mod dates;
mod fault;
mod flags;
mod keys;
mod laws;
mod left_out;
mod printer;
mod reader;
mod request;
mod round_trip;
mod sets;
mod verb;

pub use fault::{Bad, ReadFault};
pub use laws::each_verb_is_read;
pub use printer::print;
pub use reader::read;
pub use request::{read_request, too_big};
pub use round_trip::{a_frame_spells_one_command, reread};
