//! The lines of MUPDATE (RFC 3656, 3 to 5): commands, responses, and the bytes of a connection cut into lines.
//!
//! A line is a tag, a space, a word in any case, its arguments, each behind one space, and CRLF. `specs/Commands.antt` and
//! `specs/Responses.antt` say which bytes are the line of which command or response; [`read_command`] and [`read_response`]
//! take just these. They tell bytes that begin with a line, bytes that begin one, and all others, whose place they give. No
//! line is a proper prefix of another ([`a_line_is_one_command`]), so what [`print_command`] gives is read again, whatever
//! follows.
//!
//! An argument is a string: in quotes 7 bits, where `"` and `\` stand behind a `\`, or a literal `{n+}` or `{n}` of any bytes,
//! which comes unasked in either form; at most 65,536 bytes. A mailbox name and a location are strings whose bytes are tested
//! as they come (`specs/Names.antt`, `specs/Strings.antt`): so bytes are refused as soon as no line goes on with them. The place
//! that is told is then where that argument begins (`specs/Told.antt`).
//!
//! [`command_in`] and [`response_in`] give what bytes are the line of, with nothing after it.
//!
//! [`Cutter`] cuts the bytes of a connection into lines in whatever pieces they come (`specs/Cut.antt`).
//!
//! What stands behind a word is a form of the crate `grammar`. A new command has a variant of [`MCommand`], a row in
//! `src/word.rt`, its lines in `src/commands.rt` and `specs/Commands.antt`, and a line in `proofs/LinesLaw.antt` and in
//! `proofs/ToldLines.antt`. Names are in `src/names.rt` (byte by byte) and `src/name.rt` (as arguments).
#![tactic(auto)]

mod arguments;
mod asks;
mod command;
mod commands;
mod cutter;
mod fault;
mod laws;
mod limits;
mod location;
mod name;
mod place;
mod printer;
mod reader;
mod strings;
mod tag;
mod whole;
mod word;

pub use asks::{
    BACK_TAG, FIND_TAG, RESYNC_TAG, UNASKED_TAG, UPDATE_TAG, a_line_tells_its_ask,
    a_tag_tells_its_ask, ask_of, tag_of,
};
pub use command::{MCommand, MResponse};
pub use cutter::{Cutter, cut};
pub use fault::LineFault;
pub use laws::{
    a_line_is_one_command, a_line_is_one_response, bytes_are_cut_in_one_way, the_limits_are_these,
};
pub use printer::{print_command, print_response, put_command, put_response};
pub use reader::{read_command, read_response};
pub use tag::Tag;
pub use whole::{command_in, response_in};
