// The printers of lines.
ghost use Rattle.std.specs.Prelude.{◌≡◌, ◌++◌, OnOk, IfOk};
ghost use Rattle.mupdate_codec.specs.Arguments.{exact};
ghost use Rattle.mupdate_codec.specs.Commands.{command_line, IsCommandLine, IsSpelledCommand};
ghost use Rattle.mupdate_codec.specs.Responses.{response_line, IsResponseLine, IsSpelledResponse};

use crate::command::{MCommand, MResponse};
use crate::commands::{put_command_arguments, put_response_arguments};
use crate::tag::{Tag, put_tag};
use crate::word::{word_of_command, word_of_response};
use mur_base::{Bytes, Memory};
use std::alloc::Global;

/// Prints the line of a command behind what is there; for want of memory nothing is said of it.
#[tactic(auto, using(std::proofs::lemmas::Grind::common_steps, crate::proofs::TextLaw::command_text), unfolding(crate::specs::Commands::command_line))]
pub fn put_command(tag: &Tag, command: &MCommand, out: &mut Bytes) -> Result<(), Memory>
    ensures { OnOk result (out.new ≡ out.old ++ (command_line exact).text (tag.now, command.now)) }
{
    put_tag(tag, out)?;
    out.push(b' ')?;
    out.extend_from_slice(word_of_command(command))?;
    put_command_arguments(command, out)?;
    out.push(b'\r')?;
    out.push(b'\n')
}

/// Prints the line of a response behind what is there; for want of memory nothing is said of it.
#[tactic(auto, using(std::proofs::lemmas::Grind::common_steps, crate::proofs::TextLaw::response_text), unfolding(crate::specs::Responses::response_line))]
pub fn put_response(tag: &Tag, response: &MResponse, out: &mut Bytes) -> Result<(), Memory>
    ensures { OnOk result (out.new ≡ out.old ++ (response_line exact).text (tag.now, response.now)) }
{
    put_tag(tag, out)?;
    out.push(b' ')?;
    out.extend_from_slice(word_of_response(response))?;
    put_response_arguments(response, out)?;
    out.push(b'\r')?;
    out.push(b'\n')
}

/// Prints a command: its line, where some line is that command under this tag.
pub fn print_command(alloc: Global, tag: &Tag, command: &MCommand) -> Result<Bytes, Memory>
    ensures text { IfOk result (λ line. line ≡ (command_line exact).text (tag.now, command.now)) }
    ensures line { IsSpelledCommand tag.now command.now → IfOk result (λ line. IsCommandLine line (tag.now, command.now)) }
{
    let mut out = Bytes::new(alloc);
    put_command(tag, command, &mut out)?;
    Ok(out)
}

/// Prints a response: its line, where some line is that response under this tag.
pub fn print_response(alloc: Global, tag: &Tag, response: &MResponse) -> Result<Bytes, Memory>
    ensures text { IfOk result (λ line. line ≡ (response_line exact).text (tag.now, response.now)) }
    ensures line { IsSpelledResponse tag.now response.now → IfOk result (λ line. IsResponseLine line (tag.now, response.now)) }
{
    let mut out = Bytes::new(alloc);
    put_response(tag, response, &mut out)?;
    Ok(out)
}
