// The words of a call, read by `clap`.
ghost use Rattle.std.specs.Prelude.{◌≡◌, [], ◌∷◌, false, is_none, IfOk, map, string_bytes};
ghost use Rattle.clap.specs.Simple.{app_of};
ghost use Rattle.clap.specs.declared.builder.command.Command.TheViews.{out-Command as fields_of};
ghost use Rattle.mur_config.specs.Words.{ends_options, is_option, operands_of, size_in, drill_of, job_named, job_of, HasDrillSize, IsDrillSize};
ghost use Rattle.mur_config.specs.WordsCommand.{bare, form, words_command};

use crate::job::{DRILL_LIMIT, Job};
use clap::error::ErrorKind;
use clap::{Arg, Command};
use mur_base::{Bytes, Memory, read_number};
use std::alloc::{AllocError, Global};

/// What the words of a call ask for, without the program's name; nothing where they have no form. Nothing is printed.
pub fn read_words(alloc: Global, words: &Vec<String>) -> Result<Option<Job>, Memory>
    ensures job { IfOk result (λ job. job ≡ job_of (map string_bytes words.now.items)) }
    ensures size { IfOk result HasDrillSize }
{
    let words = words.as_slice();
    if has_option(words) {
        return Ok(None);
    }
    let matches = match command(alloc)?.try_get_matches_from(words) {
        Ok(matches) => matches,
        Err(error) => {
            return match error.kind() {
                ErrorKind::OutOfMemory => Err(Memory),
                _ => Ok(None),
            };
        }
    };
    let Some((form, operands)) = matches.subcommand() else {
        return Ok(None);
    };
    let Some(first) = operands.get_str("first") else {
        return Ok(None);
    };
    let Some(second) = operands.get_str("second") else {
        return Ok(None);
    };
    job_named(alloc, form, first, second)
}

// Whether a word in front of `--` begins with `-`. No form has an option, and `clap` would take `-` alone as a name.
#[tactic(auto, unfolding(crate::specs::Words::operands_of))]
fn has_option(words: &[String]) -> bool
    ensures { result ≡ is_none (operands_of (map string_bytes words.now)) }
{
    for word in words {
        if ends_options(word.as_bytes()) {
            return false;
        }
        if is_option(word.as_bytes()) {
            return true;
        }
    }
    false
}

#[tactic(auto, unfolding(crate::specs::Words::ends_options))]
fn ends_options(word: &[u8]) -> bool
    ensures { result ≡ ends_options word.now }
{
    word == b"--".as_slice()
}

#[tactic(auto, unfolding(crate::specs::Words::is_option))]
fn is_option(word: &[u8]) -> bool
    ensures { result ≡ is_option word.now }
{
    word.first() == Some(&b'-')
}

// The command by which `clap` reads the words.
fn command<'a>(alloc: Global) -> Result<Command<'a>, AllocError>
    ensures { IfOk result (λ command. app_of command ≡ words_command) }
{
    let replay = form(alloc, "replay")?;
    let drill = form(alloc, "drill")?;
    let one = bare(alloc).subcommand(replay)?;
    one.subcommand(drill)
}

// A command without help, that reads words without the program's name.
fn bare<'a>(alloc: Global) -> Command<'a>
    ensures { app_of result ≡ bare }
{
    Command::new(alloc, "murder")
        .no_binary_name(true)
        .disable_help_flag(true)
        .disable_help_subcommand(true)
        .subcommand_required(true)
}

// A word in front, and two operands.
fn form<'a>(alloc: Global, name: &'a str) -> Result<Command<'a>, AllocError>
    ensures command { IfOk result (λ command. app_of command ≡ form name.entry.now) }
    ensures plain { IfOk result (λ command. (fields_of command).has_globals ≡ false) }
{
    let first = Arg::new(alloc, "first").required(true);
    let second = Arg::new(alloc, "second").required(true);
    let one = Command::new(alloc, name).arg(first)?;
    one.arg(second)
}

// What a word in front says of two operands.
#[tactic(auto, unfolding(crate::specs::Words::job_named, crate::specs::Words::replay_of))]
fn job_named(alloc: Global, form: &str, first: &str, second: &str) -> Result<Option<Job>, Memory>
    ensures job { IfOk result (λ job. job ≡ job_named form.now (first.now ∷ second.now ∷ [])) }
    ensures size { IfOk result HasDrillSize }
{
    if form == "replay" {
        let config = Bytes::from_slice(alloc, first.as_bytes())?;
        let schedule = Bytes::from_slice(alloc, second.as_bytes())?;
        return Ok(Some(Job::Replay(config, schedule)));
    }
    if form == "drill" {
        return Ok(drill_of(first.as_bytes(), second.as_bytes()));
    }
    Ok(None)
}

#[tactic(auto, unfolding(crate::specs::Words::drill_of))]
fn drill_of(number: &[u8], size: &[u8]) -> Option<Job>
    ensures job { result ≡ drill_of (number.now ∷ size.now ∷ []) }
    ensures size { HasDrillSize result }
{
    let number = read_number(number)?;
    let size = size_in(read_number(size))?;
    Some(Job::Drill(number, size))
}

#[tactic(auto, unfolding(crate::specs::Words::size_in))]
fn size_in(size: Option<u64>) -> Option<u32>
    ensures size { result ≡ size_in size }
    ensures small { IsDrillSize result }
{
    let size = size?;
    if size == 0 || u64::from(DRILL_LIMIT) < size {
        return None;
    }
    Some(size as u32)
}
