// Mailbox names as arguments (RFC 3656, 2.2).
ghost use Rattle.std.specs.Prelude.{◌≡◌, None, IfOk};
ghost use Rattle.mur_base.specs.Names.{mail_name_fault};
ghost use Rattle.grammar.specs.Part.{◌then◌};
ghost use Rattle.grammar.specs.Words.{word};
ghost use Rattle.grammar.specs.Gives.{Finds, Gives};
ghost use Rattle.text_parts.specs.Names.{quoted_names, names_of_size};
ghost use Rattle.mupdate_codec.specs.Strings.{in_quotes, header, name};
ghost use Rattle.mupdate_codec.specs.Told.{told_texts};

use crate::limits::NAME_BYTES;
use crate::place::told_stop;
use crate::strings::header_of;
use grammar::{Only, ReadError, Stop, begins, byte_of, word_of};
use mur_base::MailName;
use std::alloc::Global;
use text_parts::{NamesFrom, made_name};

/// Reads a name in quotes.
fn quoted_name(bytes: &[u8]) -> Result<(&[u8], &[u8]), Stop>
    ensures reads { Finds (λ x. (x.0.now, x.1.now)) result ((in_quotes (word quoted_names)).at bytes.now) }
    ensures named { IfOk result (λ x. mail_name_fault x.0.now ≡ None) }
{
    let rest = byte_of(b'"', bytes)?;
    let (text, rest) = word_of(&NamesFrom::quoted(), rest)?;
    let rest = byte_of(b'"', rest)?;
    Ok((text, rest))
}

/// Reads a name as a literal.
fn sized_name(bytes: &[u8]) -> Result<(&[u8], &[u8]), Stop>
    ensures reads { Finds (λ x. (x.0.now, x.1.now)) result ((header 1 NAME_BYTES then λ n. word (names_of_size n)).at bytes.now) }
    ensures named { IfOk result (λ x. mail_name_fault x.0.now ≡ None) }
{
    let (size, rest) = header_of(1, NAME_BYTES, bytes)?;
    let (text, rest) = word_of(&NamesFrom::sized(size), rest)?;
    Ok((text, rest))
}

/// Reads the text of a name.
#[tactic(auto, unfolding(crate::specs::Strings::name))]
pub fn name_text(bytes: &[u8]) -> Result<(&[u8], &[u8]), Stop>
    ensures reads { Finds (λ x. (x.0.now, x.1.now)) result (name.at bytes.now) }
    ensures named { IfOk result (λ x. mail_name_fault x.0.now ≡ None) }
{
    if begins(&Only(b'"'), bytes) {
        quoted_name(bytes)
    } else {
        sized_name(bytes)
    }
}

/// Reads a name. A stop is at its beginning, where a string of any text would go on further.
pub fn name_of(alloc: Global, bytes: &[u8]) -> Result<(MailName, &[u8]), ReadError>
    ensures { Gives (λ x. (x.0, x.1.now)) result (told_texts.names.part.at bytes.now) }
{
    match name_text(bytes) {
        Ok((text, rest)) => Ok((made_name(alloc, text)?, rest)),
        Err(stop) => Err(ReadError::Stopped(told_stop(alloc, stop, bytes)?)),
    }
}
