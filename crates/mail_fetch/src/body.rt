// Bodies and parts of them.
ghost use Rattle.std.specs.Prelude.{◌≡◌, ◌++◌, OnOk};
ghost use Rattle.mail_message.specs.Literals.{server_literal};
ghost use Rattle.mail_fetch.specs.Bodies.{octets_of, body_text};

use mail_message::Partial;
use mur_base::{Bytes, Memory, put_number};

/// Puts the whole body or a part of it at the end of a text, as a literal.
pub fn put_body(text: &mut Bytes, partial: Option<Partial>, body: &[u8]) -> Result<(), Memory>
    ensures { OnOk result (text.new ≡ text.old ++ body_text partial body.now) }
{
    match partial {
        None => {
            text.extend_from_slice(b"BODY[] ")?;
            put_literal(text, body)
        }
        Some(partial) => {
            text.extend_from_slice(b"BODY[]<")?;
            put_number(partial.from, text)?;
            text.extend_from_slice(b"> ")?;
            put_literal(text, octets_of(partial, body))
        }
    }
}

#[tactic(auto, unfolding(mail_message::specs::Literals::server_literal))]
fn put_literal(text: &mut Bytes, octets: &[u8]) -> Result<(), Memory>
    ensures { OnOk result (text.new ≡ text.old ++ server_literal octets.now) }
{
    text.push(b'{')?;
    put_number(octets.len() as u64, text)?;
    text.extend_from_slice(b"}\r\n")?;
    text.extend_from_slice(octets)
}

/// What there is of a body from a place on, at most so many octets.
fn octets_of(partial: Partial, body: &[u8]) -> &[u8]
    ensures { result.now ≡ octets_of partial body.now }
{
    let length = body.len() as u64;
    let from = partial.from.min(length);
    let count = partial.count.min(length - from);
    &body[from as usize..(from + count) as usize]
}
