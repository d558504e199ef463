// The date of a message (RFC 9051, 9: date-time).
ghost use Rattle.std.specs.Prelude.{◌≡◌, ◌∷◌, [], ◌++◌, length, drop, true, OnOk, IfOk};
ghost use Rattle.std.specs.List.{list_any};
ghost use Rattle.grammar.specs.Gives.{Finds};
ghost use Rattle.mail_message.specs.Date.{is_date};
ghost use Rattle.text_parts.specs.Dates.{is_date_so_far, dates, date_time};

use grammar::{Kind, Stop, byte_of, word_of};
use mail_message::{DATE_LENGTH, DateText, date};
use mur_base::{Bytes, Memory};

/// A date in each month. A text begins a date exactly where it makes one with the rest of one of these behind it.
const SAMPLES: [&[u8; DATE_LENGTH]; 12] = [
    b"01-Jan-0000 00:00:00 +0000",
    b"01-Feb-0000 00:00:00 +0000",
    b"01-Mar-0000 00:00:00 +0000",
    b"01-Apr-0000 00:00:00 +0000",
    b"01-May-0000 00:00:00 +0000",
    b"01-Jun-0000 00:00:00 +0000",
    b"01-Jul-0000 00:00:00 +0000",
    b"01-Aug-0000 00:00:00 +0000",
    b"01-Sep-0000 00:00:00 +0000",
    b"01-Oct-0000 00:00:00 +0000",
    b"01-Nov-0000 00:00:00 +0000",
    b"01-Dec-0000 00:00:00 +0000",
];

/// Whether a text is a date.
#[tactic(auto, unfolding(mail_message::specs::Date::date_of))]
fn is_date(text: &[u8]) -> bool
    ensures { result ≡ is_date text.now }
{
    date(text).is_some()
}

/// Whether a text and a byte are a date with the rest of a sample behind them.
fn is_date_with(front: &[u8], byte: u8, sample: &[u8; DATE_LENGTH]) -> bool
    ensures { result ≡ is_date ((front.now ++ byte ∷ []) ++ drop (length (front.now ++ byte ∷ [])) sample.now) }
{
    let len = front.len();
    if len >= DATE_LENGTH {
        return false;
    }
    let mut text = *sample;
    text[..len].copy_from_slice(front);
    text[len] = byte;
    is_date(&text)
}

/// Whether a text and a byte are a date with the rest of one of some samples behind them.
fn is_date_with_some(front: &[u8], byte: u8, samples: &[&[u8; DATE_LENGTH]]) -> bool
    ensures { result ≡ list_any (λ sample. is_date ((front.now ++ byte ∷ []) ++ drop (length (front.now ++ byte ∷ [])) sample.now)) samples.now }
{
    samples
        .iter()
        .any(|sample| is_date_with(front, byte, sample))
}

/// Whether a text and a byte begin a date.
#[tactic(auto, unfolding(crate::specs::Dates::is_date_so_far))]
fn is_date_so_far(front: &[u8], byte: u8) -> bool
    ensures { result ≡ is_date_so_far (front.now ++ byte ∷ []) }
{
    is_date_with_some(front, byte, &SAMPLES)
}

/// A date text.
#[derive(Clone, Copy)]
pub struct Dates;

impl Kind for Dates {
    ghost words = { λ _. dates };

    #[tactic(auto, using(crate::proofs::DatesLaw::begins_so))]
    fn goes_on(&self, front: &[u8], byte: u8) -> bool {
        is_date_so_far(front, byte)
    }

    fn is_whole(&self, text: &[u8]) -> bool {
        is_date(text)
    }

    ghost use Rattle.std.specs.Prelude.{refl};

    ghost empty_begins = { λ _. refl };
}

/// The date that a text is.
#[tactic(auto, unfolding(mail_message::specs::Date::date_of))]
pub fn date_named(text: &[u8]) -> DateText
    requires { is_date text.now ≡ true }
    ensures { result ≡ text.now }
{
    date(text).unwrap()
}

/// Reads the text of a date between quotes.
pub fn date_time_of(bytes: &[u8]) -> Result<(&[u8], &[u8]), Stop>
    ensures reads { Finds (λ x. (x.0.now, x.1.now)) result (date_time.part.at bytes.now) }
    ensures date { IfOk result (λ x. is_date x.0.now ≡ true) }
{
    let rest = byte_of(b'"', bytes)?;
    let (text, rest) = word_of(&Dates, rest)?;
    let rest = byte_of(b'"', rest)?;
    Ok((text, rest))
}

/// Prints a date between quotes.
#[tactic(auto, using(std::proofs::lemmas::Grind::common_steps))]
pub fn put_date_time(date: &DateText, out: &mut Bytes) -> Result<(), Memory>
    ensures { OnOk result (out.new ≡ out.old ++ date_time.text date.now) }
{
    out.push(b'"')?;
    out.extend_from_slice(date.as_bytes())?;
    out.push(b'"')
}
