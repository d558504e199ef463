// The date of a message as its client wrote it.
ghost use Rattle.std.specs.Prelude.{◌≡◌, length};
ghost use Rattle.std.specs.List.{list_all};
ghost use Rattle.std.specs.Char.{is_ascii_digit};
ghost use Rattle.std.specs.Prelude.{◌≤◌, true};
ghost use Rattle.mur_base.specs.Ascii.{digit_nine};
ghost use Rattle.mail_message.specs.Date.{date_of, is_date, is_calendar, is_clock, is_zone, is_day, is_month, is_below};
ghost use Rattle.mail_message.specs.Days.{day_of, calendar_day, month_number, two_digits, four_digits, is_on_calendar};

use crate::day::Day;
use crate::word::{is_some_word, place_of_word};
use std::marker::Model;

/// Bytes of a date text.
pub const DATE_LENGTH: usize = 26;

const MONTHS: [&[u8]; 12] = [
    b"Jan", b"Feb", b"Mar", b"Apr", b"May", b"Jun", b"Jul", b"Aug", b"Sep", b"Oct", b"Nov", b"Dec",
];

/// A date text `dd-Mon-yyyy hh:mm:ss +zzzz` of 26 bytes, kept as it was written (RFC 9051, 9: date-time).
#[derive(Clone, Copy)]
pub struct DateText {
    text: [u8; DATE_LENGTH],
}

impl Model for DateText {
    ghost use Rattle.std.specs.Prelude.{◌≡◌, ℕ, List, true};
    ghost use Rattle.mail_message.specs.Date.{is_date};

    ghost Value = { List ℕ };

    ghost view = { λ date. date.text };

    ghost inverse = { λ text. record { text = text } };

    ghost invariant = { λ date. is_date date.text ≡ true };
}

impl DateText {
    /// The text as it was written, 26 bytes.
    pub fn as_bytes(&self) -> &[u8]
        ensures text { result.now ≡ self.now }
        ensures date { date_of result.now ≡ Some self.now }
    {
        &self.text
    }

    /// The day that the text names, without its time and zone.
    #[tactic(auto, unfolding(crate::specs::Days::day_of, crate::specs::Date::is_date))]
    pub fn day(&self) -> Day
        ensures day { result ≡ day_of self.now }
        ensures calendar { is_on_calendar result ≡ true }
    {
        calendar_day(&self.text[0..11])
    }
}

#[tactic(auto, unfolding(crate::specs::Days::calendar_day, crate::specs::Date::is_calendar))]
fn calendar_day(text: &[u8]) -> Day
    requires length { length text.now ≡ 11 }
    requires calendar { is_calendar text.now ≡ true }
    ensures day { result ≡ calendar_day text.now }
    ensures calendar { is_on_calendar result ≡ true }
{
    Day {
        day: two_digits(text[0], text[1]),
        month: month_number(&text[3..6]),
        year: four_digits(&text[7..11]),
    }
}

/// The number of two digits, or of one behind a space.
#[tactic(auto, unfolding(crate::specs::Days::two_digits))]
fn two_digits(tens: u8, ones: u8) -> u8
    requires tens { tens ≤ digit_nine }
    requires ones { ones ≤ digit_nine }
    ensures value { result ≡ two_digits tens ones }
    ensures below { result ≤ 99 }
{
    10 * tens.saturating_sub(b'0') + ones.saturating_sub(b'0')
}

#[tactic(auto, unfolding(crate::specs::Days::four_digits))]
fn four_digits(text: &[u8]) -> u16
    requires length { length text.now ≡ 4 }
    requires digits { list_all is_ascii_digit text.now ≡ true }
    ensures value { result ≡ four_digits text.now }
    ensures below { result ≤ 9999 }
{
    100 * u16::from(two_digits(text[0], text[1])) + u16::from(two_digits(text[2], text[3]))
}

#[tactic(auto, unfolding(crate::specs::Days::month_number))]
fn month_number(text: &[u8]) -> u8
    ensures { result ≡ month_number text.now }
{
    match place_of_word(text, &MONTHS) {
        Some(at) => at as u8 + 1,
        None => 0,
    }
}

/// The date that a text is. `None` exactly where the text isn't of the form: 26 bytes, a day from 1 to 31 with two
/// digits or a space before one, a month in any case, an hour below 24, minute and second below 60, a signed zone.
#[tactic(auto, unfolding(crate::specs::Date::date_of, crate::specs::Date::is_date))]
pub fn date(text: &[u8]) -> Option<DateText>
    ensures { result ≡ date_of text.now }
{
    if !is_date(text) {
        return None;
    }
    let mut bytes = [0; DATE_LENGTH];
    bytes.copy_from_slice(text);
    Some(DateText { text: bytes })
}

#[tactic(auto, unfolding(crate::specs::Date::is_date))]
fn is_date(text: &[u8]) -> bool
    ensures { result ≡ is_date text.now }
{
    text.len() == DATE_LENGTH
        && is_calendar(&text[0..11])
        && text[11] == b' '
        && is_clock(&text[12..20])
        && text[20] == b' '
        && is_zone(&text[21..26])
}

#[tactic(auto, unfolding(crate::specs::Date::is_calendar))]
fn is_calendar(text: &[u8]) -> bool
    requires { length text.now ≡ 11 }
    ensures { result ≡ is_calendar text.now }
{
    is_day(text[0], text[1])
        && text[2] == b'-'
        && is_month(&text[3..6])
        && text[6] == b'-'
        && are_digits(&text[7..11])
}

#[tactic(auto, unfolding(crate::specs::Date::is_clock))]
fn is_clock(text: &[u8]) -> bool
    requires { length text.now ≡ 8 }
    ensures { result ≡ is_clock text.now }
{
    is_below(24, text[0], text[1])
        && text[2] == b':'
        && is_below(60, text[3], text[4])
        && text[5] == b':'
        && is_below(60, text[6], text[7])
}

#[tactic(auto, unfolding(crate::specs::Date::is_zone))]
fn is_zone(text: &[u8]) -> bool
    requires { length text.now ≡ 5 }
    ensures { result ≡ is_zone text.now }
{
    (text[0] == b'+' || text[0] == b'-') && are_digits(&text[1..5])
}

#[tactic(auto, unfolding(crate::specs::Date::is_day))]
fn is_day(tens: u8, ones: u8) -> bool
    ensures { result ≡ is_day tens ones }
{
    (is_below(32, tens, ones) || (tens == b' ' && ones.is_ascii_digit()))
        && !((tens == b'0' || tens == b' ') && ones == b'0')
}

#[tactic(auto, unfolding(crate::specs::Date::is_month))]
fn is_month(text: &[u8]) -> bool
    ensures { result ≡ is_month text.now }
{
    is_some_word(text, &MONTHS)
}

#[tactic(auto, unfolding(crate::specs::Date::is_below))]
fn is_below(limit: u8, tens: u8, ones: u8) -> bool
    ensures { result ≡ is_below limit tens ones }
{
    tens.is_ascii_digit() && ones.is_ascii_digit() && 10 * (tens - b'0') + (ones - b'0') < limit
}

fn are_digits(text: &[u8]) -> bool
    ensures { result ≡ list_all is_ascii_digit text.now }
{
    text.iter().all(|byte| byte.is_ascii_digit())
}
