// Days (RFC 9051, 9: date).
ghost use Rattle.std.specs.Prelude.{◌≡◌, ◌≤◌, ◌++◌, map, IfOk, OnOk};
ghost use Rattle.grammar.specs.Gives.{Finds};
ghost use Rattle.imap_command.specs.Dates.{date_day, month_text, name_in, digit, date_year, year_text, date_text, date};

use grammar::{Only, Stop, begins, byte_of, number_of, put_decimal, table_of};
use mail_message::Day;
use mur_base::{Bytes, Memory};

/// The names of the months.
const MONTH_ROWS: [(&[u8], u8); 12] = [
    (b"Jan", 1),
    (b"Feb", 2),
    (b"Mar", 3),
    (b"Apr", 4),
    (b"May", 5),
    (b"Jun", 6),
    (b"Jul", 7),
    (b"Aug", 8),
    (b"Sep", 9),
    (b"Oct", 10),
    (b"Nov", 11),
    (b"Dec", 12),
];

/// Reads date-day.
fn date_day_of(bytes: &[u8]) -> Result<(u8, &[u8]), Stop>
    ensures { Finds (λ x. (x.0, x.1.now)) result (date_day.part.at bytes.now) }
{
    if begins(&Only(b'0'), bytes) {
        let rest = byte_of(b'0', bytes)?;
        let (day, rest) = number_of(false, 9, rest)?;
        Ok((day as u8, rest))
    } else {
        let (day, rest) = number_of(false, 31, bytes)?;
        Ok((day as u8, rest))
    }
}

/// Reads a digit.
#[tactic(auto, unfolding(mur_base::specs::Number::is_digit))]
fn digit_of(bytes: &[u8]) -> Result<(u8, &[u8]), Stop>
    ensures reads { Finds (λ x. (x.0, x.1.now)) result (digit.part.at bytes.now) }
    ensures small { IfOk result (λ x. x.0 ≤ 9) }
{
    match bytes {
        [first, rest @ ..] if first.is_ascii_digit() => Ok((*first - b'0', rest)),
        _ => Err(Stop { left: bytes.len() }),
    }
}

/// Reads date-year.
fn date_year_of(bytes: &[u8]) -> Result<(u16, &[u8]), Stop>
    ensures { Finds (λ x. (x.0, x.1.now)) result (date_year.part.at bytes.now) }
{
    let (thousands, rest) = digit_of(bytes)?;
    let (hundreds, rest) = digit_of(rest)?;
    let (tens, rest) = digit_of(rest)?;
    let (ones, rest) = digit_of(rest)?;
    let year = 1000 * u16::from(thousands)
        + 100 * u16::from(hundreds)
        + 10 * u16::from(tens)
        + u16::from(ones);
    Ok((year, rest))
}

/// Reads date-text.
fn date_text_of(bytes: &[u8]) -> Result<(Day, &[u8]), Stop>
    ensures { Finds (λ x. (x.0, x.1.now)) result (date_text.part.at bytes.now) }
{
    let (day, rest) = date_day_of(bytes)?;
    let rest = byte_of(b'-', rest)?;
    let (month, rest) = table_of(1, &MONTH_ROWS, rest)?;
    let rest = byte_of(b'-', rest)?;
    let (year, rest) = date_year_of(rest)?;
    Ok((Day { day, month, year }, rest))
}

/// Reads date.
pub fn date_of(bytes: &[u8]) -> Result<(Day, &[u8]), Stop>
    ensures { Finds (λ x. (x.0, x.1.now)) result (date.part.at bytes.now) }
{
    if begins(&Only(b'"'), bytes) {
        let rest = byte_of(b'"', bytes)?;
        let (day, rest) = date_text_of(rest)?;
        let rest = byte_of(b'"', rest)?;
        Ok((day, rest))
    } else {
        date_text_of(bytes)
    }
}

/// The name of the first row with this number.
#[tactic(auto, unfolding(crate::specs::Dates::name_in))]
fn name_in<'a>(rows: &[(&'a [u8], u8)], number: u8) -> &'a [u8]
    ensures { result.now ≡ name_in (map (λ row. (row.0.now, row.1)) rows.now) number }
{
    for row in rows {
        if row.1 == number {
            return row.0;
        }
    }
    b""
}

/// The name of a month.
fn month_name(month: u8) -> &'static [u8]
    ensures { result.now ≡ month_text month }
{
    name_in(&MONTH_ROWS, month)
}

/// Prints four digits.
#[tactic(auto, using(std::proofs::lemmas::Grind::common_steps), unfolding(crate::specs::Dates::year_text))]
fn put_year(year: u16, out: &mut Bytes) -> Result<(), Memory>
    ensures { OnOk result (out.new ≡ out.old ++ year_text year) }
{
    out.push(b'0' + (year / 1000 % 10) as u8)?;
    out.push(b'0' + (year / 100 % 10) as u8)?;
    out.push(b'0' + (year / 10 % 10) as u8)?;
    out.push(b'0' + (year % 10) as u8)
}

/// Prints date, without quotes.
#[tactic(auto, using(std::proofs::lemmas::Grind::common_steps))]
pub fn put_date(day: Day, out: &mut Bytes) -> Result<(), Memory>
    ensures { OnOk result (out.new ≡ out.old ++ date.text day) }
{
    put_decimal(u64::from(day.day), out)?;
    out.push(b'-')?;
    out.extend_from_slice(month_name(day.month))?;
    out.push(b'-')?;
    put_year(day.year, out)
}
