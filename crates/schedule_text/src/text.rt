// Bytes as printable text, in schedules and in outputs.
ghost use Rattle.std.specs.Prelude.{◌≡◌, ◌<◌, [], ◌∷◌, ◌++◌, IfOk, IfSome, OnOk, IsTrue};
ghost use Rattle.std.specs.Option.{ForSome};
ghost use Rattle.schedule_text.specs.Text.{spelling_of, name_spelling_of, text_of, name_text_of, bytes_of, is_printed, hex_digit, hex_value, character_at};
ghost use Rattle.schedule_text.specs.Text.{between_spellings, behind_escape, first_digit, second_digit, IsSpelling, KeepsSpelling, IsReadOn};

use mur_base::{Bytes, Memory};
use std::alloc::Global;

/// How much of the next byte's spelling a reader has behind it.
#[derive(Clone, Copy, Debug, PartialEq, Eq)]
pub enum Spelling {
    /// Nothing.
    Between,
    /// A backslash.
    Escape,
    /// A backslash and an `x`.
    Hex,
    /// A backslash, an `x` and the digit of this value.
    HexDigit(u8),
}

/// What the next character of a text does.
#[derive(Clone, Copy, Debug, PartialEq, Eq)]
pub enum Character {
    /// It goes on with a spelling.
    Inside(Spelling),
    /// It ends the spelling of this byte.
    Ends(u8),
    /// It can't stand there.
    Bad,
}

/// How many bytes are looked at together.
const BLOCK: usize = 128;

/// Writes bytes in their one canonical spelling, which `read_text` reads back: a byte from 0x20 to 0x7E other than
/// `\` as itself, then `\r`, `\n`, `\\`, and any other as `\x` with two lower case digits. Want of memory spends `out`.
///
/// A block of bytes that all stand for themselves is put at once.
#[tactic(auto, unfolding(crate::specs::Text::text_of))]
pub fn put_text(bytes: &[u8], out: &mut Bytes) -> Result<(), Memory>
    ensures written { OnOk result (out.new ≡ out.old ++ text_of bytes.now) }
    ensures read_back { bytes_of (text_of bytes.now) ≡ Some bytes.now }
{
    let mut rest = bytes;
    while !rest.is_empty() {
        let (block, behind) = rest.split_at(rest.len().min(BLOCK));
        put_block(block, out)?;
        rest = behind;
    }
    Ok(())
}

fn put_block(block: &[u8], out: &mut Bytes) -> Result<(), Memory>
    ensures { OnOk result (out.new ≡ out.old ++ text_of block.now) }
{
    if are_plain(block) {
        out.extend_from_slice(block)
    } else {
        put_runs(block, out)
    }
}

/// Whether all bytes stand for themselves. It looks at each in any case, so that many are looked at in one step.
#[tactic(auto, unfolding(crate::specs::Text::text_of))]
fn are_plain(bytes: &[u8]) -> bool
    ensures { IsTrue result → text_of bytes.now ≡ bytes.now }
{
    let mut all = true;
    for byte in bytes {
        all &= is_plain(*byte);
    }
    all
}

/// A run of bytes that stand for themselves is put at once.
#[tactic(auto, unfolding(crate::specs::Text::text_of))]
fn put_runs(bytes: &[u8], out: &mut Bytes) -> Result<(), Memory>
    ensures { OnOk result (out.new ≡ out.old ++ text_of bytes.now) }
{
    let mut from = 0;
    for (at, byte) in bytes.iter().enumerate() {
        if !is_plain(*byte) {
            out.extend_from_slice(&bytes[from..at])?;
            put_byte(*byte, out)?;
            from = at + 1;
        }
    }
    out.extend_from_slice(&bytes[from..])
}

/// Whether a byte stands for itself.
#[tactic(auto, unfolding(crate::specs::Text::spelling_of, crate::specs::Text::is_printed))]
fn is_plain(byte: u8) -> bool
    ensures { IsTrue result → spelling_of byte ≡ byte ∷ [] }
{
    is_printed(byte) && byte != b'\\'
}

/// Writes a name as `put_text` does, but for a space, which is written `\x20`.
#[tactic(auto, unfolding(crate::specs::Text::name_text_of))]
pub fn put_name_text(name: &[u8], out: &mut Bytes) -> Result<(), Memory>
    ensures { OnOk result (out.new ≡ out.old ++ name_text_of name.now) }
{
    for byte in name {
        put_name_byte(*byte, out)?;
    }
    Ok(())
}

#[tactic(auto, unfolding(crate::specs::Text::name_spelling_of))]
fn put_name_byte(byte: u8, out: &mut Bytes) -> Result<(), Memory>
    ensures { OnOk result (out.new ≡ out.old ++ name_spelling_of byte) }
{
    if byte == b' ' {
        out.extend_from_slice(b"\\x20")
    } else {
        put_byte(byte, out)
    }
}

#[tactic(auto, unfolding(crate::specs::Text::spelling_of))]
fn put_byte(byte: u8, out: &mut Bytes) -> Result<(), Memory>
    ensures { OnOk result (out.new ≡ out.old ++ spelling_of byte) }
{
    if byte == b'\\' {
        out.extend_from_slice(b"\\\\")
    } else if is_printed(byte) {
        out.push(byte)
    } else if byte == b'\r' {
        out.extend_from_slice(b"\\r")
    } else if byte == b'\n' {
        out.extend_from_slice(b"\\n")
    } else {
        out.extend_from_slice(&[b'\\', b'x', hex_digit(byte / 16), hex_digit(byte % 16)])
    }
}

#[tactic(auto, unfolding(crate::specs::Text::is_printed))]
fn is_printed(byte: u8) -> bool
    ensures { result ≡ is_printed byte }
{
    matches!(byte, b' '..=b'~')
}

#[tactic(auto, unfolding(crate::specs::Text::hex_digit))]
fn hex_digit(digit: u8) -> u8
    requires { digit < 16 }
    ensures { result ≡ hex_digit digit }
{
    if digit < 10 {
        b'0' + digit
    } else {
        b'a' - 10 + digit
    }
}

/// The bytes that a text spells, in any of the forms. `None` exactly where it has a byte outside 0x20 to 0x7E, or a
/// backslash that begins none of them.
///
/// A block of characters that all stand for themselves is taken at once.
#[tactic(auto, unfolding(crate::specs::Text::bytes_spelled_from, crate::specs::Text::bytes_onto))]
pub fn read_text(alloc: Global, text: &[u8]) -> Result<Option<Bytes>, Memory>
    ensures { IfOk result (λ bytes. bytes ≡ bytes_of text.now) }
{
    let mut bytes = Bytes::new(alloc);
    let mut place = Spelling::Between;
    let mut rest = text;
    while !rest.is_empty() {
        let (block, behind) = rest.split_at(rest.len().min(BLOCK));
        match read_block(block, place, &mut bytes)? {
            Some(next) => place = next,
            None => return Ok(None),
        }
        rest = behind;
    }
    match place {
        Spelling::Between => Ok(Some(bytes)),
        Spelling::Escape | Spelling::Hex | Spelling::HexDigit(_) => Ok(None),
    }
}

/// Takes a block from a place on, and gives the place behind it; `None` where a character of it can't stand there.
fn read_block(block: &[u8], from: Spelling, bytes: &mut Bytes) -> Result<Option<Spelling>, Memory>
    requires { IsSpelling from }
    ensures reads { IfOk result (λ next. IsReadOn block.now from bytes.old bytes.new next) }
    ensures place { IfOk result (λ next. ForSome next IsSpelling) }
{
    if matches!(from, Spelling::Between) && are_plain(block) {
        bytes.extend_from_slice(block)?;
        return Ok(Some(Spelling::Between));
    }
    read_characters(block, from, bytes)
}

/// As `read_block`, one character after the other.
#[tactic(auto, using(crate::proofs::TextLaws::by_reading), unfolding(crate::specs::Text::bytes_spelled_from, crate::specs::Text::bytes_onto))]
fn read_characters(
    text: &[u8],
    from: Spelling,
    bytes: &mut Bytes,
) -> Result<Option<Spelling>, Memory>
    requires { IsSpelling from }
    ensures reads { IfOk result (λ next. IsReadOn text.now from bytes.old bytes.new next) }
    ensures place { IfOk result (λ next. ForSome next IsSpelling) }
{
    let mut place = from;
    for character in text {
        match character_at(place, *character) {
            Character::Inside(next) => place = next,
            Character::Ends(byte) => {
                bytes.push(byte)?;
                place = Spelling::Between;
            }
            Character::Bad => return Ok(None),
        }
    }
    Ok(Some(place))
}

#[tactic(auto, unfolding(crate::specs::Text::character_at))]
fn character_at(place: Spelling, character: u8) -> Character
    requires { IsSpelling place }
    ensures value { result ≡ character_at place character }
    ensures place { KeepsSpelling result }
{
    match place {
        Spelling::Between => between_spellings(character),
        Spelling::Escape => behind_escape(character),
        Spelling::Hex => first_digit(hex_value(character)),
        Spelling::HexDigit(high) => second_digit(high, hex_value(character)),
    }
}

#[tactic(auto, unfolding(crate::specs::Text::between_spellings))]
fn between_spellings(character: u8) -> Character
    ensures value { result ≡ between_spellings character }
    ensures place { KeepsSpelling result }
{
    if character == b'\\' {
        Character::Inside(Spelling::Escape)
    } else if is_printed(character) {
        Character::Ends(character)
    } else {
        Character::Bad
    }
}

#[tactic(auto, unfolding(crate::specs::Text::behind_escape))]
fn behind_escape(character: u8) -> Character
    ensures value { result ≡ behind_escape character }
    ensures place { KeepsSpelling result }
{
    match character {
        b'\\' => Character::Ends(b'\\'),
        b'r' => Character::Ends(b'\r'),
        b'n' => Character::Ends(b'\n'),
        b'x' => Character::Inside(Spelling::Hex),
        _ => Character::Bad,
    }
}

#[tactic(auto, unfolding(crate::specs::Text::first_digit))]
fn first_digit(value: Option<u8>) -> Character
    requires { ForSome value (λ high. high < 16) }
    ensures value { result ≡ first_digit value }
    ensures place { KeepsSpelling result }
{
    match value {
        Some(high) => Character::Inside(Spelling::HexDigit(high)),
        None => Character::Bad,
    }
}

#[tactic(auto, unfolding(crate::specs::Text::second_digit))]
fn second_digit(high: u8, value: Option<u8>) -> Character
    requires high { high < 16 }
    requires low { ForSome value (λ low. low < 16) }
    ensures value { result ≡ second_digit high value }
    ensures place { KeepsSpelling result }
{
    match value {
        Some(low) => Character::Ends(16 * high + low),
        None => Character::Bad,
    }
}

#[tactic(auto, unfolding(crate::specs::Text::hex_value))]
fn hex_value(character: u8) -> Option<u8>
    ensures value { result ≡ hex_value character }
    ensures small { IfSome result (λ value. value < 16) }
{
    match character {
        b'0'..=b'9' => Some(character - b'0'),
        b'a'..=b'f' => Some(character - b'a' + 10),
        _ => None,
    }
}
