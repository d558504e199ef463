// Characters of two to four bytes (RFC 3629, 4).
ghost use Rattle.grammar.specs.Gives.{Gives};
ghost use Rattle.imap_text.specs.Characters.{is_utf8_tail};
ghost use Rattle.imap_text.specs.Utf8.{led, utf8_2, utf8_3, utf8_4, utf8_char};

use grammar::{Between, Class, ReadError, begins, exactly_of};
use mur_base::Bytes;

/// UTF8-tail.
#[derive(Clone, Copy)]
struct Tail;

impl Class for Tail {
    ghost test = { λ _. is_utf8_tail };

    #[tactic(auto, unfolding(crate::specs::Characters::is_utf8_tail))]
    fn holds(&self, byte: u8) -> bool {
        (128..=191).contains(&byte)
    }
}

/// Puts a character behind a text: a first byte, a second byte, and tails.
#[tactic(auto, using(std::proofs::lemmas::Grind::common_steps), unfolding(crate::specs::Utf8::led))]
fn led_of(
    first: Between,
    second: Between,
    tails: usize,
    text: Bytes,
    bytes: &[u8],
) -> Result<(Bytes, &[u8]), ReadError>
    ensures { Gives (λ x. (x.0, x.1.now)) result ((led first.0 first.1 second.0 second.1 tails text).at bytes.now) }
{
    let mut text = text;
    let (lead, rest) = exactly_of(&first, 1, bytes)?;
    let (next, rest) = exactly_of(&second, 1, rest)?;
    let (last, rest) = exactly_of(&Tail, tails, rest)?;
    text.extend_from_slice(lead)?;
    text.extend_from_slice(next)?;
    text.extend_from_slice(last)?;
    Ok((text, rest))
}

#[tactic(auto, unfolding(crate::specs::Utf8::utf8_2))]
fn utf8_2_of(text: Bytes, bytes: &[u8]) -> Result<(Bytes, &[u8]), ReadError>
    ensures { Gives (λ x. (x.0, x.1.now)) result ((utf8_2 text).at bytes.now) }
{
    led_of(Between(194, 223), Between(128, 191), 0, text, bytes)
}

#[tactic(auto, unfolding(crate::specs::Utf8::utf8_3))]
fn utf8_3_of(text: Bytes, bytes: &[u8]) -> Result<(Bytes, &[u8]), ReadError>
    ensures { Gives (λ x. (x.0, x.1.now)) result ((utf8_3 text).at bytes.now) }
{
    if begins(&Between(224, 224), bytes) {
        led_of(Between(224, 224), Between(160, 191), 1, text, bytes)
    } else if begins(&Between(225, 236), bytes) {
        led_of(Between(225, 236), Between(128, 191), 1, text, bytes)
    } else if begins(&Between(237, 237), bytes) {
        led_of(Between(237, 237), Between(128, 159), 1, text, bytes)
    } else {
        led_of(Between(238, 239), Between(128, 191), 1, text, bytes)
    }
}

#[tactic(auto, unfolding(crate::specs::Utf8::utf8_4))]
fn utf8_4_of(text: Bytes, bytes: &[u8]) -> Result<(Bytes, &[u8]), ReadError>
    ensures { Gives (λ x. (x.0, x.1.now)) result ((utf8_4 text).at bytes.now) }
{
    if begins(&Between(240, 240), bytes) {
        led_of(Between(240, 240), Between(144, 191), 2, text, bytes)
    } else if begins(&Between(241, 243), bytes) {
        led_of(Between(241, 243), Between(128, 191), 2, text, bytes)
    } else {
        led_of(Between(244, 244), Between(128, 143), 2, text, bytes)
    }
}

/// Puts a character behind a text.
#[tactic(auto, unfolding(crate::specs::Utf8::utf8_char))]
pub fn utf8_of(text: Bytes, bytes: &[u8]) -> Result<(Bytes, &[u8]), ReadError>
    ensures { Gives (λ x. (x.0, x.1.now)) result ((utf8_char text).at bytes.now) }
{
    if begins(&Between(194, 223), bytes) {
        utf8_2_of(text, bytes)
    } else if begins(&Between(224, 239), bytes) {
        utf8_3_of(text, bytes)
    } else {
        utf8_4_of(text, bytes)
    }
}
