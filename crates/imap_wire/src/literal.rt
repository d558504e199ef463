// The literal that a line announces at its end.
ghost use Rattle.std.specs.Prelude.{◌≡◌, ◌-◌, ◌^◌, length, drop, min, All};
ghost use Rattle.std.specs.Option.{option_map};
ghost use Rattle.std.specs.Str.Parse.{digits_value};

use mur_base::limits::{MESSAGE_LIMIT, PLUS_LITERAL_LIMIT};

/// A literal as a line announces it: `{n}` or `{n+}` (RFC 9051, 4.3).
#[derive(Clone, Copy)]
pub struct Literal {
    /// How many octets it has.
    pub size: usize,
    /// Whether the client waits for a continuation before it sends the literal, as after `{n}`.
    pub waits: bool,
}

/// What becomes of a literal that a line announces.
#[derive(Clone, Copy)]
pub enum Admission {
    /// It belongs to the command, and the client has to be asked for it.
    Asked,
    /// It belongs to the command, and the client sends it unasked.
    Unasked,
    /// It is refused, and the client sends a new command in its place.
    Refused,
    /// It is refused, and the client sends it all the same.
    RefusedUnasked,
}

impl Literal {
    ghost use Rattle.imap_wire.specs.Literal.{admission_of};

    /// What becomes of the literal of a command whose literals may have so many further bytes.
    #[tactic(auto, unfolding(crate::specs::Literal::admission_of))]
    pub fn admission(self, room: usize) -> Admission
        ensures { result ≡ admission_of self room }
    {
        match self.waits {
            true if self.size > MESSAGE_LIMIT || self.size > room => Admission::Refused,
            true => Admission::Asked,
            false if self.size > PLUS_LITERAL_LIMIT || self.size > room =>
                Admission::RefusedUnasked,
            false => Admission::Unasked,
        }
    }
}

ghost use Rattle.imap_wire.specs.Literal.{announced as announced_by, sized as sized_by, capped, last_digits, IsDigit};

/// The literal that the text of a line announces at its end. A size past 64 bits counts as the largest of 64 bits,
/// which is past every limit too.
#[tactic(auto, unfolding(crate::specs::Literal::announced))]
pub fn announced(text: &[u8]) -> Option<Literal>
    ensures { result ≡ option_map capped (announced_by text.now) }
{
    if text.ends_with(b"+}") {
        sized(false, &text[..text.len() - 2])
    } else if text.ends_with(b"}") {
        sized(true, &text[..text.len() - 1])
    } else {
        None
    }
}

/// The literal whose size stands at the end of these bytes, behind a `{`.
#[tactic(auto, unfolding(crate::specs::Literal::sized))]
fn sized(waits: bool, bytes: &[u8]) -> Option<Literal>
    ensures { result ≡ option_map capped (sized_by waits bytes.now) }
{
    let (front, digits) = bytes.split_at(digits_at(bytes));
    if digits.is_empty() || !front.ends_with(b"{") {
        return None;
    }
    Some(Literal {
        size: size_of(digits),
        waits,
    })
}

/// Where the digits at the end of these bytes begin.
fn digits_at(bytes: &[u8]) -> usize
    ensures place { result ≡ length bytes.now - last_digits bytes.now }
    ensures digits { All IsDigit (drop result bytes.now) }
{
    let mut at = bytes.len();
    while at > 0 && bytes[at - 1].is_ascii_digit() {
        at -= 1;
    }
    at
}

/// The number of these digits, or the largest of 64 bits where it is larger.
fn size_of(digits: &[u8]) -> usize
    requires { All IsDigit digits.now }
    ensures { result ≡ min (digits_value 10 digits.now) (2 ^ 64 - 1) }
{
    let mut size: usize = 0;
    for digit in digits {
        size = size
            .saturating_mul(10)
            .saturating_add(usize::from(*digit - b'0'));
    }
    size
}
