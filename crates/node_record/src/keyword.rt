// Keywords, each higher than the one before it.
ghost use Rattle.std.specs.Prelude.{◌≡◌, ◌≤◌, ◌<◌, ◌-◌, ◌∷◌, [], ◌++◌, length, replicate, None, true, IfOk};
ghost use Rattle.std.specs.List.{list_all};
ghost use Rattle.mail_message.specs.Keywords.{has_atom_bytes, is_atom_byte, keyword_fault};
ghost use Rattle.grammar.specs.Gives.{Finds};
ghost use Rattle.node_record.specs.Flags.{last_byte, leaves_room, is_next, tildes_to, goes_on, next_keywords, is_size, keyword};

use crate::number::small_of;
use grammar::{Class, Kind, Stop, word_of};

/// How many bytes a keyword has at most.
const KEYWORD_BYTES: usize = 64;

#[tactic(auto, unfolding(mail_message::specs::Keywords::is_atom_byte))]
fn is_atom_byte(byte: u8) -> bool
    ensures { result ≡ is_atom_byte byte }
{
    matches!(byte, b'!'..=b'~')
        && !matches!(byte, b'(' | b')' | b'{' | b'%' | b'*' | b'"' | b'\\' | b']')
}

#[tactic(auto, unfolding(mail_message::specs::Keywords::has_atom_bytes))]
fn is_atom(text: &[u8]) -> bool
    ensures { result ≡ has_atom_bytes text.now }
{
    text.iter().all(|byte| is_atom_byte(*byte))
}

/// The last byte of the keyword above which there are so many, behind 63 `~`.
#[tactic(auto, unfolding(crate::specs::Flags::last_byte))]
fn last_byte(above: u8) -> u8
    requires { above ≤ 15 }
    ensures { result ≡ last_byte above }
{
    if above < 3 { 126 - above } else { 125 - above }
}

/// Whether a text stands so low that there are keywords enough above it.
#[tactic(auto, using(crate::proofs::RoomSteps::room_at_63, crate::proofs::RoomSteps::room_other, crate::proofs::RoomSteps::room_next, crate::proofs::RoomSteps::room_end))]
fn leaves_room(last: u8, text: &[u8]) -> bool
    ensures { result ≡ leaves_room 63 last text.now }
{
    for (i, byte) in text.iter().enumerate() {
        if i == 63 {
            return *byte <= last;
        }
        if *byte != b'~' {
            return true;
        }
    }
    true
}

/// A text with a byte behind it as often as it takes for 64 bytes.
fn filled(front: &[u8], byte: u8) -> [u8; KEYWORD_BYTES]
    requires { length front.now ≤ 64 }
    ensures { result ≡ front.now ++ replicate (64 - length front.now) byte }
{
    let mut text = [byte; KEYWORD_BYTES];
    text[..front.len()].copy_from_slice(front);
    text
}

/// Which keyword is wanted: of so many bytes, higher than the one before it, and with room for so many above it.
#[derive(Clone, Copy)]
struct Wanted<'k> {
    before: &'k [u8],
    above: u8,
    size: usize,
    ghost few: { above ≤ 15 },
    ghost short: { size ≤ 64 },
}

impl Wanted<'_> {
    #[tactic(auto, unfolding(crate::specs::Flags::is_next))]
    fn is_next(&self, text: &[u8]) -> bool
        ensures { result ≡ is_next self.now.before.now self.now.above self.now.size text.now }
    {
        text.len() == self.size
            && is_atom(text)
            && self.before.cmp(text).is_lt()
            && leaves_room(last_byte(self.above), text)
    }

    /// Whether a text is such a keyword with `~` behind it, of which the last is another byte.
    #[tactic(auto, using(crate::proofs::FillSteps::filled_to, crate::proofs::FillSteps::filled_whole, crate::proofs::FillSteps::filled_length, crate::proofs::FillSteps::too_long))]
    fn is_filled(&self, front: &[u8], last: u8) -> bool
        ensures { result ≡ is_next self.now.before.now self.now.above self.now.size (front.now ++ tildes_to last (self.now.size - length front.now)) }
    {
        if front.len() > self.size {
            return false;
        }
        let mut text = filled(front, b'~');
        if front.len() < self.size {
            text[self.size - 1] = last;
        }
        self.is_next(&text[..self.size])
    }

    /// Whether a text goes on to such a keyword.
    #[tactic(auto, unfolding(crate::specs::Flags::goes_on))]
    fn begins(&self, front: &[u8]) -> bool
        ensures { result ≡ goes_on self.now.before.now self.now.above self.now.size front.now }
    {
        self.is_filled(front, b'~') || self.is_filled(front, last_byte(self.above))
    }
}

/// The sizes of the keywords that may come next.
#[derive(Clone, Copy)]
struct Sizes<'k> {
    before: &'k [u8],
    above: u8,
    ghost few: { above ≤ 15 },
}

impl Class for Sizes<'_> {
    ghost test = { λ sizes. is_size sizes.before.now sizes.above };

    #[tactic(auto, unfolding(crate::specs::Flags::is_size))]
    fn holds(&self, byte: u8) -> bool {
        (1..=64).contains(&byte)
            && Wanted {
                before: self.before,
                above: self.above,
                size: usize::from(byte),
            }
            .begins(&[])
    }
}

/// The keywords that are wanted, of which there is one.
#[derive(Clone, Copy)]
struct NextKeyword<'k> {
    wanted: Wanted<'k>,
    ghost some: { goes_on wanted.before.now wanted.above wanted.size [] ≡ true },
}

impl Kind for NextKeyword<'_> {
    ghost words = { λ kind. next_keywords kind.wanted.before.now kind.wanted.above kind.wanted.size };

    #[tactic(auto, using(crate::proofs::FillSteps::filled_more, crate::proofs::FillSteps::filled_length, crate::proofs::FillSteps::stays_long))]
    fn goes_on(&self, front: &[u8], byte: u8) -> bool {
        let len = front.len();
        if len >= self.wanted.size {
            return false;
        }
        self.wanted.begins(&filled(front, byte)[..len + 1])
    }

    fn is_whole(&self, text: &[u8]) -> bool {
        self.wanted.is_next(text)
    }

    ghost empty_begins = { λ kind. kind.some };
}

/// Reads the text of a keyword, with room for so many above it.
pub fn keyword_of<'a>(
    before: &[u8],
    above: u8,
    bytes: &'a [u8],
) -> Result<(&'a [u8], &'a [u8]), Stop>
    requires { above ≤ 15 }
    ensures reads { Finds (λ x. (x.0.now, x.1.now)) result ((keyword before.now above).at bytes.now) }
    ensures next { IfOk result (λ x. is_next before.now above (length x.0.now) x.0.now ≡ true) }
    ensures named { IfOk result (λ x. keyword_fault x.0.now ≡ None) }
{
    let (size, rest) = small_of(&Sizes { before, above }, bytes)?;
    let wanted = Wanted {
        before,
        above,
        size: usize::from(size),
    };
    word_of(&NextKeyword { wanted }, rest)
}
