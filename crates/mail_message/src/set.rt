// Sets of message numbers as clients write them.
ghost use Rattle.std.specs.Prelude.{◌≡◌};
ghost use Rattle.mail_message.specs.Sets.{end_at, part_at, part_bounds, part_holds};

use mur_base::Items;

/// An end of a range (RFC 9051, 9: seq-number).
#[derive(Clone, Copy, Debug, PartialEq, Eq)]
pub enum SetEnd {
    /// A number from 1 on.
    Number(u32),
    /// `*`, the largest number in use.
    Last,
}

/// A part of a set (RFC 9051, 9: sequence-set).
#[derive(Clone, Copy, Debug, PartialEq, Eq)]
pub enum SetPart {
    One(SetEnd),
    /// All numbers from one end to the other, whichever is written first.
    Range(SetEnd, SetEnd),
}

/// The parts of a set, as they were written.
pub type SetParts = Items<SetPart>;

impl SetEnd {
    /// The end with a number in the place of `*`.
    pub fn at(self, last: u32) -> SetEnd
        ensures { result ≡ end_at last self }
    {
        match self {
            SetEnd::Number(number) => SetEnd::Number(number),
            SetEnd::Last => SetEnd::Number(last),
        }
    }
}

impl SetPart {
    /// The part with a number in the place of `*`.
    pub fn at(self, last: u32) -> SetPart
        ensures { result ≡ part_at last self }
    {
        match self {
            SetPart::One(end) => SetPart::One(end.at(last)),
            SetPart::Range(one, other) => SetPart::Range(one.at(last), other.at(last)),
        }
    }

    /// The least and the greatest number of the part, which holds all between them. `None` exactly where `*` stands in it, whose
    /// number isn't known here.
    pub fn bounds(self) -> Option<(u32, u32)>
        ensures { result ≡ part_bounds self }
    {
        match self {
            SetPart::One(SetEnd::Number(number)) => Some((number, number)),
            SetPart::Range(SetEnd::Number(one), SetEnd::Number(other)) => {
                Some((one.min(other), one.max(other)))
            }
            SetPart::One(SetEnd::Last) | SetPart::Range(_, _) => None,
        }
    }

    /// Whether a number is in the part; none is where `*` stands in it.
    pub fn holds(self, number: u32) -> bool
        ensures { result ≡ part_holds self number }
    {
        match self.bounds() {
            Some((least, greatest)) => least <= number && number <= greatest,
            None => false,
        }
    }
}
