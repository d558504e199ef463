// Fetch items.
ghost use Rattle.std.specs.Prelude.{◌≡◌};
ghost use Rattle.mail_message.specs.Partials.{partial_of};

use mur_base::Items;

/// A part of a body: at most so many bytes from a place on (RFC 9051, 6.4.5).
#[derive(Clone, Copy, Debug, PartialEq, Eq)]
pub struct Partial {
    /// The first byte, from 0 on.
    pub from: u64,
    /// How many bytes, at least one.
    pub count: u64,
}

impl Partial {
    /// So many bytes from a place on. `None` exactly where they are none (RFC 9051, 9: partial).
    pub fn new(from: u64, count: u64) -> Option<Partial>
        ensures { result ≡ partial_of from count }
    {
        if count == 0 {
            return None;
        }
        Some(Partial { from, count })
    }
}

/// A fetch item (RFC 9051, 6.4.5).
#[derive(Clone, Copy, Debug, PartialEq, Eq)]
pub enum Item {
    Flags,
    Uid,
    InternalDate,
    /// `RFC822.SIZE`.
    Size,
    /// `BODY[]`, which sets `\Seen`.
    Body(Option<Partial>),
    /// `BODY.PEEK[]`.
    BodyPeek(Option<Partial>),
}

/// Fetch items in the order in which they were asked for.
pub type FetchItems = Items<Item>;
