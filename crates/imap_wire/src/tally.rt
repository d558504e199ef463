// How often the bytes of a connection are copied.
ghost use Rattle.std.specs.Prelude.{◌≡◌};

/// How many bytes of a connection were taken, and how many were copied for it. Each count stands still at the largest
/// number of 64 bits.
#[derive(Clone, Copy, Debug, PartialEq, Eq)]
pub struct Tally {
    pub taken: u64,
    pub copied: u64,
}

impl Tally {
    ghost use Rattle.imap_wire.specs.Tally.{no_tally, more};

    /// Of a connection of which nothing has come.
    pub fn new() -> Tally
        ensures { result ≡ no_tally }
    {
        Tally {
            taken: 0,
            copied: 0,
        }
    }

    /// Counts bytes that were taken, and bytes that were copied.
    pub fn add(&mut self, taken: usize, copied: usize)
        ensures { self.new ≡ more self.old taken copied }
    {
        self.taken = self.taken.saturating_add(taken as u64);
        self.copied = self.copied.saturating_add(copied as u64);
    }
}
