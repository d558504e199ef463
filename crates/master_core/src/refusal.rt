// Why a command is refused.
ghost use Rattle.std.specs.Prelude.{◌≡◌};
ghost use Rattle.master_core.specs.Refusals.{refusal_text};

/// Why the master refuses a command with NO (RFC 3656, 3.2).
#[derive(Clone, Copy, Debug, PartialEq, Eq)]
pub enum Refusal {
    /// The name is active already.
    Exists,
    /// The name is reserved already.
    Reserved,
    /// The name is not active.
    NotActive,
    /// The name has no record.
    NoSuchName,
    /// The sender is no backend, or the name or the location is at another server.
    NotYours,
    /// There are as many mailboxes as there may be.
    Full,
    /// The last serial is the greatest one.
    SerialsSpent,
}

impl Refusal {
    /// The text of its NO.
    pub fn text(self) -> &'static [u8]
        ensures { result.now ≡ refusal_text self }
    {
        match self {
            Refusal::Exists => b"1 exists",
            Refusal::Reserved => b"2 reserved",
            Refusal::NotActive => b"3 not active",
            Refusal::NoSuchName => b"4 no such name",
            Refusal::NotYours => b"5 not yours",
            Refusal::Full => b"6 full",
            Refusal::SerialsSpent => b"7 serials spent",
        }
    }
}
