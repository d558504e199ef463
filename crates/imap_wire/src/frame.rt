// What a client's bytes are cut into.
use mur_base::Bytes;
use thiserror::Error;

/// What a connection is cut into; its frames stand in the order in which they end (RFC 9051, 2.2.1 and 4.3).
#[derive(Drop)]
pub enum Frame {
    /// One command with its literals, from its first byte to its last CRLF.
    Whole(Bytes),
    /// The client waits for a continuation before it sends a literal of so many bytes.
    NeedLiteral(u32),
    /// A command that ends where it announces a literal `{n}` longer than `MESSAGE_LIMIT` or than it may still have: its
    /// bytes with that line's CRLF. The client waits and is refused, so the next byte begins a new command.
    TooBig(Bytes),
    /// Bytes that no frame can hold: the connection ends here.
    Fault(FrameFault),
}

/// Why a connection has no further frame.
#[derive(Clone, Copy, Debug, PartialEq, Eq, Error)]
pub enum FrameFault {
    /// A command has more than `LINE_LIMIT` bytes outside its literals and the CRLFs of its lines.
    #[error("a line is too long")]
    LineTooLong,
    /// A literal `{n+}`, which comes unasked, is longer than `PLUS_LITERAL_LIMIT` or than its command may still have.
    #[error("a literal that comes unasked is too long")]
    PlusTooLong,
}
