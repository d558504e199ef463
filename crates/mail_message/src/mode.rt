// What STORE does with the flags that it names.

/// The mode of a STORE (RFC 9051, 6.4.6).
#[derive(Clone, Copy, Debug, PartialEq, Eq)]
pub enum Mode {
    /// `FLAGS`: the message has just these flags.
    Replace,
    /// `+FLAGS`: the message has these flags too.
    Add,
    /// `-FLAGS`: the message has these flags no longer.
    Remove,
}
