// Words by a test of what goes on.
ghost use Rattle.std.specs.Prelude.{◌≡◌, true, ◌∷◌, [], ◌++◌, ◌≤◌, length, take, drop, IfOk};
ghost use Rattle.grammar.specs.Words.{Words, word, scan, halt};
ghost use Rattle.grammar.specs.Gives.{Finds};

use crate::error::Stop;

/// A kind of words.
pub trait Kind {
    /// The set of words.
    ghost words: { Self → Words };

    /// Whether a text that begins a word still does with one byte more.
    fn goes_on(&self, front: &[u8], byte: u8) -> bool
        requires { (words self.now).begins front.now ≡ true }
        ensures { result ≡ (words self.now).begins (front.now ++ byte ∷ []) };

    /// Whether a text that begins a word is one.
    fn is_whole(&self, text: &[u8]) -> bool
        requires { (words self.now).begins text.now ≡ true }
        ensures { result ≡ (words self.now).whole text.now };

    /// How many bytes a scan takes: one by one, where a kind has no faster search.
    fn scanned_len(&self, bytes: &[u8]) -> usize
        ensures within { result ≤ length bytes.now }
        ensures begins { (words self.now).begins (take result bytes.now) ≡ true }
        ensures halts { scan (words self.now) [] bytes.now
            ≡ halt ((words self.now).whole (take result bytes.now)) (take result bytes.now) (drop result bytes.now) }
    {
        for (i, byte) in bytes.iter().enumerate() {
            if !self.goes_on(&bytes[..i], *byte) {
                return i;
            }
        }
        bytes.len()
    }

    /// The empty text begins a word.
    ghost empty_begins: { (kind : Self) → (words kind).begins [] ≡ true };
}

/// Reads the longest text that begins a word, and gives it and the bytes behind it where it is one.
pub fn word_of<'a, K: Kind>(kind: &K, bytes: &'a [u8]) -> Result<(&'a [u8], &'a [u8]), Stop>
    ensures reads { Finds (λ x. (x.0.now, x.1.now)) result ((word (K.words kind.now)).at bytes.now) }
    ensures whole { IfOk result (λ x. (K.words kind.now).whole x.0.now ≡ true) }
{
    let (text, rest) = bytes.split_at(kind.scanned_len(bytes));
    if kind.is_whole(text) {
        Ok((text, rest))
    } else {
        Err(Stop { left: rest.len() })
    }
}
