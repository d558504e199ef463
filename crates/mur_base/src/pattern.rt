// Patterns of names, as LIST has them (RFC 9051, 6.3.9).
ghost use Rattle.std.specs.Prelude.{◌≡◌, ℕ, ◌≤◌, Bool, List, [], length};
ghost use Rattle.mur_base.specs.Patterns.{matches, covers, is_wildcard, behind_some, behind_one, behind_byte, AreMarked};

use crate::limits::NAME_LIMIT;

/// The places of a text from which it matches what is left of a pattern, its end among them.
type Marks = [bool; NAME_LIMIT + 1];

/// Whether a text of at most `NAME_LIMIT` bytes matches a pattern of LIST (RFC 9051, 6.3.9): `*` stands for any bytes, `%`
/// for any without `.`, each other byte for itself. It takes no memory, and its time grows as the product of the lengths.
/// No name is longer, nor what a user is shown of one, so the marks of a text's places lie on the stack.
pub fn matches(pattern: &[u8], text: &[u8]) -> bool
    requires { length text.now ≤ NAME_LIMIT }
    ensures { result ≡ matches pattern.now text.now }
{
    let mut marks = end_marked(text);
    for i in (0..pattern.len()).rev() {
        mark_byte(pattern[i], text, &mut marks);
    }
    marks[0]
}

// The end alone is marked.
fn end_marked(text: &[u8]) -> Marks
    requires { length text.now ≤ NAME_LIMIT }
    ensures { AreMarked (matches []) text.now result }
{
    let mut marks = [false; NAME_LIMIT + 1];
    marks[text.len()] = true;
    marks
}

#[tactic(auto, unfolding(crate::specs::Patterns::behind_byte))]
fn mark_byte(byte: u8, text: &[u8], marks: &mut Marks)
    requires { length text.now ≤ NAME_LIMIT }
    ensures { (test : List ℕ → Bool) → AreMarked test text.now marks.old → AreMarked (behind_byte byte test) text.now marks.new }
{
    if is_wildcard(byte) {
        mark_some(byte, text, marks);
    } else {
        mark_one(byte, text, marks);
    }
}

// A place is marked where a marked one can be reached from it.
fn mark_some(wildcard: u8, text: &[u8], marks: &mut Marks)
    requires { length text.now ≤ NAME_LIMIT }
    ensures { (test : List ℕ → Bool) → AreMarked test text.now marks.old → AreMarked (behind_some wildcard test) text.now marks.new }
{
    for i in (0..text.len()).rev() {
        if covers(wildcard, text[i]) && marks[i + 1] {
            marks[i] = true;
        }
    }
}

// A place is marked where the byte stands and the next place was marked.
fn mark_one(byte: u8, text: &[u8], marks: &mut Marks)
    requires { length text.now ≤ NAME_LIMIT }
    ensures { (test : List ℕ → Bool) → AreMarked test text.now marks.old → AreMarked (behind_one byte test) text.now marks.new }
{
    for i in 0..text.len() {
        marks[i] = text[i] == byte && marks[i + 1];
    }
    marks[text.len()] = false;
}

#[tactic(auto, unfolding(crate::specs::Patterns::is_wildcard))]
fn is_wildcard(byte: u8) -> bool
    ensures { result ≡ is_wildcard byte }
{
    matches!(byte, b'*' | b'%')
}

#[tactic(auto, unfolding(crate::specs::Patterns::covers))]
fn covers(wildcard: u8, byte: u8) -> bool
    ensures { result ≡ covers wildcard byte }
{
    wildcard == b'*' || byte != b'.'
}
