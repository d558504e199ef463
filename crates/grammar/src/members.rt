// Words that are one of some texts, byte by byte.
ghost use Rattle.std.specs.Prelude.{◌≡◌, ◌∷◌, [], ◌++◌, map};
ghost use Rattle.std.specs.List.{list_any};
ghost use Rattle.grammar.specs.Members.{begins_with, is_same, members};

use crate::class::Class;
use crate::word::Kind;

/// One of the texts, of bytes of the set.
#[derive(Clone, Copy)]
pub struct Members<'t, C> {
    pub of: C,
    pub texts: &'t [&'t [u8]],
}

/// Whether a text begins with these bytes.
#[tactic(auto, using(crate::proofs::NameSteps::name_steps))]
fn begins_with(text: &[u8], front: &[u8]) -> bool
    ensures { result ≡ begins_with text.now front.now }
{
    for (i, byte) in front.iter().enumerate() {
        if i >= text.len() || text[i] != *byte {
            return false;
        }
    }
    true
}

/// Whether a text begins with these bytes and one more.
#[tactic(auto, using(crate::proofs::NameSteps::name_steps))]
fn begins_with_more(text: &[u8], front: &[u8], byte: u8) -> bool
    ensures { result ≡ begins_with text.now (front.now ++ byte ∷ []) }
{
    front.len() < text.len() && begins_with(text, front) && text[front.len()] == byte
}

/// Whether a text is these bytes.
#[tactic(auto, using(crate::proofs::NameSteps::name_steps))]
fn is_same(text: &[u8], other: &[u8]) -> bool
    ensures { result ≡ is_same text.now other.now }
{
    text.len() == other.len() && begins_with(text, other)
}

fn some_begin_with(texts: &[&[u8]], front: &[u8], byte: u8) -> bool
    ensures { result ≡ list_any (λ text. begins_with text (front.now ++ byte ∷ [])) (map (λ text. text.now) texts.now) }
{
    for text in texts {
        if begins_with_more(text, front, byte) {
            return true;
        }
    }
    false
}

fn some_are(texts: &[&[u8]], other: &[u8]) -> bool
    ensures { result ≡ list_any (λ text. is_same text other.now) (map (λ text. text.now) texts.now) }
{
    for text in texts {
        if is_same(text, other) {
            return true;
        }
    }
    false
}

impl<C: Class> Kind for Members<'_, C> {
    ghost words = { λ kind. members (C.test kind.of) (map (λ text. text.now) kind.texts.now) };

    #[tactic(auto, using(crate::proofs::MembersLaw::some_of_push, crate::proofs::RunLaw::all_push))]
    fn goes_on(&self, front: &[u8], byte: u8) -> bool {
        self.of.holds(byte) && some_begin_with(self.texts, front, byte)
    }

    fn is_whole(&self, text: &[u8]) -> bool {
        !text.is_empty() && some_are(self.texts, text)
    }

    ghost use Rattle.std.specs.Prelude.{refl};

    ghost empty_begins = { λ _. refl };
}
