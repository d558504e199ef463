// Names of a table, in any case of letters.
ghost use Rattle.std.specs.Prelude.{◌≡◌, ◌∷◌, [], ◌++◌, map};
ghost use Rattle.std.specs.List.{list_any};
ghost use Rattle.grammar.specs.Tables.{any_case, starts_name, is_name};

use crate::word::Kind;

/// The names of a table, in any case of letters.
#[derive(Clone, Copy)]
pub struct AnyCase<'t> {
    pub names: &'t [&'t [u8]],
}

/// Whether a name begins with a text, in any case.
#[tactic(auto, using(crate::proofs::NameSteps::name_steps))]
fn begins_name(name: &[u8], text: &[u8]) -> bool
    ensures { result ≡ starts_name name.now text.now }
{
    for (i, byte) in text.iter().enumerate() {
        if i >= name.len() || !name[i].eq_ignore_ascii_case(byte) {
            return false;
        }
    }
    true
}

/// Whether a name begins with a text and one byte more, in any case.
#[tactic(auto, using(crate::proofs::NameSteps::name_steps))]
pub fn begins_name_with(name: &[u8], text: &[u8], byte: u8) -> bool
    ensures { result ≡ starts_name name.now (text.now ++ byte ∷ []) }
{
    text.len() < name.len()
        && begins_name(name, text)
        && name[text.len()].eq_ignore_ascii_case(&byte)
}

/// Whether a text is a name, in any case.
#[tactic(auto, using(crate::proofs::NameSteps::name_steps))]
pub fn names(name: &[u8], text: &[u8]) -> bool
    ensures { result ≡ is_name name.now text.now }
{
    name.len() == text.len() && begins_name(name, text)
}

fn some_begins_with(table: &[&[u8]], text: &[u8], byte: u8) -> bool
    ensures { result ≡ list_any (λ name. starts_name name (text.now ++ byte ∷ [])) (map (λ name. name.now) table.now) }
{
    for name in table {
        if begins_name_with(name, text, byte) {
            return true;
        }
    }
    false
}

fn some_is(table: &[&[u8]], text: &[u8]) -> bool
    ensures { result ≡ list_any (λ name. is_name name text.now) (map (λ name. name.now) table.now) }
{
    for name in table {
        if names(name, text) {
            return true;
        }
    }
    false
}

impl Kind for AnyCase<'_> {
    ghost words = { λ table. any_case (map (λ name. name.now) table.names.now) };

    #[tactic(auto, using(crate::proofs::TableLaw::some_push))]
    fn goes_on(&self, front: &[u8], byte: u8) -> bool {
        some_begins_with(self.names, front, byte)
    }

    fn is_whole(&self, text: &[u8]) -> bool {
        some_is(self.names, text)
    }

    ghost use Rattle.std.specs.Prelude.{refl};

    ghost empty_begins = { λ _. refl };
}
