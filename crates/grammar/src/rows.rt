// Tables of names, each with the value that it stands for.
ghost use Rattle.std.specs.Prelude.{◌≡◌, ◌∷◌, [], ◌++◌, map};
ghost use Rattle.std.specs.List.{list_any};
ghost use Rattle.grammar.specs.Tables.{any_case, starts_name, is_name};
ghost use Rattle.grammar.specs.Forms.{named, names_of, table};
ghost use Rattle.grammar.specs.Gives.{Finds};

use crate::error::Stop;
use crate::table::{begins_name_with, names};
use crate::word::{Kind, word_of};

/// The names of the rows, in any case of letters.
#[derive(Clone, Copy)]
struct RowNames<'t, T> {
    rows: &'t [(&'t [u8], T)],
}

fn some_begins_with<T>(rows: &[(&[u8], T)], text: &[u8], byte: u8) -> bool
    ensures { result ≡ list_any (λ name. starts_name name (text.now ++ byte ∷ [])) (names_of (map (λ row. (row.0.now, row.1)) rows.now)) }
{
    for row in rows {
        if begins_name_with(row.0, text, byte) {
            return true;
        }
    }
    false
}

fn some_is<T>(rows: &[(&[u8], T)], text: &[u8]) -> bool
    ensures { result ≡ list_any (λ name. is_name name text.now) (names_of (map (λ row. (row.0.now, row.1)) rows.now)) }
{
    for row in rows {
        if names(row.0, text) {
            return true;
        }
    }
    false
}

impl<T> Kind for RowNames<'_, T> {
    ghost words = { λ table. any_case (names_of (map (λ row. (row.0.now, row.1)) table.rows.now)) };

    #[tactic(auto, using(crate::proofs::TableLaw::some_push))]
    fn goes_on(&self, front: &[u8], byte: u8) -> bool {
        some_begins_with(self.rows, front, byte)
    }

    fn is_whole(&self, text: &[u8]) -> bool {
        some_is(self.rows, text)
    }

    ghost use Rattle.std.specs.Prelude.{refl};

    ghost empty_begins = { λ _. refl };
}

/// The value of the first name that a text is, in any case of letters; where it is none, another value.
fn value_of<T: Copy>(other: T, rows: &[(&[u8], T)], text: &[u8]) -> T
    ensures { result ≡ named other (map (λ row. (row.0.now, row.1)) rows.now) text.now }
{
    for row in rows {
        if names(row.0, text) {
            return row.1;
        }
    }
    other
}

/// Reads a name, in any case of letters, and gives its value. The other value stands in no answer.
pub fn table_of<'a, T: Copy>(
    other: T,
    rows: &[(&[u8], T)],
    bytes: &'a [u8],
) -> Result<(T, &'a [u8]), Stop>
    ensures { Finds (λ x. (x.0, x.1.now)) result ((table other (map (λ row. (row.0.now, row.1)) rows.now) (λ _. [])).part.at bytes.now) }
{
    let (name, rest) = word_of(&RowNames { rows }, bytes)?;
    Ok((value_of(other, rows, name), rest))
}
