// The reader of a grammar on whole byte strings.
ghost use Rattle.grammar.specs.Part.{Part};
ghost use Rattle.grammar.specs.Exact.{Exact, at_end, whole_at};
ghost use Rattle.grammar.specs.Gives.{Gives, Finds, ReadsAs};

use crate::error::{ReadError, Stop};
use std::alloc::Global;

/// A grammar: a part, and its reader.
pub trait Grammar {
    type Value: Drop;

    /// What is spelled, and how it is read.
    ghost part: { Self → Part Self.Value };

    /// Reads what the bytes begin with.
    fn read<'a>(&self, alloc: Global, bytes: &'a [u8]) -> Result<(Self::Value, &'a [u8]), ReadError>
        ensures { Gives (λ x. (x.0, x.1.now)) result ((part self.now).at bytes.now) };
}

/// The value, where nothing stands behind it.
pub fn ended<T: Drop>(value: T, rest: &[u8]) -> Result<T, Stop>
    ensures { Finds (λ v. v) result (at_end value rest.now) }
{
    if rest.is_empty() {
        Ok(value)
    } else {
        Err(Stop { left: rest.len() })
    }
}

/// Reads bytes as a whole: a value exactly where they spell it, else a stop behind their longest prefix that begins some
/// spelling. The caller proves that the grammar is exact, by the laws of the parts that it is made of.
pub fn whole_of<G: Grammar>(alloc: Global, grammar: &G, bytes: &[u8]) -> Result<G::Value, ReadError>
    requires { Exact (G.part grammar.now).lang (whole_at (G.part grammar.now)) }
    ensures { ReadsAs (G.part grammar.now).lang bytes.now result }
{
    let (value, rest) = grammar.read(alloc, bytes)?;
    Ok(ended(value, rest)?)
}
