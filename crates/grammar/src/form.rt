// Forms: readers and printers of the same parts.
ghost use Rattle.std.specs.Prelude.{◌≡◌, ◌==◌, ◌++◌, OnOk};
ghost use Rattle.grammar.specs.Forms.{Form, several, next_value, more_text, list_text};
ghost use Rattle.grammar.specs.Gives.{Gives};

use crate::class::byte_of;
use crate::error::ReadError;
use crate::turn::{Turn, repeated_of};
use mur_base::{Bytes, Items, Memory};
use std::alloc::Global;

/// A reader and a printer of one form.
pub trait Production {
    type Value: Drop;

    /// What is spelled and read, and how it is printed.
    ghost form: { Self → Form Self.Value };

    /// Reads what the bytes begin with.
    fn read<'a>(&self, alloc: Global, bytes: &'a [u8]) -> Result<(Self::Value, &'a [u8]), ReadError>
        ensures { Gives (λ x. (x.0, x.1.now)) result ((form self.now).part.at bytes.now) };

    /// Prints a value at the end of `out`, of which nothing is said after want of memory.
    fn put(&self, value: &Self::Value, out: &mut Bytes) -> Result<(), Memory>
        ensures { OnOk result (out.new ≡ out.old ++ (form self.now).text value.now) };
}

/// One value more behind a byte.
struct OneMore<'p, P> {
    alloc: Global,
    separator: u8,
    of: &'p P,
}

impl<P> Drop for OneMore<'_, P> {
    fn drop(self) {
        let OneMore {
            alloc: _,
            separator: _,
            of: _,
        } = self;
    }
}

impl<P: Production> Turn for OneMore<'_, P> {
    type State = Items<P::Value>;

    ghost starts = { λ more c. c == more.separator };

    ghost part = { λ more. next_value more.separator (P.form more.of.now).part };

    fn starts(&self, byte: u8) -> bool {
        byte == self.separator
    }

    fn turn<'a>(
        &self,
        state: Items<P::Value>,
        bytes: &'a [u8],
    ) -> Result<(Items<P::Value>, &'a [u8]), ReadError> {
        let mut list = state;
        let rest = byte_of(self.separator, bytes)?;
        let (value, rest) = self.of.read(self.alloc, rest)?;
        list.push(value)?;
        Ok((list, rest))
    }
}

/// Reads one value or more, a byte between any two.
pub fn several_of<'a, P: Production>(
    alloc: Global,
    separator: u8,
    of: &P,
    bytes: &'a [u8],
) -> Result<(Items<P::Value>, &'a [u8]), ReadError>
    ensures { Gives (λ x. (x.0, x.1.now)) result ((several separator (P.form of.now)).part.at bytes.now) }
{
    let mut list = Items::new(alloc);
    let (first, rest) = of.read(alloc, bytes)?;
    list.push(first)?;
    repeated_of(
        &OneMore {
            alloc,
            separator,
            of,
        },
        list,
        rest,
    )
}

/// Prints values, a byte before each.
#[tactic(auto, using(std::proofs::lemmas::Grind::common_steps))]
fn put_more<P: Production>(
    separator: u8,
    of: &P,
    list: &[P::Value],
    out: &mut Bytes,
) -> Result<(), Memory>
    ensures { OnOk result (out.new ≡ out.old ++ more_text separator (P.form of.now).text list.now) }
{
    for value in list {
        out.push(separator)?;
        of.put(value, out)?;
    }
    Ok(())
}

/// Prints values, a byte between any two.
#[tactic(auto, using(std::proofs::lemmas::Grind::common_steps))]
pub fn put_several<P: Production>(
    separator: u8,
    of: &P,
    list: &[P::Value],
    out: &mut Bytes,
) -> Result<(), Memory>
    ensures { OnOk result (out.new ≡ out.old ++ list_text separator (P.form of.now).text list.now) }
{
    match list {
        [] => Ok(()),
        [first, more @ ..] => {
            of.put(first, out)?;
            put_more(separator, of, more, out)
        }
    }
}
