// Names of nodes, users and mailboxes: byte texts that are checked once, where they are made.
ghost use Rattle.std.specs.Prelude.{◌≡◌, ℕ, List, length, None, Option};
ghost use Rattle.mur_base.specs.declared.name.NameFault.{NameFault};
ghost use Rattle.mur_base.specs.Names.{IsReadAsName};

use crate::copied::Copied;
use crate::list::Bytes;
use crate::memory::Memory;
use std::alloc::Global;
use std::cmp::Ordering;
use std::marker::{Model, PhantomData};
use thiserror::Error;

/// The first rule that a text breaks, in this order.
#[derive(Clone, Copy, Debug, PartialEq, Eq, Error)]
pub enum NameFault {
    /// The text is empty.
    #[error("the name is empty")]
    Empty,
    /// The text has more bytes than such a name may have.
    #[error("the name is too long")]
    TooLong,
    /// A byte stands in it that no such name has, or a mailbox name isn't UTF-8.
    #[error("the name has a byte that no such name has")]
    BadByte,
    /// A level of a mailbox name is empty.
    #[error("a level of the name is empty")]
    BadLevel,
    /// The allocator had no room for the name.
    #[error("out of memory")]
    Memory,
}

impl From<Memory> for NameFault {
    ghost use Rattle.std.specs.Prelude.{◌≡◌};
    ghost use Rattle.mur_base.specs.declared.name.NameFault.TheVariants.{Memory as memory};

    ghost from_gives = { λ _ fault. fault ≡ memory };

    fn from(_memory: Memory) -> NameFault {
        NameFault::Memory
    }
}

/// What the texts of one kind of name have to keep.
pub trait NameRule {
    ghost fault: { List ℕ → Option NameFault };

    /// The first rule that a text breaks.
    fn fault_of(text: &[u8]) -> Option<NameFault>
        ensures { result ≡ fault text.now };
}

/// A name of one kind. Names are compared byte by byte.
#[derive(Drop)]
pub struct Name<R: NameRule> {
    text: Bytes,
    rule: PhantomData<R>,
}

impl<R: NameRule> Model for Name<R> {
    ghost use Rattle.std.specs.Prelude.{◌≡◌, List, ℕ, None};

    ghost Value = { List ℕ };

    ghost view = { λ name. name.text };

    ghost invariant = { λ name. R.fault name.text ≡ None };
}

impl<R: NameRule> Name<R> {
    /// The name that a text is, refused by the first rule that it breaks.
    pub fn read(alloc: Global, text: &[u8]) -> Result<Name<R>, NameFault>
        ensures { IsReadAsName (R.fault text.now) text.now result }
    {
        match R::fault_of(text) {
            Some(fault) => Err(fault),
            None => Ok(Name {
                text: Bytes::from_slice(alloc, text)?,
                rule: PhantomData,
            }),
        }
    }

    pub fn as_bytes(&self) -> &[u8]
        ensures { result.now ≡ self.now }
    {
        self.text.as_slice()
    }

    /// How many bytes the name has; whoever asks learns that it keeps its rule. It takes no memory.
    pub fn len(&self) -> usize
        ensures size { result ≡ length self.now }
        ensures ruled { R.fault self.now ≡ None }
    {
        self.text.len()
    }
}

impl<R: NameRule> Copied for Name<R> {
    fn copy(&self, alloc: Global) -> Result<Name<R>, Memory> {
        Ok(Name {
            text: Bytes::from_slice(alloc, self.text.as_slice())?,
            rule: PhantomData,
        })
    }
}

impl<R: NameRule> PartialEq for Name<R> {
    ghost use Rattle.std.specs.Prelude.{nat_eq};
    ghost use Rattle.std.specs.Cmp.{partial_equiv_from_equiv};
    ghost use Rattle.std.specs.Cmp.Lexicographic.{nat_list_eq_equiv, pointwise};

    ghost eq = { pointwise nat_eq };

    ghost laws = { partial_equiv_from_equiv nat_list_eq_equiv };

    fn eq(&self, other: &Name<R>) -> bool {
        self.as_bytes() == other.as_bytes()
    }
}

impl<R: NameRule> Eq for Name<R> {
    ghost use Rattle.std.specs.Cmp.Lexicographic.{nat_list_eq_equiv};

    ghost laws = { nat_list_eq_equiv };
}

impl<R: NameRule> PartialOrd for Name<R> {
    ghost use Rattle.std.specs.Prelude.{Some};
    ghost use Rattle.std.specs.Ordering.{nat_cmp};
    ghost use Rattle.std.specs.Cmp.Lexicographic.{slice_cmp, texts_po};

    ghost partial_cmp = { λ x y. Some (slice_cmp nat_cmp x y) };

    ghost laws = { texts_po };

    fn partial_cmp(&self, other: &Name<R>) -> Option<Ordering> {
        Some(self.cmp(other))
    }
}

impl<R: NameRule> Ord for Name<R> {
    ghost use Rattle.std.specs.Prelude.{refl};
    ghost use Rattle.std.specs.Ordering.{nat_cmp};
    ghost use Rattle.std.specs.Cmp.Lexicographic.{slice_cmp, nat_list_cmp_total, texts_ties};

    ghost cmp = { slice_cmp nat_cmp };

    ghost total = { nat_list_cmp_total };

    ghost matches_partial_cmp = { λ x y. refl };

    ghost matches_eq = { texts_ties };

    fn cmp(&self, other: &Name<R>) -> Ordering {
        self.as_bytes().cmp(other.as_bytes())
    }
}
