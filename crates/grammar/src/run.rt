// Runs of bytes of a set.
ghost use Rattle.grammar.specs.Runs.{run_of, run_upto};

use crate::class::Class;
use crate::word::Kind;

/// One byte of the set or more.
#[derive(Clone, Copy)]
pub struct Run<C> {
    pub of: C,
}

impl<C: Class> Kind for Run<C> {
    ghost words = { λ kind. run_of (C.test kind.of) };

    fn goes_on(&self, _front: &[u8], byte: u8) -> bool {
        self.of.holds(byte)
    }

    fn is_whole(&self, text: &[u8]) -> bool {
        !text.is_empty()
    }

    #[tactic(auto, using(crate::proofs::RunLaw::run_halts))]
    fn scanned_len(&self, bytes: &[u8]) -> usize {
        self.of.passing_len(bytes)
    }

    ghost use Rattle.std.specs.Prelude.{refl};

    ghost empty_begins = { λ _. refl };
}

/// One byte of the set to `most` bytes.
#[derive(Clone, Copy)]
pub struct RunUpTo<C> {
    pub of: C,
    pub most: usize,
}

impl<C: Class> Kind for RunUpTo<C> {
    ghost words = { λ kind. run_upto kind.most (C.test kind.of) };

    fn goes_on(&self, front: &[u8], byte: u8) -> bool {
        self.of.holds(byte) && front.len() < self.most
    }

    fn is_whole(&self, text: &[u8]) -> bool {
        !text.is_empty()
    }

    ghost use Rattle.std.proofs.Common.{rules};

    ghost empty_begins = { λ kind. Prim.search rules };
}
