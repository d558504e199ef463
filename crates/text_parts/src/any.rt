// Any bytes, taken at once.
use grammar::Class;

/// Any byte.
#[derive(Clone, Copy)]
pub struct Any;

impl Class for Any {
    ghost use Rattle.grammar.specs.Exact.{any};

    ghost test = { λ _. any };

    fn holds(&self, _byte: u8) -> bool {
        true
    }

    #[tactic(auto, using(crate::proofs::AnyLaw::all_any))]
    fn passing_len(&self, bytes: &[u8]) -> usize {
        bytes.len()
    }
}
