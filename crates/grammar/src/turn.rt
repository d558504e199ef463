// Turns of a part that changes a state: repetitions.
ghost use Rattle.std.specs.Prelude.{◌≡◌, ◌<◌, ℕ, Bool, IfOk, IfErr};
ghost use Rattle.grammar.specs.Part.{Part, repeat, starts};
ghost use Rattle.grammar.specs.Turns.{BeginsTurn, TakesTurns};
ghost use Rattle.grammar.specs.Gives.{Gives, StopsAs};

use crate::error::ReadError;

/// A part that is read again and again, each time with the state that the turn before left.
pub trait Turn {
    /// What the turns change, as the list so far.
    type State: Drop;

    /// Whether a turn begins with a byte.
    ghost starts: { Self → ℕ → Bool };

    /// What a turn spells, and the state that it leaves.
    ghost part: { Self → Self.State → Part Self.State };

    fn starts(&self, byte: u8) -> bool
        ensures { result ≡ starts self.now byte };

    fn turn<'a>(
        &self,
        state: Self::State,
        bytes: &'a [u8],
    ) -> Result<(Self::State, &'a [u8]), ReadError>
        ensures { Gives (λ x. (x.0, x.1.now)) result ((part self.now state).at bytes.now) };

    /// Takes some turns at once, at most so many, and gives the state that they leave, the bytes behind them and how many they
    /// were: one, where turns have no faster way.
    fn turns<'a>(
        &self,
        most: usize,
        state: Self::State,
        bytes: &'a [u8],
    ) -> Result<(Self::State, &'a [u8], usize), ReadError>
        requires some { 0 < most }
        requires begins { BeginsTurn (starts self.now) bytes.now }
        ensures taken { IfOk result (λ x. TakesTurns (starts self.now) (part self.now) most state bytes.now x.0 x.1.now x.2) }
        ensures stops { IfErr result (λ error. StopsAs error ((part self.now state).at bytes.now)) }
    {
        let (next, rest) = self.turn(state, bytes)?;
        Ok((next, rest, 1))
    }
}

/// Whether the bytes begin a turn.
fn begins_turn<T: Turn>(turn: &T, bytes: &[u8]) -> bool
    ensures { result ≡ starts (T.starts turn.now) bytes.now }
{
    match bytes {
        [first, ..] => turn.starts(*first),
        [] => false,
    }
}

/// Reads turns as long as the next byte begins one, and gives the last state and the bytes behind.
pub fn repeated_of<'a, T: Turn>(
    turn: &T,
    state: T::State,
    bytes: &'a [u8],
) -> Result<(T::State, &'a [u8]), ReadError>
    ensures { Gives (λ x. (x.0, x.1.now)) result ((repeat (T.starts turn.now) (T.part turn.now) state).at bytes.now) }
{
    let mut state = state;
    let mut rest = bytes;
    let mut left = bytes.len();
    while left > 0 && begins_turn(turn, rest) {
        let (next, behind, taken) = turn.turns(left, state, rest)?;
        state = next;
        rest = behind;
        left -= taken;
    }
    Ok((state, rest))
}
