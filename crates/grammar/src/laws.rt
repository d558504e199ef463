// The laws of the combinators, for whatever parts. Nothing here runs or is called: each function says, as a clause that
// a reader finds beside the code, what the lemmas that are named at it prove, and a crate above makes of these lemmas the
// law of each of its productions, and of its grammar.
ghost use Rattle.std.specs.Prelude.{◌≡◌, ℕ, Bool, true, false};
ghost use Rattle.grammar.specs.Part.{Part, ◌then◌, choose, exactly, repeat};
ghost use Rattle.grammar.specs.Exact.{Good, Exact, whole_at, Begins, StartsWith, StartsWithout};
ghost use Rattle.grammar.specs.Words.{Words, Lawful, Apart, word};

/// A part that is good before a byte of `after`, whatever value a `V` the reading ends in.
pub trait Rule<V> {
    type Value;

    ghost part: { Part Self.Value };

    ghost after: { ℕ → Bool };

    ghost good: { Good V after part };
}

/// Such a part for each `A`, as the value of the part before it, or the state of a repetition.
pub trait Rules<V, A> {
    type Value;

    ghost part: { A → Part Self.Value };

    ghost after: { ℕ → Bool };

    ghost good: { (a : A) → Good V after (part a) };
}

/// A part with nothing behind it reads just what it spells, and stops behind the longest prefix that begins some spelling.
/// The lemma is `SequenceLaw.exact_whole`.
pub fn whole_is_exact<V, P: Rule<V, Value = V>>()
    ensures { Exact P.part.lang (whole_at P.part) }
{}

/// One part behind another is good where the second begins with a byte that may follow the first.
/// The lemma is `SequenceLaw.good_then`.
pub fn sequence_is_good<V, P: Rule<V>, Q: Rules<V, P::Value>>()
    requires { (a : P.Value) → Begins P.after Q.after (Q.part a) }
    ensures { Good V Q.after (P.part then Q.part) }
{}

/// The one or the other is good where a test of the first byte tells them apart.
/// The lemma is `ChoiceLaw.good_choose`.
pub fn choice_is_good<V, P: Rules<V, bool>>()
    ensures { (test : ℕ → Bool) → StartsWith test (P.part true) → StartsWithout test P.after (P.part false)
        → Good V P.after (choose test (P.part true) (P.part false)) }
{}

/// Turns are good where a test tells a further turn from what follows them all.
/// The lemma is `RepetitionLaw.good_repeat`.
pub fn repetition_is_good<V, S, T: Rules<V, S, Value = S>>()
    ensures { (test after : ℕ → Bool) → ((s : S) → StartsWith test (T.part s)) → ((c : ℕ) → after c ≡ true → test c ≡ false)
        → ((c : ℕ) → test c ≡ true → T.after c ≡ true) → ((c : ℕ) → after c ≡ true → T.after c ≡ true)
        → (s : S) → Good V after (repeat test T.part s) }
{}

/// Words are good where no byte that follows goes on with one.
/// The lemma is `WordLaw.good_word`.
pub fn words_are_good<V>()
    ensures { (w : Words) → Lawful w → (after : ℕ → Bool) → Apart w after → Good V after (word w) }
{}

/// So many bytes are good whatever follows.
/// The lemma is `RepetitionLaw.good_exactly`.
pub fn bytes_are_good<V>()
    ensures { (test after : ℕ → Bool) (example : ℕ) → test example ≡ true → (n : ℕ) → Good V after (exactly test n) }
{}
