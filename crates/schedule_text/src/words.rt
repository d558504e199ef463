// The table of words: a row for each, with the kinds of its arguments.
ghost use Rattle.std.specs.Prelude.{◌≡◌, ◌≤◌, length};
ghost use Rattle.schedule_text.specs.Words.{word_text, word_named, word_among, kinds_of};

use crate::schedule::Rule;

/// A word that a line begins with.
#[derive(Clone, Copy, Debug, PartialEq, Eq)]
pub enum Word {
    /// `open NODE C`
    Open,
    /// `data C TEXT`
    Data,
    /// `hang C`
    Hang,
    /// `deliver A B`
    Deliver,
    /// `cut A B K L`
    Cut,
    /// `join A B`
    Join,
    /// `flow K`
    Flow,
    /// `heal`
    Heal,
}

/// What an argument of a line is.
#[derive(Clone, Copy, Debug, PartialEq, Eq)]
pub enum Kind {
    /// The name of a node.
    Node,
    /// A connection or a count, in decimal.
    Number,
    /// Bytes as printable text, up to the line's end.
    Text,
}

/// The most arguments of a word.
pub const MOST_ARGUMENTS: usize = 4;

const OPEN: &[u8] = b"open";

const DATA: &[u8] = b"data";

const HANG: &[u8] = b"hang";

const DELIVER: &[u8] = b"deliver";

const CUT: &[u8] = b"cut";

const JOIN: &[u8] = b"join";

const FLOW: &[u8] = b"flow";

const HEAL: &[u8] = b"heal";

impl Word {
    /// The word as a line has it.
    #[tactic(auto, unfolding(crate::specs::Words::word_text))]
    pub fn text(self) -> &'static [u8]
        ensures { result.now ≡ word_text self }
    {
        match self {
            Word::Open => OPEN,
            Word::Data => DATA,
            Word::Hang => HANG,
            Word::Deliver => DELIVER,
            Word::Cut => CUT,
            Word::Join => JOIN,
            Word::Flow => FLOW,
            Word::Heal => HEAL,
        }
    }

    /// The kinds of its arguments, in order.
    #[tactic(auto, unfolding(crate::specs::Words::kinds_of))]
    pub fn kinds(self) -> &'static [Kind]
        ensures kinds { result.now ≡ kinds_of self }
        ensures few { length result.now ≤ MOST_ARGUMENTS }
    {
        match self {
            Word::Open => &[Kind::Node, Kind::Number],
            Word::Data => &[Kind::Number, Kind::Text],
            Word::Hang | Word::Flow => &[Kind::Number],
            Word::Deliver | Word::Join => &[Kind::Node, Kind::Node],
            Word::Cut => &[Kind::Node, Kind::Node, Kind::Number, Kind::Number],
            Word::Heal => &[],
        }
    }
}

/// The word that a text is.
#[tactic(auto, unfolding(crate::specs::Words::word_named, crate::specs::Words::word_among, crate::specs::Words::word_text))]
pub fn word_named(text: &[u8]) -> Result<Word, Rule>
    ensures { result ≡ word_named text.now }
{
    if text == OPEN {
        Ok(Word::Open)
    } else if text == DATA {
        Ok(Word::Data)
    } else if text == HANG {
        Ok(Word::Hang)
    } else if text == DELIVER {
        Ok(Word::Deliver)
    } else if text == CUT {
        Ok(Word::Cut)
    } else if text == JOIN {
        Ok(Word::Join)
    } else if text == FLOW {
        Ok(Word::Flow)
    } else if text == HEAL {
        Ok(Word::Heal)
    } else {
        Err(Rule::UnknownWord)
    }
}
