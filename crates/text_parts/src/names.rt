// Mailbox names, read byte by byte.
ghost use Rattle.std.specs.Prelude.{◌≡◌, ◌≤◌, Some, None, IfOk};
ghost use Rattle.mur_base.specs.Names.{mail_name_fault};
ghost use Rattle.grammar.specs.Words.{word};
ghost use Rattle.grammar.specs.Gives.{Gives};
ghost use Rattle.text_parts.specs.Names.{lead_of, is_letter, after_tail, after_lead, after_dot, after_first, level_after_byte, reached, may_end, names_from, names_of_size, start_of};

use grammar::{Kind, ReadError, word_of};
use mur_base::limits::NAME_LIMIT;
use mur_base::{MailName, Memory, NameFault, mail_name};
use std::alloc::Global;

/// What the first byte of a character of several bytes says (RFC 3629, 4).
#[derive(Clone, Copy)]
pub struct Lead {
    /// How many bytes follow; none, where the byte begins no such character.
    pub due: usize,
    /// The bounds of the first of them.
    pub low: u8,
    pub high: u8,
}

/// How far a name has come.
#[derive(Clone, Copy)]
pub struct Level {
    /// Whether characters of several bytes may stand in the name.
    pub is_wide: bool,
    /// How many bytes may still come.
    pub left: usize,
    /// Whether no byte of the present level has come.
    pub is_open: bool,
    /// How many bytes of the present character are still to come.
    pub due: usize,
    /// The bounds of the next of them.
    pub low: u8,
    pub high: u8,
}

#[tactic(auto, unfolding(crate::specs::Names::lead_of))]
fn lead_of(byte: u8) -> Lead
    ensures { result ≡ lead_of byte }
{
    let (due, low, high) = if (194..=223).contains(&byte) {
        (1, 128, 191)
    } else if byte == 224 {
        (2, 160, 191)
    } else if byte == 237 {
        (2, 128, 159)
    } else if (225..=239).contains(&byte) {
        (2, 128, 191)
    } else if byte == 240 {
        (3, 144, 191)
    } else if byte == 244 {
        (3, 128, 143)
    } else if (241..=243).contains(&byte) {
        (3, 128, 191)
    } else {
        (0, 0, 0)
    };
    Lead { due, low, high }
}

/// Whether a byte is a character of a name by itself, and no separator.
#[tactic(auto, unfolding(mur_base::specs::Names::is_mail_name_byte))]
fn is_letter(byte: u8) -> bool
    ensures { result ≡ is_letter byte }
{
    byte >= b' ' && !matches!(byte, 0x7f | b'"' | b'\\' | b'%' | b'*') && byte < 128
}

impl Level {
    /// The beginning of a name of at most so many bytes.
    pub fn start(is_wide: bool, left: usize) -> Level
        ensures { result ≡ start_of is_wide left }
    {
        Level {
            is_wide,
            left,
            is_open: true,
            due: 0,
            low: 128,
            high: 191,
        }
    }

    #[tactic(auto, unfolding(crate::specs::Names::after_tail))]
    fn after_tail(self, byte: u8) -> Option<Level>
        ensures { result ≡ after_tail self byte }
    {
        if self.low <= byte && byte <= self.high {
            Some(Level {
                left: self.left.saturating_sub(1),
                is_open: false,
                due: self.due.saturating_sub(1),
                low: 128,
                high: 191,
                ..self
            })
        } else {
            None
        }
    }

    #[tactic(auto, unfolding(crate::specs::Names::after_lead))]
    fn after_lead(self, lead: Lead) -> Option<Level>
        ensures { result ≡ after_lead self lead }
    {
        if self.is_wide && 0 < lead.due && lead.due < self.left {
            Some(Level {
                left: self.left.saturating_sub(1),
                is_open: false,
                due: lead.due,
                low: lead.low,
                high: lead.high,
                ..self
            })
        } else {
            None
        }
    }

    #[tactic(auto, unfolding(crate::specs::Names::after_dot))]
    fn after_dot(self) -> Option<Level>
        ensures { result ≡ after_dot self }
    {
        if !self.is_open && 1 < self.left {
            Some(Level {
                left: self.left.saturating_sub(1),
                is_open: true,
                ..self
            })
        } else {
            None
        }
    }

    #[tactic(auto, unfolding(crate::specs::Names::after_first))]
    fn after_first(self, byte: u8) -> Option<Level>
        ensures { result ≡ after_first self byte }
    {
        if byte == b'.' {
            self.after_dot()
        } else if is_letter(byte) {
            Some(Level {
                left: self.left.saturating_sub(1),
                is_open: false,
                ..self
            })
        } else {
            self.after_lead(lead_of(byte))
        }
    }

    /// How far the name has come with one byte more, if it goes on so.
    #[tactic(auto, unfolding(crate::specs::Names::level_after_byte))]
    fn after(self, byte: u8) -> Option<Level>
        ensures { result ≡ level_after_byte self byte }
    {
        if self.left == 0 {
            None
        } else if self.due > 0 {
            self.after_tail(byte)
        } else {
            self.after_first(byte)
        }
    }

    /// How far the name has come with this text, if it goes on so.
    fn reached(self, text: &[u8]) -> Option<Level>
        ensures { result ≡ reached (Some self) text.now }
    {
        let mut level = self;
        for byte in text {
            level = level.after(*byte)?;
        }
        Some(level)
    }
}

/// The names that go on from a state.
#[derive(Clone, Copy)]
pub struct NamesFrom {
    /// Whether the name ends exactly where no byte is left.
    is_sized: bool,
    start: Level,
}

impl NamesFrom {
    ghost use Rattle.text_parts.specs.Names.{quoted_names, names_of_size};

    /// The names that stand in quotes.
    pub fn quoted() -> NamesFrom
        ensures { names_from result.is_sized result.start ≡ quoted_names }
    {
        NamesFrom {
            is_sized: false,
            start: Level::start(false, NAME_LIMIT),
        }
    }

    /// The names of so many bytes.
    pub fn sized(size: usize) -> NamesFrom
        ensures { names_from result.is_sized result.start ≡ names_of_size size }
    {
        NamesFrom {
            is_sized: true,
            start: Level::start(true, size.max(1)),
        }
    }
}

impl Kind for NamesFrom {
    ghost words = { λ names. names_from names.is_sized names.start };

    #[tactic(auto, using(crate::proofs::NameSteps::reached_push))]
    fn goes_on(&self, front: &[u8], byte: u8) -> bool {
        match self.start.reached(front) {
            Some(level) => level.after(byte).is_some(),
            None => false,
        }
    }

    #[tactic(auto, unfolding(crate::specs::Names::may_end))]
    fn is_whole(&self, text: &[u8]) -> bool {
        match self.start.reached(text) {
            Some(level) if self.is_sized => level.left == 0,
            Some(level) => !level.is_open,
            None => false,
        }
    }

    /// Each byte is looked at once.
    fn scanned_len(&self, bytes: &[u8]) -> usize {
        let mut level = self.start;
        for (i, byte) in bytes.iter().enumerate() {
            match level.after(*byte) {
                Some(next) => level = next,
                None => return i,
            }
        }
        bytes.len()
    }

    ghost use Rattle.std.specs.Prelude.{refl};

    ghost empty_begins = { λ _. refl };
}

/// The name that a text is.
pub fn made_name(alloc: Global, text: &[u8]) -> Result<MailName, Memory>
    requires { mail_name_fault text.now ≡ None }
    ensures { IfOk result (λ name. name ≡ text.now) }
{
    match mail_name(alloc, text) {
        Ok(name) => Ok(name),
        Err(NameFault::Memory) => Err(Memory),
        Err(_) => unreachable!(),
    }
}

/// Reads a name of so many bytes.
pub fn sized_name_of(
    alloc: Global,
    size: usize,
    bytes: &[u8],
) -> Result<(MailName, &[u8]), ReadError>
    requires { size ≤ 255 }
    ensures { Gives (λ x. (x.0, x.1.now)) result ((word (names_of_size size)).at bytes.now) }
{
    let (text, rest) = word_of(&NamesFrom::sized(size), bytes)?;
    Ok((made_name(alloc, text)?, rest))
}
