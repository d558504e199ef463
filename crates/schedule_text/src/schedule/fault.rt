// Why a schedule is refused.
ghost use Rattle.std.specs.Prelude.{◌≡◌};
ghost use Rattle.schedule_text.specs.ScheduleRules.{schedule_rule_number};

use mur_base::Memory;
use thiserror::Error;

/// A rule of schedules. Of those that a line breaks the first counts, in this order.
#[derive(Clone, Copy, Debug, PartialEq, Eq, Error)]
pub enum Rule {
    #[error("the line begins with no word of this format")]
    UnknownWord,
    #[error("the word has not as many words behind it as it needs, with one space before each")]
    WrongCount,
    #[error("a number isn't decimal, or is too large")]
    BadNumber,
    #[error("a node is none of the configuration, or doesn't fit the word")]
    UnknownNode,
    #[error("a connection is opened twice, or used before it is opened")]
    Connection,
    #[error("the schedule has more than 268435456 bytes")]
    TooLong,
    #[error("a text has another spelling than those of bytes")]
    BadText,
}

impl Rule {
    /// The rule's number, from 1, as error lines print it.
    #[tactic(auto, unfolding(crate::specs::ScheduleRules::schedule_rule_number))]
    pub fn number(self) -> u8
        ensures { result ≡ schedule_rule_number self }
    {
        match self {
            Rule::UnknownWord => 1,
            Rule::WrongCount => 2,
            Rule::BadNumber => 3,
            Rule::UnknownNode => 4,
            Rule::Connection => 5,
            Rule::TooLong => 6,
            Rule::BadText => 7,
        }
    }
}

/// The first line of a schedule that breaks a rule, counted from 1, and the rule; line 0 for the schedule's length.
#[derive(Clone, Copy, Debug, PartialEq, Eq, Error)]
#[error("line {line}: {why}")]
pub struct SchedFault {
    pub line: u64,
    pub why: Rule,
}

/// Why a schedule gives no events.
#[derive(Clone, Copy, Debug, PartialEq, Eq, Error)]
pub enum ScheduleError {
    #[error(transparent)]
    Refused(SchedFault),
    #[error("out of memory")]
    Memory,
}

/// Why a line gives no event.
#[derive(Clone, Copy, Debug, PartialEq, Eq, Error)]
pub enum LineError {
    #[error(transparent)]
    Broken(Rule),
    #[error("out of memory")]
    Memory,
}

impl From<Memory> for ScheduleError {
    ghost use Rattle.std.specs.Prelude.{◌≡◌};
    ghost use Rattle.schedule_text.specs.declared.schedule.fault.ScheduleError.TheVariants.{Memory as memory};

    ghost from_gives = { λ _ fault. fault ≡ memory };

    fn from(_memory: Memory) -> ScheduleError {
        ScheduleError::Memory
    }
}

impl From<Memory> for LineError {
    ghost use Rattle.std.specs.Prelude.{◌≡◌};
    ghost use Rattle.schedule_text.specs.declared.schedule.fault.LineError.TheVariants.{Memory as memory};

    ghost from_gives = { λ _ fault. fault ≡ memory };

    fn from(_memory: Memory) -> LineError {
        LineError::Memory
    }
}

impl From<Rule> for LineError {
    ghost use Rattle.std.specs.Prelude.{◌≡◌};
    ghost use Rattle.schedule_text.specs.declared.schedule.fault.LineError.TheVariants.{Broken};

    ghost from_gives = { λ rule fault. fault ≡ Broken rule };

    fn from(rule: Rule) -> LineError {
        LineError::Broken(rule)
    }
}
