// What a bench is to do.
use crate::fault::Fault;

/// Counts what one round comes to, or times so many.
#[derive(Clone, Copy)]
pub enum Task {
    Count,
    Time(u32),
}

impl Task {
    /// By the word behind the bench's; none are too few rounds to tell anything.
    pub fn asked(word: Option<&str>) -> Result<Task, Fault> {
        let Some(word) = word else {
            return Ok(Task::Count);
        };
        match word.parse::<u32>() {
            Ok(rounds) if rounds > 0 => Ok(Task::Time(rounds)),
            _ => Err(Fault::Usage),
        }
    }

    pub fn rounds(self) -> u32 {
        match self {
            Task::Count => 1,
            Task::Time(rounds) => rounds,
        }
    }
}
