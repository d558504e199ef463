// How a call of the program ended.
ghost use Rattle.std.specs.Prelude.{◌≡◌, Some, IfSome, string_bytes};
ghost use Rattle.top_call.specs.Status.{line_of, code_of};

use std::alloc::Global;

/// How a call ended.
#[derive(Clone, Copy, Debug, PartialEq, Eq)]
pub enum Status {
    /// All was done.
    Done,
    /// The words have no form.
    Words,
    /// The configuration is refused, by this rule.
    Config { rule: u8 },
    /// The schedule is refused at this line, by this rule. Nothing was run.
    Schedule { line: u64, rule: u8 },
    /// A source failed.
    Read,
    /// The output failed.
    Write,
    /// The allocator had no room.
    Memory,
}

impl Status {
    /// The number with which the program ends.
    pub fn code(&self) -> u8
        ensures { result ≡ code_of self.now }
    {
        match self {
            Status::Done => 0,
            Status::Words => 1,
            Status::Config { .. } => 2,
            Status::Schedule { .. } => 3,
            Status::Read => 4,
            Status::Write => 5,
            Status::Memory => 6,
        }
    }

    /// The line on the error output, if there is one and memory for it.
    pub fn line(&self, alloc: Global) -> Option<String>
        ensures { IfSome result (λ line. line_of self.now ≡ Some (string_bytes line)) }
    {
        match self {
            Status::Done => None,
            Status::Words => format!(in alloc; "murder: words refused\n").ok(),
            Status::Config { rule } => {
                format!(in alloc; "murder: configuration refused: rule {rule}\n").ok()
            }
            Status::Schedule { line, rule } => {
                format!(in alloc; "murder: schedule refused: line {line} rule {rule}\n").ok()
            }
            Status::Read => format!(in alloc; "murder: read fault\n").ok(),
            Status::Write => format!(in alloc; "murder: write fault\n").ok(),
            Status::Memory => format!(in alloc; "murder: out of memory\n").ok(),
        }
    }
}
