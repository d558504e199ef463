// What a command is about.
ghost use Rattle.std.specs.Prelude.{◌≡◌};
ghost use Rattle.ask_routes.specs.Ways.{ask_for};

use imap_types::Op;
use mur_base::MailName;

/// What a command is about.
#[derive(Drop)]
pub enum AskFor {
    /// The mailbox of this name, or what it contains.
    Mailbox(MailName),
    /// A new mailbox of this name (RFC 9051, 6.3.4).
    Create(MailName),
}

impl AskFor {
    /// What an operation is about that is asked of the home of a mailbox. It takes no memory.
    pub fn at(name: MailName, op: &Op) -> AskFor
        ensures { result ≡ ask_for name op.now }
    {
        match op {
            Op::Create => AskFor::Create(name),
            _ => AskFor::Mailbox(name),
        }
    }
}
