// A mailbox as far as its taker has it.
ghost use Rattle.std.specs.Prelude.{◌≡◌, IfOk, OnOk, OnErr};
ghost use Rattle.std.specs.List.{AllByRecursion};
ghost use Rattle.mail_message.specs.Boxes.{empty_box, content_after_all, LeavesNext};

use mail_message::{Change, Changes, MailBox};
use mur_base::{Bytes, Memory};
use std::alloc::Global;
use std::marker::Model;

/// A mailbox as far as its taker has it. Contracts see an intake as that mailbox's content.
#[derive(Drop)]
pub struct Intake {
    content: MailBox,
}

impl Model for Intake {
    ghost use Rattle.mail_message.specs.Boxes.{Content};

    ghost Value = { Content };

    ghost view = { λ intake. intake.content };
}

impl Intake {
    /// Begins without messages, under the giver's UIDVALIDITY (RFC 9051, 2.3.1.1) and access list. It takes no memory.
    pub fn start(alloc: Global, serial: u32, acl: Bytes) -> Intake
        ensures { result ≡ empty_box serial acl }
    {
        Intake {
            content: MailBox::make(alloc, serial, acl),
        }
    }

    /// Carries a batch out, in which no message has the greatest UID of 32 bits. Its bodies are moved and not copied, and each change takes time
    /// logarithmic in the messages. For want of memory the intake stays as it was.
    pub fn take(&mut self, alloc: Global, batch: Changes) -> Result<(), Memory>
        requires { AllByRecursion LeavesNext batch }
        ensures ok { OnOk result (self.new ≡ content_after_all self.old batch) }
        ensures err { OnErr result (self.new ≡ self.old) }
    {
        self.content.apply_all(alloc, batch)
    }

    /// The mailbox with the giver's UIDNEXT (RFC 9051, 2.3.1.1), in constant time.
    pub fn finish(self, next: u32) -> Result<MailBox, Memory>
        ensures { IfOk result (λ content. content ≡ record self { next = next }) }
    {
        let Intake { content } = self;
        let mut content = content;
        content.apply(Change::NextUid(next))?;
        Ok(content)
    }
}
