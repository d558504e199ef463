// The printer of commands.
ghost use Rattle.std.specs.Prelude.{◌≡◌, ◌++◌, OnOk, IfOk};
ghost use Rattle.mur_base.specs.Ascii.{space};
ghost use Rattle.grammar.specs.Forms.{preceded, several};
ghost use Rattle.imap_command.specs.Commands.{arguments_text, copy, xfer};
ghost use Rattle.imap_command.specs.Sets.{set as set_form};
ghost use Rattle.imap_text.specs.Strings.{atom};
ghost use Rattle.imap_command.specs.Spells.{Spells, IsSpelled, known, command_text};
ghost use Rattle.imap_command.specs.Print.{printed};

use crate::arguments::{put_one_string, put_optional_string, put_two_strings};
use crate::commands::append::put_append;
use crate::commands::authenticate::put_authenticate;
use crate::commands::fetch::put_fetch;
use crate::commands::search::put_search;
use crate::commands::set_acl::put_set_acl;
use crate::commands::status::put_status;
use crate::commands::store::put_store;
use crate::sets::put_set;
use crate::verb::words_of;
use grammar::put_several;
use imap_text::{Atom, put_tag};
use imap_types::{Atoms, Command, Tag};
use mail_message::SetParts;
use mur_base::{Bytes, Memory};
use std::alloc::Global;

#[tactic(auto, using(std::proofs::lemmas::Grind::common_steps))]
fn put_names(names: &Atoms, out: &mut Bytes) -> Result<(), Memory>
    ensures { OnOk result (out.new ≡ out.old ++ (preceded space (several space atom)).text names.now) }
{
    out.push(b' ')?;
    put_several(b' ', &Atom, names.as_slice(), out)
}

#[tactic(auto, using(std::proofs::lemmas::Grind::common_steps))]
fn put_spaced_set(set: &SetParts, out: &mut Bytes) -> Result<(), Memory>
    ensures { OnOk result (out.new ≡ out.old ++ (preceded space set_form).text set.now) }
{
    out.push(b' ')?;
    put_set(set, out)
}

#[tactic(auto, using(std::proofs::lemmas::Grind::common_steps))]
fn put_copy(set: &SetParts, mailbox: &Bytes, out: &mut Bytes) -> Result<(), Memory>
    ensures { OnOk result (out.new ≡ out.old ++ copy.text (set.now, mailbox.now)) }
{
    put_spaced_set(set, out)?;
    put_one_string(mailbox, out)
}

#[tactic(auto, using(std::proofs::lemmas::Grind::common_steps))]
fn put_xfer(
    mailbox: &Bytes,
    server: &Bytes,
    partition: &Option<Bytes>,
    out: &mut Bytes,
) -> Result<(), Memory>
    ensures { OnOk result (out.new ≡ out.old ++ xfer.text ((mailbox.now, server.now), partition.now)) }
{
    put_two_strings(mailbox, server, out)?;
    put_optional_string(partition, out)
}

/// Prints the arguments of a command.
#[tactic(auto, using(std::proofs::lemmas::Grind::common_steps), unfolding(crate::specs::Commands::printed_as))]
fn put_arguments(alloc: Global, command: &Command, out: &mut Bytes) -> Result<(), Memory>
    ensures { OnOk result (out.new ≡ out.old ++ arguments_text command.now) }
{
    match command {
        Command::Append(mailbox, flags, date, message) => {
            put_append(alloc, mailbox, flags, date, message, out)
        }
        Command::Authenticate(response) => put_authenticate(response, out),
        Command::Copy(_, set, mailbox) => put_copy(set, mailbox, out),
        Command::Create(mailbox)
        | Command::Delete(mailbox)
        | Command::Examine(mailbox)
        | Command::GetAcl(mailbox)
        | Command::MyRights(mailbox)
        | Command::Select(mailbox) => put_one_string(mailbox, out),
        Command::DeleteAcl(one, other) | Command::List(one, other) | Command::Login(one, other) => {
            put_two_strings(one, other, out)
        }
        Command::Enable(names) => put_names(names, out),
        Command::Expunge(Some(set)) => put_spaced_set(set, out),
        Command::Fetch(_, set, items) => put_fetch(set, items, out),
        Command::Search(_, keys) => put_search(keys, out),
        Command::SetAcl(mailbox, id, mode, rights) => {
            put_set_acl(alloc, mailbox, id, *mode, rights, out)
        }
        Command::Status(mailbox, items) => put_status(mailbox, items, out),
        Command::Store(_, set, mode, is_silent, flags) => {
            put_store(alloc, set, *mode, *is_silent, flags, out)
        }
        Command::Xfer(mailbox, server, partition) => put_xfer(mailbox, server, partition, out),
        Command::Capability
        | Command::Close
        | Command::Expunge(None)
        | Command::Idle(_)
        | Command::LeftOut(_)
        | Command::Logout
        | Command::Noop
        | Command::Unselect => Ok(()),
    }
}

/// Prints a known command to its end.
#[tactic(auto, using(std::proofs::lemmas::Grind::common_steps, crate::proofs::TextLaw::known_text))]
fn put_known(alloc: Global, command: &Command, out: &mut Bytes) -> Result<(), Memory>
    ensures { OnOk result (out.new ≡ out.old ++ known.text command.now) }
{
    out.extend_from_slice(words_of(command))?;
    put_arguments(alloc, command, out)?;
    out.extend_from_slice(b"\r\n")
}

/// Prints a command to its end.
#[tactic(auto, using(std::proofs::lemmas::Grind::common_steps), unfolding(crate::specs::Spells::command_text))]
fn put_command(alloc: Global, command: &Command, out: &mut Bytes) -> Result<(), Memory>
    ensures { OnOk result (out.new ≡ out.old ++ command_text command.now) }
{
    match command {
        Command::LeftOut(octets) => {
            out.extend_from_slice(octets.as_slice())?;
            out.extend_from_slice(b"\r\n")
        }
        _ => put_known(alloc, command, out),
    }
}

/// Prints a command that some frame spells under this tag, as a frame that spells just that.
#[tactic(auto, using(std::proofs::lemmas::Grind::common_steps), unfolding(crate::specs::Print::printed))]
pub fn print(alloc: Global, tag: &Tag, command: &Command) -> Result<Bytes, Memory>
    requires { IsSpelled tag.now command.now }
    ensures text { IfOk result (λ frame. frame ≡ printed tag.now command.now) }
    ensures spells { IfOk result (λ frame. Spells frame (tag.now, command.now)) }
{
    let mut out = Bytes::new(alloc);
    put_tag(tag, &mut out)?;
    out.push(b' ')?;
    put_command(alloc, command, &mut out)?;
    Ok(out)
}
