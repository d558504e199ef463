// LIST (RFC 9051, 6.3.9).
ghost use Rattle.grammar.specs.Gives.{Gives};
ghost use Rattle.imap_command.specs.List.{is_list_char, list_mailbox, list};

use grammar::{Class, ReadError, Run, begins, byte_of, word_of};
use imap_text::{AstringChar, astring_of, string_of};
use mur_base::Bytes;
use std::alloc::Global;

/// list-char.
#[derive(Clone, Copy)]
struct ListChar;

impl Class for ListChar {
    ghost test = { λ _. is_list_char };

    #[tactic(auto, unfolding(crate::specs::List::is_list_char))]
    fn holds(&self, byte: u8) -> bool {
        AstringChar.holds(byte) || (byte == b'%' || byte == b'*')
    }
}

/// Reads list-mailbox.
#[tactic(auto, unfolding(crate::specs::List::list_mailbox))]
fn list_mailbox_of(alloc: Global, bytes: &[u8]) -> Result<(Bytes, &[u8]), ReadError>
    ensures { Gives (λ x. (x.0, x.1.now)) result (list_mailbox.at bytes.now) }
{
    if begins(&ListChar, bytes) {
        let (text, rest) = word_of(&Run { of: ListChar }, bytes)?;
        Ok((Bytes::from_slice(alloc, text)?, rest))
    } else {
        string_of(alloc, bytes)
    }
}

/// Reads what stands behind the name LIST.
pub fn list_of(alloc: Global, bytes: &[u8]) -> Result<((Bytes, Bytes), &[u8]), ReadError>
    ensures { Gives (λ x. (x.0, x.1.now)) result (list.part.at bytes.now) }
{
    let rest = byte_of(b' ', bytes)?;
    let (reference, rest) = astring_of(alloc, rest)?;
    let rest = byte_of(b' ', rest)?;
    let (pattern, rest) = list_mailbox_of(alloc, rest)?;
    Ok(((reference, pattern), rest))
}
