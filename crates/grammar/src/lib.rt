//! Grammars of protocols whose readers are exact: what is read is spelled, what is spelled is read, and a stop is behind
//! the longest prefix that begins some spelling.
//!
//! A [`Part`](specs/Part.antt) is a set of spellings beside a reader on lists, and the combinators of `specs` make one of
//! others: nothing, one part behind another, the one or the other by the first byte, words, numbers, so many bytes, all
//! bytes before an ending, turns that change a state, lists. The law of each, that it is good before what may follow it,
//! stands in `proofs` for the laws of productions; those of one part behind another, of the one or the other, of words, of
//! so many bytes and of turns are public functions of `laws` too. The readers of the code give what their part says.
//!
//! A [`Form`](specs/Forms.antt) is a part and the text that a value is printed as. Its one law says that it is read exactly
//! before what follows, what it begins with, and that each value that some bytes spell is spelled as it is printed. Each
//! combinator of forms has one law (`proofs/FormLaw`, `NamesLaw`, `SeveralLaw`, `NumeralLaw`), so that the law of a
//! production names those of its parts, and nothing else is proved of it.
//!
//! # A production, from grammar to code
//!
//! `copy = "COPY" SP sequence-set SP mailbox` (RFC 9051, 9). Behind the name it is
//!
//! ```text
//! abbrev pub copy : Form (List SetPart × List ℕ)
//! copy = preceded space (set spaced argument)
//! ```
//!
//! Its reader and its printer are the same text as code, and need no proof file:
//!
//! ```text
//! pub fn copy_of(alloc: Global, bytes: &[u8]) -> Result<((SetParts, Bytes), &[u8]), ReadError>
//!     ensures { Gives (λ x. (x.0, x.1.now)) result (copy.part.at bytes.now) }
//! {
//!     let rest = byte_of(b' ', bytes)?;
//!     let (set, rest) = set_of(alloc, rest)?;
//!     let rest = byte_of(b' ', rest)?;
//!     let (mailbox, rest) = astring_of(alloc, rest)?;
//!     Ok(((set, mailbox), rest))
//! }
//! ```
//!
//! Its law names the laws of its parts; that each may stand before what follows it is `refl`:
//!
//! ```text
//! law_copy : Law ends_atom ends_line copy
//! law_copy = arguments_behind _ refl (law_spaced set argument refl law_set law_argument)
//! ```
//!
//! At the top [`whole_of`] reads a frame by a [`Grammar`]: its contract is that of the whole language.
//!
//! Reading takes time in proportion to the bytes, and at a word of a table to its names and their lengths too; nothing here
//! looks twice at a byte of a literal.
#![tactic(auto)]

mod class;
mod ends;
mod error;
mod form;
mod laws;
mod members;
mod number;
mod quoted;
mod rows;
mod run;
mod table;
mod turn;
mod whole;
mod word;

pub use class::{
    Between, Class, Digit, Only, begins, byte_in, byte_of, exactly_of, optional_of, passing_upto,
};
pub use ends::all_before;
pub use error::{ReadError, Stop};
pub use form::{Production, put_several, several_of};
pub use laws::{
    Rule, Rules, bytes_are_good, choice_is_good, repetition_is_good, sequence_is_good,
    whole_is_exact, words_are_good,
};
pub use members::Members;
pub use number::{counted_of, number_of, put_decimal};
pub use quoted::{
    QuotedPlain, QuotedSpecial, escaped_char_of, plain_char_of, plain_run_of, put_literal,
};
pub use rows::table_of;
pub use run::{Run, RunUpTo};
pub use table::AnyCase;
pub use turn::{Turn, repeated_of};
pub use whole::{Grammar, ended, whole_of};
pub use word::{Kind, word_of};
