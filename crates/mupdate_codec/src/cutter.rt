// The bytes of a MUPDATE connection, cut into lines in whatever pieces they come.
ghost use Rattle.std.specs.Prelude.{◌≡◌, ◌≤◌, ◌<◌, ◌++◌, [], ◌∷◌, List, ℕ, length, take, nat_eq, IfOk, OnOk, OnErr, IfSome, IsNone, IsSomeAnd, is_none, None, Some, true, false};
ghost use Rattle.std.specs.List.{concat, ends_with};
ghost use Rattle.mur_base.specs.Ascii.{lf, cr, close_brace};
ghost use Rattle.grammar.specs.Gives.{Finds};
ghost use Rattle.mupdate_codec.specs.Answers.{IsBegun};
ghost use Rattle.mupdate_codec.specs.Commands.{IsCommandLine};
ghost use Rattle.mupdate_codec.specs.Cut.{IsUncut, EndsLine, IsCut, Feeds};
ghost use Rattle.mupdate_codec.specs.Waits.{HasBegunLine, Ended, TakesSome, up_to_any, head, octets_left};

use crate::fault::LineFault;
use crate::limits::STRING_LIMIT;
use crate::location::location_texts;
use crate::name::name_text;
use crate::reader::read_command;
use crate::strings::header_of;
use crate::tag::tag_word_of;
use crate::word::{VERBS, Verb};
use grammar::{Stop, byte_of, table_of};
use memchr::memchr;
use mur_base::{Bytes, Items, Memory};
use std::alloc::Global;
use std::marker::Model;
use std::mem;

/// Reads what stands behind the word of a command and a space, up to the end of the header of a literal that may be any text, and
/// gives how many octets that has.
#[tactic(auto, unfolding(crate::specs::Waits::up_to_any))]
fn up_to_any(verb: Verb, bytes: &[u8]) -> Result<(usize, &[u8]), Stop>
    ensures { Finds (λ x. (x.0, x.1.now)) result ((up_to_any verb).at bytes.now) }
{
    match verb {
        Verb::Activate => {
            let (_, rest) = name_text(bytes)?;
            let rest = byte_of(b' ', rest)?;
            let (_, rest) = location_texts(rest)?;
            let rest = byte_of(b' ', rest)?;
            header_of(0, STRING_LIMIT, rest)
        }
        Verb::List => header_of(0, STRING_LIMIT, bytes),
        _ => Err(Stop { left: bytes.len() }),
    }
}

/// Reads the front of a line up to the end of that header.
#[tactic(auto, unfolding(crate::specs::Waits::head))]
fn head_of(bytes: &[u8]) -> Result<(usize, &[u8]), Stop>
    ensures { Finds (λ x. (x.0, x.1.now)) result (head.at bytes.now) }
{
    let (_, rest) = tag_word_of(bytes)?;
    let rest = byte_of(b' ', rest)?;
    let (verb, rest) = table_of(Verb::Update, &VERBS, rest)?;
    let rest = byte_of(b' ', rest)?;
    up_to_any(verb, rest)
}

/// How many octets are to come of a literal that may be any text and has begun.
#[tactic(auto, unfolding(crate::specs::Waits::octets_left))]
fn octets_left(bytes: &[u8]) -> usize
    ensures { result ≡ octets_left bytes.now }
{
    match head_of(bytes) {
        Ok((size, rest)) => size.saturating_sub(rest.len()),
        Err(_) => 0,
    }
}

/// Whether the bytes end as the header of a literal does.
fn end_as_header(bytes: &[u8]) -> bool
    ensures { result ≡ ends_with nat_eq bytes.now (close_brace ∷ cr ∷ lf ∷ []) }
{
    bytes.ends_with(b"}\r\n")
}

/// Whether the bytes begin a longer line.
fn waits(alloc: Global, bytes: &[u8]) -> Result<bool, Memory>
    ensures more { IfOk result (λ more. more ≡ true → IsBegun IsCommandLine bytes.now) }
    ensures ends { IfOk result (λ more. more ≡ false → ¬ IsBegun IsCommandLine bytes.now) }
{
    let Err(fault) = read_command(alloc, bytes) else {
        return Ok(false);
    };
    match fault {
        LineFault::More => Ok(true),
        LineFault::Bad(_) => Ok(false),
        LineFault::Memory => Err(Memory),
    }
}

/// Whether a line goes on behind an LF. Only the bytes that end as a header are read.
fn goes_on(alloc: Global, bytes: &[u8]) -> Result<bool, Memory>
    requires ended { Ended bytes.now }
    ensures more { IfOk result (λ more. more ≡ true → IsBegun IsCommandLine bytes.now) }
    ensures ends { IfOk result (λ more. more ≡ false → ¬ IsBegun IsCommandLine bytes.now) }
{
    if end_as_header(bytes) {
        waits(alloc, bytes)
    } else {
        Ok(false)
    }
}

/// The line that has begun.
#[derive(Drop)]
struct Begun {
    alloc: Global,
    bytes: Bytes,
    /// How many octets are to come of a literal that may be any text.
    literal_left: usize,
}

impl Begun {
    /// Takes bytes of a literal, all at once.
    fn take_literal(&mut self, piece: &[u8]) -> Result<usize, Memory>
        requires some { 0 < self.old.literal_left }
        requires holds { HasBegunLine self.old.bytes self.old.literal_left }
        ensures takes { IfOk result (λ taken. TakesSome self.old.bytes piece.now None taken self.new.bytes) }
        ensures holds { OnOk result (HasBegunLine self.new.bytes self.new.literal_left) }
        ensures some { IfOk result (λ taken. 0 < length piece.now → 0 < taken) }
    {
        let taken = self.literal_left.min(piece.len());
        self.bytes.extend_from_slice(&piece[..taken])?;
        self.literal_left -= taken;
        Ok(taken)
    }

    /// Behind an LF: the line that ends with it, or none where the line goes on.
    fn end_line(&mut self) -> Result<Option<Bytes>, Memory>
        requires ended { Ended self.old.bytes }
        ensures line { IfOk result (λ line. IfSome line (λ line. (line ≡ self.old.bytes) × EndsLine line × (self.new.bytes ≡ []))) }
        ensures none { IfOk result (λ line. line ≡ None → self.new.bytes ≡ self.old.bytes) }
        ensures holds { OnOk result (HasBegunLine self.new.bytes self.new.literal_left) }
    {
        let more = goes_on(self.alloc, self.bytes.as_slice())?;
        if more {
            self.literal_left = octets_left(self.bytes.as_slice());
            return Ok(None);
        }
        self.literal_left = 0;
        let next = Bytes::new(self.alloc);
        Ok(Some(mem::replace(&mut self.bytes, next)))
    }

    /// Takes bytes up to the next LF, and gives the line that ends there, if one does.
    fn take_text(&mut self, piece: &[u8]) -> Result<(Option<Bytes>, usize), Memory>
        requires none { self.old.literal_left ≡ 0 }
        requires holds { HasBegunLine self.old.bytes self.old.literal_left }
        ensures takes { IfOk result (λ r. TakesSome self.old.bytes piece.now r.0 r.1 self.new.bytes) }
        ensures holds { OnOk result (HasBegunLine self.new.bytes self.new.literal_left) }
        ensures some { IfOk result (λ r. 0 < length piece.now → 0 < r.1) }
    {
        match memchr(b'\n', piece) {
            None => {
                self.bytes.extend_from_slice(piece)?;
                Ok((None, piece.len()))
            }
            Some(at) => {
                let taken = at + 1;
                self.bytes.extend_from_slice(&piece[..taken])?;
                Ok((self.end_line()?, taken))
            }
        }
    }

    /// Takes one byte of the piece or more, and none behind the end of the next line.
    fn take_some(&mut self, piece: &[u8]) -> Result<(Option<Bytes>, usize), Memory>
        requires holds { HasBegunLine self.old.bytes self.old.literal_left }
        ensures takes { IfOk result (λ r. TakesSome self.old.bytes piece.now r.0 r.1 self.new.bytes) }
        ensures holds { OnOk result (HasBegunLine self.new.bytes self.new.literal_left) }
        ensures some { IfOk result (λ r. 0 < length piece.now → 0 < r.1) }
    {
        if self.literal_left > 0 {
            return Ok((None, self.take_literal(piece)?));
        }
        self.take_text(piece)
    }

    /// Takes bytes of the piece up to the end of the next line, or all where none ends in it.
    fn take(&mut self, piece: &[u8]) -> Result<(Option<Bytes>, usize), Memory>
        requires holds { HasBegunLine self.old.bytes self.old.literal_left }
        ensures takes { IfOk result (λ r. TakesSome self.old.bytes piece.now r.0 r.1 self.new.bytes) }
        ensures whole { IfOk result (λ r. r.0 ≡ None → r.1 ≡ length piece.now) }
        ensures holds { OnOk result (HasBegunLine self.new.bytes self.new.literal_left) }
        ensures some { IfOk result (λ r. 0 < length piece.now → 0 < r.1) }
    {
        let mut taken = 0;
        while taken < piece.len() {
            let (line, more) = self.take_some(&piece[taken..])?;
            taken += more;
            if line.is_some() {
                return Ok((line, taken));
            }
        }
        Ok((None, taken))
    }
}

/// Cuts the bytes of one connection into lines, in whatever pieces they come.
///
/// Contracts see the bytes of the line that has begun, or `None` after want of memory, when the cutter is spent. A line ends
/// with the first LF behind which no line goes on (`specs/Cut.antt`). Taking bytes costs a copy and one look at each: the octets
/// of a literal that may be any text are taken at once, and other bytes are searched for an LF. A line goes on only behind an LF
/// that ends the header of a literal, so the bytes up to another are never read.
#[derive(Drop)]
pub struct Cutter {
    begun: Begun,
    is_spent: bool,
}

impl Model for Cutter {
    ghost use Rattle.std.specs.Prelude.{◌≡◌, ℕ, List, Option, None, Some, false, if◌then◌else◌};
    ghost use Rattle.mupdate_codec.specs.Waits.{HasBegunLine};

    ghost Value = { Option (List ℕ) };

    ghost view = { λ cutter. if cutter.is_spent then None else Some cutter.begun.bytes };

    ghost invariant = { λ cutter. cutter.is_spent ≡ false → HasBegunLine cutter.begun.bytes cutter.begun.literal_left };
}

impl Cutter {
    /// The cutter of a connection of which no byte has come.
    pub fn new(alloc: Global) -> Cutter
        ensures { result ≡ Some [] }
    {
        Cutter {
            begun: Begun {
                alloc,
                bytes: Bytes::new(alloc),
                literal_left: 0,
            },
            is_spent: false,
        }
    }

    /// Whether no byte is taken any more.
    pub fn spent(&self) -> bool
        ensures { result ≡ is_none self.now }
    {
        self.is_spent
    }

    /// Takes bytes of the piece up to the end of the next line, or all where none ends in it, and says how many.
    pub fn feed(&mut self, piece: &[u8]) -> Result<(Option<Bytes>, usize), Memory>
        ensures feeds { IfOk result (λ fed. IfSome self.old (λ begun. Feeds begun piece.now fed.0 fed.1 self.new)) }
        ensures within { IfOk result (λ fed. fed.1 ≤ length piece.now) }
        ensures some { IfOk result (λ fed. IfSome self.old (λ begun. 0 < length piece.now → 0 < fed.1)) }
        ensures uncut { IfSome self.old IsUncut }
        ensures spent { IsNone self.old → (result ≡ Ok (None, 0)) × IsNone self.new }
        ensures memory { OnErr result (IsNone self.new) }
    {
        if self.is_spent {
            return Ok((None, 0));
        }
        match self.begun.take(piece) {
            Ok(fed) => Ok(fed),
            Err(memory) => {
                self.is_spent = true;
                Err(memory)
            }
        }
    }

    /// Takes a whole piece, and puts the lines that end in it behind those of the bytes before it.
    pub fn feed_all(&mut self, piece: &[u8], lines: &mut Items<Bytes>) -> Result<(), Memory>
        ensures { OnOk result ((past : List ℕ) → IfSome self.old (λ begun. IsCut past lines.old begun
            → IsSomeAnd self.new (λ after. IsCut (past ++ piece.now) lines.new after))) }
    {
        let mut taken = 0;
        while taken < piece.len() && !self.spent() {
            let (line, more) = self.feed(&piece[taken..])?;
            taken += more;
            if let Some(line) = line {
                lines.push(line)?;
            }
        }
        Ok(())
    }

    /// The bytes of the line that has begun.
    pub fn begun(&self) -> &[u8]
        ensures { IfSome self.now (λ begun. result.now ≡ begun) }
    {
        self.begun.bytes.as_slice()
    }
}

/// The lines of a connection whose bytes come in these pieces, and how many bytes are left of a line that has begun: however
/// they are cut, those of the pieces joined.
pub fn cut(alloc: Global, pieces: &[Bytes]) -> Result<(Items<Bytes>, Bytes), Memory>
    ensures { IfOk result (λ x. IsCut (concat pieces.now) x.0 x.1) }
{
    let mut cutter = Cutter::new(alloc);
    let mut lines = Items::new(alloc);
    for piece in pieces {
        cutter.feed_all(piece.as_slice(), &mut lines)?;
    }
    let left = Bytes::from_slice(alloc, cutter.begun())?;
    Ok((lines, left))
}
