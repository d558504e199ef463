// The command that has begun, and how it grows.
ghost use Rattle.std.specs.Prelude.{◌≡◌, ◌+◌, ◌<◌, ◌≤◌, ◌⊎◌, length, take, drop, slice_index, IfOk, OnOk, OnErr, true, false};
ghost use Rattle.std.specs.Prelude.{[], ◌∷◌, ◌++◌, IsTrue, ◌↔◌, None, min};
ghost use Rattle.mur_base.specs.declared.limits.TheConstants.{LINE_LIMIT};
ghost use Rattle.imap_wire.specs.declared.block.TheConstants.{BLOCK_ROOM};
ghost use Rattle.imap_wire.specs.Front.{IsPlain, front_of, back_at};

use crate::block::{BLOCK_ROOM, FIRST_PIECE};
use crate::frame::{Frame, FrameFault};
use crate::kept::Kept;
use crate::literal::{Admission, Literal, announced};
use memchr::memchr3;
use mur_base::limits::{COMMAND_LITERALS_LIMIT, LINE_LIMIT};
use mur_base::{Bytes, Memory};
use std::alloc::Global;

/// What has come of a command.
#[derive(Drop)]
pub struct Begun {
    /// All its bytes, those of its literals among them.
    pub kept: Kept,
    /// Where its present line begins: in the last block, which is its end while a literal comes, or in those before it.
    pub line_at: usize,
    /// How many bytes of the present line stand before the last block.
    pub front_len: usize,
    /// How many bytes the texts of this line and those behind it may have.
    pub line_room: usize,
    /// How many bytes its further literals may have.
    pub literal_room: usize,
    /// How many bytes of a literal are still to come.
    pub literal_left: usize,
    /// No byte is taken any more.
    pub spent: bool,
    ghost front_is: { front_len ≡ length (front_of front_len line_at kept.full.items) },
    // So the text behind it says alone whether the line ends, and what it announces.
    ghost front_plain: { IsPlain (front_of front_len line_at kept.full.items) },
    ghost front_full: { 0 < front_len → 0 < length kept.full.items },
    ghost line_within: { back_at front_len line_at ≤ length kept.last.bytes.items },
    // Only a CR that may begin the line's CRLF stands past the limit.
    ghost line_short: { front_len + length kept.last.bytes.items ≤ back_at front_len line_at + line_room + 1 },
    // A line that has begun has room to its end where it stands, or waits in the first block.
    ghost line_fits: { back_at front_len line_at < length kept.last.bytes.items → kept.last.room < back_at front_len line_at + line_room + 2
        → (length kept.full.items ≡ 0) × IsPlain (drop line_at kept.last.bytes.items) },
    ghost room_within: { line_room ≤ LINE_LIMIT },
}

impl Begun {
    ghost use Rattle.imap_wire.specs.Begun.{state_of, present_line, line_back, IsRoomy, IsBetween, StandsFirst, HasFirstRoom, MayWait, Moves, TakesFrame};
    ghost use Rattle.imap_wire.specs.Kept.{next_room, filled_room};
    ghost use Rattle.imap_wire.specs.Bulk.{credit, account, IsPaid, IsUpTo, most_moves, frame_moves, join_moves};
    ghost use Rattle.imap_wire.specs.Steps.{start_state, step, line_step, line_end, with_literal, failing};
    ghost use Rattle.mur_base.specs.Ascii.{lf, ends_with_cr};
    ghost use Rattle.imap_wire.specs.Line.{least_length};
    ghost use Rattle.imap_wire.specs.Tally.{no_tally, more, copies, counted, fed, IsFedPart};

    /// The state between two commands, at the beginning of a connection.
    pub fn new(alloc: Global) -> Begun
        ensures state { state_of result ≡ start_state }
        ensures tally { result.kept.tally ≡ no_tally }
        ensures count { result.kept.moves ≡ 0 }
    {
        Begun {
            kept: Kept::new(alloc),
            line_at: 0,
            front_len: 0,
            line_room: LINE_LIMIT,
            literal_room: COMMAND_LITERALS_LIMIT,
            literal_left: 0,
            spent: false,
        }
    }

    /// The bytes of the present line in the last block; those before it are plain.
    fn line_back(&self) -> &[u8]
        ensures { result.now ≡ line_back self.now }
    {
        let at = if self.front_len > 0 { 0 } else { self.line_at };
        &self.kept.last.as_slice()[at..]
    }

    /// How many bytes of the present line have come.
    fn line_len(&self) -> usize
        requires { self.now.literal_left ≡ 0 }
        ensures { result ≡ length (present_line self.now) }
    {
        self.front_len + self.line_back().len()
    }

    /// Whether the last block has room for the present line to its end.
    fn is_roomy(&self) -> bool
        ensures { IsTrue result ↔ IsRoomy self.now }
    {
        let at = if self.front_len > 0 { 0 } else { self.line_at };
        self.line_room + 2 <= self.kept.last.room() - at
    }

    /// Takes bytes of a literal, all at once as far as the last block has room for them.
    fn take_literal(&mut self, alloc: Global, piece: &[u8]) -> Result<usize, Memory>
        requires going { self.old.spent ≡ false }
        requires left { 0 < self.old.literal_left }
        ensures moves { IfOk result (λ taken. Moves (state_of self.old) piece.now taken (state_of self.new)) }
        ensures some { IfOk result (λ taken. 0 < length piece.now → 0 < taken) }
        ensures one { OnOk result (self.new.kept.moves ≡ counted (self.old.kept.moves + 1)) }
        ensures none { OnErr result (self.new.kept.moves ≡ self.old.kept.moves) }
        // Bytes that end neither the piece nor the literal fill a block, which pays for the move.
        ensures paid { IfOk result (λ taken. taken < length piece.now → account self.new ≤ account self.old + taken) }
        ensures bulk { IfOk result (λ taken. taken ≡ min (min self.old.literal_left (next_room self.old.kept.last)) (length piece.now)) }
        ensures tally { IfOk result (λ taken. self.new.kept.tally ≡ fed self.old.kept.tally None taken) }
        ensures memory { OnErr result (self.new.kept.tally ≡ self.old.kept.tally) }
        ensures cause { OnErr result (next_room self.old.kept.last ≡ BLOCK_ROOM) }
    {
        self.kept.make_room(alloc)?;
        let room = self.literal_left.min(self.kept.room_left());
        let taken = room.min(piece.len());
        self.kept.keep(&piece[..taken]);
        self.literal_left -= taken;
        self.line_at = self.kept.last.len();
        self.front_len = 0;
        Ok(taken)
    }

    /// Whether the present line stands in the first block, or would begin there.
    fn stands_first(&self) -> bool
        ensures { IsTrue result → StandsFirst self.now }
    {
        if self.is_roomy() {
            return false;
        }
        self.kept.full.is_empty() && self.kept.last.room() < BLOCK_ROOM
    }

    /// Whether the first block has room for a piece, or would have.
    fn has_first_room_for(&self, piece: usize) -> bool
        ensures { IsTrue result → HasFirstRoom self.now piece }
    {
        if piece > FIRST_PIECE {
            return false;
        }
        self.kept.last.room() == 0 || piece <= self.kept.room_left()
    }

    /// Whether a piece may wait in the first block: it ends neither a line nor anything else, and finds room there. So a
    /// connection that has said little takes little, and no byte is copied once more when the rest comes.
    fn may_wait(&self, piece: &[u8]) -> bool
        requires in_line { self.now.literal_left ≡ 0 }
        requires some { 0 < length piece.now }
        ensures { IsTrue result → MayWait self.now piece.now }
    {
        if !self.stands_first() {
            return false;
        }
        if !self.has_first_room_for(piece.len()) {
            return false;
        }
        if self.line_room.saturating_sub(self.line_len()) < piece.len() {
            return false;
        }
        memchr3(b'\r', b'\n', b'{', piece).is_none()
    }

    /// Keeps a piece in the first block.
    fn wait(&mut self, alloc: Global, piece: &[u8]) -> Result<(), Memory>
        requires going { self.old.spent ≡ false }
        requires in_line { self.old.literal_left ≡ 0 }
        requires may { MayWait self.old piece.now }
        ensures moves { OnOk result (Moves (state_of self.old) piece.now (length piece.now) (state_of self.new)) }
        ensures tally { OnOk result (self.new.kept.tally ≡ fed self.old.kept.tally None (length piece.now)) }
        ensures one { OnOk result (self.new.kept.moves ≡ counted (self.old.kept.moves + 1)) }
        ensures none { OnErr result (self.new.kept.moves ≡ self.old.kept.moves) }
        ensures memory { OnErr result (self.new.kept.tally ≡ self.old.kept.tally) }
    {
        self.kept.make_first_room(alloc, piece.len())?;
        self.kept.keep(piece);
        Ok(())
    }

    /// Sees to room for the present line, which stays in one block to its end, but for what waits in the first block.
    fn make_line_room(&mut self, alloc: Global) -> Result<(), Memory>
        requires in_line { self.old.literal_left ≡ 0 }
        ensures state { OnOk result (state_of self.new ≡ state_of self.old) }
        ensures room { OnOk result (IsRoomy self.new) }
        ensures cause { OnErr result (¬ IsRoomy self.old) }
        ensures tally { self.new.kept.tally ≡ self.old.kept.tally }
        ensures count { self.new.kept.moves ≡ self.old.kept.moves }
        ensures filled { OnOk result (filled_room self.new.kept.last ≤ filled_room self.old.kept.last) }
    {
        if self.is_roomy() {
            return Ok(());
        }
        let front_len = self.kept.last.len() - self.line_at;
        self.kept.next_block(alloc)?;
        self.front_len = front_len;
        if front_len == 0 {
            self.line_at = 0;
        }
        Ok(())
    }

    /// Takes bytes of a line, all at once up to the next LF or as far as the line's limit is sure to allow.
    fn take_text(&mut self, piece: &[u8]) -> usize
        requires going { self.old.spent ≡ false }
        requires in_line { self.old.literal_left ≡ 0 }
        requires room { IsRoomy self.old }
        ensures moves { Moves (state_of self.old) piece.now result (state_of self.new) }
        ensures going { self.new.spent ≡ false }
        ensures in_line { self.new.literal_left ≡ 0 }
        ensures room { IsRoomy self.new }
        ensures tally { self.new.kept.tally ≡ fed self.old.kept.tally None result }
        // The search, and the bytes.
        ensures two { self.new.kept.moves ≡ counted (self.old.kept.moves + 2) }
        ensures filled { filled_room self.new.kept.last ≤ filled_room self.old.kept.last + result }
        ensures credit { credit (state_of self.new) ≡ credit (state_of self.old) }
        // No further byte of the piece is a line's that is sure to be allowed.
        ensures bulk { result < length piece.now
            → (slice_index piece.now result ≡ lf) ⊎ (self.new.line_room ≤ length (present_line self.new)) }
    {
        let room = self.line_room.saturating_sub(self.line_len());
        let found = self.kept.find_lf(piece);
        let taken = found.unwrap_or(piece.len()).min(room);
        self.kept.keep(&piece[..taken]);
        taken
    }

    /// Whether the present line ends in CR.
    fn ends_with_cr(&self) -> bool
        requires { self.now.literal_left ≡ 0 }
        ensures { result ≡ ends_with_cr (present_line self.now) }
    {
        matches!(self.line_back(), [.., b'\r'])
    }

    /// Whether the present line is within its limit with this byte at its end. A CR may begin the CRLF, which
    /// doesn't count.
    fn has_room_for(&self, byte: u8) -> bool
        requires { self.now.literal_left ≡ 0 }
        ensures { IsTrue result ↔ (least_length (present_line self.now ++ byte ∷ []) ≤ self.now.line_room) }
    {
        let length = self.line_len();
        if byte == b'\r' {
            length <= self.line_room
        } else {
            length < self.line_room
        }
    }

    /// Takes bytes of the piece up to the end of the next frame, or all where none ends in it.
    pub fn take(&mut self, alloc: Global, piece: &[u8]) -> Result<(Option<Frame>, usize), Memory>
        requires going { self.old.spent ≡ false }
        ensures takes { IfOk result (λ r. TakesFrame (state_of self.old) piece.now r.0 r.1 (state_of self.new)) }
        ensures whole { IfOk result (λ r. r.0 ≡ None → r.1 ≡ length piece.now) }
        ensures tally { IfOk result (λ r. self.new.kept.tally ≡ fed self.old.kept.tally r.0 r.1) }
        ensures memory { OnErr result (IsFedPart self.old.kept.tally (length piece.now) self.new.kept.tally) }
        ensures bulk { IfOk result (λ r. let most = most_moves (state_of self.old) (take r.1 piece.now) + frame_moves r.0 in
            IsUpTo self.old.kept.moves most self.new.kept.moves) }
        ensures part { OnErr result (IsUpTo self.old.kept.moves (most_moves (state_of self.old) piece.now) self.new.kept.moves) }
    {
        let mut taken = 0;
        while taken < piece.len() {
            let (frame, more) = self.take_some(alloc, &piece[taken..])?;
            taken += more;
            if frame.is_some() {
                return Ok((frame, taken));
            }
        }
        Ok((None, taken))
    }

    /// Takes one byte of the piece or more, and none behind the end of the next frame.
    fn take_some(&mut self, alloc: Global, piece: &[u8]) -> Result<(Option<Frame>, usize), Memory>
        requires going { self.old.spent ≡ false }
        requires some { 0 < length piece.now }
        ensures takes { IfOk result (λ r. TakesFrame (state_of self.old) piece.now r.0 r.1 (state_of self.new)) }
        ensures some { IfOk result (λ r. 0 < r.1) }
        ensures tally { IfOk result (λ r. self.new.kept.tally ≡ fed self.old.kept.tally r.0 r.1) }
        ensures memory { OnErr result (IsFedPart self.old.kept.tally (length piece.now) self.new.kept.tally) }
        ensures few { IfOk result (λ r. IsUpTo self.old.kept.moves (3 + frame_moves r.0) self.new.kept.moves) }
        ensures part { OnErr result (IsUpTo self.old.kept.moves 3 self.new.kept.moves) }
        ensures paid { IfOk result (λ r. r.0 ≡ None → r.1 < length piece.now → IsPaid self.old (take r.1 piece.now) self.new) }
    {
        if self.literal_left > 0 {
            return Ok((None, self.take_literal(alloc, piece)?));
        }
        if self.may_wait(piece) {
            self.wait(alloc, piece)?;
            return Ok((None, piece.len()));
        }
        self.make_line_room(alloc)?;
        let taken = self.take_text(piece);
        if taken == piece.len() {
            return Ok((None, taken));
        }
        Ok((self.take_byte(alloc, piece[taken])?, taken + 1))
    }

    /// Takes one byte where a line stands, and gives the frame that it ends.
    fn take_byte(&mut self, alloc: Global, byte: u8) -> Result<Option<Frame>, Memory>
        requires going { self.old.spent ≡ false }
        requires in_line { self.old.literal_left ≡ 0 }
        requires room { IsRoomy self.old }
        ensures frame { IfOk result (λ frame. frame ≡ (step (state_of self.old) byte).frame) }
        ensures after { OnOk result (state_of self.new ≡ (step (state_of self.old) byte).after) }
        ensures tally { IfOk result (λ frame. self.new.kept.tally ≡ fed self.old.kept.tally frame 1) }
        ensures memory { OnErr result (self.new.kept.tally ≡ fed self.old.kept.tally None 1) }
        ensures count { IfOk result (λ frame. IsUpTo self.old.kept.moves (1 + frame_moves frame) self.new.kept.moves) }
        ensures one { OnErr result (self.new.kept.moves ≡ counted (self.old.kept.moves + 1)) }
        ensures filled { IfOk result (λ frame. frame ≡ None → filled_room self.new.kept.last ≤ filled_room self.old.kept.last + 1) }
    {
        if byte == b'\n' && self.ends_with_cr() {
            self.take_lf(alloc)
        } else {
            Ok(self.take_text_byte(byte))
        }
    }

    /// Takes one byte that ends no line. The fault is the only frame.
    fn take_text_byte(&mut self, byte: u8) -> Option<Frame>
        requires going { self.old.spent ≡ false }
        requires in_line { self.old.literal_left ≡ 0 }
        requires room { IsRoomy self.old }
        ensures frame { result ≡ (line_step (state_of self.old) byte).frame }
        ensures after { state_of self.new ≡ (line_step (state_of self.old) byte).after }
        ensures tally { self.new.kept.tally ≡ fed self.old.kept.tally result 1 }
        ensures one { self.new.kept.moves ≡ counted (self.old.kept.moves + 1) }
        ensures no_more { frame_moves result ≡ 0 }
        ensures filled { result ≡ None → filled_room self.new.kept.last ≤ filled_room self.old.kept.last + 1 }
    {
        if !self.has_room_for(byte) {
            self.kept.pass();
            return Some(self.fail(FrameFault::LineTooLong));
        }
        self.kept.keep(&[byte]);
        None
    }

    /// Takes the LF behind the CR of the present line, and gives the frame that ends with it.
    fn take_lf(&mut self, alloc: Global) -> Result<Option<Frame>, Memory>
        requires going { self.old.spent ≡ false }
        requires in_line { self.old.literal_left ≡ 0 }
        requires cr { ends_with_cr (present_line self.old) ≡ true }
        requires room { IsRoomy self.old }
        ensures frame { IfOk result (λ frame. frame ≡ (step (state_of self.old) lf).frame) }
        ensures after { OnOk result (state_of self.new ≡ (step (state_of self.old) lf).after) }
        ensures tally { IfOk result (λ frame. self.new.kept.tally ≡ fed self.old.kept.tally frame 1) }
        ensures memory { OnErr result (self.new.kept.tally ≡ fed self.old.kept.tally None 1) }
        ensures count { IfOk result (λ frame. IsUpTo self.old.kept.moves (1 + frame_moves frame) self.new.kept.moves) }
        ensures one { OnErr result (self.new.kept.moves ≡ counted (self.old.kept.moves + 1)) }
        ensures filled { IfOk result (λ frame. frame ≡ None → filled_room self.new.kept.last ≤ filled_room self.old.kept.last + 1) }
    {
        let back = self.line_back();
        let literal = announced(&back[..back.len() - 1]);
        let length = self.line_len() - 1;
        self.kept.keep(b"\n");
        // No longer text gets here, so nothing is cut off at 0.
        self.line_room = self.line_room.saturating_sub(length);
        self.line_at = self.kept.last.len();
        self.front_len = 0;
        self.end_line(alloc, literal)
    }

    /// Goes on behind a line that announces this literal or none, and gives the frame that ends with the line.
    #[tactic(auto, using(crate::proofs::LiteralLaws::by_size), unfolding(crate::specs::Steps::line_end, crate::specs::Steps::announced_step))]
    fn end_line(&mut self, alloc: Global, literal: Option<Literal>) -> Result<Option<Frame>, Memory>
        requires going { self.old.spent ≡ false }
        requires between { IsBetween self.old }
        ensures frame { IfOk result (λ frame. frame ≡ (line_end (state_of self.old) literal).frame) }
        ensures after { OnOk result (state_of self.new ≡ (line_end (state_of self.old) literal).after) }
        ensures tally { IfOk result (λ frame. self.new.kept.tally ≡ more self.old.kept.tally 0 (copies frame 0)) }
        ensures memory { OnErr result (self.new.kept.tally ≡ self.old.kept.tally) }
        ensures count { IfOk result (λ frame. IsUpTo self.old.kept.moves (frame_moves frame) self.new.kept.moves) }
        ensures none { OnErr result (self.new.kept.moves ≡ self.old.kept.moves) }
        ensures last { IfOk result (λ frame. frame ≡ None → self.new.kept.last ≡ self.old.kept.last) }
        // The line's last byte was kept.
        ensures kept { IfOk result (λ frame. copies frame 1 ≡ 1 + copies frame 0) }
    {
        let Some(literal) = literal else {
            return Ok(Some(Frame::Whole(self.restart(alloc)?)));
        };
        match literal.admission(self.literal_room) {
            Admission::Asked => {
                self.expect(literal.size);
                Ok(Some(Frame::NeedLiteral(literal.size as u32)))
            }
            Admission::Unasked => {
                self.expect(literal.size);
                Ok(None)
            }
            Admission::Refused => Ok(Some(Frame::TooBig(self.restart(alloc)?))),
            Admission::RefusedUnasked => Ok(Some(self.fail(FrameFault::PlusTooLong))),
        }
    }

    /// Lets a literal of so many bytes come.
    fn expect(&mut self, size: usize)
        requires room { size ≤ self.old.literal_room }
        requires between { IsBetween self.old }
        ensures state { state_of self.new ≡ with_literal (state_of self.old) size }
        ensures kept { self.new.kept ≡ self.old.kept }
    {
        self.literal_room -= size;
        self.literal_left = size;
    }

    /// Ends the connection: nothing may follow this fault.
    fn fail(&mut self, fault: FrameFault) -> Frame
        ensures frame { result ≡ Frame.Fault fault }
        ensures after { state_of self.new ≡ (failing fault (state_of self.old)).after }
        ensures kept { self.new.kept ≡ self.old.kept }
    {
        self.spent = true;
        Frame::Fault(fault)
    }

    /// The bytes of the command, after which a new one begins.
    fn restart(&mut self, alloc: Global) -> Result<Bytes, Memory>
        requires { self.old.spent ≡ false }
        ensures bytes { IfOk result (λ bytes. bytes ≡ (state_of self.old).bytes) }
        ensures after { OnOk result (state_of self.new ≡ start_state) }
        ensures tally { IfOk result (λ bytes. self.new.kept.tally ≡ more self.old.kept.tally 0 (length bytes)) }
        ensures memory { OnErr result (self.new.kept.tally ≡ self.old.kept.tally) }
        ensures count { IfOk result (λ bytes. IsUpTo self.old.kept.moves (join_moves bytes) self.new.kept.moves) }
        ensures none { OnErr result (self.new.kept.moves ≡ self.old.kept.moves) }
    {
        let bytes = self.kept.take_all(alloc)?;
        self.line_at = 0;
        self.front_len = 0;
        self.line_room = LINE_LIMIT;
        self.literal_room = COMMAND_LITERALS_LIMIT;
        self.literal_left = 0;
        Ok(bytes)
    }
}
