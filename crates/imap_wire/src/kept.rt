// The bytes of the command that has begun.
ghost use Rattle.std.specs.Prelude.{◌≡◌, ◌+◌, ◌-◌, ◌*◌, ◌^◌, ◌<◌, ◌≤◌, [], ◌∷◌, ◌++◌, ◌⊎◌, length, max, IfOk, OnOk, OnErr};
ghost use Rattle.imap_wire.specs.Kept.{joined, joined_blocks, next_room};
ghost use Rattle.mur_base.specs.declared.limits.TheConstants.{LINE_LIMIT};
ghost use Rattle.imap_wire.specs.declared.block.TheConstants.{BLOCK_ROOM, FIRST_PIECE, FIRST_ROOM};
ghost use Rattle.imap_wire.specs.Tally.{counted};

use crate::block::{BLOCK_ROOM, Block, FIRST_ROOM};
use crate::tally::Tally;
use memchr::memchr;
use mur_base::{Bytes, Memory};
use std::alloc::Global;
use std::mem;

/// The bytes of a command, each where it was put as it came.
#[derive(Drop)]
pub struct Kept {
    /// The blocks behind which another one follows, in their order.
    pub full: Vec<Block>,
    pub last: Block,
    pub tally: Tally,
    /// How often bytes were put into a block, searched or passed. The count stands still at the largest number of 64
    /// bits.
    pub moves: u64,
    ghost moves_within: { moves < 2 ^ 64 },
    ghost taken_within: { tally.taken < 2 ^ 64 },
    ghost copied_within: { tally.copied < 2 ^ 64 },
    // Each byte was copied once as it came, so that it may be copied once more.
    ghost twice: { counted (tally.copied + length (joined full.items last)) ≤ 2 * tally.taken },
    // All full blocks but one are at least half full.
    ghost halves: { length full.items * (LINE_LIMIT + 2) ≤ length (joined_blocks full.items) + (LINE_LIMIT + 2) },
    ghost last_room: { 0 < length full.items → last.room ≡ BLOCK_ROOM },
}

impl Kept {
    ghost use Rattle.imap_wire.specs.Tally.{no_tally, more, IsCounted};
    ghost use Rattle.imap_wire.specs.Kept.{filled_room};
    ghost use Rattle.imap_wire.specs.Bulk.{IsUpTo, join_moves};
    ghost use Rattle.memchr.specs.Find.{IsFirstByte, is_byte};
    ghost use Rattle.mur_base.specs.Ascii.{lf};

    /// No bytes, of a new connection. They take no memory.
    pub fn new(alloc: Global) -> Kept
        ensures full { result.full.items ≡ [] }
        ensures last { result.last.bytes.items ≡ [] }
        ensures tally { result.tally ≡ no_tally }
        ensures moves { result.moves ≡ 0 }
    {
        Kept {
            full: Vec::new(alloc),
            last: Block::none(alloc),
            tally: Tally::new(),
            moves: 0,
        }
    }

    /// What was done so far.
    pub fn tally(&self) -> Tally
        ensures tally { result ≡ self.now.tally }
        ensures twice { result.copied ≤ 2 * result.taken }
    {
        self.tally
    }

    /// How many bytes the last block has room for.
    pub fn room_left(&self) -> usize
        ensures { result ≡ self.now.last.room - length self.now.last.bytes.items }
    {
        self.last.room() - self.last.len()
    }

    /// Lets a new block follow, which is the last one then; for want of memory the blocks stay as they were.
    pub fn next_block(&mut self, alloc: Global) -> Result<(), Memory>
        requires half { 0 < length self.old.full.items → LINE_LIMIT + 2 ≤ length self.old.last.bytes.items }
        ensures bytes { OnOk result (joined self.new.full.items self.new.last ≡ joined self.old.full.items self.old.last) }
        ensures last { OnOk result (self.new.last.bytes.items ≡ []) }
        ensures room { OnOk result (self.new.last.room ≡ BLOCK_ROOM) }
        ensures full { OnOk result (self.new.full.items ≡ self.old.full.items ++ self.old.last ∷ []) }
        ensures err { OnErr result (self.new.last ≡ self.old.last) }
        ensures err_full { OnErr result (self.new.full.items ≡ self.old.full.items) }
        ensures tally { self.new.tally ≡ self.old.tally }
        ensures moves { self.new.moves ≡ self.old.moves }
    {
        self.full.reserve(1)?;
        let before = mem::replace(&mut self.last, Block::new(alloc, BLOCK_ROOM)?);
        self.full.push_reserved(before);
        Ok(())
    }

    /// Sees to room for a piece in the first block. Where there is none yet, one is made with as much room behind the piece.
    pub fn make_first_room(&mut self, alloc: Global, piece: usize) -> Result<(), Memory>
        requires block { self.old.last.room < BLOCK_ROOM }
        requires short { piece ≤ FIRST_PIECE }
        requires room { (self.old.last.room ≡ 0) ⊎ (length self.old.last.bytes.items + piece ≤ self.old.last.room) }
        ensures bytes { OnOk result (self.new.last.bytes.items ≡ self.old.last.bytes.items) }
        ensures room { OnOk result (length self.new.last.bytes.items + piece ≤ self.new.last.room) }
        ensures few { OnOk result ((self.new.last.room ≡ self.old.last.room) ⊎ (self.new.last.room ≡ max FIRST_ROOM (2 * piece))) }
        ensures full { self.new.full.items ≡ self.old.full.items }
        ensures err { OnErr result (self.new.last ≡ self.old.last) }
        ensures tally { self.new.tally ≡ self.old.tally }
        ensures moves { self.new.moves ≡ self.old.moves }
    {
        if self.last.room() == 0 {
            self.last = Block::new(alloc, FIRST_ROOM.max(2 * piece))?;
        }
        Ok(())
    }

    /// Lets a new block follow where the last one is full or a first one.
    pub fn make_room(&mut self, alloc: Global) -> Result<(), Memory>
        ensures bytes { OnOk result (joined self.new.full.items self.new.last ≡ joined self.old.full.items self.old.last) }
        ensures some { OnOk result (length self.new.last.bytes.items < self.new.last.room) }
        ensures room { OnOk result (self.new.last.room - length self.new.last.bytes.items ≡ next_room self.old.last) }
        ensures block { OnOk result (self.new.last.room ≡ BLOCK_ROOM) }
        ensures err { OnErr result (self.new.last ≡ self.old.last) }
        ensures err_full { OnErr result (self.new.full.items ≡ self.old.full.items) }
        ensures cause { OnErr result (next_room self.old.last ≡ BLOCK_ROOM) }
        ensures tally { self.new.tally ≡ self.old.tally }
        ensures moves { self.new.moves ≡ self.old.moves }
    {
        if self.room_left() == 0 || self.last.room() != BLOCK_ROOM {
            self.next_block(alloc)?;
        }
        Ok(())
    }

    /// Where the first LF stands in bytes that come.
    pub fn find_lf(&mut self, bytes: &[u8]) -> Option<usize>
        ensures found { IsFirstByte (is_byte lf) bytes.now result }
        ensures bytes { joined self.new.full.items self.new.last ≡ joined self.old.full.items self.old.last }
        ensures full { self.new.full.items ≡ self.old.full.items }
        ensures last { self.new.last ≡ self.old.last }
        ensures tally { self.new.tally ≡ self.old.tally }
        ensures moves { self.new.moves ≡ counted (self.old.moves + 1) }
    {
        self.moves = self.moves.saturating_add(1);
        memchr(b'\n', bytes)
    }

    /// Keeps bytes that came.
    pub fn keep(&mut self, bytes: &[u8])
        requires room { length self.old.last.bytes.items + length bytes.now ≤ self.old.last.room }
        ensures bytes { joined self.new.full.items self.new.last ≡ joined self.old.full.items self.old.last ++ bytes.now }
        ensures full { self.new.full.items ≡ self.old.full.items }
        ensures last { self.new.last.bytes.items ≡ self.old.last.bytes.items ++ bytes.now }
        ensures room { self.new.last.room ≡ self.old.last.room }
        ensures tally { self.new.tally ≡ more self.old.tally (length bytes.now) (length bytes.now) }
        ensures moves { self.new.moves ≡ counted (self.old.moves + 1) }
        ensures filled { filled_room self.new.last ≤ filled_room self.old.last + length bytes.now }
    {
        self.tally.add(bytes.len(), 0);
        self.last.put(bytes, &mut self.tally, &mut self.moves);
    }

    /// Counts a byte that came and isn't kept.
    pub fn pass(&mut self)
        ensures bytes { joined self.new.full.items self.new.last ≡ joined self.old.full.items self.old.last }
        ensures full { self.new.full.items ≡ self.old.full.items }
        ensures last { self.new.last ≡ self.old.last }
        ensures tally { self.new.tally ≡ more self.old.tally 1 0 }
        ensures moves { self.new.moves ≡ counted (self.old.moves + 1) }
    {
        self.moves = self.moves.saturating_add(1);
        self.tally.add(1, 0);
    }

    /// Takes all bytes away, joined.
    pub fn take_all(&mut self, alloc: Global) -> Result<Bytes, Memory>
        ensures bytes { IfOk result (λ bytes. bytes ≡ joined self.old.full.items self.old.last) }
        ensures full { OnOk result (self.new.full.items ≡ []) }
        ensures last { OnOk result (self.new.last.bytes.items ≡ []) }
        ensures tally { IfOk result (λ bytes. self.new.tally ≡ more self.old.tally 0 (length bytes)) }
        ensures err { OnErr result (self.new.last ≡ self.old.last) }
        ensures err_full { OnErr result (self.new.full.items ≡ self.old.full.items) }
        ensures undone { OnErr result (self.new.tally ≡ self.old.tally) }
        ensures moves { IfOk result (λ bytes. IsUpTo self.old.moves (join_moves bytes) self.new.moves) }
        ensures none { OnErr result (self.new.moves ≡ self.old.moves) }
    {
        let mut tally = self.tally;
        let mut moves = self.moves;
        let joined = self.join(alloc, &mut tally, &mut moves)?;
        self.full.clear();
        self.last.clear();
        self.tally = tally;
        self.moves = moves;
        Ok(joined.into_bytes())
    }

    /// All bytes in one block.
    fn join(&self, alloc: Global, tally: &mut Tally, moves: &mut u64) -> Result<Block, Memory>
        requires counts { IsCounted tally.old }
        requires moves { moves.old < 2 ^ 64 }
        ensures bytes { IfOk result (λ block. block.bytes.items ≡ joined self.now.full.items self.now.last) }
        ensures room { IfOk result (λ block. block.room ≡ length block.bytes.items) }
        ensures tally { OnOk result (tally.new ≡ more tally.old 0 (length (joined self.now.full.items self.now.last))) }
        ensures moves { OnOk result (moves.new ≡ counted (moves.old + length self.now.full.items + 1)) }
    {
        let mut all = Block::new(alloc, self.len()?)?;
        for block in &self.full {
            all.put(block.as_slice(), tally, moves);
        }
        all.put(self.last.as_slice(), tally, moves);
        Ok(all)
    }

    /// How many bytes there are; no more than memory can have.
    fn len(&self) -> Result<usize, Memory>
        ensures { IfOk result (λ size. size ≡ length (joined self.now.full.items self.now.last)) }
    {
        let mut size = self.last.len();
        for block in &self.full {
            let Some(more) = size.checked_add(block.len()) else {
                return Err(Memory);
            };
            size = more;
        }
        Ok(size)
    }
}
