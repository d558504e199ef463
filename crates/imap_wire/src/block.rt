// Bytes in a place that they never leave.
ghost use Rattle.std.specs.Prelude.{◌≡◌, ◌+◌, ◌≤◌, [], ◌++◌, length, IfOk, vec_capacity};

use crate::tally::Tally;
use mur_base::limits::LINE_LIMIT;
use mur_base::{Bytes, Memory};
use std::alloc::Global;

/// Bytes of a block: two of the longest lines with their CRLFs. A block in which a line finds no room is more than half
/// full, so memory is held for no more than twice the bytes that came, and one block.
pub const BLOCK_ROOM: usize = 2 * (LINE_LIMIT + 2);

/// The least room of the first block of a command, in which plain text waits. What comes behind it goes into a block of
/// full length, and isn't moved.
pub const FIRST_ROOM: usize = 64;

/// The longest piece that goes into a first block. A longer one begins in a block of full length.
pub const FIRST_PIECE: usize = 1024;

/// A place for bytes that never grows, so they stay where they are put. `put` is the one function of this crate that
/// copies bytes, and counts them and its calls.
#[derive(Drop)]
pub struct Block {
    bytes: Vec<u8>,
    /// How many bytes it was made for.
    room: usize,
    ghost within: { length bytes.items ≤ room },
    ghost fits: { room ≤ vec_capacity bytes },
}

impl Block {
    ghost use Rattle.imap_wire.specs.Tally.{counted, more};

    /// A block with no room. It takes no memory.
    pub fn none(alloc: Global) -> Block
        ensures bytes { result.bytes.items ≡ [] }
        ensures room { result.room ≡ 0 }
    {
        Block {
            bytes: Vec::new(alloc),
            room: 0,
        }
    }

    /// An empty block with room for so many bytes.
    pub fn new(alloc: Global, room: usize) -> Result<Block, Memory>
        ensures bytes { IfOk result (λ block. block.bytes.items ≡ []) }
        ensures room { IfOk result (λ block. block.room ≡ room) }
    {
        Ok(Block {
            bytes: Vec::with_capacity(alloc, room)?,
            room,
        })
    }

    /// How many bytes there are and may come.
    pub fn room(&self) -> usize
        ensures room { result ≡ self.now.room }
        ensures within { length self.now.bytes.items ≤ result }
    {
        self.room
    }

    pub fn len(&self) -> usize
        ensures { result ≡ length self.now.bytes.items }
    {
        self.bytes.len()
    }

    pub fn as_slice(&self) -> &[u8]
        ensures { result.now ≡ self.now.bytes.items }
    {
        self.bytes.as_slice()
    }

    /// Puts bytes behind those that are there.
    pub fn put(&mut self, bytes: &[u8], tally: &mut Tally, moves: &mut u64)
        requires room { length self.old.bytes.items + length bytes.now ≤ self.old.room }
        ensures bytes { self.new.bytes.items ≡ self.old.bytes.items ++ bytes.now }
        ensures room { self.new.room ≡ self.old.room }
        ensures tally { tally.new ≡ more tally.old 0 (length bytes.now) }
        ensures moves { moves.new ≡ counted (moves.old + 1) }
    {
        *moves = moves.saturating_add(1);
        tally.add(0, bytes.len());
        self.bytes.extend_from_slice(bytes).unwrap();
    }

    /// Takes all bytes away and keeps the room.
    pub fn clear(&mut self)
        ensures bytes { self.new.bytes.items ≡ [] }
        ensures room { self.new.room ≡ self.old.room }
    {
        self.bytes.clear();
    }

    /// The bytes, which aren't copied.
    pub fn into_bytes(self) -> Bytes
        ensures { result ≡ self.bytes.items }
    {
        let Block { bytes, room: _ } = self;
        Bytes::from_vec(bytes)
    }
}
