// The bytes of entries after open gates.
ghost use Rattle.std.specs.Prelude.{◌≡◌, ◌<◌, ◌≤◌, ◌^◌, ◌++◌, ◌∷◌, [], List, ℕ, length, drop, All, IfOk, OnOk};
ghost use Rattle.mur_journal.specs.Image.{IsFront, IsBlock};

use mur_base::{Bytes, Memory};
use std::alloc::Global;

// Puts the block of one more entry after the others.
fn push_open(blocks: &mut Bytes, entry: &[u8]) -> Result<(), Memory>
    requires { length entry.now ≤ 2 ^ 30 }
    ensures { (entries : List (List ℕ)) → IsFront entries blocks.old → OnOk result (IsFront (entries ++ entry.now ∷ []) blocks.new) }
{
    let len = (entry.len() as u32).to_be_bytes();
    blocks.push(1)?;
    blocks.extend_from_slice(&len)?;
    blocks.extend_from_slice(entry)
}

// An open gate, and after it what an append of this entry writes.
pub(crate) fn block_of(alloc: Global, entry: &[u8]) -> Result<Bytes, Memory>
    requires { length entry.now ≤ 2 ^ 30 }
    ensures block { IfOk result (λ bytes. IsBlock (entry.now ∷ []) (drop 1 bytes)) }
    ensures some { IfOk result (λ bytes. 0 < length bytes) }
{
    let mut blocks = Bytes::new(alloc);
    push_open(&mut blocks, entry)?;
    blocks.push(0)?;
    Ok(blocks)
}

// The same of several entries.
pub(crate) fn block_of_all(alloc: Global, entries: &[Bytes]) -> Result<Bytes, Memory>
    requires short { All (λ entry. length entry ≤ 2 ^ 30) entries.now }
    requires some { 0 < length entries.now }
    ensures block { IfOk result (λ bytes. IsBlock entries.now (drop 1 bytes)) }
    ensures some { IfOk result (λ bytes. 0 < length bytes) }
{
    let mut blocks = Bytes::new(alloc);
    for entry in entries {
        push_open(&mut blocks, entry.as_slice())?;
    }
    blocks.push(0)?;
    Ok(blocks)
}

// What is written after the old gate: all but the first gate.
pub(crate) fn without_gate(blocks: &[u8]) -> &[u8]
    requires { 0 < length blocks.now }
    ensures { result.now ≡ drop 1 blocks.now }
{
    &blocks[1..]
}
