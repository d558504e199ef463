// The bytes of an image are read once, from the magic on, block by block.
ghost use Rattle.std.specs.Prelude.{◌≡◌, ◌<◌, ◌≤◌, ◌+◌, ℕ, suc, length, take, drop, IfOk, IfErr, IfSome, IfNone, IsErrOf};
ghost use Rattle.mur_journal.specs.Image.{Good, Bad, parsed, blocks_from, entry_size};
ghost use Rattle.mur_journal.specs.declared.fault.OpenFault.TheVariants.{NotAJournal, Disk as disk_failed};

use crate::fault::OpenFault;
use mur_base::{Bytes, Items};
use std::alloc::Global;

/// The entries of a journal, in order.
pub type Entries = Items<Bytes>;

const MAGIC: [u8; 8] = [77, 85, 82, 68, 69, 82, 74, 49];

// What follows the magic, or the first place that differs from it.
fn after_magic(image: &[u8]) -> Result<&[u8], usize>
    ensures there { IfOk result (λ rest. (parsed image.now ≡ blocks_from (suc (length rest.now)) 8 rest.now) × (8 + length rest.now ≡ length image.now)) }
    ensures not_there { IfErr result (λ at. parsed image.now ≡ Bad at) }
{
    let mut at = 0;
    while at < 8 {
        if at == image.len() || image[at] != MAGIC[at] {
            return Err(at);
        }
        at += 1;
    }
    Ok(&image[8..])
}

// The entry after an open gate and what follows it, if the entry is whole and a gate follows.
fn next_block(bytes: &[u8]) -> Option<(&[u8], &[u8])>
    ensures whole { IfSome result (λ parts. (4 + entry_size bytes.now < length bytes.now)
        × (parts.0.now ≡ take (entry_size bytes.now) (drop 4 bytes.now)) × (parts.1.now ≡ drop (4 + entry_size bytes.now) bytes.now)) }
    ensures short { IfNone result (length bytes.now ≤ 4 + entry_size bytes.now) }
{
    if bytes.len() < 4 {
        return None;
    }
    let n = u32::from_be_bytes([bytes[0], bytes[1], bytes[2], bytes[3]]) as usize;
    if bytes.len() - 4 <= n {
        return None;
    }
    Some((&bytes[4..4 + n], &bytes[4 + n..]))
}

// The entries of an image and the place of its closed gate, in time linear in its bytes.
pub(crate) fn read_image(alloc: Global, image: &[u8]) -> Result<(Entries, u64), OpenFault>
    ensures good { IfOk result (λ read. parsed image.now ≡ Good read.0 read.1) }
    ensures within { IfOk result (λ read. read.1 < length image.now) }
    ensures bad { (offset : ℕ) → IsErrOf result (NotAJournal offset) → parsed image.now ≡ Bad offset }
    ensures no_disk { IsErrOf result disk_failed → ⊥ }
{
    let mut rest = match after_magic(image) {
        Ok(rest) => rest,
        Err(at) => return Err(OpenFault::NotAJournal(at as u64)),
    };
    let mut at = 8;
    let mut entries = Entries::new(alloc);
    while let Some((gate, bytes)) = rest.split_first() {
        if *gate != 1 {
            return Ok((entries, at as u64));
        }
        match next_block(bytes) {
            Some((entry, after)) => {
                entries.push(Bytes::from_slice(alloc, entry)?)?;
                at += 5 + entry.len();
                rest = after;
            }
            None => return Err(OpenFault::NotAJournal(at as u64)),
        }
    }
    Err(OpenFault::NotAJournal(at as u64))
}
