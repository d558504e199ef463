// The bytes of a disk in memory.
ghost use Rattle.std.specs.Prelude.{◌≡◌, ◌≤◌, ◌<◌, ◌+◌, ◌^◌, ◌++◌, length, take, drop, IfOk, OnOk, OnErr};
ghost use Rattle.mur_disk.specs.Calls.{written_over};

use mur_base::{Bytes, Memory};
use std::alloc::Global;
use std::marker::Model;

/// The bytes of a disk in memory, seen by contracts as their list.
#[derive(Drop)]
pub struct Image {
    bytes: Vec<u8>,
}

impl Model for Image {
    ghost use Rattle.std.specs.Prelude.{List, ℕ};

    ghost Value = { List ℕ };

    ghost view = { λ image. image.bytes.items };
}

impl Image {
    pub(crate) fn new(bytes: Bytes) -> Image
        ensures { result ≡ bytes }
    {
        Image {
            bytes: bytes.into_vec(),
        }
    }

    pub(crate) fn copy(&self, alloc: Global) -> Result<Image, Memory>
        ensures { IfOk result (λ copy. copy ≡ self.now) }
    {
        Ok(Image {
            bytes: Vec::from_slice(alloc, &self.bytes)?,
        })
    }

    /// The bytes. It takes no memory.
    pub fn as_slice(&self) -> &[u8]
        ensures { result.now ≡ self.now }
    {
        &self.bytes
    }

    // Puts bytes after the end; for want of memory the image stays as it was.
    pub(crate) fn extend(&mut self, bytes: &[u8]) -> Result<(), Memory>
        ensures ok { OnOk result (self.new ≡ self.old ++ bytes.now) }
        ensures err { OnErr result (self.new ≡ self.old) }
    {
        self.bytes.extend_from_slice(bytes)?;
        Ok(())
    }

    pub(crate) fn truncate(&mut self, len: usize)
        ensures { self.new ≡ take len self.old }
    {
        self.bytes.truncate(len);
    }

    // Replaces bytes by as many others.
    pub(crate) fn overwrite(&mut self, at: usize, bytes: &[u8])
        requires { at + length bytes.now ≤ length self.old }
        ensures written { self.new ≡ take at self.old ++ (bytes.now ++ drop (at + length bytes.now) self.old) }
        ensures fits { length self.new < 2 ^ 64 }
    {
        self.bytes[at..at + bytes.len()].copy_from_slice(bytes);
    }

    // Writes bytes over what is there and past the end; what lies between the end and the place holds zeros.
    pub(crate) fn write(&mut self, at: usize, bytes: &[u8]) -> Result<(), Memory>
        ensures { OnOk result (self.new ≡ written_over at bytes.now self.old) }
    {
        if self.bytes.len() < at {
            self.bytes.resize(at, 0)?;
        }
        let over = bytes.len().min(self.bytes.len() - at);
        self.bytes.extend_from_slice(&bytes[over..])?;
        self.overwrite(at, &bytes[..over]);
        Ok(())
    }
}
