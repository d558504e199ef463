// What the entries of a disk make: a table of names, and a mailbox.
ghost use Rattle.std.specs.Prelude.{IfOk};
ghost use Rattle.std.specs.List.{AllByRecursion};
ghost use Rattle.mail_message.specs.RowOrder.{HasNext};

use crate::fault::Fault;
use crate::making::read_date;
use crate::times::Work;
use mail_message::{FlagSet, Message, Messages, first_acl};
use mur_base::{Bytes, Location, MailName, Map, mail_name, node_name};
use node_record::{BackendRecord, HeldNames, MasterRecord, Table, apply_backend, apply_master};
use std::alloc::Global;

/// Into how many folds the plain work cuts what is folded in one.
const PARTS: u32 = 8;

/// What is folded.
#[derive(Clone, Copy)]
pub enum Fold {
    /// Entries of the master's disk, each of which reserves a name.
    Names,
    /// Entries of a backend's disk, each of which puts a message into one mailbox.
    Messages,
}

impl Fold {
    /// As many as there may be.
    fn most(self) -> u32 {
        match self {
            Fold::Names => 4_096,
            Fold::Messages => 20_000,
        }
    }

    /// Folds so many, and gives how many they came to.
    fn of(self, alloc: Global, count: u32) -> Result<u64, Fault> {
        match self {
            Fold::Names => reserved(alloc, count),
            Fold::Messages => put(alloc, count),
        }
    }
}

/// A mailbox name for each number below 65,536, in no order.
fn name_of(alloc: Global, number: u32) -> Result<MailName, Fault> {
    let spread = number.wrapping_mul(40_503);
    let mut text = Vec::from_slice(alloc, b"user.bob.")?;
    for shift in [12, 8, 4, 0] {
        let digit = (spread >> shift) & 15;
        text.extend_from_slice(&[b'a'.wrapping_add(digit as u8)])?;
    }
    match mail_name(alloc, text.as_slice()) {
        Ok(name) => Ok(name),
        Err(_) => Err(Fault::Missing),
    }
}

fn place(alloc: Global) -> Result<Location, Fault> {
    let Ok(server) = node_name(alloc, b"b1") else {
        return Err(Fault::Missing);
    };
    let partition = Bytes::from_slice(alloc, b"p")?;
    Ok(Location { server, partition })
}

fn reserved(alloc: Global, count: u32) -> Result<u64, Fault> {
    let mut table = Table::new(alloc);
    for number in 0..count {
        let name = name_of(alloc, number)?;
        let entry = MasterRecord::Reserved(name, place(alloc)?, number);
        apply_master(&mut table, entry)?;
    }
    Ok(table.records().len() as u64)
}

fn message(alloc: Global, uid: u32) -> Result<Messages, Fault>
    ensures { IfOk result (λ messages. AllByRecursion (λ message. HasNext message.uid) messages) }
{
    if uid == u32::MAX {
        return Err(Fault::Missing);
    }
    let mut messages = Messages::new(alloc);
    messages.push(Message {
        uid,
        flags: FlagSet::new(alloc),
        date: read_date(b"17-Jul-1996 02:44:25 -0700")?,
        body: Bytes::from_slice(alloc, b"hello")?,
    })?;
    Ok(messages)
}

fn put(alloc: Global, count: u32) -> Result<u64, Fault> {
    let mut held: HeldNames = Map::new(alloc);
    let name = name_of(alloc, 1)?;
    let acl = first_acl(alloc, &name)?;
    apply_backend(alloc, &mut held, BackendRecord::Make(name, 1, acl))?;
    for uid in 0..count {
        let entry = BackendRecord::Added(name_of(alloc, 1)?, message(alloc, uid.wrapping_add(1))?);
        apply_backend(alloc, &mut held, entry)?;
    }
    match held.get(&name_of(alloc, 1)?) {
        Some(held) => Ok(held.content.len() as u64),
        None => Ok(0),
    }
}

/// As many as there may be in one fold, beside as many in eight.
#[derive(Drop)]
pub struct Folding {
    alloc: Global,
    fold: Fold,
}

impl Folding {
    pub fn new(alloc: Global, fold: Fold) -> Folding {
        Folding { alloc, fold }
    }
}

impl Work for Folding {
    fn prepare(&mut self) -> Result<(), Fault> {
        Ok(())
    }

    fn done(&mut self) -> Result<u64, Fault> {
        self.fold.of(self.alloc, self.fold.most())
    }

    fn plain(&mut self, _done: u64) -> Result<u64, Fault> {
        let mut folded: u64 = 0;
        for _ in 0..PARTS {
            let part = self.fold.of(self.alloc, self.fold.most() / PARTS)?;
            folded = folded.wrapping_add(part);
        }
        Ok(folded)
    }
}
