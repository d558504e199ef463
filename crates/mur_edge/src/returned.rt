// The list of what came back to a host. It grows without taking memory, since each entry brings the room for itself.
ghost use Rattle.std.specs.Prelude.{◌≡◌, [], ◌∷◌, ◌++◌};

use mur_base::Memory;
use std::alloc::Global;
use std::marker::Model;
use std::mem;

// The entries, the newest first.
#[derive(Drop)]
pub(crate) enum Chain<T> {
    End,
    More(T, Box<Chain<T>>),
}

/// The room for one entry, which an object carries from the start.
#[derive(Drop)]
pub struct Room<T> {
    place: Box<Chain<T>>,
}

impl<T: Drop> Room<T> {
    pub fn new(alloc: Global) -> Result<Room<T>, Memory> {
        let place = Box::new(alloc, Chain::End)?;
        Ok(Room { place })
    }
}

/// What came back to a host, in order: contracts see the list of the entries.
#[derive(Drop)]
pub struct Returned<T> {
    newest: Chain<T>,
}

impl<T> Model for Returned<T> {
    ghost use Rattle.std.specs.Prelude.{List};

    ghost Value = { List T };

    ghost use Rattle.mur_edge.specs.Returned.{chain_entries};

    ghost view = { λ list. chain_entries list.newest };
}

impl<T> Returned<T> {
    ghost use Rattle.mur_edge.specs.Returned.{chain_entries};

    pub fn new() -> Returned<T>
        ensures { result ≡ [] }
    {
        Returned { newest: Chain::End }
    }

    // The entries, the newest first.
    pub(crate) fn chain(&self) -> &Chain<T>
        ensures { chain_entries result.now ≡ self.now }
    {
        &self.newest
    }

    /// Puts an entry at the end, in the room that it brings.
    pub fn add(&mut self, entry: T, room: Room<T>)
    where
        T: Drop,
        ensures { self.new ≡ self.old ++ entry ∷ [] }
    {
        let Room { mut place } = room;
        *place = mem::replace(&mut self.newest, Chain::End);
        self.newest = Chain::More(entry, place);
    }
}
