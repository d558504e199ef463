// The ordered map: std's B-tree, seen by contracts as the list of its entries in the order of their keys.
ghost use Rattle.std.specs.Prelude.{◌≡◌, [], length, IfOk, OnOk, OnErr, is_some};
ghost use Rattle.std.specs.Option.{option_copied, option_copied_mut};
ghost use Rattle.std.specs.Borrow.{sem};
ghost use Rattle.std.specs.Map.Iter.{ShowsInOrder, deref_pair};
ghost use Rattle.mur_base.specs.Map.{value_at, with_entry, without_key, IsInOrder};
ghost use Rattle.mur_base.specs.MapLoan.{lends_value};

use crate::memory::Memory;
use std::alloc::Global;
use std::collections::{BTreeMap, btree_map};
use std::marker::Model;

/// A map in the order of its keys. A look-up, an insertion and a removal take logarithmic time.
#[derive(Drop)]
pub struct Map<K: Ord, V> {
    tree: BTreeMap<K, V>,
}

impl<K: Ord, V> Model for Map<K, V> {
    ghost use Rattle.std.specs.Prelude.{List};

    ghost Value = { List (K × V) };

    ghost view = { λ map. map.tree.entries };
}

impl<K: Ord, V> Map<K, V> {
    /// The empty map. It takes no memory until something is put in.
    pub fn new(alloc: Global) -> Map<K, V>
        ensures { result ≡ [] }
    {
        Map {
            tree: BTreeMap::new(alloc),
        }
    }

    pub fn len(&self) -> usize
        ensures { result ≡ length self.now }
    {
        self.tree.len()
    }

    pub fn contains_key(&self, key: &K) -> bool
        ensures { result ≡ is_some (value_at K.cmp self.now key.now) }
    {
        self.tree.contains_key(key)
    }

    /// The value at a key, if there is one.
    pub fn get(&self, key: &K) -> Option<&V>
        ensures { option_copied result ≡ value_at K.cmp self.now key.now }
    {
        self.tree.get(key)
    }

    /// The entries in the order of their keys.
    pub fn iter(&self) -> btree_map::Iter<'_, K, V>
        ensures rest { result ≡ self.now }
        ensures runs { ShowsInOrder (deref_pair {K = K} {X = V}) }
        ensures ordered { IsInOrder K.cmp self.now }
    {
        self.tree.iter()
    }

    /// The value at a key to be changed in place.
    pub fn get_mut(&mut self, key: &K) -> Option<&mut V>
        ensures* back { sem 𝓛 (lends_value K.row V.row K.Ord self.entry key.now result) }
        ensures value { option_copied_mut result ≡ value_at K.cmp self.old key.now }
        ensures ordered { IsInOrder K.cmp self.old }
    {
        self.tree.get_mut(key)
    }

    /// Puts a value at a key and gives back the one that it replaces; for want of memory the map stays as it was.
    pub fn insert(&mut self, key: K, value: V) -> Result<Option<V>, Memory>
    where
        K: Drop,
        V: Drop,
        ensures old { IfOk result (λ old. old ≡ value_at K.cmp self.old key) }
        ensures entries { OnOk result (self.new ≡ with_entry K.cmp self.old key value) }
        ensures err { OnErr result (self.new ≡ self.old) }
        ensures ordered { IsInOrder K.cmp self.new }
        ensures was_ordered { IsInOrder K.cmp self.old }
    {
        Ok(self.tree.insert(key, value)?)
    }

    /// Takes the entry at a key away and gives its value.
    pub fn remove(&mut self, key: &K) -> Option<V>
    where
        K: Drop,
        ensures value { result ≡ value_at K.cmp self.old key.now }
        ensures entries { self.new ≡ without_key K.cmp self.old key.now }
        ensures ordered { IsInOrder K.cmp self.new }
    {
        self.tree.remove(key)
    }
}
