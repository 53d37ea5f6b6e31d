//! Keys by their numbers, found in constant time.

ghost use Rattle.std.specs.Prelude.{◌≡◌, [], ◌∷◌, ◌++◌, IfOk, OnErr, not, position};
ghost use Rattle.std.specs.List.{list_any};
ghost use Rattle.indexmap.specs.IndexSet.{insert_key};

use indexmap::IndexSet;
use std::alloc::{AllocError, Global};
use std::hash::Hash;
use std::marker::Model;

/// Keys that are all different, numbered from 0 in the order in which they came. Contracts see their list.
#[derive(Drop)]
pub struct Keys<K: Eq + Hash> {
    set: IndexSet<K>,
}

impl<K: Eq + Hash> Model for Keys<K> {
    ghost use Rattle.std.specs.Prelude.{List};

    ghost Value = { List K };

    ghost view = { λ keys. keys.set.keys };
}

impl<K: Eq + Hash + Drop> Keys<K> {
    /// No keys.
    pub fn new(alloc: Global) -> Keys<K>
        ensures { result ≡ [] }
    {
        Keys {
            set: IndexSet::new(alloc),
        }
    }

    /// Adds a key, unless it is there, and says whether it was new. After an `Err` the keys are as before.
    pub fn insert(&mut self, key: K) -> Result<bool, AllocError>
        ensures new { IfOk result (λ is_new. is_new ≡ not (list_any (K.eq key) self.old)) }
        ensures keys { IfOk result (λ _. self.new ≡ insert_key K.eq self.old key) }
        ensures unchanged { OnErr result (self.new ≡ self.old) }
    {
        let (_, is_new) = self.set.insert_full(key)?;
        Ok(is_new)
    }

    /// The number of a key, or `None` where it isn't there.
    pub fn number(&self, key: &K) -> Option<usize>
        ensures { result ≡ position (K.eq key.now) self.now }
    {
        self.set.get_index_of(key)
    }

    /// Whether a key is there.
    pub fn contains(&self, key: &K) -> bool
        ensures { result ≡ list_any (K.eq key.now) self.now }
    {
        self.set.contains(key)
    }
}
