//! Keys by their numbers, found in constant time.

ghost use Rattle.std.specs.Prelude.{◌≡◌, [], ◌∷◌, ◌++◌, OnOk, OnErr, length, position, is_some};
ghost use Rattle.std.specs.List.{list_any};

use indexmap::IndexMap;
use sqlite_items::Items;
use std::alloc::{AllocError, Global};
use std::hash::Hash;
use std::marker::Model;

/// Keys, numbered from 0 in the order in which they came. Contracts see their list. Where several keys are equal, the
/// first of them is found.
#[derive(Drop)]
pub struct Numbering<K: Eq + Hash> {
    keys: Items<K>,
    /// The number of the first of each key.
    first: IndexMap<K, u32>,
}

impl<K: Eq + Hash> Model for Numbering<K> {
    ghost use Rattle.std.specs.Prelude.{List};
    ghost use Rattle.java_names.specs.Numbering.{IsFirst};

    ghost Value = { List K };

    ghost view = { λ numbering. numbering.keys };

    ghost invariant = { λ numbering. IsFirst K.eq numbering.first numbering.keys };
}

/// No number is as large as this one.
const LIMIT: usize = 4_294_967_295;

impl<K: Eq + Hash + Drop> Numbering<K> {
    /// No keys.
    pub fn new(alloc: Global) -> Numbering<K>
        ensures { result ≡ [] }
    {
        Numbering {
            keys: Items::new(alloc),
            first: IndexMap::new(alloc),
        }
    }

    /// How many keys there are.
    pub fn len(&self) -> usize
        ensures { result ≡ length self.now }
    {
        self.keys.len()
    }

    /// Adds a key, given with a copy of it. `AllocError` where memory runs out, or no number; then the keys are as
    /// before.
    pub fn push(&mut self, key: K, copy: K) -> Result<(), AllocError>
        requires same { copy ≡ key }
        ensures pushed { OnOk result (self.new ≡ self.old ++ key ∷ []) }
        ensures unchanged { OnErr result (self.new ≡ self.old) }
    {
        let number = self.keys.len();
        if number >= LIMIT {
            return Err(AllocError);
        }
        self.keys.push(copy)?;
        if self.first.contains_key(&key) {
            return Ok(());
        }
        match self.first.insert(key, number as u32) {
            Ok(_) => Ok(()),
            Err(_) => {
                self.keys.pop();
                Err(AllocError)
            }
        }
    }

    /// The number of the first key that is equal to this one; `None` where there is none. It takes no memory.
    pub fn number(&self, key: &K) -> Option<u32>
        ensures { result ≡ position (K.eq key.now) self.now }
    {
        self.first.get(key).copied()
    }

    /// Whether a key is there. It takes no memory.
    #[tactic(auto, using(crate::proofs::NumberingLemmas::places))]
    pub fn contains(&self, key: &K) -> bool
        ensures { result ≡ list_any (K.eq key.now) self.now }
    {
        self.number(key).is_some()
    }
}
