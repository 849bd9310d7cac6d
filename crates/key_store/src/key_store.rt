ghost use Rattle.std.specs.Prelude.{◌≡◌, ◌<◌, ◌≤◌, [], length, slice_get, take, Some, IfOk, OnErr, OnOk};
ghost use Rattle.key_store.specs.Keys.{AreDistinct, number_of, with_key};

use crate::NoMemory;
use indexmap::IndexSet;
use std::alloc::Global;
use std::marker::Model;

/// Keys as numbers. A number is a place in the list of the keys that were interned, each once. Contracts see this list.
#[derive(Drop)]
pub struct KeyStore {
    alloc: Global,
    keys: IndexSet<Vec<u8>>,
}

impl Model for KeyStore {
    ghost use Rattle.std.specs.Prelude.{ℕ, List};
    ghost use Rattle.std.specs.Coded.{coded_list, coded_ℕ};
    ghost use Rattle.key_store.specs.Inside.{bytes_of_all};
    ghost use Rattle.key_store.specs.Keys.{AreDistinct};

    ghost Value = { List (List ℕ) };

    ghost coded = { coded_list (coded_list coded_ℕ) };

    ghost view = { λ s. bytes_of_all s.keys.keys };

    ghost invariant = { λ s. AreDistinct (bytes_of_all s.keys.keys) };
}

impl KeyStore {
    pub fn new(alloc: Global) -> KeyStore
        ensures { result ≡ [] }
    {
        KeyStore {
            alloc,
            keys: IndexSet::new(alloc),
        }
    }

    /// How many keys there are.
    pub fn count(&self) -> usize
        ensures count { result ≡ length self.now }
        ensures distinct { AreDistinct self.now }
    {
        self.keys.len()
    }

    /// The key of a number.
    pub fn bytes(&self, number: usize) -> &[u8]
        requires { number < length self.now }
        ensures { slice_get self.now number ≡ Some result.now }
    {
        self.keys.as_slice()[number].as_slice()
    }

    /// The number of a key, which is added at the end unless it is there. The numbers of the others stay.
    pub fn intern(&mut self, key: &[u8]) -> Result<usize, NoMemory>
        ensures keys { OnOk result (self.new ≡ with_key self.old key.now) }
        ensures number { IfOk result (λ number. number ≡ number_of self.old key.now) }
        ensures key { IfOk result (λ number. slice_get self.new number ≡ Some key.now) }
        ensures refused { OnErr result (self.new ≡ self.old) }
    {
        if let Some(number) = self.keys.get_index_of(key) {
            return Ok(number);
        }
        let key = Vec::from_slice(self.alloc, key)?;
        let (number, _) = self.keys.insert_full(key)?;
        Ok(number)
    }

    /// Takes back all keys but the first ones.
    pub fn cut(&mut self, count: usize)
        requires { count ≤ length self.old }
        ensures { self.new ≡ take count self.old }
    {
        self.keys.truncate(count);
    }
}
