// The cells that a turn touches, with what it found there and what it wrote.
ghost use Rattle.std.specs.Prelude.{◌≡◌, cond, true, ◌<◌, None, Some, is_some, IfErr, OnOk, OnErr, slice_get};
ghost use Rattle.std.specs.Option.{option_copied};
ghost use Rattle.cells.specs.declared.touches.Touch.{Touch};

use crate::few::Few;
use ids::cells::Key;
use std::alloc::{AllocError, Global};

/// What was found in a cell, if anything, and what was written there, if it was written.
#[derive(Drop)]
pub struct Touch<V> {
    pub found: Option<V>,
    pub written: Option<V>,
}

/// Cells that were touched, in order of their first touches.
#[derive(Drop)]
pub struct Touches<K: Key, V> {
    touches: Few<K, Touch<V>>,
}

impl<V> Touch<V> {
    ghost use Rattle.cells.specs.Touches.{standing};

    /// What stands in the cell now.
    #[inline]
    pub fn content(&self) -> Option<&V>
        ensures { option_copied result ≡ standing self.now.found self.now.written }
    {
        match &self.written {
            Some(written) => Some(written),
            None => self.found.as_ref(),
        }
    }
}

impl<K: Key + Drop, V: Drop> Touches<K, V> {
    ghost use Rattle.cells.specs.Touches.{touch, touched_count, touched_list, IsListedOnce};

    /// Nothing was touched.
    pub fn new(alloc: Global) -> Touches<K, V>
        ensures { (k : K) → touch K.eq result k ≡ None }
    {
        Touches {
            touches: Few::new(alloc),
        }
    }

    /// What is known of a cell, if it was touched.
    #[inline]
    pub fn get(&self, key: &K) -> Option<&Touch<V>>
        ensures { option_copied result ≡ touch K.eq self.now key.now }
    {
        self.touches.get(key)
    }

    /// Whether a cell was touched.
    #[inline]
    pub fn has(&self, key: &K) -> bool
        ensures { result ≡ is_some (touch K.eq self.now key.now) }
    {
        self.touches.contains_key(key)
    }

    /// Touches a cell so, whatever was known of it. Fails only for want of memory.
    pub fn add(&mut self, key: K, added: Touch<V>) -> Result<(), AllocError>
        ensures ok { OnOk result ((q : K) → touch K.eq self.new q ≡ cond (K.eq key q) (Some added) (touch K.eq self.old q)) }
        ensures err { OnErr result ((q : K) → touch K.eq self.new q ≡ touch K.eq self.old q) }
    {
        self.touches.insert(key, added)
    }

    /// Writes a cell that was touched. Of one that was not the value comes back.
    #[inline]
    pub fn write(&mut self, key: &K, value: V) -> Result<(), V>
        ensures written { OnOk result ((q : K) (t : Touch V) → touch K.eq self.old key.now ≡ Some t → touch K.eq self.new q ≡ cond (K.eq key.now q) (Some (record { found = t.found; written = Some value })) (touch K.eq self.old q)) }
        ensures touched { OnOk result (is_some (touch K.eq self.old key.now) ≡ true) }
        ensures untouched { OnErr result (touch K.eq self.old key.now ≡ None) }
        ensures same { OnErr result ((q : K) → touch K.eq self.new q ≡ touch K.eq self.old q) }
        ensures back { IfErr result (λ v. v ≡ value) }
    {
        self.touches.write(key, value)
    }

    /// How many cells were touched.
    pub fn len(&self) -> usize
        ensures count { result ≡ touched_count self.now }
        ensures unique { IsListedOnce K.eq self.now }
    {
        self.touches.len()
    }

    /// The key of the cell at a place, and what is known of it.
    pub fn at(&self, place: usize) -> (&K, &Touch<V>)
        requires { place < touched_count self.now }
        ensures { slice_get (touched_list self.now) place ≡ Some (result.0.now, result.1.now) }
    {
        self.touches.at(place)
    }
}
