// Keys with values, each key once: the first few are found by a walk, and only those behind them by their hashes.
ghost use Rattle.std.specs.Prelude.{◌≡◌, ◌++◌, ◌<◌, [], true, None, Some, is_some, IfErr, OnOk, OnErr, length, position, slice_get};
ghost use Rattle.std.specs.Option.{option_copied};
ghost use Rattle.std.specs.List.{IsDistinct};
ghost use Rattle.std.specs.Map.{keys_of, lookup, set_value};
ghost use Rattle.indexmap.specs.IndexMap.{insert_entry};
ghost use Rattle.cells.specs.Rows.{rows_behind};
ghost use Rattle.cells.specs.declared.touches.Touch.{Touch};

use crate::touches::Touch;
use ids::cells::Key;
use indexmap::IndexMap;
use std::alloc::{AllocError, Global};
use std::marker::Model;

/// How many keys are found by a walk.
const FEW: usize = 8;

/// Keys with values, each key once, in the order in which the keys came.
#[derive(Drop)]
pub struct Few<K: Key, V> {
    first: Vec<(K, V)>,
    /// Rarely there, so it has a room of its own: what keeps few keys is small where it is moved.
    behind: Option<Box<IndexMap<K, V>>>,
}

impl<K: Key, V> Model for Few<K, V> {
    ghost use Rattle.std.specs.Prelude.{◌++◌, List};
    ghost use Rattle.std.specs.List.{IsDistinct};
    ghost use Rattle.std.specs.Map.{keys_of};
    ghost use Rattle.cells.specs.Rows.{rows_behind};

    ghost Value = { List (K × V) };

    ghost view = { λ f. f.first.items ++ rows_behind f.behind };

    ghost invariant = { λ f. IsDistinct K.eq (keys_of (f.first.items ++ rows_behind f.behind)) };
}

/// The place of a key among rows.
#[inline]
fn place_in<K: Key, V>(rows: &[(K, V)], key: &K) -> Option<usize>
    ensures { result ≡ position (λ row. K.eq key.now row.0) rows.now }
{
    rows.iter().position(|row| *key == row.0)
}

impl<K: Key + Drop, V: Drop> Few<K, V> {
    /// No keys. It takes no memory.
    pub fn new(alloc: Global) -> Few<K, V>
        ensures { result ≡ [] }
    {
        Few {
            first: Vec::new(alloc),
            behind: None,
        }
    }

    /// How many keys there are.
    #[inline]
    pub fn len(&self) -> usize
        ensures count { result ≡ length self.now }
        ensures unique { IsDistinct K.eq (keys_of self.now) }
    {
        match &self.behind {
            Some(behind) => self.first.len() + behind.len(),
            None => self.first.len(),
        }
    }

    /// The value of a key, if it is there.
    #[inline]
    pub fn get(&self, key: &K) -> Option<&V>
        ensures { option_copied result ≡ lookup (K.eq key.now) self.now }
    {
        match place_in(&self.first, key) {
            Some(place) => Some(&self.first[place].1),
            None => match &self.behind {
                Some(behind) => behind.get(key),
                None => None,
            },
        }
    }

    /// Whether a key is there.
    #[inline]
    pub fn contains_key(&self, key: &K) -> bool
        ensures { result ≡ is_some (lookup (K.eq key.now) self.now) }
    {
        self.get(key).is_some()
    }

    /// The key at a place, with its value.
    #[inline]
    pub fn at(&self, place: usize) -> (&K, &V)
        requires { place < length self.now }
        ensures { slice_get self.now place ≡ Some (result.0.now, result.1.now) }
    {
        let count = self.first.len();
        if place < count {
            let row = &self.first[place];
            return (&row.0, &row.1);
        }
        match &self.behind {
            Some(behind) => match behind.get_index(place - count) {
                Some(row) => row,
                None => unreachable!(),
            },
            None => unreachable!(),
        }
    }

    /// Gives a key a value, and puts one that is not there behind the others. Fails only for want of memory.
    pub fn insert(&mut self, key: K, value: V) -> Result<(), AllocError>
        ensures ok { OnOk result (self.new ≡ insert_entry K.eq self.old key value) }
        ensures err { OnErr result (self.new ≡ self.old) }
    {
        match place_in(&self.first, &key) {
            Some(place) => {
                self.first[place].1 = value;
                Ok(())
            }
            None => add_behind(&mut self.first, &mut self.behind, key, value),
        }
    }
}

/// Adds a key that is in none of the first rows: to them while there are few, else to the map behind them.
fn add_behind<K: Key + Drop, V: Drop>(
    first: &mut Vec<(K, V)>,
    behind: &mut Option<Box<IndexMap<K, V>>>,
    key: K,
    value: V,
) -> Result<(), AllocError>
    ensures ok { OnOk result (first.new.items ++ rows_behind behind.new ≡ first.old.items ++ insert_entry K.eq (rows_behind behind.old) key value) }
    ensures err { OnErr result (first.new.items ++ rows_behind behind.new ≡ first.old.items ++ rows_behind behind.old) }
{
    match behind {
        Some(behind) => {
            behind.insert(key, value)?;
        }
        None if first.len() < FEW => first.push((key, value))?,
        None => {
            let alloc = *first.allocator();
            let mut map = IndexMap::new(alloc);
            map.insert(key, value)?;
            *behind = Some(Box::new(alloc, map)?);
        }
    }
    Ok(())
}

impl<K: Key + Drop, V: Drop> Few<K, Touch<V>> {
    /// Writes what was touched under a key. Where nothing was the value comes back.
    #[inline]
    pub(crate) fn write(&mut self, key: &K, value: V) -> Result<(), V>
        ensures written { OnOk result ((t : Touch V) → lookup (K.eq key.now) self.old ≡ Some t → self.new ≡ set_value (K.eq key.now) self.old (record { found = t.found; written = Some value })) }
        ensures touched { OnOk result (is_some (lookup (K.eq key.now) self.old) ≡ true) }
        ensures untouched { OnErr result (lookup (K.eq key.now) self.old ≡ None) }
        ensures same { OnErr result (self.new ≡ self.old) }
        ensures back { IfErr result (λ v. v ≡ value) }
    {
        match place_in(&self.first, key) {
            Some(place) => {
                self.first[place].1.written = Some(value);
                Ok(())
            }
            None => write_behind(&mut self.behind, key, value),
        }
    }
}

/// Writes what was touched under a key in the map behind the first rows. Where nothing was the value comes back.
fn write_behind<K: Key + Drop, V: Drop>(
    behind: &mut Option<Box<IndexMap<K, Touch<V>>>>,
    key: &K,
    value: V,
) -> Result<(), V>
    ensures written { OnOk result ((t : Touch V) → lookup (K.eq key.now) (rows_behind behind.old) ≡ Some t → rows_behind behind.new ≡ set_value (K.eq key.now) (rows_behind behind.old) (record { found = t.found; written = Some value })) }
    ensures touched { OnOk result (is_some (lookup (K.eq key.now) (rows_behind behind.old)) ≡ true) }
    ensures untouched { OnErr result (lookup (K.eq key.now) (rows_behind behind.old) ≡ None) }
    ensures same { OnErr result (rows_behind behind.new ≡ rows_behind behind.old) }
    ensures keys { keys_of (rows_behind behind.new) ≡ keys_of (rows_behind behind.old) }
    ensures back { IfErr result (λ v. v ≡ value) }
{
    let Some(behind) = behind else {
        return Err(value);
    };
    match behind.get_mut(key) {
        Some(touch) => {
            touch.written = Some(value);
            Ok(())
        }
        None => Err(value),
    }
}
