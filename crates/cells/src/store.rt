// A store of cells.
ghost use Rattle.std.specs.Prelude.{◌≡◌, ◌<◌, ◌+◌, ◌%◌, ◌^◌, ◌||◌, true, false, cond, None, Some, OnOk, OnErr, length, slice_get};
ghost use Rattle.std.specs.Option.{option_copied};

use crate::swaps::Swaps;
use ids::cells::Key;
use ids::names::EventName;
use indexmap::IndexMap;
use std::alloc::{AllocError, Global};
use std::mem;

/// What stands in a cell, if anything does, and the event that wrote it last, if any did.
#[derive(Drop)]
pub struct Cell<V> {
    pub content: Option<V>,
    pub writer: Option<EventName>,
}

/// What a cell is to have when it is exchanged with this: a content and a last writer.
#[derive(Drop)]
pub struct Record<K, V> {
    pub key: K,
    pub content: Option<V>,
    pub writer: Option<EventName>,
}

/// Cells by their keys. A cell that was made keeps its room, also when nothing stands in it.
#[derive(Drop)]
pub struct CellStore<K: Key, V> {
    cells: IndexMap<K, Cell<V>>,
}

impl<K: Key + Drop, V: Drop> CellStore<K, V> {
    ghost use Rattle.cells.specs.Seen.{seen, has_room};

    /// No cells.
    pub fn new(alloc: Global) -> CellStore<K, V>
        ensures nothing { (k : K) → seen K.eq result k ≡ (None, None) }
        ensures no_room { (k : K) → has_room K.eq result k ≡ false }
    {
        CellStore {
            cells: IndexMap::new(alloc),
        }
    }

    /// What stands in a cell.
    pub fn get(&self, key: &K) -> Option<&V>
        ensures { option_copied result ≡ (seen K.eq self.now key.now).0 }
    {
        match self.cells.get(key) {
            Some(cell) => cell.content.as_ref(),
            None => None,
        }
    }

    /// The event that wrote a cell last.
    pub fn last_writer(&self, key: &K) -> Option<EventName>
        ensures { result ≡ (seen K.eq self.now key.now).1 }
    {
        match self.cells.get(key) {
            Some(cell) => cell.writer,
            None => None,
        }
    }

    /// How many cells have room.
    pub(crate) fn len(&self) -> usize
        ensures { result ≡ length self.now.cells.entries }
    {
        self.cells.len()
    }

    /// The key and the cell at a place.
    pub(crate) fn cell_at(&self, place: usize) -> (&K, &Cell<V>)
        requires { place < length self.now.cells.entries }
        ensures { slice_get self.now.cells.entries place ≡ Some (result.0.now, result.1.now) }
    {
        match self.cells.get_index(place) {
            Some(found) => found,
            None => unreachable!(),
        }
    }

    /// Makes room for a key, so that its cell can be exchanged. What is seen stays. Fails only for want of memory.
    pub fn make_room(&mut self, key: K) -> Result<(), AllocError>
        ensures ok { OnOk result ((q : K) → has_room K.eq self.new q ≡ (K.eq key q || has_room K.eq self.old q)) }
        ensures made { OnOk result (has_room K.eq self.new key ≡ true) }
        ensures kept { (q : K) → has_room K.eq self.old q ≡ true → has_room K.eq self.new q ≡ true }
        ensures err { OnErr result ((q : K) → has_room K.eq self.new q ≡ has_room K.eq self.old q) }
        ensures seen { (q : K) → seen K.eq self.new q ≡ seen K.eq self.old q }
    {
        if !self.cells.contains_key(&key) {
            self.cells.insert(
                key,
                Cell {
                    content: None,
                    writer: None,
                },
            )?;
        }
        Ok(())
    }

    /// Exchanges what the record has with what the cell has. It takes no memory, and counts one exchange.
    pub fn swap_record(&mut self, kept: &mut Record<K, V>, swaps: &mut Swaps)
        requires { has_room K.eq self.old kept.old.key ≡ true }
        ensures seen { (q : K) → seen K.eq self.new q ≡ cond (K.eq kept.old.key q) (kept.old.content, kept.old.writer) (seen K.eq self.old q) }
        ensures room { (q : K) → has_room K.eq self.new q ≡ has_room K.eq self.old q }
        ensures key { kept.new.key ≡ kept.old.key }
        ensures content { kept.new.content ≡ (seen K.eq self.old kept.old.key).0 }
        ensures writer { kept.new.writer ≡ (seen K.eq self.old kept.old.key).1 }
        ensures counted { swaps.new ≡ (swaps.old + 1) % 2 ^ 64 }
    {
        if let Some(cell) = self.cells.get_mut(&kept.key) {
            mem::swap(&mut cell.content, &mut kept.content);
            mem::swap(&mut cell.writer, &mut kept.writer);
        }
        swaps.tick();
    }

    /// Puts a content and a writer into a cell, and answers the record of what was there before. It takes no memory.
    pub fn put_recorded(
        &mut self,
        key: K,
        content: Option<V>,
        writer: EventName,
        swaps: &mut Swaps,
    ) -> Record<K, V>
        requires { has_room K.eq self.old key ≡ true }
        ensures seen { (q : K) → seen K.eq self.new q ≡ cond (K.eq key q) (content, Some writer) (seen K.eq self.old q) }
        ensures room { (q : K) → has_room K.eq self.new q ≡ has_room K.eq self.old q }
        ensures exchanged { result ≡ record { key = key; content = (seen K.eq self.old key).0; writer = (seen K.eq self.old key).1 } }
        ensures counted { swaps.new ≡ (swaps.old + 1) % 2 ^ 64 }
    {
        let mut before = Record {
            key,
            content,
            writer: Some(writer),
        };
        self.swap_record(&mut before, swaps);
        before
    }
}

impl<V: Clone> Clone for Cell<V> {
    ghost use Rattle.cells.specs.Clones.{AreClones};

    ghost is_clone = { λ c d. AreClones V.is_clone (c.content, c.writer) (d.content, d.writer) };

    fn clone(&self) -> Result<Cell<V>, AllocError> {
        Ok(Cell {
            content: match &self.content {
                Some(content) => Some(content.clone()?),
                None => None,
            },
            writer: self.writer,
        })
    }
}

impl<K: Key, V: Clone> Clone for CellStore<K, V> {
    ghost use Rattle.cells.specs.Clones.{AreClones};
    ghost use Rattle.cells.specs.Seen.{seen};

    ghost is_clone = { λ s t. (k : K) → AreClones V.is_clone (seen K.eq s k) (seen K.eq t k) };

    fn clone(&self) -> Result<CellStore<K, V>, AllocError> {
        Ok(CellStore {
            cells: self.cells.clone()?,
        })
    }
}
