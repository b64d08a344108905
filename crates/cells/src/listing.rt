// Cells in the order of their keys.
ghost use Rattle.std.specs.Prelude.{◌∷◌, List, IfOk, OnOk};
ghost use Rattle.std.specs.BTreeMap.{get as get_listed};
ghost use Rattle.cells.specs.Clones.{ContentClones, Lists};
ghost use Rattle.cells.specs.Seen.{seen};
ghost use Rattle.cells.specs.declared.store.Cell.{Cell};

use crate::store::{Cell, CellStore};
use ids::cells::Key;
use std::alloc::{AllocError, Global};
use std::collections::BTreeMap;

/// Puts what a cell holds under its key, or takes what is there away, where it holds nothing.
fn list_cell<K: Key + Ord + Drop, V: Clone + Drop>(
    listed: &mut BTreeMap<K, V>,
    key: &K,
    cell: &Cell<V>,
) -> Result<(), AllocError>
    ensures { OnOk result ((es : List (K × Cell V)) → Lists K.eq K.cmp V.is_clone es listed.old → Lists K.eq K.cmp V.is_clone ((key.now, cell.now) ∷ es) listed.new) }
{
    match &cell.content {
        Some(content) => {
            listed.insert(key.clone()?, content.clone()?)?;
        }
        None => {
            listed.remove(key);
        }
    }
    Ok(())
}

impl<K: Key + Ord + Drop, V: Clone + Drop> CellStore<K, V> {
    /// A copy of what stands in the cells, in the order of their keys. Fails only for want of memory.
    pub fn in_order(&self, alloc: Global) -> Result<BTreeMap<K, V>, AllocError>
        ensures { IfOk result (λ m. (q : K) → ContentClones V.is_clone (seen K.eq self.now q).0 (get_listed K.cmp m q)) }
    {
        let mut listed = BTreeMap::new(alloc);
        let mut i = self.len();
        while i > 0 {
            i -= 1;
            let (key, cell) = self.cell_at(i);
            list_cell(&mut listed, key, cell)?;
        }
        Ok(listed)
    }
}
