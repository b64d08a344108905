// The cells that an entry touched, in order.
ghost use Rattle.std.specs.Prelude.{◌≡◌, IfOk};
ghost use Rattle.std.specs.BTreeMap.{IsOrdered};
ghost use Rattle.journal.specs.Items.{item_of};
ghost use Rattle.world_cells.specs.Theory.{kepts_of};
ghost use Rattle.stepper_questions.specs.declared.cell.ToldCell.{ToldCell};
ghost use Rattle.stepper_questions.specs.Cells.{key_of, cell_cmp};
ghost use Rattle.stepper_questions.specs.TouchedView.{has_cell, kept_has, seen_as, SeenIn};

use crate::cell::ToldCell;
use ids::names::EventName;
use journal::entry::Entry;
use std::alloc::{AllocError, Global};
use std::collections::{BTreeMap, BTreeSet};
use world_cells::record::CellRecord;

/// What an entry keeps of a cell that it touched.
#[derive(Clone, Copy)]
pub(crate) struct Seen {
    /// The event that had written the cell last when the entry was made.
    pub writer: Option<EventName>,
    /// Whether the entry wrote the cell too.
    pub is_written: bool,
}

/// The cells of records.
fn written_cells(alloc: Global, records: &[CellRecord]) -> Result<BTreeSet<ToldCell>, AllocError>
    ensures { IfOk result (λ cells. (c : ToldCell) → has_cell cells.keys c ≡ kept_has (kepts_of records.now) (key_of c)) }
{
    let mut cells = BTreeSet::new(alloc);
    for record in records {
        let key = record.key()?;
        cells.insert(ToldCell::of(&key)?)?;
    }
    Ok(cells)
}

/// The cells that an entry touched, found absent or not, with what it keeps of each. Fails only for want of memory.
pub(crate) fn touched_cells(
    alloc: Global,
    entry: &Entry,
) -> Result<BTreeMap<ToldCell, Seen>, AllocError>
    ensures seen { IfOk result (λ cells. (c : ToldCell) → SeenIn (item_of entry.now).lasts (item_of entry.now).kept (key_of c) (seen_as cells.entries c)) }
    ensures ordered { IfOk result (λ cells. IsOrdered cell_cmp cells) }
{
    let written = written_cells(alloc, &entry.records)?;
    let mut cells = BTreeMap::new(alloc);
    for touched in &entry.touched {
        let cell = ToldCell::of(&touched.key)?;
        let seen = Seen {
            writer: touched.writer,
            is_written: written.contains(&cell),
        };
        cells.insert(cell, seen)?;
    }
    Ok(cells)
}
