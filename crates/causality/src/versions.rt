// Versions of cells: a cell with its last writer, as it was found, and as it was written over.
ghost use Rattle.std.specs.Prelude.{◌≡◌};
ghost use Rattle.std.specs.List.{list_any};
ghost use Rattle.history_consequences.specs.Versions.{is_one};
ghost use Rattle.journal.specs.Items.{item_of, number_of, last_of, lasts_of};
ghost use Rattle.journal.specs.Journals.{settled_item};
ghost use Rattle.causality.specs.Crossing as model;

use ids::cells::CellKey;
use ids::names::EventName;
use journal::entry::{Entry, Touched, writer_among};
use journal::settled::Settled;

/// Whether two last writers are one.
fn is_one(writer: Option<EventName>, other: Option<EventName>) -> bool
    ensures { result ≡ is_one (number_of writer) (number_of other) }
{
    match (writer, other) {
        (Some(name), Some(same)) => name.0 == same.0,
        (None, None) => true,
        _ => false,
    }
}

/// Whether these are one version of a cell.
fn is_version(cell: &Touched, other: &Touched) -> bool
    ensures { result ≡ model.is_version (last_of cell.now) (last_of other.now) }
{
    other.key == cell.key && is_one(other.writer, cell.writer)
}

/// Whether one of these cells is of this version.
fn any_version(cells: &[Touched], cell: &Touched) -> bool
    ensures { result ≡ list_any (model.is_version (last_of cell.now)) (lasts_of cells.now) }
{
    for other in cells {
        if is_version(cell, other) {
            return true;
        }
    }
    false
}

/// Whether an entry wrote a cell.
pub(crate) fn wrote(entry: &Entry, key: &CellKey) -> bool
    ensures { result ≡ model.wrote_key key.now (item_of entry.now) }
{
    for record in &entry.records {
        if record.is_of(key) {
            return true;
        }
    }
    false
}

/// Whether an entry wrote a cell that had this last writer.
pub(crate) fn wrote_over(entry: &Entry, cell: &Touched) -> bool
    ensures { result ≡ model.wrote_over (last_of cell.now) (item_of entry.now) }
{
    is_one(writer_among(&entry.touched, &cell.key), cell.writer) && wrote(entry, &cell.key)
}

/// Whether a settled entry wrote a cell that had this last writer.
pub(crate) fn settled_wrote_over(settled: &Settled, cell: &Touched) -> bool
    ensures { result ≡ model.wrote_over (last_of cell.now) (settled_item settled.now) }
{
    any_version(&settled.written, cell)
}

/// Whether an entry found a cell with this last writer.
pub(crate) fn found_so(entry: &Entry, cell: &Touched) -> bool
    ensures { result ≡ model.found_so (last_of cell.now) (item_of entry.now) }
{
    any_version(&entry.touched, cell)
}
