// The entries of the journal.
ghost use Rattle.std.specs.Prelude.{◌≡◌, map, IfOk};
ghost use Rattle.std.specs.List.{list_any};
ghost use Rattle.ids.specs.CellKeys.{same_key};
ghost use Rattle.world_cells.specs.Records.{record_of};
ghost use Rattle.world_cells.specs.Theory.{state_of_world};
ghost use Rattle.journal.specs.Items.{item_of, lasts_of, number_of, wrote_one_of, may_exchange};
ghost use Rattle.journal.specs.Lines.{last_among};

use eval_rules::outbox::Note;
use ids::cells::CellKey;
use ids::names::EventName;
use std::alloc::{AllocError, Global};
use world_cells::event::Event;
use world_cells::record::CellRecord;
use world_cells::world::World;

/// Whether an event counts: an undone one is as if it had never been.
#[derive(Clone, Copy, PartialEq, Eq)]
pub enum Mark {
    Live,
    Undone,
}

/// A cell that an event touched, and the event that had written it last.
#[derive(Drop)]
pub struct Touched {
    pub key: CellKey,
    pub writer: Option<EventName>,
}

/// An event, with its notes for the log, the cells that it touched, and a record of each cell that it wrote: what was there before
/// it, while it is live, and what it wrote, while it is undone.
pub struct Entry {
    pub event: Event,
    pub notes: Vec<Note>,
    pub seat: u64,
    pub mark: Mark,
    pub touched: Vec<Touched>,
    pub records: Vec<CellRecord>,
}

// By hand, so that what drops one elsewhere calls this and is not proved anew for all that it holds.
impl Drop for Entry {
    fn drop(self) {
        let Entry {
            event: _,
            notes: _,
            seat: _,
            mark: _,
            touched: _,
            records: _,
        } = self;
    }
}

/// Cells with their last writers. Fails only for want of memory.
pub fn with_writers(
    alloc: Global,
    world: &World,
    keys: &[CellKey],
) -> Result<Vec<Touched>, AllocError>
    ensures { IfOk result (λ all. lasts_of all.items ≡ map (λ k. (k, (state_of_world world.now k).1)) keys.now) }
{
    let mut all = Vec::with_capacity(alloc, keys.len())?;
    for key in keys {
        let writer = world.last_writer(key);
        all.push(Touched {
            key: key.share()?,
            writer,
        })?;
    }
    Ok(all)
}

/// The last writer of a cell, if it is one of these.
pub fn writer_among(touched: &[Touched], key: &CellKey) -> Option<EventName>
    ensures { number_of result ≡ last_among (lasts_of touched.now) key.now }
{
    for cell in touched {
        if cell.key == *key {
            return cell.writer;
        }
    }
    None
}

/// Whether a record is of one of these cells.
fn is_touched(kept: &CellRecord, touched: &[Touched]) -> bool
    ensures { result ≡ list_any (λ q. same_key (record_of kept.now).0 q.0) (lasts_of touched.now) }
{
    for cell in touched {
        if kept.is_of(&cell.key) {
            return true;
        }
    }
    false
}

/// Whether two keys are of one cell.
fn is_same(key: &CellKey, other: &CellKey) -> bool
    ensures { result ≡ same_key key.now other.now }
{
    *key == *other
}

/// Whether a cell is one of these.
pub(crate) fn is_among(key: &CellKey, touched: &[Touched]) -> bool
    ensures { result ≡ list_any (λ q. same_key key.now q.0) (lasts_of touched.now) }
{
    for cell in touched {
        if is_same(key, &cell.key) {
            return true;
        }
    }
    false
}

/// Whether the first entry wrote a cell that the second touched.
pub fn meets(first: &Entry, second: &Entry) -> bool
    ensures { result ≡ wrote_one_of (item_of first.now) (item_of second.now) }
{
    for kept in &first.records {
        if is_touched(kept, &second.touched) {
            return true;
        }
    }
    false
}

/// Whether neighbours may change places: neither wrote a cell that the other touched.
pub fn may_exchange(entry: &Entry, behind: &Entry) -> bool
    ensures { result ≡ may_exchange (item_of entry.now) (item_of behind.now) }
{
    !meets(entry, behind) && !meets(behind, entry)
}
