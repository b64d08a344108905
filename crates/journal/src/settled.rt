// Entries that can no longer be taken back.
ghost use Rattle.std.specs.Prelude.{◌≡◌, true, map, IfOk};
ghost use Rattle.std.specs.List.{AllByRecursion};
ghost use Rattle.world_cells.specs.EventView.{act_of};
ghost use Rattle.journal.specs.Items.{item_of, lasts_of, wrote_one_of};
ghost use Rattle.journal.specs.Settled.{Keeps, newborn, whose_turn, written_by};

use crate::entry::{Entry, Touched, is_among, writer_among};
use ids::names::{EventName, VatNo};
use ids::text::Text;
use std::alloc::{AllocError, Global};
use std::snapshot::Snapshot;
use world_cells::event::Action;

/// What is kept of an entry that can no longer be taken back: its event's name, its seat, and the cells that it wrote, with their last
/// writers before it; of a birth also the name of the vat, and of a turn the vat.
#[derive(Drop)]
pub struct Settled {
    pub name: EventName,
    pub seat: u64,
    pub written: Vec<Touched>,
    pub newborn: Option<Text>,
    pub turn_of: Option<VatNo>,
    /// The entry that it was, for contracts alone.
    was: Snapshot<Entry>,
    pub ghost keeps: { ∥ Keeps written.items newborn turn_of (item_of was.value) ∥₁ },
}

/// The name of the vat that an action gives birth to, shared. Fails only for want of memory.
fn newborn(action: &Action) -> Result<Option<Text>, AllocError>
    ensures { IfOk result (λ name. name ≡ newborn (act_of action.now)) }
{
    match action {
        Action::Birth(name, _, _) => Ok(Some(name.share()?)),
        _ => Ok(None),
    }
}

/// The vat of which an action is a turn.
fn whose_turn(action: &Action) -> Option<VatNo>
    ensures { result ≡ whose_turn (act_of action.now) }
{
    match action {
        Action::Turn { vat, .. } => Some(*vat),
        _ => None,
    }
}

/// The cells that an entry wrote, with their last writers before it. Fails only for want of memory.
fn written_by(alloc: Global, entry: &Entry) -> Result<Vec<Touched>, AllocError>
    ensures { IfOk result (λ all. lasts_of all.items ≡ written_by (item_of entry.now)) }
{
    let mut all = Vec::new(alloc);
    for record in &entry.records {
        let key = record.key()?;
        let writer = writer_among(&entry.touched, &key);
        all.push(Touched { key, writer })?;
    }
    Ok(all)
}

impl Settled {
    ghost use Rattle.journal.specs.Journals.{settled_item};

    /// What is kept of a live entry. Fails only for want of memory.
    pub fn of(alloc: Global, entry: &Entry) -> Result<Settled, AllocError>
        requires { (item_of entry.now).live ≡ true }
        ensures { IfOk result (λ s. settled_item s ≡ item_of entry.now) }
    {
        Ok(Settled {
            name: entry.event.name,
            seat: entry.seat,
            written: written_by(alloc, entry)?,
            newborn: newborn(&entry.event.action)?,
            turn_of: whose_turn(&entry.event.action),
            was: Snapshot::of(entry),
        })
    }

    /// What is kept of live entries. Fails only for want of memory.
    pub fn of_all(alloc: Global, entries: &[Entry]) -> Result<Vec<Settled>, AllocError>
        requires { AllByRecursion (λ i. i.live ≡ true) (map item_of entries.now) }
        ensures { IfOk result (λ all. map settled_item all.items ≡ map item_of entries.now) }
    {
        let mut all = Vec::new(alloc);
        for entry in entries {
            all.push(Settled::of(alloc, entry)?)?;
        }
        Ok(all)
    }

    /// Whether it wrote a cell that an entry touched.
    pub fn meets(&self, entry: &Entry) -> bool
        ensures { result ≡ wrote_one_of (settled_item self.now) (item_of entry.now) }
    {
        for cell in &self.written {
            if is_among(&cell.key, &entry.touched) {
                return true;
            }
        }
        false
    }
}
