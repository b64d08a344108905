// The cells of a vat that a turn touched: their keys in the world, and records of those that it wrote.
ghost use Rattle.std.specs.Prelude.{◌≡◌, ◌++◌, IfOk, OnOk};
ghost use Rattle.std.specs.Option.{option_map};
ghost use Rattle.std.specs.List.{IsDistinct};
ghost use Rattle.std.specs.Map.{keys_of};
ghost use Rattle.cells.specs.Touches.{touched_list};
ghost use Rattle.heap.specs.State.{Cell, Content, top, slot_cell, object_cell, view_cell, fence_cell, bound, held, made, viewed, fenced};
ghost use Rattle.heap.specs.View.{bind_of, object_of, view_of};
ghost use Rattle.world_cells.specs.Theory.{kepts_of, kept_of};
ghost use Rattle.world_cells.specs.World as model;
ghost use Rattle.event.specs.Entries.{entries_in, entries_of, keys_in, EachOnce, left_at, left_in, kept_left, kept_at};
ghost use Rattle.values.specs.View.{val_of};

use cells::store::Record;
use cells::touches::{Touch, Touches};
use eorder::fence::Fence;
use heap::made::Made;
use heap::reach::Footprint;
use heap::state::{Binding, View};
use ids::cells::{CellKey, Key};
use ids::names::{EventName, ObjId, PromId, SlotId, VatNo};
use ids::reference::Reference;
use ids::text::Text;
use std::alloc::AllocError;
use values::value::Value;
use world_cells::record::CellRecord;

/// What names cells of a vat that hold such contents.
trait VatKey<V>: Key {
    ghost cell: { Self → Cell };

    ghost content: { V → Content };

    /// The key in the world of the cell of a vat. Fails only for want of memory.
    fn in_world(&self, vat: VatNo) -> Result<CellKey, AllocError>
        ensures { IfOk result (λ k. k ≡ model.cell_key vat (cell self.now)) };

    /// A record of the cell in which an event wrote this. Fails only for want of memory.
    fn written(&self, vat: VatNo, value: &V, event: EventName) -> Result<CellRecord, AllocError>
        ensures { IfOk result (λ r. kept_of r ≡ kept_at event vat (cell self.now) (content value.now)) };
}

impl VatKey<Binding> for Text {
    ghost cell = { top };

    ghost content = { λ b. bound (bind_of b) };

    fn in_world(&self, vat: VatNo) -> Result<CellKey, AllocError> {
        Ok(CellKey::Top(vat, self.share()?))
    }

    fn written(
        &self,
        vat: VatNo,
        value: &Binding,
        event: EventName,
    ) -> Result<CellRecord, AllocError> {
        Ok(CellRecord::Top(
            vat,
            Record {
                key: self.share()?,
                content: Some(value.share()?),
                writer: Some(event),
            },
        ))
    }
}

impl VatKey<Value> for SlotId {
    ghost cell = { slot_cell };

    ghost content = { λ v. held (val_of v) };

    fn in_world(&self, _vat: VatNo) -> Result<CellKey, AllocError> {
        Ok(CellKey::Slot(*self))
    }

    fn written(
        &self,
        _vat: VatNo,
        value: &Value,
        event: EventName,
    ) -> Result<CellRecord, AllocError> {
        Ok(CellRecord::Slot(Record {
            key: *self,
            content: Some(value.share()?),
            writer: Some(event),
        }))
    }
}

impl VatKey<Made> for ObjId {
    ghost cell = { object_cell };

    ghost content = { λ m. made (object_of m) };

    fn in_world(&self, _vat: VatNo) -> Result<CellKey, AllocError> {
        Ok(CellKey::Object(*self))
    }

    fn written(
        &self,
        _vat: VatNo,
        value: &Made,
        event: EventName,
    ) -> Result<CellRecord, AllocError> {
        Ok(CellRecord::Object(Record {
            key: *self,
            content: Some(value.share()?),
            writer: Some(event),
        }))
    }
}

impl VatKey<View> for PromId {
    ghost cell = { view_cell };

    ghost content = { λ k. viewed (view_of k) };

    fn in_world(&self, vat: VatNo) -> Result<CellKey, AllocError> {
        Ok(CellKey::View(vat, *self))
    }

    fn written(
        &self,
        vat: VatNo,
        value: &View,
        event: EventName,
    ) -> Result<CellRecord, AllocError> {
        Ok(CellRecord::View(
            vat,
            Record {
                key: *self,
                content: Some(value.share()?),
                writer: Some(event),
            },
        ))
    }
}

impl VatKey<Fence> for Reference {
    ghost cell = { fence_cell };

    ghost content = { fenced };

    fn in_world(&self, vat: VatNo) -> Result<CellKey, AllocError> {
        Ok(CellKey::Fence(vat, *self))
    }

    fn written(
        &self,
        vat: VatNo,
        value: &Fence,
        event: EventName,
    ) -> Result<CellRecord, AllocError> {
        Ok(CellRecord::Fence(
            vat,
            Record {
                key: *self,
                content: Some(value.share()?),
                writer: Some(event),
            },
        ))
    }
}

/// Adds the keys of cells of one kind.
fn add_keys<K: VatKey<V> + Drop, V: Drop>(
    keys: &mut Vec<CellKey>,
    vat: VatNo,
    touches: &Touches<K, V>,
) -> Result<(), AllocError>
    ensures unique { IsDistinct K.eq (keys_of (touched_list touches.now)) }
    ensures keys { OnOk result (keys.new.items ≡ keys.old.items ++ keys_in vat (entries_in K.cell K.content (touched_list touches.now))) }
{
    for place in 0..touches.len() {
        let (key, _) = touches.at(place);
        keys.push(key.in_world(vat)?)?;
    }
    Ok(())
}

/// Adds a record of a cell, if it was written.
fn add_record<K: VatKey<V>, V>(
    records: &mut Vec<CellRecord>,
    event: EventName,
    vat: VatNo,
    key: &K,
    touch: &Touch<V>,
) -> Result<(), AllocError>
    ensures { OnOk result (kepts_of records.new.items ≡ kepts_of records.old.items ++ kept_left event vat (left_at (K.cell key.now) (option_map K.content touch.now.written))) }
{
    if let Some(value) = &touch.written {
        records.push(key.written(vat, value, event)?)?;
    }
    Ok(())
}

/// Adds records of the cells of one kind that were written.
fn add_records<K: VatKey<V> + Drop, V: Drop>(
    records: &mut Vec<CellRecord>,
    event: EventName,
    vat: VatNo,
    touches: &Touches<K, V>,
) -> Result<(), AllocError>
    ensures { OnOk result (kepts_of records.new.items ≡ kepts_of records.old.items ++ kept_left event vat (left_in (entries_in K.cell K.content (touched_list touches.now)))) }
{
    for place in 0..touches.len() {
        let (key, touch) = touches.at(place);
        add_record(records, event, vat, key, touch)?;
    }
    Ok(())
}

/// Adds the keys of all cells of a footprint in a vat. Fails only for want of memory.
pub(crate) fn touch_cells(
    keys: &mut Vec<CellKey>,
    vat: VatNo,
    footprint: &Footprint,
) -> Result<(), AllocError>
    ensures once { OnOk result (EachOnce footprint.now) }
    ensures keys { OnOk result (keys.new.items ≡ keys.old.items ++ keys_in vat (entries_of footprint.now)) }
{
    add_keys(keys, vat, &footprint.tops)?;
    add_keys(keys, vat, &footprint.slots)?;
    add_keys(keys, vat, &footprint.objects)?;
    add_keys(keys, vat, &footprint.views)?;
    add_keys(keys, vat, &footprint.fences)
}

/// Adds records of the cells of a footprint in a vat that were written. Fails only for want of memory.
pub(crate) fn record_cells(
    records: &mut Vec<CellRecord>,
    event: EventName,
    vat: VatNo,
    footprint: &Footprint,
) -> Result<(), AllocError>
    ensures { OnOk result (kepts_of records.new.items ≡ kepts_of records.old.items ++ kept_left event vat (left_in (entries_of footprint.now))) }
{
    add_records(records, event, vat, &footprint.tops)?;
    add_records(records, event, vat, &footprint.slots)?;
    add_records(records, event, vat, &footprint.objects)?;
    add_records(records, event, vat, &footprint.views)?;
    add_records(records, event, vat, &footprint.fences)
}
