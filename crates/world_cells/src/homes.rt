// The states of all vats.
ghost use Rattle.std.specs.Prelude.{◌≡◌, ◌+◌, ◌%◌, ◌^◌, true, cond, None, is_some, IfOk, OnOk};
ghost use Rattle.std.specs.Arc.{arc_value};
ghost use Rattle.std.specs.Option.{option_map, option_copied};
ghost use Rattle.indexmap.specs.IndexMap.{keys};
ghost use Rattle.ids.specs.CellKeys.{same_key};
ghost use Rattle.ids.specs.declared.names.VatNo.{VatNo};
ghost use Rattle.ids.specs.declared.cells.CellKey.{CellKey};
ghost use Rattle.ids.specs.declared.cells.CellKey.TheVariants as key;
ghost use Rattle.values.specs.View.{val_of};
ghost use Rattle.heap.specs.State.{Cell, bound, held, made, viewed, fenced};
ghost use Rattle.heap.specs.View.{bind_of, object_of, view_of, told, seen_in};
ghost use Rattle.world_cells.specs.Homes.{OwnCells, own_cells-prop, state_in, seen_at, is_ready_at};
ghost use Rattle.world_cells.specs.World.{content_of};

use crate::home::Home;
use cells::store::Record;
use cells::swaps::Swaps;
use eorder::fence::Fence;
use heap::made::Made;
use heap::state::{Binding, VatState, View};
use ids::names::{EventName, ObjId, PromId, SlotId, VatNo};
use ids::reference::Reference;
use ids::text::Text;
use indexmap::IndexMap;
use std::alloc::{AllocError, Global};
use std::sync::Arc;
use values::value::Value;

/// The states of all vats, of which none holds anything in a cell of another vat.
#[derive(Drop)]
pub struct Homes {
    homes: IndexMap<VatNo, Home>,
    ghost own_cells: { OwnCells homes } by { own_cells-prop homes },
}

impl Homes {
    ghost use Rattle.world_cells.specs.HomesView.{homes_of, seen_of_homes, ready_of_homes};

    /// No state is there.
    pub(crate) fn new(alloc: Global) -> Homes
        ensures { (k : CellKey) → seen_of_homes result k ≡ (None, None) }
    {
        Homes {
            homes: IndexMap::new(alloc),
        }
    }

    /// The state of a vat, if it is there.
    pub(crate) fn state(&self, vat: VatNo) -> Option<&VatState>
        ensures { option_copied result ≡ option_map state_in (homes_of self.now vat) }
    {
        match self.homes.get(&vat) {
            Some(home) => Some(home.state()),
            None => None,
        }
    }

    /// The vats that have a state. Fails only for want of memory.
    pub(crate) fn vats(&self, alloc: Global) -> Result<Vec<VatNo>, AllocError>
        ensures { IfOk result (λ vats. vats.items ≡ keys self.now.homes) }
    {
        self.homes.keys().copied().collect(alloc)
    }

    /// The event that wrote a top noun last.
    pub(crate) fn top_writer(&self, vat: VatNo, name: &Text) -> Option<EventName>
        ensures { result ≡ (seen_of_homes self.now (key.Top vat name.now)).1 }
    {
        match self.state(vat) {
            Some(state) => state.tops.last_writer(name),
            None => None,
        }
    }

    /// The event that wrote a view last.
    pub(crate) fn view_writer(&self, vat: VatNo, promise: PromId) -> Option<EventName>
        ensures { result ≡ (seen_of_homes self.now (key.View vat promise)).1 }
    {
        match self.state(vat) {
            Some(state) => state.views.last_writer(&promise),
            None => None,
        }
    }

    /// The event that wrote a fence last.
    pub(crate) fn fence_writer(&self, vat: VatNo, reference: Reference) -> Option<EventName>
        ensures { result ≡ (seen_of_homes self.now (key.Fence vat reference)).1 }
    {
        match self.state(vat) {
            Some(state) => state.fences.last_writer(&reference),
            None => None,
        }
    }

    /// The event that wrote a slot last.
    pub(crate) fn slot_writer(&self, slot: SlotId) -> Option<EventName>
        ensures { result ≡ (seen_of_homes self.now (key.Slot slot)).1 }
    {
        match self.state(slot.vat) {
            Some(state) => state.slots.last_writer(&slot),
            None => None,
        }
    }

    /// The event that wrote an object last.
    pub(crate) fn object_writer(&self, object: ObjId) -> Option<EventName>
        ensures { result ≡ (seen_of_homes self.now (key.Object object)).1 }
    {
        match self.state(object.vat) {
            Some(state) => state.objects.last_writer(&object),
            None => None,
        }
    }

    /// Makes an empty state for a vat that has none. Fails only for want of memory.
    fn add(&mut self, alloc: Global, vat: VatNo) -> Result<(), AllocError>
        ensures there { OnOk result (is_some (homes_of self.new vat) ≡ true) }
        ensures seen { (v : VatNo) (c : Cell) → seen_at (homes_of self.new v) c ≡ seen_at (homes_of self.old v) c }
        ensures ready { (v : VatNo) (c : Cell) → is_ready_at (homes_of self.old v) c ≡ true → is_ready_at (homes_of self.new v) c ≡ true }
    {
        if !self.homes.contains_key(&vat) {
            self.homes.insert(vat, Home::Own(VatState::new(alloc)))?;
        }
        Ok(())
    }

    /// The state of a vat, shared, an empty one where there was none. What is seen stays. Fails only for want of memory.
    pub(crate) fn share(&mut self, alloc: Global, vat: VatNo) -> Result<Arc<VatState>, AllocError>
        ensures shared { IfOk result (λ s. (c : Cell) → seen_in (arc_value s) c ≡ seen_at (homes_of self.old vat) c) }
        ensures seen { seen_of_homes self.new ≡ seen_of_homes self.old }
    {
        self.add(alloc, vat)?;
        match self.homes.get_mut(&vat) {
            Some(home) => home.share(alloc),
            None => unreachable!(),
        }
    }

    /// Makes the state of the vat of a top noun its own, with room for it. What is seen stays. Fails only for want of memory.
    pub(crate) fn make_room_for_top(
        &mut self,
        alloc: Global,
        vat: VatNo,
        name: Text,
    ) -> Result<(), AllocError>
        ensures ok { OnOk result (ready_of_homes self.new (key.Top vat name) ≡ true) }
        ensures ready { (k : CellKey) → ready_of_homes self.old k ≡ true → ready_of_homes self.new k ≡ true }
        ensures seen { seen_of_homes self.new ≡ seen_of_homes self.old }
    {
        self.add(alloc, vat)?;
        match self.homes.get_mut(&vat) {
            Some(home) => home.make_room_for_top(alloc, name),
            None => unreachable!(),
        }
    }

    /// Makes the state of the vat of a view its own, with room for it. What is seen stays. Fails only for want of memory.
    pub(crate) fn make_room_for_view(
        &mut self,
        alloc: Global,
        vat: VatNo,
        promise: PromId,
    ) -> Result<(), AllocError>
        ensures ok { OnOk result (ready_of_homes self.new (key.View vat promise) ≡ true) }
        ensures ready { (k : CellKey) → ready_of_homes self.old k ≡ true → ready_of_homes self.new k ≡ true }
        ensures seen { seen_of_homes self.new ≡ seen_of_homes self.old }
    {
        self.add(alloc, vat)?;
        match self.homes.get_mut(&vat) {
            Some(home) => home.make_room_for_view(alloc, promise),
            None => unreachable!(),
        }
    }

    /// Makes the state of the vat of a fence its own, with room for it. What is seen stays. Fails only for want of memory.
    pub(crate) fn make_room_for_fence(
        &mut self,
        alloc: Global,
        vat: VatNo,
        reference: Reference,
    ) -> Result<(), AllocError>
        ensures ok { OnOk result (ready_of_homes self.new (key.Fence vat reference) ≡ true) }
        ensures ready { (k : CellKey) → ready_of_homes self.old k ≡ true → ready_of_homes self.new k ≡ true }
        ensures seen { seen_of_homes self.new ≡ seen_of_homes self.old }
    {
        self.add(alloc, vat)?;
        match self.homes.get_mut(&vat) {
            Some(home) => home.make_room_for_fence(alloc, reference),
            None => unreachable!(),
        }
    }

    /// Makes the state of the vat of a slot its own, with room for it. What is seen stays. Fails only for want of memory.
    pub(crate) fn make_room_for_slot(
        &mut self,
        alloc: Global,
        slot: SlotId,
    ) -> Result<(), AllocError>
        ensures ok { OnOk result (ready_of_homes self.new (key.Slot slot) ≡ true) }
        ensures ready { (k : CellKey) → ready_of_homes self.old k ≡ true → ready_of_homes self.new k ≡ true }
        ensures seen { seen_of_homes self.new ≡ seen_of_homes self.old }
    {
        self.add(alloc, slot.vat)?;
        match self.homes.get_mut(&slot.vat) {
            Some(home) => home.make_room_for_slot(alloc, slot),
            None => unreachable!(),
        }
    }

    /// Makes the state of the vat of an object its own, with room for it. What is seen stays. Fails only for want of memory.
    pub(crate) fn make_room_for_object(
        &mut self,
        alloc: Global,
        object: ObjId,
    ) -> Result<(), AllocError>
        ensures ok { OnOk result (ready_of_homes self.new (key.Object object) ≡ true) }
        ensures ready { (k : CellKey) → ready_of_homes self.old k ≡ true → ready_of_homes self.new k ≡ true }
        ensures seen { seen_of_homes self.new ≡ seen_of_homes self.old }
    {
        self.add(alloc, object.vat)?;
        match self.homes.get_mut(&object.vat) {
            Some(home) => home.make_room_for_object(alloc, object),
            None => unreachable!(),
        }
    }

    /// Exchanges the record of a top noun with its cell. It takes no memory.
    pub(crate) fn swap_top(
        &mut self,
        vat: VatNo,
        kept: &mut Record<Text, Binding>,
        swaps: &mut Swaps,
    )
        requires { ready_of_homes self.old (key.Top vat kept.old.key) ≡ true }
        ensures seen { (k : CellKey) → seen_of_homes self.new k ≡ cond (same_key (key.Top vat kept.old.key) k) (told content_of (told (λ b. bound (bind_of b)) (kept.old.content, kept.old.writer))) (seen_of_homes self.old k) }
        ensures ready { ready_of_homes self.new ≡ ready_of_homes self.old }
        ensures key { kept.new.key ≡ kept.old.key }
        ensures exchanged { told content_of (told (λ b. bound (bind_of b)) (kept.new.content, kept.new.writer)) ≡ seen_of_homes self.old (key.Top vat kept.old.key) }
        ensures counted { swaps.new ≡ (swaps.old + 1) % 2 ^ 64 }
    {
        match self.homes.get_mut(&vat) {
            Some(home) => home.swap_top(kept, swaps),
            None => unreachable!(),
        }
    }

    /// Exchanges the record of a view with its cell. It takes no memory.
    pub(crate) fn swap_view(
        &mut self,
        vat: VatNo,
        kept: &mut Record<PromId, View>,
        swaps: &mut Swaps,
    )
        requires { ready_of_homes self.old (key.View vat kept.old.key) ≡ true }
        ensures seen { (k : CellKey) → seen_of_homes self.new k ≡ cond (same_key (key.View vat kept.old.key) k) (told content_of (told (λ k. viewed (view_of k)) (kept.old.content, kept.old.writer))) (seen_of_homes self.old k) }
        ensures ready { ready_of_homes self.new ≡ ready_of_homes self.old }
        ensures key { kept.new.key ≡ kept.old.key }
        ensures exchanged { told content_of (told (λ k. viewed (view_of k)) (kept.new.content, kept.new.writer)) ≡ seen_of_homes self.old (key.View vat kept.old.key) }
        ensures counted { swaps.new ≡ (swaps.old + 1) % 2 ^ 64 }
    {
        match self.homes.get_mut(&vat) {
            Some(home) => home.swap_view(kept, swaps),
            None => unreachable!(),
        }
    }

    /// Exchanges the record of a fence with its cell. It takes no memory.
    pub(crate) fn swap_fence(
        &mut self,
        vat: VatNo,
        kept: &mut Record<Reference, Fence>,
        swaps: &mut Swaps,
    )
        requires { ready_of_homes self.old (key.Fence vat kept.old.key) ≡ true }
        ensures seen { (k : CellKey) → seen_of_homes self.new k ≡ cond (same_key (key.Fence vat kept.old.key) k) (told content_of (told fenced (kept.old.content, kept.old.writer))) (seen_of_homes self.old k) }
        ensures ready { ready_of_homes self.new ≡ ready_of_homes self.old }
        ensures key { kept.new.key ≡ kept.old.key }
        ensures exchanged { told content_of (told fenced (kept.new.content, kept.new.writer)) ≡ seen_of_homes self.old (key.Fence vat kept.old.key) }
        ensures counted { swaps.new ≡ (swaps.old + 1) % 2 ^ 64 }
    {
        match self.homes.get_mut(&vat) {
            Some(home) => home.swap_fence(kept, swaps),
            None => unreachable!(),
        }
    }

    /// Exchanges the record of a slot with its cell. It takes no memory.
    pub(crate) fn swap_slot(&mut self, kept: &mut Record<SlotId, Value>, swaps: &mut Swaps)
        requires { ready_of_homes self.old (key.Slot kept.old.key) ≡ true }
        ensures seen { (k : CellKey) → seen_of_homes self.new k ≡ cond (same_key (key.Slot kept.old.key) k) (told content_of (told (λ v. held (val_of v)) (kept.old.content, kept.old.writer))) (seen_of_homes self.old k) }
        ensures ready { ready_of_homes self.new ≡ ready_of_homes self.old }
        ensures key { kept.new.key ≡ kept.old.key }
        ensures exchanged { told content_of (told (λ v. held (val_of v)) (kept.new.content, kept.new.writer)) ≡ seen_of_homes self.old (key.Slot kept.old.key) }
        ensures counted { swaps.new ≡ (swaps.old + 1) % 2 ^ 64 }
    {
        match self.homes.get_mut(&kept.key.vat) {
            Some(home) => home.swap_slot(kept, swaps),
            None => unreachable!(),
        }
    }

    /// Exchanges the record of an object with its cell. It takes no memory.
    pub(crate) fn swap_object(&mut self, kept: &mut Record<ObjId, Made>, swaps: &mut Swaps)
        requires { ready_of_homes self.old (key.Object kept.old.key) ≡ true }
        ensures seen { (k : CellKey) → seen_of_homes self.new k ≡ cond (same_key (key.Object kept.old.key) k) (told content_of (told (λ m. made (object_of m)) (kept.old.content, kept.old.writer))) (seen_of_homes self.old k) }
        ensures ready { ready_of_homes self.new ≡ ready_of_homes self.old }
        ensures key { kept.new.key ≡ kept.old.key }
        ensures exchanged { told content_of (told (λ m. made (object_of m)) (kept.new.content, kept.new.writer)) ≡ seen_of_homes self.old (key.Object kept.old.key) }
        ensures counted { swaps.new ≡ (swaps.old + 1) % 2 ^ 64 }
    {
        match self.homes.get_mut(&kept.key.vat) {
            Some(home) => home.swap_object(kept, swaps),
            None => unreachable!(),
        }
    }
}
