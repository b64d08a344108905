// What a turn has reached of the state that it began with.
ghost use Rattle.std.specs.Prelude.{◌≡◌, None, Some, true, IfSome, OnOk, OnErr};
ghost use Rattle.std.specs.Arc.{arc_value};
ghost use Rattle.std.specs.Option.{option_map};
ghost use Rattle.heap.specs.State.{Cell, top, slot_cell, object_cell, view_cell, fence_cell, bound, held, made, viewed, fenced, no_cells, nothing, also, read, write};
ghost use Rattle.heap.specs.View.{bind_of, object_of, view_of, state_of};
ghost use Rattle.values.specs.View.{val_of};
ghost use Rattle.heap.specs.Found.{Found, found-prop};

use crate::made::Made;
use crate::state::{Binding, VatState, View};
use cells::touches::{Touch, Touches};
use eorder::fence::Fence;
use ids::names::{ObjId, PromId, SlotId};
use ids::reference::Reference;
use ids::text::Text;
use std::alloc::{AllocError, Global};
use std::sync::Arc;
use values::value::Value;

/// The cells of a vat that a turn touched: what it found in each, and what it wrote there, if it wrote.
pub struct Footprint {
    pub tops: Touches<Text, Binding>,
    pub slots: Touches<SlotId, Value>,
    pub objects: Touches<ObjId, Made>,
    pub views: Touches<PromId, View>,
    pub fences: Touches<Reference, Fence>,
}

// By hand, so that what drops one elsewhere calls this and is not proved anew for all that it holds.
impl Drop for Footprint {
    fn drop(self) {
        let Footprint {
            tops: _,
            slots: _,
            objects: _,
            views: _,
            fences: _,
        } = self;
    }
}

/// The state that a turn began with, shared, and what it touched of it.
#[derive(Drop)]
pub struct Reach {
    state: Arc<VatState>,
    footprint: Footprint,
    pub ghost found: { Found footprint (state_of (arc_value state)) } by { found-prop footprint (state_of (arc_value state)) },
}

impl Footprint {
    ghost use Rattle.heap.specs.Found.{touch_in, touched_in, writes_in, over_state};

    /// Nothing was touched.
    pub fn new(alloc: Global) -> Footprint
        ensures { (c : Cell) → touch_in result c ≡ None }
    {
        Footprint {
            tops: Touches::new(alloc),
            slots: Touches::new(alloc),
            objects: Touches::new(alloc),
            views: Touches::new(alloc),
            fences: Touches::new(alloc),
        }
    }

    /// Touches a top noun, whose content is that of the state that the turn began with.
    fn reach_top(&mut self, state: &VatState, name: &Text) -> Result<(), AllocError>
        ensures found { Found self.old (state_of state.now) → Found self.new (state_of state.now) }
        ensures state { over_state self.new (state_of state.now) ≡ over_state self.old (state_of state.now) }
        ensures touched { OnOk result (touched_in self.new ≡ also (top name.now) (touched_in self.old)) }
        ensures written { writes_in self.new ≡ writes_in self.old }
        ensures err { OnErr result ((c : Cell) → touch_in self.new c ≡ touch_in self.old c) }
    {
        if !self.tops.has(name) {
            let found = state.found_top(name)?;
            let written = None;
            self.tops.add(name.share()?, Touch { found, written })?;
        }
        Ok(())
    }

    /// Touches a slot, whose content is that of the state that the turn began with.
    fn reach_slot(&mut self, state: &VatState, slot: SlotId) -> Result<(), AllocError>
        ensures found { Found self.old (state_of state.now) → Found self.new (state_of state.now) }
        ensures state { over_state self.new (state_of state.now) ≡ over_state self.old (state_of state.now) }
        ensures touched { OnOk result (touched_in self.new ≡ also (slot_cell slot) (touched_in self.old)) }
        ensures written { writes_in self.new ≡ writes_in self.old }
        ensures err { OnErr result ((c : Cell) → touch_in self.new c ≡ touch_in self.old c) }
    {
        if !self.slots.has(&slot) {
            let found = state.found_slot(slot)?;
            let written = None;
            self.slots.add(slot, Touch { found, written })?;
        }
        Ok(())
    }

    /// Touches an object, whose content is that of the state that the turn began with.
    fn reach_object(&mut self, state: &VatState, object: ObjId) -> Result<(), AllocError>
        ensures found { Found self.old (state_of state.now) → Found self.new (state_of state.now) }
        ensures state { over_state self.new (state_of state.now) ≡ over_state self.old (state_of state.now) }
        ensures touched { OnOk result (touched_in self.new ≡ also (object_cell object) (touched_in self.old)) }
        ensures written { writes_in self.new ≡ writes_in self.old }
        ensures err { OnErr result ((c : Cell) → touch_in self.new c ≡ touch_in self.old c) }
    {
        if !self.objects.has(&object) {
            let found = state.found_object(object)?;
            let written = None;
            self.objects.add(object, Touch { found, written })?;
        }
        Ok(())
    }

    /// Touches what is known of a promise, whose content is that of the state that the turn began with.
    fn reach_view(&mut self, state: &VatState, promise: PromId) -> Result<(), AllocError>
        ensures found { Found self.old (state_of state.now) → Found self.new (state_of state.now) }
        ensures state { over_state self.new (state_of state.now) ≡ over_state self.old (state_of state.now) }
        ensures touched { OnOk result (touched_in self.new ≡ also (view_cell promise) (touched_in self.old)) }
        ensures written { writes_in self.new ≡ writes_in self.old }
        ensures err { OnErr result ((c : Cell) → touch_in self.new c ≡ touch_in self.old c) }
    {
        if !self.views.has(&promise) {
            let found = state.found_view(promise)?;
            let written = None;
            self.views.add(promise, Touch { found, written })?;
        }
        Ok(())
    }

    /// Touches the messages behind a reference, which are those of the state that the turn began with.
    fn reach_fence(&mut self, state: &VatState, reference: Reference) -> Result<(), AllocError>
        ensures found { Found self.old (state_of state.now) → Found self.new (state_of state.now) }
        ensures state { over_state self.new (state_of state.now) ≡ over_state self.old (state_of state.now) }
        ensures touched { OnOk result (touched_in self.new ≡ also (fence_cell reference) (touched_in self.old)) }
        ensures written { writes_in self.new ≡ writes_in self.old }
        ensures err { OnErr result ((c : Cell) → touch_in self.new c ≡ touch_in self.old c) }
    {
        if !self.fences.has(&reference) {
            let found = state.found_fence(reference)?;
            let written = None;
            self.fences.add(reference, Touch { found, written })?;
        }
        Ok(())
    }

    /// Lets a top noun stand for this.
    fn write_top(
        &mut self,
        state: &VatState,
        name: Text,
        binding: Binding,
    ) -> Result<(), AllocError>
        ensures found { Found self.old (state_of state.now) → Found self.new (state_of state.now) }
        ensures state { OnOk result (over_state self.new (state_of state.now) ≡ write (over_state self.old (state_of state.now)) (top name) (bound (bind_of binding))) }
        ensures touched { OnOk result (touched_in self.new ≡ also (top name) (touched_in self.old)) }
        ensures written { OnOk result (writes_in self.new ≡ write (writes_in self.old) (top name) (bound (bind_of binding))) }
        ensures err { OnErr result ((c : Cell) → touch_in self.new c ≡ touch_in self.old c) }
    {
        match self.tops.write(&name, binding) {
            Ok(()) => Ok(()),
            Err(binding) => {
                let found = state.found_top(&name)?;
                let written = Some(binding);
                self.tops.add(name, Touch { found, written })
            }
        }
    }

    /// Lets a slot hold a value.
    fn write_slot(&mut self, state: &VatState, slot: SlotId, value: Value) -> Result<(), AllocError>
        ensures found { Found self.old (state_of state.now) → Found self.new (state_of state.now) }
        ensures state { OnOk result (over_state self.new (state_of state.now) ≡ write (over_state self.old (state_of state.now)) (slot_cell slot) (held (val_of value))) }
        ensures touched { OnOk result (touched_in self.new ≡ also (slot_cell slot) (touched_in self.old)) }
        ensures written { OnOk result (writes_in self.new ≡ write (writes_in self.old) (slot_cell slot) (held (val_of value))) }
        ensures err { OnErr result ((c : Cell) → touch_in self.new c ≡ touch_in self.old c) }
    {
        match self.slots.write(&slot, value) {
            Ok(()) => Ok(()),
            Err(value) => {
                let found = state.found_slot(slot)?;
                let written = Some(value);
                self.slots.add(slot, Touch { found, written })
            }
        }
    }

    /// Lets an object be this.
    fn write_object(&mut self, state: &VatState, id: ObjId, object: Made) -> Result<(), AllocError>
        ensures found { Found self.old (state_of state.now) → Found self.new (state_of state.now) }
        ensures state { OnOk result (over_state self.new (state_of state.now) ≡ write (over_state self.old (state_of state.now)) (object_cell id) (made (object_of object))) }
        ensures touched { OnOk result (touched_in self.new ≡ also (object_cell id) (touched_in self.old)) }
        ensures written { OnOk result (writes_in self.new ≡ write (writes_in self.old) (object_cell id) (made (object_of object))) }
        ensures err { OnErr result ((c : Cell) → touch_in self.new c ≡ touch_in self.old c) }
    {
        match self.objects.write(&id, object) {
            Ok(()) => Ok(()),
            Err(object) => {
                let found = state.found_object(id)?;
                let written = Some(object);
                self.objects.add(id, Touch { found, written })
            }
        }
    }

    /// Lets this be known of a promise.
    fn write_view(
        &mut self,
        state: &VatState,
        promise: PromId,
        view: View,
    ) -> Result<(), AllocError>
        ensures found { Found self.old (state_of state.now) → Found self.new (state_of state.now) }
        ensures state { OnOk result (over_state self.new (state_of state.now) ≡ write (over_state self.old (state_of state.now)) (view_cell promise) (viewed (view_of view))) }
        ensures touched { OnOk result (touched_in self.new ≡ also (view_cell promise) (touched_in self.old)) }
        ensures written { OnOk result (writes_in self.new ≡ write (writes_in self.old) (view_cell promise) (viewed (view_of view))) }
        ensures err { OnErr result ((c : Cell) → touch_in self.new c ≡ touch_in self.old c) }
    {
        match self.views.write(&promise, view) {
            Ok(()) => Ok(()),
            Err(view) => {
                let found = state.found_view(promise)?;
                let written = Some(view);
                self.views.add(promise, Touch { found, written })
            }
        }
    }

    /// Lets these messages be behind a reference.
    fn write_fence(
        &mut self,
        state: &VatState,
        reference: Reference,
        fence: Fence,
    ) -> Result<(), AllocError>
        ensures found { Found self.old (state_of state.now) → Found self.new (state_of state.now) }
        ensures state { OnOk result (over_state self.new (state_of state.now) ≡ write (over_state self.old (state_of state.now)) (fence_cell reference) (fenced fence)) }
        ensures touched { OnOk result (touched_in self.new ≡ also (fence_cell reference) (touched_in self.old)) }
        ensures written { OnOk result (writes_in self.new ≡ write (writes_in self.old) (fence_cell reference) (fenced fence)) }
        ensures err { OnErr result ((c : Cell) → touch_in self.new c ≡ touch_in self.old c) }
    {
        match self.fences.write(&reference, fence) {
            Ok(()) => Ok(()),
            Err(fence) => {
                let found = state.found_fence(reference)?;
                let written = Some(fence);
                self.fences.add(reference, Touch { found, written })
            }
        }
    }
}

impl Reach {
    ghost use Rattle.heap.specs.Reaches.{state_in};
    ghost use Rattle.heap.specs.Found.{touch_in, touched_in, writes_in};

    /// Nothing of this state was touched yet.
    pub(crate) fn new(alloc: Global, state: Arc<VatState>) -> Reach
        ensures state { state_in result ≡ state_of (arc_value state) }
        ensures touched { touched_in result.footprint ≡ no_cells }
        ensures written { writes_in result.footprint ≡ nothing }
        ensures beneath { result.state ≡ state }
    {
        Reach {
            state,
            footprint: Footprint::new(alloc),
        }
    }

    /// What a top noun stands for.
    pub(crate) fn top(&self, name: &Text) -> Option<&Binding>
        ensures { option_map (λ b. bound (bind_of b.now)) result ≡ read (state_in self.now) (top name.now) }
    {
        match self.footprint.tops.get(name) {
            Some(touch) => touch.content(),
            None => self.state.top(name),
        }
    }

    /// What a slot holds.
    #[inline]
    pub(crate) fn slot(&self, slot: SlotId) -> Option<&Value>
        ensures { option_map (λ v. held (val_of v.now)) result ≡ read (state_in self.now) (slot_cell slot) }
    {
        match self.footprint.slots.get(&slot) {
            Some(touch) => touch.content(),
            None => self.state.slot(slot),
        }
    }

    /// What an object is.
    pub(crate) fn object(&self, object: ObjId) -> Option<&Made>
        ensures { option_map (λ m. made (object_of m.now)) result ≡ read (state_in self.now) (object_cell object) }
    {
        match self.footprint.objects.get(&object) {
            Some(touch) => touch.content(),
            None => self.state.object(object),
        }
    }

    /// What is known of a promise.
    pub(crate) fn view(&self, promise: PromId) -> Option<&View>
        ensures { option_map (λ k. viewed (view_of k.now)) result ≡ read (state_in self.now) (view_cell promise) }
    {
        match self.footprint.views.get(&promise) {
            Some(touch) => touch.content(),
            None => self.state.view(promise),
        }
    }

    /// The messages behind a reference.
    pub(crate) fn fence(&self, reference: Reference) -> Option<&Fence>
        ensures { option_map (λ f. fenced f.now) result ≡ read (state_in self.now) (fence_cell reference) }
    {
        match self.footprint.fences.get(&reference) {
            Some(touch) => touch.content(),
            None => self.state.fence(reference),
        }
    }

    /// What a top noun that was touched stands for.
    pub(crate) fn touched_top(&self, name: &Text) -> Option<&Binding>
        ensures touched { IfSome result (λ b. touched_in self.now.footprint (top name.now) ≡ true) }
        ensures content { IfSome result (λ b. read (state_in self.now) (top name.now) ≡ Some (bound (bind_of b.now))) }
    {
        match self.footprint.tops.get(name) {
            Some(touch) => touch.content(),
            None => None,
        }
    }

    /// What a slot that was touched holds.
    #[inline]
    pub(crate) fn touched_slot(&self, slot: SlotId) -> Option<&Value>
        ensures touched { IfSome result (λ v. touched_in self.now.footprint (slot_cell slot) ≡ true) }
        ensures content { IfSome result (λ v. read (state_in self.now) (slot_cell slot) ≡ Some (held (val_of v.now))) }
    {
        match self.footprint.slots.get(&slot) {
            Some(touch) => touch.content(),
            None => None,
        }
    }

    /// What an object that was touched is.
    #[inline]
    pub(crate) fn touched_object(&self, object: ObjId) -> Option<&Made>
        ensures touched { IfSome result (λ m. touched_in self.now.footprint (object_cell object) ≡ true) }
        ensures content { IfSome result (λ m. read (state_in self.now) (object_cell object) ≡ Some (made (object_of m.now))) }
    {
        match self.footprint.objects.get(&object) {
            Some(touch) => touch.content(),
            None => None,
        }
    }

    /// Touches a top noun.
    pub(crate) fn reach_top(&mut self, name: &Text) -> Result<(), AllocError>
        ensures state { state_in self.new ≡ state_in self.old }
        ensures touched { OnOk result (touched_in self.new.footprint ≡ also (top name.now) (touched_in self.old.footprint)) }
        ensures written { writes_in self.new.footprint ≡ writes_in self.old.footprint }
        ensures err { OnErr result ((c : Cell) → touch_in self.new.footprint c ≡ touch_in self.old.footprint c) }
        ensures beneath { self.new.state ≡ self.old.state }
    {
        self.footprint.reach_top(&self.state, name)
    }

    /// Touches a slot.
    pub(crate) fn reach_slot(&mut self, slot: SlotId) -> Result<(), AllocError>
        ensures state { state_in self.new ≡ state_in self.old }
        ensures touched { OnOk result (touched_in self.new.footprint ≡ also (slot_cell slot) (touched_in self.old.footprint)) }
        ensures written { writes_in self.new.footprint ≡ writes_in self.old.footprint }
        ensures err { OnErr result ((c : Cell) → touch_in self.new.footprint c ≡ touch_in self.old.footprint c) }
        ensures beneath { self.new.state ≡ self.old.state }
    {
        self.footprint.reach_slot(&self.state, slot)
    }

    /// Touches an object.
    pub(crate) fn reach_object(&mut self, object: ObjId) -> Result<(), AllocError>
        ensures state { state_in self.new ≡ state_in self.old }
        ensures touched { OnOk result (touched_in self.new.footprint ≡ also (object_cell object) (touched_in self.old.footprint)) }
        ensures written { writes_in self.new.footprint ≡ writes_in self.old.footprint }
        ensures err { OnErr result ((c : Cell) → touch_in self.new.footprint c ≡ touch_in self.old.footprint c) }
        ensures beneath { self.new.state ≡ self.old.state }
    {
        self.footprint.reach_object(&self.state, object)
    }

    /// Touches what is known of a promise.
    pub(crate) fn reach_view(&mut self, promise: PromId) -> Result<(), AllocError>
        ensures state { state_in self.new ≡ state_in self.old }
        ensures touched { OnOk result (touched_in self.new.footprint ≡ also (view_cell promise) (touched_in self.old.footprint)) }
        ensures written { writes_in self.new.footprint ≡ writes_in self.old.footprint }
        ensures err { OnErr result ((c : Cell) → touch_in self.new.footprint c ≡ touch_in self.old.footprint c) }
        ensures beneath { self.new.state ≡ self.old.state }
    {
        self.footprint.reach_view(&self.state, promise)
    }

    /// Touches the messages behind a reference.
    pub(crate) fn reach_fence(&mut self, reference: Reference) -> Result<(), AllocError>
        ensures state { state_in self.new ≡ state_in self.old }
        ensures touched { OnOk result (touched_in self.new.footprint ≡ also (fence_cell reference) (touched_in self.old.footprint)) }
        ensures written { writes_in self.new.footprint ≡ writes_in self.old.footprint }
        ensures err { OnErr result ((c : Cell) → touch_in self.new.footprint c ≡ touch_in self.old.footprint c) }
        ensures beneath { self.new.state ≡ self.old.state }
    {
        self.footprint.reach_fence(&self.state, reference)
    }

    /// Lets a top noun stand for this.
    pub(crate) fn write_top(&mut self, name: Text, binding: Binding) -> Result<(), AllocError>
        ensures state { OnOk result (state_in self.new ≡ write (state_in self.old) (top name) (bound (bind_of binding))) }
        ensures touched { OnOk result (touched_in self.new.footprint ≡ also (top name) (touched_in self.old.footprint)) }
        ensures written { OnOk result (writes_in self.new.footprint ≡ write (writes_in self.old.footprint) (top name) (bound (bind_of binding))) }
        ensures err { OnErr result ((c : Cell) → touch_in self.new.footprint c ≡ touch_in self.old.footprint c) }
        ensures beneath { self.new.state ≡ self.old.state }
    {
        self.footprint.write_top(&self.state, name, binding)
    }

    /// Lets a slot hold a value.
    #[inline]
    pub(crate) fn write_slot(&mut self, slot: SlotId, value: Value) -> Result<(), AllocError>
        ensures state { OnOk result (state_in self.new ≡ write (state_in self.old) (slot_cell slot) (held (val_of value))) }
        ensures touched { OnOk result (touched_in self.new.footprint ≡ also (slot_cell slot) (touched_in self.old.footprint)) }
        ensures written { OnOk result (writes_in self.new.footprint ≡ write (writes_in self.old.footprint) (slot_cell slot) (held (val_of value))) }
        ensures err { OnErr result ((c : Cell) → touch_in self.new.footprint c ≡ touch_in self.old.footprint c) }
        ensures beneath { self.new.state ≡ self.old.state }
    {
        self.footprint.write_slot(&self.state, slot, value)
    }

    /// Lets an object be this.
    pub(crate) fn write_object(&mut self, id: ObjId, object: Made) -> Result<(), AllocError>
        ensures state { OnOk result (state_in self.new ≡ write (state_in self.old) (object_cell id) (made (object_of object))) }
        ensures touched { OnOk result (touched_in self.new.footprint ≡ also (object_cell id) (touched_in self.old.footprint)) }
        ensures written { OnOk result (writes_in self.new.footprint ≡ write (writes_in self.old.footprint) (object_cell id) (made (object_of object))) }
        ensures err { OnErr result ((c : Cell) → touch_in self.new.footprint c ≡ touch_in self.old.footprint c) }
        ensures beneath { self.new.state ≡ self.old.state }
    {
        self.footprint.write_object(&self.state, id, object)
    }

    /// Lets this be known of a promise.
    pub(crate) fn write_view(&mut self, promise: PromId, view: View) -> Result<(), AllocError>
        ensures state { OnOk result (state_in self.new ≡ write (state_in self.old) (view_cell promise) (viewed (view_of view))) }
        ensures touched { OnOk result (touched_in self.new.footprint ≡ also (view_cell promise) (touched_in self.old.footprint)) }
        ensures written { OnOk result (writes_in self.new.footprint ≡ write (writes_in self.old.footprint) (view_cell promise) (viewed (view_of view))) }
        ensures err { OnErr result ((c : Cell) → touch_in self.new.footprint c ≡ touch_in self.old.footprint c) }
        ensures beneath { self.new.state ≡ self.old.state }
    {
        self.footprint.write_view(&self.state, promise, view)
    }

    /// Lets these messages be behind a reference.
    pub(crate) fn write_fence(
        &mut self,
        reference: Reference,
        fence: Fence,
    ) -> Result<(), AllocError>
        ensures state { OnOk result (state_in self.new ≡ write (state_in self.old) (fence_cell reference) (fenced fence)) }
        ensures touched { OnOk result (touched_in self.new.footprint ≡ also (fence_cell reference) (touched_in self.old.footprint)) }
        ensures written { OnOk result (writes_in self.new.footprint ≡ write (writes_in self.old.footprint) (fence_cell reference) (fenced fence)) }
        ensures err { OnErr result ((c : Cell) → touch_in self.new.footprint c ≡ touch_in self.old.footprint c) }
        ensures beneath { self.new.state ≡ self.old.state }
    {
        self.footprint.write_fence(&self.state, reference, fence)
    }

    /// What was touched of the state, which is given back.
    pub(crate) fn into_footprint(self) -> Footprint
        ensures same { result ≡ self.footprint }
        ensures found { Found result (state_of (arc_value self.state)) }
    {
        let Reach {
            state: _,
            footprint,
        } = self;
        footprint
    }
}
