// A vat's state under a turn.
ghost use Rattle.std.specs.Prelude.{◌≡◌, ◌<◌, ◌≤◌, ◌+◌, ◌&&◌, true, Some, IfOk, IfSome, OnOk, OnErr, length, ltb};
ghost use Rattle.std.specs.Arc.{arc_value};
ghost use Rattle.std.specs.Option.{option_map};

use crate::made::Made;
use crate::reach::{Footprint, Reach};
use crate::state::{Binding, VatState, View};
use eorder::fence::Fence;
use ids::names::{EjId, EventName, ObjId, PromId, SlotId, VatNo};
use ids::reference::Reference;
use ids::text::Text;
use std::alloc::{AllocError, Global};
use std::marker::Model;
use std::sync::Arc;
use values::growing::grow;
use values::value::Value;
use values::verb::Verb;

/// A vat's state under a turn, which says what the turn touched of it. What the turn makes stands apart, by its number.
#[derive(Drop)]
pub struct Draft {
    /// The state that the turn began with, and what it touched there.
    base: Reach,
    event: EventName,
    vat: VatNo,
    /// The turn's own slots, by their number.
    slots: Vec<Value>,
    /// The turn's own objects, by their number.
    objects: Vec<Made>,
}

impl Model for Draft {
    ghost use Rattle.heap.specs.Drafted.{Drafted, drafted_code};

    ghost Value = { Drafted };

    ghost coded = { drafted_code };

    ghost use Rattle.heap.specs.DraftView.{drafted, IsNumbered};

    ghost view = { drafted };

    ghost invariant = { IsNumbered };
}

impl Draft {
    ghost use Rattle.heap.specs.State.{top, slot_cell, object_cell, view_cell, fence_cell, bound, held, made, viewed, fenced, read, write, also, no_cells};
    ghost use Rattle.heap.specs.View.{bind_of, object_of, view_of, state_of};
    ghost use Rattle.heap.specs.Found.{Found, touched_in, writes_in};
    ghost use Rattle.heap.specs.Drafts.{is_of, with_slots, with_objects, and_slots, and_objects, draft_of, counts_of, touched_of, writes_of, written_of, began_with, IsUnwritten};
    ghost use Rattle.heap.specs.Growing.{SlotGrows, lengthens};
    ghost use Rattle.values.specs.View.{val_of};

    /// A state in which this event begins in this vat, of which it has made nothing yet.
    pub fn new(alloc: Global, state: Arc<VatState>, event: EventName, vat: VatNo) -> Draft
        ensures state { draft_of result ≡ state_of (arc_value state) }
        ensures touched { touched_of result ≡ no_cells }
        ensures written { written_of result ≡ no_cells }
        ensures counts { counts_of result ≡ record { event = event; vat = vat; slots = 0; objects = 0 } }
        ensures began { began_with result ≡ state_of (arc_value state) }
    {
        Draft {
            base: Reach::new(alloc, state),
            event,
            vat,
            slots: Vec::new(alloc),
            objects: Vec::new(alloc),
        }
    }

    /// The name of the turn's ejector of this number.
    #[inline]
    pub fn ejector(&self, index: u32) -> EjId
        ensures { result ≡ record { event = (counts_of self.now).event; index = index; vat = (counts_of self.now).vat } }
    {
        EjId {
            event: self.event,
            index,
            vat: self.vat,
        }
    }

    /// How many slots the turn has made.
    #[inline]
    pub fn slot_count(&self) -> usize
        ensures { result ≡ (counts_of self.now).slots }
    {
        self.slots.len()
    }

    /// How many objects the turn has made.
    #[inline]
    pub fn object_count(&self) -> usize
        ensures { result ≡ (counts_of self.now).objects }
    {
        self.objects.len()
    }

    /// What a top noun stands for. It touches nothing.
    pub fn top(&self, name: &Text) -> Option<&Binding>
        ensures { option_map (λ b. bound (bind_of b.now)) result
            ≡ read (draft_of self.now) (top name.now) }
    {
        self.base.top(name)
    }

    /// What a top noun that was touched before stands for.
    pub fn peek_top(&self, name: &Text) -> Option<&Binding>
        ensures touched { IfSome result (λ b. touched_of self.now (top name.now) ≡ true) }
        ensures content { IfSome result (λ b. read (draft_of self.now) (top name.now) ≡ Some (bound (bind_of b.now))) }
    {
        self.base.touched_top(name)
    }

    /// Touches a top noun. Without memory nothing more is touched.
    pub fn reach_top(&mut self, name: &Text) -> Result<(), AllocError>
        ensures state { draft_of self.new ≡ draft_of self.old }
        ensures touched { OnOk result (touched_of self.new ≡ also (top name.now) (touched_of self.old)) }
        ensures err { OnErr result (touched_of self.new ≡ touched_of self.old) }
        ensures written { written_of self.new ≡ written_of self.old }
        ensures counts { counts_of self.new ≡ counts_of self.old }
        ensures began { began_with self.new ≡ began_with self.old }
    {
        self.base.reach_top(name)
    }

    /// Binds a top noun. Without memory for a new one nothing more is touched or written.
    pub fn bind_top(&mut self, name: Text, binding: Binding) -> Result<(), AllocError>
        ensures ok { OnOk result
            (draft_of self.new ≡ write (draft_of self.old) (top name) (bound (bind_of binding))) }
        ensures touched { OnOk result (touched_of self.new ≡ also (top name) (touched_of self.old)) }
        ensures written { OnOk result (written_of self.new ≡ also (top name) (written_of self.old)) }
        ensures err { OnErr result (IsUnwritten self.old self.new) }
        ensures counts { counts_of self.new ≡ counts_of self.old }
        ensures began { began_with self.new ≡ began_with self.old }
    {
        self.base.write_top(name, binding)
    }

    /// What a slot holds. It touches nothing.
    #[inline(always)]
    pub fn read_slot(&self, slot: SlotId) -> Option<&Value>
        ensures { option_map (λ v. held (val_of v.now)) result
            ≡ read (draft_of self.now) (slot_cell slot) }
    {
        if self.is_own(slot.event, slot.vat, slot.index, self.slots.len()) {
            Some(&self.slots[slot.index as usize])
        } else {
            self.base.slot(slot)
        }
    }

    /// What a slot that was touched before holds.
    #[inline(always)]
    pub fn peek_slot(&self, slot: SlotId) -> Option<&Value>
        ensures touched { IfSome result (λ v. touched_of self.now (slot_cell slot) ≡ true) }
        ensures content { IfSome result (λ v. read (draft_of self.now) (slot_cell slot) ≡ Some (held (val_of v.now))) }
    {
        if self.is_own(slot.event, slot.vat, slot.index, self.slots.len()) {
            Some(&self.slots[slot.index as usize])
        } else {
            self.base.touched_slot(slot)
        }
    }

    /// Touches a slot. Without memory nothing more is touched.
    #[inline]
    pub fn reach_slot(&mut self, slot: SlotId) -> Result<(), AllocError>
        ensures state { draft_of self.new ≡ draft_of self.old }
        ensures touched { OnOk result (touched_of self.new ≡ also (slot_cell slot) (touched_of self.old)) }
        ensures err { OnErr result (touched_of self.new ≡ touched_of self.old) }
        ensures written { written_of self.new ≡ written_of self.old }
        ensures counts { counts_of self.new ≡ counts_of self.old }
        ensures began { began_with self.new ≡ began_with self.old }
    {
        if self.is_own(slot.event, slot.vat, slot.index, self.slots.len()) {
            Ok(())
        } else {
            self.base.reach_slot(slot)
        }
    }

    /// Makes the turn's next slot, which holds this value. Without memory the turn has made nothing more.
    pub fn new_slot(&mut self, value: Value) -> Result<SlotId, AllocError>
        requires { (counts_of self.old).slots < u32.MAX }
        ensures named { IfOk result (λ i. i ≡ record { event = (counts_of self.old).event; index = (counts_of self.old).slots; vat = (counts_of self.old).vat }) }
        ensures made { IfOk result (λ i. draft_of self.new ≡ write (draft_of self.old) (slot_cell i) (held (val_of value))) }
        ensures touched { IfOk result (λ i. touched_of self.new ≡ also (slot_cell i) (touched_of self.old)) }
        ensures written { IfOk result (λ i. written_of self.new ≡ also (slot_cell i) (written_of self.old)) }
        ensures counts { IfOk result (λ i. counts_of self.new ≡ record (counts_of self.old) { slots = (counts_of self.old).slots + 1 }) }
        ensures err { OnErr result (self.new ≡ self.old) }
        ensures began { began_with self.new ≡ began_with self.old }
    {
        let slot = SlotId {
            event: self.event,
            index: self.slots.len() as u32,
            vat: self.vat,
        };
        self.slots.push(value)?;
        Ok(slot)
    }

    /// Lets a slot hold a value. Without memory for a new one nothing more is touched or written.
    #[inline(always)]
    pub fn write_slot(&mut self, slot: SlotId, value: Value) -> Result<(), AllocError>
        ensures ok { OnOk result
            (draft_of self.new ≡ write (draft_of self.old) (slot_cell slot) (held (val_of value))) }
        ensures touched { OnOk result (touched_of self.new ≡ also (slot_cell slot) (touched_of self.old)) }
        ensures written { OnOk result (written_of self.new ≡ also (slot_cell slot) (written_of self.old)) }
        ensures err { OnErr result (IsUnwritten self.old self.new) }
        ensures counts { counts_of self.new ≡ counts_of self.old }
        ensures began { began_with self.new ≡ began_with self.old }
    {
        if self.is_own(slot.event, slot.vat, slot.index, self.slots.len()) {
            self.slots[slot.index as usize] = value;
            Ok(())
        } else {
            self.base.write_slot(slot, value)
        }
    }

    /// Lets what a slot of the turn's own holds be what a verb with one argument gives for it, where that verb adds to it.
    /// Answers whether it did; else nothing has changed. Where memory runs out the slot may hold a part.
    #[inline]
    pub fn grow_slot(&mut self, slot: SlotId, verb: &Verb, more: &Value) -> Result<bool, AllocError>
        ensures grown { IfOk result (λ grew. SlotGrows grew slot verb.now (val_of more.now) self.old self.new) }
        ensures when { IfOk result (λ grew. grew ≡ (is_of (counts_of self.old).event (counts_of self.old).vat slot.event slot.vat && ltb slot.index (counts_of self.old).slots && lengthens verb.now (val_of more.now) (read (draft_of self.old) (slot_cell slot)))) }
        ensures counts { counts_of self.new ≡ counts_of self.old }
        ensures began { began_with self.new ≡ began_with self.old }
    {
        if self.is_own(slot.event, slot.vat, slot.index, self.slots.len()) {
            grow(&mut self.slots[slot.index as usize], verb, more)
        } else {
            Ok(false)
        }
    }

    /// What an object is. It touches nothing.
    #[inline]
    pub fn object(&self, object: ObjId) -> Option<&Made>
        ensures { option_map (λ m. made (object_of m.now)) result
            ≡ read (draft_of self.now) (object_cell object) }
    {
        if self.is_own(object.event, object.vat, object.index, self.objects.len()) {
            Some(&self.objects[object.index as usize])
        } else {
            self.base.object(object)
        }
    }

    /// What an object that was touched before is.
    #[inline(always)]
    pub fn peek_object(&self, object: ObjId) -> Option<&Made>
        ensures touched { IfSome result (λ m. touched_of self.now (object_cell object) ≡ true) }
        ensures content { IfSome result (λ m. read (draft_of self.now) (object_cell object) ≡ Some (made (object_of m.now))) }
    {
        if self.is_own(object.event, object.vat, object.index, self.objects.len()) {
            Some(&self.objects[object.index as usize])
        } else {
            self.base.touched_object(object)
        }
    }

    /// Touches an object. Without memory nothing more is touched.
    #[inline]
    pub fn reach_object(&mut self, object: ObjId) -> Result<(), AllocError>
        ensures state { draft_of self.new ≡ draft_of self.old }
        ensures touched { OnOk result (touched_of self.new ≡ also (object_cell object) (touched_of self.old)) }
        ensures err { OnErr result (touched_of self.new ≡ touched_of self.old) }
        ensures written { written_of self.new ≡ written_of self.old }
        ensures counts { counts_of self.new ≡ counts_of self.old }
        ensures began { began_with self.new ≡ began_with self.old }
    {
        if self.is_own(object.event, object.vat, object.index, self.objects.len()) {
            Ok(())
        } else {
            self.base.reach_object(object)
        }
    }

    /// Makes the turn's next object. Without memory the turn has made nothing more.
    pub fn new_object(&mut self, object: Made) -> Result<ObjId, AllocError>
        requires { (counts_of self.old).objects < u32.MAX }
        ensures named { IfOk result (λ i. i ≡ record { event = (counts_of self.old).event; index = (counts_of self.old).objects; vat = (counts_of self.old).vat }) }
        ensures made { IfOk result (λ i. draft_of self.new ≡ write (draft_of self.old) (object_cell i) (made (object_of object))) }
        ensures touched { IfOk result (λ i. touched_of self.new ≡ also (object_cell i) (touched_of self.old)) }
        ensures written { IfOk result (λ i. written_of self.new ≡ also (object_cell i) (written_of self.old)) }
        ensures counts { IfOk result (λ i. counts_of self.new ≡ record (counts_of self.old) { objects = (counts_of self.old).objects + 1 }) }
        ensures err { OnErr result (self.new ≡ self.old) }
        ensures began { began_with self.new ≡ began_with self.old }
    {
        let id = ObjId {
            event: self.event,
            index: self.objects.len() as u32,
            vat: self.vat,
        };
        self.objects.push(object)?;
        Ok(id)
    }

    /// What is known of a promise. It touches nothing.
    pub fn known(&self, promise: PromId) -> Option<&View>
        ensures { option_map (λ k. viewed (view_of k.now)) result
            ≡ read (draft_of self.now) (view_cell promise) }
    {
        self.base.view(promise)
    }

    /// Touches what is known of a promise. Without memory nothing more is touched.
    pub fn reach_view(&mut self, promise: PromId) -> Result<(), AllocError>
        ensures state { draft_of self.new ≡ draft_of self.old }
        ensures touched { OnOk result (touched_of self.new ≡ also (view_cell promise) (touched_of self.old)) }
        ensures err { OnErr result (touched_of self.new ≡ touched_of self.old) }
        ensures written { written_of self.new ≡ written_of self.old }
        ensures counts { counts_of self.new ≡ counts_of self.old }
        ensures began { began_with self.new ≡ began_with self.old }
    {
        self.base.reach_view(promise)
    }

    /// Lets this be known of a promise. Without memory for a new one nothing more is touched or written.
    pub fn write_view(&mut self, promise: PromId, view: View) -> Result<(), AllocError>
        ensures ok { OnOk result
            (draft_of self.new ≡ write (draft_of self.old) (view_cell promise) (viewed (view_of view))) }
        ensures touched { OnOk result (touched_of self.new ≡ also (view_cell promise) (touched_of self.old)) }
        ensures written { OnOk result (written_of self.new ≡ also (view_cell promise) (written_of self.old)) }
        ensures err { OnErr result (IsUnwritten self.old self.new) }
        ensures counts { counts_of self.new ≡ counts_of self.old }
        ensures began { began_with self.new ≡ began_with self.old }
    {
        self.base.write_view(promise, view)
    }

    /// The messages that are kept behind a reference. It touches nothing.
    pub fn fence(&self, reference: Reference) -> Option<&Fence>
        ensures { option_map (λ f. fenced f.now) result
            ≡ read (draft_of self.now) (fence_cell reference) }
    {
        self.base.fence(reference)
    }

    /// Touches the messages behind a reference. Without memory nothing more is touched.
    pub fn reach_fence(&mut self, reference: Reference) -> Result<(), AllocError>
        ensures state { draft_of self.new ≡ draft_of self.old }
        ensures touched { OnOk result (touched_of self.new ≡ also (fence_cell reference) (touched_of self.old)) }
        ensures err { OnErr result (touched_of self.new ≡ touched_of self.old) }
        ensures written { written_of self.new ≡ written_of self.old }
        ensures counts { counts_of self.new ≡ counts_of self.old }
        ensures began { began_with self.new ≡ began_with self.old }
    {
        self.base.reach_fence(reference)
    }

    /// Lets these messages be behind a reference. Without memory for a new one nothing more is touched or written.
    pub fn write_fence(&mut self, reference: Reference, fence: Fence) -> Result<(), AllocError>
        ensures ok { OnOk result
            (draft_of self.new ≡ write (draft_of self.old) (fence_cell reference) (fenced fence)) }
        ensures touched { OnOk result (touched_of self.new ≡ also (fence_cell reference) (touched_of self.old)) }
        ensures written { OnOk result (written_of self.new ≡ also (fence_cell reference) (written_of self.old)) }
        ensures err { OnErr result (IsUnwritten self.old self.new) }
        ensures counts { counts_of self.new ≡ counts_of self.old }
        ensures began { began_with self.new ≡ began_with self.old }
    {
        self.base.write_fence(reference, fence)
    }

    /// What the turn touched, with what it found and what it wrote: all that it made is written there.
    pub fn finish(self) -> Result<Footprint, AllocError>
        ensures touched { IfOk result (λ r. touched_in r ≡ touched_of self) }
        ensures written { IfOk result (λ r. writes_in r ≡ writes_of self) }
        ensures found { IfOk result (λ r. Found r (began_with self)) }
    {
        let Draft {
            mut base,
            event,
            vat,
            slots,
            objects,
        } = self;
        Draft::keep_slots(&mut base, event, vat, slots)?;
        Draft::keep_objects(&mut base, event, vat, objects)?;
        Ok(base.into_footprint())
    }

    /// Whether a cell is of the turn and its number is one of so many that were made.
    #[inline(always)]
    fn is_own(&self, event: EventName, vat: VatNo, index: u32, count: usize) -> bool
        ensures { result ≡ (is_of (counts_of self.now).event (counts_of self.now).vat event vat && ltb index count) }
    {
        self.event.0 == event.0 && self.vat.0.0 == vat.0.0 && (index as usize) < count
    }

    /// Writes the slots of a turn into a state, the newest first, so that those that are left keep their numbers.
    fn keep_slots(
        base: &mut Reach,
        event: EventName,
        vat: VatNo,
        mut slots: Vec<Value>,
    ) -> Result<(), AllocError>
        requires { length slots.items ≤ u32.MAX }
        ensures touched { OnOk result (touched_in base.new.footprint ≡ and_slots event vat slots.items (touched_in base.old.footprint)) }
        ensures written { OnOk result (writes_in base.new.footprint ≡ with_slots event vat slots.items (writes_in base.old.footprint)) }
        ensures beneath { OnOk result (base.new.state ≡ base.old.state) }
    {
        while let Some(value) = slots.pop() {
            let index = slots.len() as u32;
            base.write_slot(SlotId { event, index, vat }, value)?;
        }
        Ok(())
    }

    /// Writes the objects of a turn, the newest first as well.
    fn keep_objects(
        base: &mut Reach,
        event: EventName,
        vat: VatNo,
        mut objects: Vec<Made>,
    ) -> Result<(), AllocError>
        requires { length objects.items ≤ u32.MAX }
        ensures touched { OnOk result (touched_in base.new.footprint ≡ and_objects event vat objects.items (touched_in base.old.footprint)) }
        ensures written { OnOk result (writes_in base.new.footprint ≡ with_objects event vat objects.items (writes_in base.old.footprint)) }
        ensures beneath { OnOk result (base.new.state ≡ base.old.state) }
    {
        while let Some(object) = objects.pop() {
            let index = objects.len() as u32;
            base.write_object(ObjId { event, index, vat }, object)?;
        }
        Ok(())
    }
}
