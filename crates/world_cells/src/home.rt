// A vat's state, its own or shared with tickets. What is its own is exchanged with no memory.
ghost use Rattle.std.specs.Prelude.{◌≡◌, ◌+◌, ◌%◌, ◌^◌, true, false, cond, IfOk, IfErr, OnOk, OnErr};
ghost use Rattle.std.specs.Arc.{arc_value};
ghost use Rattle.ids.specs.declared.names.SlotId.{SlotId};
ghost use Rattle.ids.specs.declared.names.ObjId.{ObjId};
ghost use Rattle.values.specs.View.{val_of};
ghost use Rattle.heap.specs.State.{Cell, top, slot_cell, object_cell, view_cell, fence_cell, bound, held, made, viewed, fenced, same_cell};
ghost use Rattle.heap.specs.View.{bind_of, object_of, view_of, seen_in, told};
ghost use Rattle.world_cells.specs.Homes.{state_in, is_own, is_ready_in};

use cells::store::Record;
use cells::swaps::Swaps;
use eorder::fence::Fence;
use heap::made::Made;
use heap::state::{Binding, VatState, View};
use ids::names::{ObjId, PromId, SlotId};
use ids::reference::Reference;
use ids::text::Text;
use std::alloc::{AllocError, Global};
use std::mem;
use std::sync::Arc;
use values::value::Value;

/// A vat's state.
#[derive(Drop)]
pub enum Home {
    /// No ticket has it.
    Own(VatState),
    /// A ticket has it, or had it.
    Shared(Arc<VatState>),
}

/// Takes the state out where nobody else has it, and else copies it.
fn take_or_copy(alloc: Global, shared: &mut Arc<VatState>) -> Result<VatState, AllocError>
    ensures ok { IfOk result (λ s. (c : Cell) → seen_in s c ≡ seen_in (arc_value shared.old) c) }
    ensures err { OnErr result ((c : Cell) → seen_in (arc_value shared.new) c ≡ seen_in (arc_value shared.old) c) }
{
    match Arc::get_mut(shared) {
        Some(own) => Ok(mem::replace(own, VatState::new(alloc))),
        None => (**shared).clone(),
    }
}

/// Shares a state that was nobody's but the vat's. Without memory it comes back.
fn share_own(alloc: Global, own: VatState) -> Result<Arc<VatState>, VatState>
    ensures ok { IfOk result (λ s. arc_value s ≡ own) }
    ensures err { IfErr result (λ s. s ≡ own) }
{
    match Arc::new(alloc, own) {
        Ok(shared) => Ok(shared),
        Err(failed) => Err(failed.value),
    }
}

impl Home {
    /// The state.
    pub(crate) fn state(&self) -> &VatState
        ensures { result.now ≡ state_in self.now }
    {
        match self {
            Home::Own(own) => own,
            Home::Shared(shared) => shared.as_ref(),
        }
    }

    /// Makes the state the vat's own. What it holds stays. Fails only for want of memory.
    fn make_own(&mut self, alloc: Global) -> Result<(), AllocError>
        ensures ok { OnOk result (is_own self.new ≡ true) }
        ensures seen { (c : Cell) → seen_in (state_in self.new) c ≡ seen_in (state_in self.old) c }
        ensures ready { (c : Cell) → is_ready_in self.old c ≡ true → is_ready_in self.new c ≡ true }
    {
        if let Home::Shared(shared) = self {
            let own = take_or_copy(alloc, shared)?;
            *self = Home::Own(own);
        }
        Ok(())
    }

    /// Makes the state one that can be shared. What it holds stays. Fails only for want of memory.
    fn make_shared(&mut self, alloc: Global) -> Result<(), AllocError>
        ensures ok { OnOk result (is_own self.new ≡ false) }
        ensures seen { state_in self.new ≡ state_in self.old }
    {
        if let Home::Own(own) = self {
            let whole = mem::replace(own, VatState::new(alloc));
            match share_own(alloc, whole) {
                Ok(shared) => *self = Home::Shared(shared),
                Err(whole) => {
                    *self = Home::Own(whole);
                    return Err(AllocError);
                }
            }
        }
        Ok(())
    }

    /// The state, shared: from then on it is not the vat's own. What it holds stays. Fails only for want of memory.
    pub(crate) fn share(&mut self, alloc: Global) -> Result<Arc<VatState>, AllocError>
        ensures shared { IfOk result (λ s. arc_value s ≡ state_in self.old) }
        ensures seen { state_in self.new ≡ state_in self.old }
    {
        self.make_shared(alloc)?;
        match self {
            Home::Own(_) => unreachable!(),
            Home::Shared(shared) => Arc::try_clone(shared),
        }
    }

    /// Makes the state the vat's own, with room for a top noun. What it holds stays. Fails only for want of memory.
    pub(crate) fn make_room_for_top(&mut self, alloc: Global, name: Text) -> Result<(), AllocError>
        ensures ok { OnOk result (is_ready_in self.new (top name) ≡ true) }
        ensures seen { (c : Cell) → seen_in (state_in self.new) c ≡ seen_in (state_in self.old) c }
        ensures ready { (c : Cell) → is_ready_in self.old c ≡ true → is_ready_in self.new c ≡ true }
    {
        self.make_own(alloc)?;
        match self {
            Home::Own(own) => own.tops.make_room(name),
            Home::Shared(_) => unreachable!(),
        }
    }

    /// Makes the state the vat's own, with room for a view. What it holds stays. Fails only for want of memory.
    pub(crate) fn make_room_for_view(
        &mut self,
        alloc: Global,
        promise: PromId,
    ) -> Result<(), AllocError>
        ensures ok { OnOk result (is_ready_in self.new (view_cell promise) ≡ true) }
        ensures seen { (c : Cell) → seen_in (state_in self.new) c ≡ seen_in (state_in self.old) c }
        ensures ready { (c : Cell) → is_ready_in self.old c ≡ true → is_ready_in self.new c ≡ true }
    {
        self.make_own(alloc)?;
        match self {
            Home::Own(own) => own.views.make_room(promise),
            Home::Shared(_) => unreachable!(),
        }
    }

    /// Makes the state the vat's own, with room for a fence. What it holds stays. Fails only for want of memory.
    pub(crate) fn make_room_for_fence(
        &mut self,
        alloc: Global,
        reference: Reference,
    ) -> Result<(), AllocError>
        ensures ok { OnOk result (is_ready_in self.new (fence_cell reference) ≡ true) }
        ensures seen { (c : Cell) → seen_in (state_in self.new) c ≡ seen_in (state_in self.old) c }
        ensures ready { (c : Cell) → is_ready_in self.old c ≡ true → is_ready_in self.new c ≡ true }
    {
        self.make_own(alloc)?;
        match self {
            Home::Own(own) => own.fences.make_room(reference),
            Home::Shared(_) => unreachable!(),
        }
    }

    /// Makes the state the vat's own, with room for a slot. What it holds stays. Fails only for want of memory.
    pub(crate) fn make_room_for_slot(
        &mut self,
        alloc: Global,
        slot: SlotId,
    ) -> Result<(), AllocError>
        ensures ok { OnOk result (is_ready_in self.new (slot_cell slot) ≡ true) }
        ensures seen { (c : Cell) → seen_in (state_in self.new) c ≡ seen_in (state_in self.old) c }
        ensures ready { (c : Cell) → is_ready_in self.old c ≡ true → is_ready_in self.new c ≡ true }
    {
        self.make_own(alloc)?;
        match self {
            Home::Own(own) => own.slots.make_room(slot),
            Home::Shared(_) => unreachable!(),
        }
    }

    /// Makes the state the vat's own, with room for an object. What it holds stays. Fails only for want of memory.
    pub(crate) fn make_room_for_object(
        &mut self,
        alloc: Global,
        object: ObjId,
    ) -> Result<(), AllocError>
        ensures ok { OnOk result (is_ready_in self.new (object_cell object) ≡ true) }
        ensures seen { (c : Cell) → seen_in (state_in self.new) c ≡ seen_in (state_in self.old) c }
        ensures ready { (c : Cell) → is_ready_in self.old c ≡ true → is_ready_in self.new c ≡ true }
    {
        self.make_own(alloc)?;
        match self {
            Home::Own(own) => own.objects.make_room(object),
            Home::Shared(_) => unreachable!(),
        }
    }

    /// Exchanges the record of a top noun with its cell. It takes no memory.
    pub(crate) fn swap_top(&mut self, kept: &mut Record<Text, Binding>, swaps: &mut Swaps)
        requires { is_ready_in self.old (top kept.old.key) ≡ true }
        ensures seen { (c : Cell) → seen_in (state_in self.new) c ≡ cond (same_cell (top kept.old.key) c) (told (λ b. bound (bind_of b)) (kept.old.content, kept.old.writer)) (seen_in (state_in self.old) c) }
        ensures ready { (c : Cell) → is_ready_in self.new c ≡ is_ready_in self.old c }
        ensures key { kept.new.key ≡ kept.old.key }
        ensures exchanged { told (λ b. bound (bind_of b)) (kept.new.content, kept.new.writer) ≡ seen_in (state_in self.old) (top kept.old.key) }
        ensures counted { swaps.new ≡ (swaps.old + 1) % 2 ^ 64 }
    {
        match self {
            Home::Own(own) => own.tops.swap_record(kept, swaps),
            Home::Shared(_) => unreachable!(),
        }
    }

    /// Exchanges the record of a view with its cell. It takes no memory.
    pub(crate) fn swap_view(&mut self, kept: &mut Record<PromId, View>, swaps: &mut Swaps)
        requires { is_ready_in self.old (view_cell kept.old.key) ≡ true }
        ensures seen { (c : Cell) → seen_in (state_in self.new) c ≡ cond (same_cell (view_cell kept.old.key) c) (told (λ k. viewed (view_of k)) (kept.old.content, kept.old.writer)) (seen_in (state_in self.old) c) }
        ensures ready { (c : Cell) → is_ready_in self.new c ≡ is_ready_in self.old c }
        ensures key { kept.new.key ≡ kept.old.key }
        ensures exchanged { told (λ k. viewed (view_of k)) (kept.new.content, kept.new.writer) ≡ seen_in (state_in self.old) (view_cell kept.old.key) }
        ensures counted { swaps.new ≡ (swaps.old + 1) % 2 ^ 64 }
    {
        match self {
            Home::Own(own) => own.views.swap_record(kept, swaps),
            Home::Shared(_) => unreachable!(),
        }
    }

    /// Exchanges the record of a fence with its cell. It takes no memory.
    pub(crate) fn swap_fence(&mut self, kept: &mut Record<Reference, Fence>, swaps: &mut Swaps)
        requires { is_ready_in self.old (fence_cell kept.old.key) ≡ true }
        ensures seen { (c : Cell) → seen_in (state_in self.new) c ≡ cond (same_cell (fence_cell kept.old.key) c) (told fenced (kept.old.content, kept.old.writer)) (seen_in (state_in self.old) c) }
        ensures ready { (c : Cell) → is_ready_in self.new c ≡ is_ready_in self.old c }
        ensures key { kept.new.key ≡ kept.old.key }
        ensures exchanged { told fenced (kept.new.content, kept.new.writer) ≡ seen_in (state_in self.old) (fence_cell kept.old.key) }
        ensures counted { swaps.new ≡ (swaps.old + 1) % 2 ^ 64 }
    {
        match self {
            Home::Own(own) => own.fences.swap_record(kept, swaps),
            Home::Shared(_) => unreachable!(),
        }
    }

    /// Exchanges the record of a slot with its cell. It takes no memory.
    pub(crate) fn swap_slot(&mut self, kept: &mut Record<SlotId, Value>, swaps: &mut Swaps)
        requires { is_ready_in self.old (slot_cell kept.old.key) ≡ true }
        ensures seen { (c : Cell) → seen_in (state_in self.new) c ≡ cond (same_cell (slot_cell kept.old.key) c) (told (λ v. held (val_of v)) (kept.old.content, kept.old.writer)) (seen_in (state_in self.old) c) }
        ensures ready { (c : Cell) → is_ready_in self.new c ≡ is_ready_in self.old c }
        ensures key { kept.new.key ≡ kept.old.key }
        ensures exchanged { told (λ v. held (val_of v)) (kept.new.content, kept.new.writer) ≡ seen_in (state_in self.old) (slot_cell kept.old.key) }
        ensures counted { swaps.new ≡ (swaps.old + 1) % 2 ^ 64 }
    {
        match self {
            Home::Own(own) => own.slots.swap_record(kept, swaps),
            Home::Shared(_) => unreachable!(),
        }
    }

    /// Exchanges the record of an object with its cell. It takes no memory.
    pub(crate) fn swap_object(&mut self, kept: &mut Record<ObjId, Made>, swaps: &mut Swaps)
        requires { is_ready_in self.old (object_cell kept.old.key) ≡ true }
        ensures seen { (c : Cell) → seen_in (state_in self.new) c ≡ cond (same_cell (object_cell kept.old.key) c) (told (λ m. made (object_of m)) (kept.old.content, kept.old.writer)) (seen_in (state_in self.old) c) }
        ensures ready { (c : Cell) → is_ready_in self.new c ≡ is_ready_in self.old c }
        ensures key { kept.new.key ≡ kept.old.key }
        ensures exchanged { told (λ m. made (object_of m)) (kept.new.content, kept.new.writer) ≡ seen_in (state_in self.old) (object_cell kept.old.key) }
        ensures counted { swaps.new ≡ (swaps.old + 1) % 2 ^ 64 }
    {
        match self {
            Home::Own(own) => own.objects.swap_record(kept, swaps),
            Home::Shared(_) => unreachable!(),
        }
    }
}
