// The state of a vat.
ghost use Rattle.std.specs.Prelude.{◌≡◌, None, IfOk};
ghost use Rattle.std.specs.Option.{option_map};
ghost use Rattle.kernele.specs.Tree.{Name};
ghost use Rattle.ids.specs.declared.names.SlotId.{SlotId};
ghost use Rattle.ids.specs.declared.names.ObjId.{ObjId};
ghost use Rattle.ids.specs.declared.names.PromId.{PromId};
ghost use Rattle.ids.specs.declared.reference.Reference.{Reference};
ghost use Rattle.heap.specs.State.{top, slot_cell, object_cell, view_cell, fence_cell, bound, held, made, viewed, fenced, nothing, read, Cell};
ghost use Rattle.heap.specs.View.{bind_of, plain_of, object_of, view_of, tops_of, slots_of, objects_of, views_of, fences_of, state_of, seen_in};
ghost use Rattle.values.specs.View.{val_of};

use crate::made::{Made, Plain};
use cells::store::CellStore;
use code::index::share_index;
use eorder::fence::Fence;
use ids::names::{ObjId, PromId, SlotId};
use ids::reference::Reference;
use ids::text::Text;
use std::alloc::{AllocError, Global};
use std::collections::BTreeMap;
use std::sync::Arc;
use values::value::Value;

/// What a name stands for: a value that never changes, or a variable's slot.
#[derive(Drop)]
pub enum Binding {
    Fixed(Value),
    Slot(SlotId),
}

impl Binding {
    /// The same meaning, whose value is shared. Fails only for want of memory.
    pub fn share(&self) -> Result<Binding, AllocError>
        ensures { IfOk result (λ b. bind_of b ≡ bind_of self.now) }
    {
        match self {
            Binding::Fixed(value) => Ok(Binding::Fixed(value.share()?)),
            Binding::Slot(slot) => Ok(Binding::Slot(*slot)),
        }
    }
}

impl Clone for Binding {
    ghost is_clone = { λ a b. bind_of b ≡ bind_of a };

    fn clone(&self) -> Result<Binding, AllocError> {
        self.share()
    }
}

/// A name of a scope, and what it stands for.
#[derive(Drop)]
pub struct Noun {
    pub name: Text,
    pub binding: Binding,
}

impl Plain {
    /// The same object, whose names, methods and index are shared. Fails only for want of memory.
    pub fn share(&self) -> Result<Plain, AllocError>
        ensures { IfOk result (λ m. plain_of m ≡ plain_of self.now) }
    {
        Ok(Plain {
            own: self.own.share()?,
            captured: Arc::try_clone(&self.captured)?,
            methods: Arc::try_clone(&self.methods)?,
            index: share_index(&self.index)?,
        })
    }
}

impl Made {
    /// The same object, shared. Fails only for want of memory.
    pub fn share(&self) -> Result<Made, AllocError>
        ensures { IfOk result (λ m. object_of m ≡ object_of self.now) }
    {
        match self {
            Made::Plain(plain) => Ok(Made::Plain(plain.share()?)),
            Made::Resolver(promise) => Ok(Made::Resolver(*promise)),
        }
    }
}

impl Clone for Made {
    ghost is_clone = { λ a b. object_of b ≡ object_of a };

    fn clone(&self) -> Result<Made, AllocError> {
        self.share()
    }
}

/// What a vat knows of a promise that has come into it: nothing yet, or the value that it is resolved to.
#[derive(Drop)]
pub enum View {
    Open,
    Resolved(Value),
}

impl View {
    /// The same knowledge, whose value is shared. Fails only for want of memory.
    pub fn share(&self) -> Result<View, AllocError>
        ensures { IfOk result (λ k. view_of k ≡ view_of self.now) }
    {
        match self {
            View::Open => Ok(View::Open),
            View::Resolved(value) => Ok(View::Resolved(value.share()?)),
        }
    }
}

impl Clone for View {
    ghost is_clone = { λ a b. view_of b ≡ view_of a };

    fn clone(&self) -> Result<View, AllocError> {
        self.share()
    }
}

/// What a state holds, in order.
#[derive(Drop)]
pub struct Contents {
    /// The top nouns with what they stand for, in order of bytes.
    pub nouns: BTreeMap<Text, Binding>,
    /// The slots with what they hold, in order of their names.
    pub slots: BTreeMap<SlotId, Value>,
    /// The objects with what they are, in order of their names.
    pub objects: BTreeMap<ObjId, Made>,
    /// What is known of promises, in order of their names.
    pub views: BTreeMap<PromId, View>,
    /// The messages behind references, in order of these.
    pub fences: BTreeMap<Reference, Fence>,
}

/// A vat's state: what its top nouns stand for, what its variables' slots hold, what its objects are, what it knows of
/// promises, and the messages that it keeps behind references, each with the event that wrote it last.
pub struct VatState {
    pub tops: CellStore<Text, Binding>,
    pub slots: CellStore<SlotId, Value>,
    pub objects: CellStore<ObjId, Made>,
    pub views: CellStore<PromId, View>,
    pub fences: CellStore<Reference, Fence>,
}

// By hand, so that what drops one elsewhere calls this and is not proved anew for all that it holds.
impl Drop for VatState {
    fn drop(self) {
        let VatState {
            tops: _,
            slots: _,
            objects: _,
            views: _,
            fences: _,
        } = self;
    }
}

impl Clone for VatState {
    ghost use Rattle.std.specs.Prelude.{◌≡◌};
    ghost use Rattle.heap.specs.State.{Cell};
    ghost use Rattle.heap.specs.View.{seen_in};

    ghost is_clone = { λ s t. (c : Cell) → seen_in t c ≡ seen_in s c };

    fn clone(&self) -> Result<VatState, AllocError> {
        Ok(VatState {
            tops: self.tops.clone()?,
            slots: self.slots.clone()?,
            objects: self.objects.clone()?,
            views: self.views.clone()?,
            fences: self.fences.clone()?,
        })
    }
}

impl VatState {
    /// The state of a new vat.
    pub fn new(alloc: Global) -> VatState
        ensures seen { (c : Cell) → seen_in result c ≡ (None, None) }
        ensures state { state_of result ≡ nothing }
    {
        VatState {
            tops: CellStore::new(alloc),
            slots: CellStore::new(alloc),
            objects: CellStore::new(alloc),
            views: CellStore::new(alloc),
            fences: CellStore::new(alloc),
        }
    }

    /// What a top noun stands for.
    pub(crate) fn top(&self, name: &Text) -> Option<&Binding>
        ensures { option_map (λ b. bound (bind_of b.now)) result
            ≡ read (state_of self.now) (top name.now) }
    {
        self.tops.get(name)
    }

    /// What a slot holds.
    pub(crate) fn slot(&self, slot: SlotId) -> Option<&Value>
        ensures { option_map (λ v. held (val_of v.now)) result
            ≡ read (state_of self.now) (slot_cell slot) }
    {
        self.slots.get(&slot)
    }

    /// What an object is.
    pub(crate) fn object(&self, object: ObjId) -> Option<&Made>
        ensures { option_map (λ m. made (object_of m.now)) result
            ≡ read (state_of self.now) (object_cell object) }
    {
        self.objects.get(&object)
    }

    /// What is known of a promise.
    pub(crate) fn view(&self, promise: PromId) -> Option<&View>
        ensures { option_map (λ k. viewed (view_of k.now)) result
            ≡ read (state_of self.now) (view_cell promise) }
    {
        self.views.get(&promise)
    }

    /// The messages behind a reference.
    pub(crate) fn fence(&self, reference: Reference) -> Option<&Fence>
        ensures { option_map (λ f. fenced f.now) result
            ≡ read (state_of self.now) (fence_cell reference) }
    {
        self.fences.get(&reference)
    }

    /// What a top noun stands for, shared. Fails only for want of memory.
    pub(crate) fn found_top(&self, name: &Text) -> Result<Option<Binding>, AllocError>
        ensures { IfOk result (λ b. option_map (λ b. bound (bind_of b)) b ≡ state_of self.now (top name.now)) }
    {
        match self.top(name) {
            Some(binding) => Ok(Some(binding.share()?)),
            None => Ok(None),
        }
    }

    /// What a slot holds, shared. Fails only for want of memory.
    pub(crate) fn found_slot(&self, slot: SlotId) -> Result<Option<Value>, AllocError>
        ensures { IfOk result (λ v. option_map (λ v. held (val_of v)) v ≡ state_of self.now (slot_cell slot)) }
    {
        match self.slot(slot) {
            Some(value) => Ok(Some(value.share()?)),
            None => Ok(None),
        }
    }

    /// What an object is, shared. Fails only for want of memory.
    pub(crate) fn found_object(&self, object: ObjId) -> Result<Option<Made>, AllocError>
        ensures { IfOk result (λ m. option_map (λ m. made (object_of m)) m ≡ state_of self.now (object_cell object)) }
    {
        match self.object(object) {
            Some(made) => Ok(Some(made.share()?)),
            None => Ok(None),
        }
    }

    /// What is known of a promise, shared. Fails only for want of memory.
    pub(crate) fn found_view(&self, promise: PromId) -> Result<Option<View>, AllocError>
        ensures { IfOk result (λ k. option_map (λ k. viewed (view_of k)) k ≡ state_of self.now (view_cell promise)) }
    {
        match self.view(promise) {
            Some(view) => Ok(Some(view.share()?)),
            None => Ok(None),
        }
    }

    /// The messages behind a reference, copied. Fails only for want of memory.
    pub(crate) fn found_fence(&self, reference: Reference) -> Result<Option<Fence>, AllocError>
        ensures { IfOk result (λ f. option_map fenced f ≡ state_of self.now (fence_cell reference)) }
    {
        match self.fence(reference) {
            Some(fence) => Ok(Some(fence.share()?)),
            None => Ok(None),
        }
    }

    /// All that it holds, shared, in order. Fails only for want of memory.
    pub fn contents(&self, alloc: Global) -> Result<Contents, AllocError>
        ensures nouns { IfOk result (λ all. (x : Name) → tops_of all.nouns x ≡ read (state_of self.now) (top x)) }
        ensures slots { IfOk result (λ all. (i : SlotId) → slots_of all.slots i ≡ read (state_of self.now) (slot_cell i)) }
        ensures objects { IfOk result (λ all. (i : ObjId) → objects_of all.objects i ≡ read (state_of self.now) (object_cell i)) }
        ensures views { IfOk result (λ all. (p : PromId) → views_of all.views p ≡ read (state_of self.now) (view_cell p)) }
        ensures fences { IfOk result (λ all. (r : Reference) → fences_of all.fences r ≡ read (state_of self.now) (fence_cell r)) }
    {
        Ok(Contents {
            nouns: self.tops.in_order(alloc)?,
            slots: self.slots.in_order(alloc)?,
            objects: self.objects.in_order(alloc)?,
            views: self.views.in_order(alloc)?,
            fences: self.fences.in_order(alloc)?,
        })
    }
}
