// Fences that travel with references.
ghost use Rattle.std.specs.Prelude.{◌≡◌, ◌<◌, [], ◌↔◌, Some, IsTrue, OnOk, OnErr, length, slice_get};
ghost use Rattle.std.specs.Option.{option_copied};
ghost use Rattle.eorder.specs.Carried.{fence_with, carries, with_fence, EachOnce};

use crate::fence::Fence;
use ids::reference::Reference;
use indexmap::IndexMap;
use std::alloc::{AllocError, Global};
use std::marker::Model;

/// References, each once, with the fence that it left with; an empty one does not travel. Clauses see them in the order in which
/// they were added.
pub struct Carried {
    fences: IndexMap<Reference, Fence>,
}

// By hand, so that what drops one elsewhere calls this and is not proved anew for all that it holds.
impl Drop for Carried {
    fn drop(self) {
        let Carried { fences: _ } = self;
    }
}

impl Model for Carried {
    ghost use Rattle.eorder.specs.Carried.{Carried, EachOnce};

    ghost Value = { Carried };

    ghost view = { λ c. c.fences.entries };

    ghost invariant = { λ c. EachOnce c.fences.entries };
}

impl Carried {
    /// No fences. It takes no memory.
    pub fn empty(alloc: Global) -> Carried
        ensures { result ≡ [] }
    {
        Carried {
            fences: IndexMap::new(alloc),
        }
    }

    /// Whether no reference is carried with a fence.
    pub fn is_empty(&self) -> bool
        ensures { IsTrue result ↔ (self.now ≡ []) }
    {
        self.fences.is_empty()
    }

    /// How many references a fence travels with.
    pub fn len(&self) -> usize
        ensures count { result ≡ length self.now }
        ensures each_once { EachOnce self.now }
    {
        self.fences.len()
    }

    /// The reference at a place in the order of adding, with its fence.
    pub fn at(&self, place: usize) -> (Reference, &Fence)
        requires { place < length self.now }
        ensures { slice_get self.now place ≡ Some (result.0, result.1.now) }
    {
        match self.fences.get_index(place) {
            Some((reference, fence)) => (*reference, fence),
            None => unreachable!(),
        }
    }

    /// The fence that travels with a reference, if one does: a look-up.
    pub fn fence(&self, reference: Reference) -> Option<&Fence>
        ensures { option_copied result ≡ fence_with self.now reference }
    {
        self.fences.get(&reference)
    }

    /// Whether a fence travels with a reference.
    pub fn carries(&self, reference: Reference) -> bool
        ensures { result ≡ carries self.now reference }
    {
        self.fences.contains_key(&reference)
    }

    /// Adds a reference with its fence, unless it is there or the fence is empty. Fails only for want of memory.
    pub fn add(&mut self, reference: Reference, fence: Fence) -> Result<(), AllocError>
        ensures ok { OnOk result (self.new ≡ with_fence self.old reference fence) }
        ensures err { OnErr result (self.new ≡ self.old) }
    {
        if fence.is_empty() || self.carries(reference) {
            return Ok(());
        }
        self.fences.insert(reference, fence)?;
        Ok(())
    }

    /// Whether both have the same fences for the same references, in the same order.
    pub fn is_same(&self, other: &Carried) -> bool
        ensures { IsTrue result ↔ (self.now ≡ other.now) }
    {
        if self.len() != other.len() {
            return false;
        }
        for place in 0..self.len() {
            if !self.is_same_at(other, place) {
                return false;
            }
        }
        true
    }

    fn is_same_at(&self, other: &Carried, place: usize) -> bool
        requires here { place < length self.now }
        requires there { place < length other.now }
        ensures { IsTrue result ↔ (slice_get self.now place ≡ slice_get other.now place) }
    {
        let (reference, fence) = self.at(place);
        let (other_reference, other_fence) = other.at(place);
        reference == other_reference && fence.is_same(other_fence)
    }
}
