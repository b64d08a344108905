// Values, shared and never changed.
ghost use Rattle.std.specs.Prelude.{◌≡◌, ◌≤◌, ◌+◌, is_some, IfOk, IfSome, OnOk};
ghost use Rattle.std.specs.Option.{option_map};
ghost use Rattle.values.specs.Data.{and_val, list, no_vals};
ghost use Rattle.values.specs.Limits.{deepest, list_depth, weight, weights, within_limits};
ghost use Rattle.values.specs.Promises.{promise_of, promises_in};
ghost use Rattle.values.specs.Replies.{int_in, items_in, joined};
ghost use Rattle.values.specs.View.{val_of, vals_of};

use crate::limits::{
    MOST_ITEMS_DEPTH, MOST_ITEMS_WEIGHT, deepest_of, item_depth, item_weight, items_left,
};
use crate::lists::append;
use crate::promises::{has_promise, have_promises};
use ids::names::{EjId, ObjId, PromId};
use ids::text::Text;
use std::alloc::{AllocError, Global};
use std::marker::Model;
use std::sync::Arc;

/// The items of a list that is not too large, with what they weigh, how deep lists stand in them, and whether a promise
/// does. Clauses see the items.
#[cycle(value)]
#[derive(Drop)]
pub struct Items {
    row: Vec<Value>,
    weight: u32,
    depth: u32,
    promised: bool,
}

/// A value.
#[cycle(value)]
#[derive(Drop)]
pub enum Value {
    Null,
    Bool(bool),
    Int(i64),
    Text(Text),
    List(Arc<Items>),
    Object(ObjId),
    Ejector(EjId),
    Promise(PromId),
    /// A broken reference, with its problem.
    Broken(Text),
}

/// What a verb of data leads to.
#[derive(Drop)]
pub enum Answer {
    Gives(Value),
    /// A problem that is thrown.
    Throws(Text),
}

impl Model for Items {
    ghost use Rattle.values.specs.Data.{Vals};
    ghost use Rattle.values.specs.Coding.{coded_vals};

    ghost Value = { Vals };

    ghost coded = { coded_vals };

    ghost use Rattle.values.specs.Limits.{weights};
    ghost use Rattle.values.specs.View.{vals_of};
    ghost use Rattle.values.specs.Items.{IsMeasured};

    ghost view = { λ a. vals_of a.row.items };

    ghost invariant = { λ a. IsMeasured a.weight a.depth a.promised (vals_of a.row.items) };

    ghost size = { weights };

    ghost use Rattle.std.proofs.Common.{arith};
    ghost use Rattle.values.specs.ItemsFall.{most_le-weights};

    ghost size_decreases = { λ a h. Prim.omega (arith, most_le-weights a.row.items) };
}

impl Items {
    /// Items, where a list of them is not too large.
    pub(crate) fn new(row: Vec<Value>) -> Option<Items>
        ensures fits { is_some result ≡ within_limits (list (vals_of row.items)) }
        ensures items { IfSome result (λ i. i ≡ vals_of row.items) }
    {
        let left = items_left(row.as_slice(), MOST_ITEMS_DEPTH, MOST_ITEMS_WEIGHT)?;
        let depth = deepest_of(row.as_slice());
        let promised = have_promises(row.as_slice());
        Some(Items {
            row,
            weight: MOST_ITEMS_WEIGHT - left,
            depth,
            promised,
        })
    }

    /// The items.
    #[inline(always)]
    pub fn as_slice(&self) -> &[Value]
        ensures { vals_of result.now ≡ self.now }
    {
        self.row.as_slice()
    }

    /// The allocator of the items.
    pub(crate) fn allocator(&self) -> Result<Global, AllocError> {
        self.row.allocator().clone()
    }

    /// What the items weigh.
    #[inline(always)]
    pub(crate) fn weight(&self) -> u32
        ensures weight { result ≡ weights self.now }
        ensures fits { (weights self.now ≤ MOST_ITEMS_WEIGHT) × (deepest self.now ≤ MOST_ITEMS_DEPTH) }
    {
        self.weight
    }

    /// How deep lists stand in the items.
    #[inline(always)]
    pub(crate) fn depth(&self) -> u32
        ensures depth { result ≡ deepest self.now }
        ensures shallow { result ≤ MOST_ITEMS_DEPTH }
    {
        self.depth
    }

    /// Whether a promise stands in the items.
    #[inline(always)]
    pub(crate) fn promised(&self) -> bool
        ensures { result ≡ promises_in self.now }
    {
        self.promised
    }

    /// Adds an item at the end.
    pub(crate) fn push(&mut self, item: Value) -> Result<(), AllocError>
        requires light { weights self.old + weight (val_of item) ≤ MOST_ITEMS_WEIGHT }
        requires shallow { list_depth (val_of item) ≤ MOST_ITEMS_DEPTH }
        ensures { OnOk result (self.new ≡ joined self.old (and_val (val_of item) no_vals)) }
    {
        let weight = self.weight + item_weight(&item);
        let depth = self.depth.max(item_depth(&item));
        let promised = self.promised || has_promise(&item);
        self.row.push(item)?;
        self.weight = weight;
        self.depth = depth;
        self.promised = promised;
        Ok(())
    }

    /// Adds the same items, shared, at the end.
    pub(crate) fn extend(&mut self, items: &[Value]) -> Result<(), AllocError>
        requires light { weights self.old + weights (vals_of items.now) ≤ MOST_ITEMS_WEIGHT }
        requires shallow { deepest (vals_of items.now) ≤ MOST_ITEMS_DEPTH }
        ensures { OnOk result (self.new ≡ joined self.old (vals_of items.now)) }
    {
        for item in items {
            self.push(item.share()?)?;
        }
        Ok(())
    }

    /// The same items, shared, with room for more.
    pub(crate) fn copy(&self, more: usize) -> Result<Items, AllocError>
        ensures { IfOk result (λ i. i ≡ self.now) }
    {
        let alloc = self.row.allocator().clone()?;
        let mut row = Vec::with_capacity(alloc, self.row.len().saturating_add(more))?;
        append(&mut row, self.row.as_slice())?;
        Ok(Items {
            row,
            weight: self.weight,
            depth: self.depth,
            promised: self.promised,
        })
    }
}

impl Value {
    /// The same value, shared.
    #[inline]
    pub fn share(&self) -> Result<Value, AllocError>
        ensures { IfOk result (λ v. val_of v ≡ val_of self.now) }
    {
        match self {
            Value::Null => Ok(Value::Null),
            Value::Bool(b) => Ok(Value::Bool(*b)),
            Value::Int(n) => Ok(Value::Int(*n)),
            Value::Text(s) => Ok(Value::Text(s.share()?)),
            Value::List(items) => Ok(Value::List(Arc::try_clone(items)?)),
            Value::Object(object) => Ok(Value::Object(*object)),
            Value::Ejector(ejector) => Ok(Value::Ejector(*ejector)),
            Value::Promise(promise) => Ok(Value::Promise(*promise)),
            Value::Broken(problem) => Ok(Value::Broken(problem.share()?)),
        }
    }

    /// The integer that it is.
    pub(crate) fn as_int(&self) -> Option<i64>
        ensures { result ≡ int_in (val_of self.now) }
    {
        match self {
            Value::Int(integer) => Some(*integer),
            Value::Null
            | Value::Bool(_)
            | Value::Text(_)
            | Value::List(_)
            | Value::Object(_)
            | Value::Ejector(_)
            | Value::Promise(_)
            | Value::Broken(_) => { None }
        }
    }

    /// The items of the list that it is.
    pub fn as_items(&self) -> Option<&[Value]>
        ensures { option_map (λ s. vals_of s.now) result ≡ items_in (val_of self.now) }
    {
        match self {
            Value::List(items) => Some(items.as_slice()),
            Value::Null
            | Value::Bool(_)
            | Value::Int(_)
            | Value::Text(_)
            | Value::Object(_)
            | Value::Ejector(_)
            | Value::Promise(_)
            | Value::Broken(_) => { None }
        }
    }

    /// The promise that it is.
    pub fn as_promise(&self) -> Option<PromId>
        ensures { result ≡ promise_of (val_of self.now) }
    {
        match self {
            Value::Promise(promise) => Some(*promise),
            Value::Null
            | Value::Bool(_)
            | Value::Int(_)
            | Value::Text(_)
            | Value::List(_)
            | Value::Object(_)
            | Value::Ejector(_)
            | Value::Broken(_) => { None }
        }
    }
}

impl Clone for Value {
    ghost is_clone = { λ v w. val_of w ≡ val_of v };

    fn clone(&self) -> Result<Value, AllocError> {
        self.share()
    }
}
