// Whether a state holds what a turn found in it.
ghost use Rattle.std.specs.Prelude.{◌≡◌, ◌↔◌, IsTrue};
ghost use Rattle.std.specs.Option.{option_map, option_copied};
ghost use Rattle.heap.specs.Found.{Found};
ghost use Rattle.heap.specs.State.{Content, bound, held, made, viewed, fenced};
ghost use Rattle.heap.specs.View.{bind_of, object_of, view_of, state_of};
ghost use Rattle.values.specs.View.{val_of};
ghost use Rattle.event.specs.Finds.{FoundIn, KindsFound};

use cells::store::CellStore;
use cells::touches::Touches;
use eorder::fence::Fence;
use heap::made::Made;
use heap::reach::Footprint;
use heap::sameness::{same_binding, same_made, same_view};
use heap::state::{Binding, VatState, View};
use ids::cells::Key;
use values::sameness::same;
use values::value::Value;

/// What stands for what a cell holds.
trait StandsFor {
    ghost content: { Self → Content };

    /// Whether the other one stands for the same.
    fn is_same(&self, other: &Self) -> bool
        ensures { IsTrue result ↔ (content self.now ≡ content other.now) };
}

impl StandsFor for Binding {
    ghost content = { λ b. bound (bind_of b) };

    fn is_same(&self, other: &Binding) -> bool {
        same_binding(self, other)
    }
}

impl StandsFor for Value {
    ghost content = { λ v. held (val_of v) };

    fn is_same(&self, other: &Value) -> bool {
        same(self, other)
    }
}

impl StandsFor for View {
    ghost content = { λ k. viewed (view_of k) };

    fn is_same(&self, other: &View) -> bool {
        same_view(self, other)
    }
}

impl StandsFor for Fence {
    ghost content = { fenced };

    fn is_same(&self, other: &Fence) -> bool {
        Fence::is_same(self, other)
    }
}

impl StandsFor for Made {
    ghost content = { λ m. made (object_of m) };

    fn is_same(&self, other: &Made) -> bool {
        same_made(self, other)
    }
}

/// Whether two cells hold the same, or both nothing.
fn both_hold<V: StandsFor>(first: Option<&V>, second: Option<&V>) -> bool
    ensures { IsTrue result ↔ (option_map V.content (option_copied first.entry) ≡ option_map V.content (option_copied second.entry)) }
{
    match (first, second) {
        (Some(first), Some(second)) => first.is_same(second),
        (None, None) => true,
        _ => false,
    }
}

/// Whether cells of one kind hold what was found in each of them that was touched.
fn hold_found<K: Key + Drop, V: StandsFor + Drop>(
    cells: &CellStore<K, V>,
    touches: &Touches<K, V>,
) -> bool
    ensures { IsTrue result ↔ FoundIn K.eq V.content touches.now cells.now }
{
    for place in 0..touches.len() {
        let (key, touch) = touches.at(place);
        if !both_hold(touch.found.as_ref(), cells.get(key)) {
            return false;
        }
    }
    true
}

/// Whether the cells of each kind hold what a turn found in those that it touched.
fn hold_kinds(footprint: &Footprint, state: &VatState) -> bool
    ensures { IsTrue result ↔ KindsFound footprint.now state.now }
{
    if !hold_found(&state.tops, &footprint.tops) {
        return false;
    }
    if !hold_found(&state.slots, &footprint.slots) {
        return false;
    }
    if !hold_found(&state.objects, &footprint.objects) {
        return false;
    }
    if !hold_found(&state.views, &footprint.views) {
        return false;
    }
    hold_found(&state.fences, &footprint.fences)
}

/// Whether a state holds what a turn found in each cell that it touched.
pub fn is_found(footprint: &Footprint, state: &VatState) -> bool
    ensures { IsTrue result ↔ Found footprint.now (state_of state.now) }
{
    hold_kinds(footprint, state)
}
