// What holds of two exchanges.
ghost use Rattle.std.specs.Prelude.{◌≡◌, true};
ghost use Rattle.cells.specs.Seen.{seen, has_room};
ghost use Rattle.cells.specs.Doing.{OneAfterAnother, CellsOnlyGrow, GoesAlike};

use crate::store::{CellStore, Record};
use crate::swaps::Swaps;
use ids::cells::Key;

/// A record that is exchanged twice leaves the cells and itself as they were.
pub fn swap_twice<K: Key + Drop, V: Drop>(
    store: &mut CellStore<K, V>,
    kept: &mut Record<K, V>,
    swaps: &mut Swaps,
)
    requires { has_room K.eq store.old kept.old.key ≡ true }
    ensures seen { (q : K) → seen K.eq store.new q ≡ seen K.eq store.old q }
    ensures exchanged { kept.new ≡ kept.old }
{
    store.swap_record(kept, swaps);
    store.swap_record(kept, swaps);
}

/// What is done behind another goes on from its result and its cells; the cells touched and written only grow, and what is not written
/// stays; and in a state that agrees on the cells touched all goes alike.
pub fn what_is_done_is_lawful<K, V, A, B>()
    ensures one_after_another { OneAfterAnother K V A B }
    ensures cells_only_grow { CellsOnlyGrow K V A }
    ensures goes_alike { GoesAlike K V A }
{}
