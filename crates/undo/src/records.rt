// Records of cells, one after another.
ghost use Rattle.std.specs.Prelude.{◌≡◌, ◌++◌, true, length, map, IfOk, OnOk};
ghost use Rattle.history.specs.Records.{swap_state, swap_record};
ghost use Rattle.ids.specs.declared.cells.CellKey.{CellKey};
ghost use Rattle.world_cells.specs.View.{seen_of_world, is_ready, swaps_of, RisesBy};
ghost use Rattle.world_cells.specs.Theory.{cells, state_of_world, kepts_of, all_pass};

use ids::cells::CellKey;
use std::alloc::{AllocError, Global};
use world_cells::record::CellRecord;
use world_cells::world::World;

/// Makes room for the cells of these records, and makes the states of their vats their own. What is seen stays. Fails only for
/// want of memory.
pub fn make_rooms(
    alloc: Global,
    world: &mut World,
    records: &[CellRecord],
) -> Result<(), AllocError>
    ensures ok { OnOk result (all_pass (is_ready world.new) (kepts_of records.now) ≡ true) }
    ensures ready { (k : CellKey) → is_ready world.old k ≡ true → is_ready world.new k ≡ true }
    ensures seen { seen_of_world world.new ≡ seen_of_world world.old }
    ensures counted { swaps_of world.new ≡ swaps_of world.old }
{
    for record in records {
        world.make_room(alloc, record.key()?)?;
    }
    Ok(())
}

/// Exchanges records with their cells, from the first to the last. It takes no memory, and counts each.
pub fn swap_records(world: &mut World, records: &mut [CellRecord])
    requires { all_pass (is_ready world.old) (kepts_of records.old) ≡ true }
    ensures state { state_of_world world.new ≡ swap_state cells (kepts_of records.old) (state_of_world world.old) }
    ensures records { kepts_of records.new ≡ swap_record cells (kepts_of records.old) (state_of_world world.old) }
    ensures ready { is_ready world.new ≡ is_ready world.old }
    ensures counted { RisesBy (length records.old) (swaps_of world.old) (swaps_of world.new) }
{
    for record in records.iter_mut() {
        world.swap_record(record);
    }
}

/// Adds the cells of which these records are. Fails only for want of memory.
pub fn add_keys(keys: &mut Vec<CellKey>, records: &[CellRecord]) -> Result<(), AllocError>
    ensures { OnOk result (keys.new.items ≡ keys.old.items ++ map (λ r. r.0) (kepts_of records.now)) }
{
    for record in records {
        keys.push(record.key()?)?;
    }
    Ok(())
}

/// The cells of which these records are. Fails only for want of memory.
pub fn keys_of(alloc: Global, records: &[CellRecord]) -> Result<Vec<CellKey>, AllocError>
    ensures { IfOk result (λ keys. keys.items ≡ map (λ r. r.0) (kepts_of records.now)) }
{
    let mut keys = Vec::with_capacity(alloc, records.len())?;
    add_keys(&mut keys, records)?;
    Ok(keys)
}
