// The plain run of events.
ghost use Rattle.std.specs.Prelude.{IfOk, IfErr, map};
ghost use Rattle.world_cells.specs.EventView.{event_of};
ghost use Rattle.world_cells.specs.View.{world_of};
ghost use Rattle.event.specs.Runs.{PlainRun};
ghost use Rattle.world.specs.Reruns.{KeepsOrder, TellsRun};

use crate::step::{StepFault, step};
use std::alloc::Global;
use world_cells::event::Event;
use world_cells::world::World;

/// The world that these events lead to from the empty one, one after another. Where each has a name of its own, a message has its turn
/// behind all that come before it in the partial order of messages.
///
/// # Errors
/// `Impossible`, where one of them is not possible where it comes, and `Memory`.
pub fn plain_run(alloc: Global, events: &[Event]) -> Result<World, StepFault>
    ensures ok { IfOk result (λ w. PlainRun (map event_of events.now) (world_of w)) }
    ensures order { IfOk result (λ w. KeepsOrder (map event_of events.now) (world_of w)) }
    ensures err { IfErr result (λ fault. TellsRun (map event_of events.now) fault) }
{
    let mut world = World::new(alloc);
    for event in events {
        match step(alloc, &mut world, event) {
            Ok(()) => {}
            Err(fault) => return Err(fault),
        }
    }
    Ok(world)
}
