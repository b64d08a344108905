// Where the targets of messages lead by what was published.
ghost use Rattle.std.specs.Prelude.{◌≡◌, IfOk, option_map};
ghost use Rattle.values.specs.Promises.{promise_of};
ghost use Rattle.eorder.specs.Fences.{joined};
ghost use Rattle.event.specs.Walks.{awaited_along as awaited_along_of, awaited_for, board_walk, by_the_board, fences_of as fences_of_publication, last_fences as last_fences_of, leads_on, names_behind};
ghost use Rattle.values.specs.View.{val_of};
ghost use Rattle.world_cells.specs.View.{world_of};
ghost use Rattle.world_cells.specs.World.{published_as};

use eorder::carried::Carried;
use eorder::fence::Fence;
use ids::names::PromId;
use ids::reference::Reference;
use refs::ends::end_of;
use refs::resolve::Resolve;
use sends::fences::reference_of;
use std::alloc::{AllocError, Global};
use std::sync::Arc;
use values::value::Value;
use world_cells::world::World;

/// What promises were published as.
#[derive(Drop)]
struct Board<'a> {
    world: &'a World,
}

impl<'a> Resolve for Board<'a> {
    ghost use Rattle.event.specs.Walks.{by_the_board};
    ghost use Rattle.world_cells.specs.View.{world_of};

    ghost resolutions = { λ b. by_the_board (world_of b.world.now) };

    fn resolution(&self, promise: PromId) -> Option<&Value> {
        match self.world.published(promise) {
            Some(published) => Some(&published.value),
            None => None,
        }
    }
}

/// The walk of a target.
#[derive(Drop)]
pub struct Walked {
    /// Its end; none in a ring.
    pub end: Option<Value>,
    /// The promises on the way.
    pub through: Vec<PromId>,
}

/// The walk of a target by the board.
pub fn walk(alloc: Global, world: &World, target: &Value) -> Result<Walked, AllocError>
    ensures end { IfOk result (λ r. option_map val_of r.end ≡ (board_walk (world_of world.now) (val_of target.now)).end) }
    ensures through { IfOk result (λ r. r.through.items ≡ (board_walk (world_of world.now) (val_of target.now)).through) }
{
    let mut through = Vec::new(alloc);
    let end = end_of(&Board { world }, target, &mut through)?;
    let end = if is_resolved(world, &end) {
        None
    } else {
        Some(end)
    };
    Ok(Walked { end, through })
}

/// Whether a value is a promise that was published: then it is no end, and stands for a ring.
fn is_resolved(world: &World, value: &Value) -> bool
    ensures { result ≡ leads_on (by_the_board (world_of world.now)) (promise_of (val_of value.now)) }
{
    match value.as_promise() {
        Some(promise) => world.published(promise).is_some(),
        None => false,
    }
}

/// Adds the names that are awaited for what was published on the way.
pub fn awaited_along(world: &World, names: Fence, through: &[PromId]) -> Result<Fence, AllocError>
    ensures { IfOk result (λ f. f ≡ awaited_along_of (world_of world.now) names through.now) }
{
    let mut names = names;
    for promise in through {
        names = join_awaited(world, names, *promise)?;
    }
    Ok(names)
}

/// Adds the names with which a promise was published as a reference.
fn join_awaited(world: &World, names: Fence, promise: PromId) -> Result<Fence, AllocError>
    ensures { IfOk result (λ f. f ≡ joined names (awaited_for (published_as (world_of world.now) promise))) }
{
    match world.published(promise) {
        Some(published) => join_behind(names, &published.fences, reference_of(&published.value)),
        None => Ok(names),
    }
}

/// Adds the names with which a reference was published.
fn join_behind(
    names: Fence,
    fences: &Carried,
    reference: Option<Reference>,
) -> Result<Fence, AllocError>
    ensures { IfOk result (λ f. f ≡ joined names (names_behind fences.now reference)) }
{
    match reference {
        Some(reference) => match fences.fence(reference) {
            Some(behind) => names.join(behind),
            None => Ok(names),
        },
        None => Ok(names),
    }
}

/// The fences that were published with the end of a walk: those of its last publication.
pub fn last_fences(
    alloc: Global,
    world: &World,
    through: &[PromId],
) -> Result<Arc<Carried>, AllocError>
    ensures { IfOk result (λ c. c.value ≡ last_fences_of (world_of world.now) through.now) }
{
    match through.last() {
        Some(promise) => fences_of(alloc, world, *promise),
        None => Ok(Arc::new(alloc, Carried::empty(alloc))?),
    }
}

/// The fences that a promise was published with, shared.
fn fences_of(alloc: Global, world: &World, promise: PromId) -> Result<Arc<Carried>, AllocError>
    ensures { IfOk result (λ c. c.value ≡ fences_of_publication (published_as (world_of world.now) promise)) }
{
    match world.published(promise) {
        Some(published) => Ok(Arc::try_clone(&published.fences)?),
        None => Ok(Arc::new(alloc, Carried::empty(alloc))?),
    }
}
