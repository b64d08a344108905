// What a vat learns of a promise.
ghost use Rattle.std.specs.Prelude.{IfOk};
ghost use Rattle.std.specs.Arc.{arc_value};
ghost use Rattle.heap.specs.View.{state_of};
ghost use Rattle.post.specs.MessageView.{published_of};
ghost use Rattle.event.specs.Learning.{Learns};

use heap::draft::Draft;
use heap::reach::Footprint;
use heap::state::VatState;
use ids::names::{EventName, PromId, VatNo};
use post::published::Published;
use sends::coming::receive;
use sends::entering::enter;
use std::alloc::{AllocError, Global};
use std::sync::Arc;

/// What a vat in this state touches and writes when it learns what a promise was published as: the promise is entered in its view, and
/// then what was published comes in. Fails only for want of memory.
pub fn learn(
    alloc: Global,
    event: EventName,
    vat: VatNo,
    state: Arc<VatState>,
    promise: PromId,
    published: &Published,
) -> Result<Footprint, AllocError>
    ensures { IfOk result (Learns (state_of (arc_value state)) promise (published_of published.now)) }
{
    let mut draft = Draft::new(alloc, state, event, vat);
    enter(alloc, &mut draft, promise, &published.value)?;
    receive(alloc, &mut draft, &published.fences, &published.value)?;
    draft.finish()
}
