// The four rules, on the fences of one reference, as cells have them: an empty fence is absent.
ghost use Rattle.std.specs.Prelude.{◌≡◌, [], ◌∷◌, IfOk};
ghost use Rattle.std.specs.Option.{option_copied};
ghost use Rattle.eorder.specs.Fences.{joined, names_in, cell_of};

use crate::fence::Fence;
use ids::names::MsgId;
use std::alloc::{AllocError, Global};

/// What a send leaves: what the message is sent after, and the fence of its target.
#[derive(Drop)]
pub struct SendFences {
    pub after: Fence,
    pub fence: Fence,
}

/// A message is sent on a reference: it comes after what the fence had, and then the fence has it alone.
pub fn on_send(
    alloc: Global,
    cell: Option<&Fence>,
    message: MsgId,
) -> Result<SendFences, AllocError>
    ensures after { IfOk result (λ sent. sent.after ≡ names_in (option_copied cell.entry)) }
    ensures alone { IfOk result (λ sent. sent.fence ≡ message ∷ []) }
{
    Ok(SendFences {
        after: on_pass(alloc, cell)?,
        fence: Fence::alone(alloc, message),
    })
}

/// A reference leaves in a message or in what is published: it takes along the fence that it has, and its own stays as it is.
pub fn on_pass(alloc: Global, cell: Option<&Fence>) -> Result<Fence, AllocError>
    ensures { IfOk result (λ fence. fence ≡ names_in (option_copied cell.entry)) }
{
    match cell {
        Some(fence) => fence.share(),
        None => Ok(Fence::empty(alloc)),
    }
}

/// A reference comes in with a fence: that is added to the fence of what it settles to. The answer is that cell afterwards.
pub fn on_receive(
    alloc: Global,
    cell: Option<&Fence>,
    came: &Fence,
) -> Result<Option<Fence>, AllocError>
    ensures { IfOk result (λ after. after ≡ cell_of (joined (names_in (option_copied cell.entry)) came.now)) }
{
    let fence = on_pass(alloc, cell)?;
    Ok(fence.join(came)?.into_cell())
}

/// A promise is entered as what settles to a reference: its fence is added to that of the reference, and its own stays as it is. The
/// answer is the reference's cell afterwards. What the same turn publishes with the reference leaves before, with the fence of then.
pub fn on_learn(
    alloc: Global,
    cell: Option<&Fence>,
    promise: Option<&Fence>,
) -> Result<Option<Fence>, AllocError>
    ensures { IfOk result (λ after. after ≡ cell_of (joined (names_in (option_copied cell.entry)) (names_in (option_copied promise.entry)))) }
{
    let came = on_pass(alloc, promise)?;
    on_receive(alloc, cell, &came)
}
