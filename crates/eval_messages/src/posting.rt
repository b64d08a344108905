// Messages that go into the outbox.
ghost use Rattle.std.specs.Prelude.{◌≡◌, ◌+◌, ◌<◌, ◌∷◌, [], OnOk};
ghost use Rattle.eval_rules.specs.Doings.{first_place as first_place_of, noted, posted, same_vat};
ghost use Rattle.eval_rules.specs.OutboxView.{note_of};
ghost use Rattle.eval_rules.specs.View.{at};
ghost use Rattle.post.specs.MessageView.{message_of, place_of};

use eval_rules::outbox::{Letter, Note};
use eval_rules::working::Working;
use ids::names::{MsgId, VatNo};
use post::message::{Message, Place};
use std::alloc::AllocError;

/// Where a message is first: at the vat itself, or on its way to another one.
pub(crate) fn first_place(here: VatNo, to: VatNo) -> Place
    ensures { place_of result ≡ first_place_of (same_vat here to) to }
{
    if here == to {
        Place::At(to)
    } else {
        Place::Flying(to)
    }
}

/// Puts a message with its promise and a note into the outbox.
pub(crate) fn post(
    w: &mut Working,
    name: MsgId,
    message: Message,
    note: Note,
) -> Result<(), AllocError>
    requires promised { w.old.out.promises + w.old.steps < u32.MAX }
    ensures { OnOk result (at w.new ≡ record (at w.old) { out = noted (note_of note ∷ []) (posted name (message_of message) (at w.old).out) }) }
{
    w.out.letters.push(Letter { name, message })?;
    w.out.promises += 1;
    w.out.notes.push(note)?;
    Ok(())
}
