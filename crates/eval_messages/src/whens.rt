// Whens.
ghost use Rattle.std.specs.Prelude.{◌≡◌, ◌+◌, ◌<◌, false, IfOk, option_map};
ghost use Rattle.code.specs.Frames.{fits_all};
ghost use Rattle.code.specs.View.{trees_of_codes};
ghost use Rattle.eval_messages.specs.Ending.{EndsBy};
ghost use Rattle.eval_rules.specs.Answered.{OnEnd};
ghost use Rattle.eval_rules.specs.Doings.{wait_of, wait_end, wait_out, when_message as when_message_of};
ghost use Rattle.eval_rules.specs.View.{at};
ghost use Rattle.heap.specs.Names.{names_of};
ghost use Rattle.heap.specs.View.{nouns_of};
ghost use Rattle.post.specs.Blocks.{handler_fits};
ghost use Rattle.post.specs.DeliveryView.{handler_of, when_of};
ghost use Rattle.post.specs.MessageView.{message_of};
ghost use Rattle.values.specs.View.{val_of};

use crate::outgoing::draw;
use crate::posting::post;
use crate::stops::refused;
use code::code::Code;
use eorder::fence::Fence;
use eval_rules::end::Stop;
use eval_rules::outbox::Note;
use eval_rules::working::Working;
use heap::state::Noun;
use ids::names::{PromId, VatNo};
use post::delivery::Delivery;
use post::message::{Message, Place, Sent};
use post::when::{Handler, When};
use sends::refusing::Making;
use sends::sending::wait;
use std::alloc::{AllocError, Global};
use std::sync::Arc;
use values::value::Value;

/// Makes a `when` on a value, with the names that it captured, and gives the promise for its result.
pub fn make_when(
    w: &mut Working,
    value: Value,
    captured: Vec<Noun>,
    block: &Arc<Vec<Code>>,
    handler: Option<Handler>,
    into: &mut Value,
) -> Result<(), Stop>
    requires fits { fits_all false (names_of captured.items) block.now.value.items }
    requires handled { handler_fits (names_of captured.items) handler }
    requires promised { w.old.out.promises + w.old.steps < u32.MAX }
    ensures { OnEnd result into.new w.new (EndsBy (wait_of (val_of value) (at w.old)) (λ m. wait_end m (at w.old))
        (wait_out (record { value = val_of value; captured = nouns_of captured.items; block = trees_of_codes block.now.value.items; handler = option_map handler_of handler }))
        (at w.old)) }
{
    let draw = draw(w);
    let promise = PromId {
        event: draw.event,
        index: draw.index,
        home: draw.here,
    };
    let making = wait(w.alloc, &mut w.draft, draw.room, promise, &value)?;
    match making {
        Making::Makes(condition) => {
            let captured = Arc::new(w.alloc, captured)?;
            let block = Arc::try_clone(block)?;
            let when = When {
                value,
                captured,
                block,
                handler,
            };
            let message = when_message(w.alloc, draw.here, promise, when)?;
            post(
                w,
                draw.message,
                message,
                Note::Waits(condition, draw.message),
            )?;
            *into = Value::Promise(promise);
            Ok(())
        }
        Making::Refused(why) => Err(refused(w, why)),
    }
}

/// The message of a `when`, which comes after nothing.
fn when_message(
    alloc: Global,
    here: VatNo,
    promise: PromId,
    when: When,
) -> Result<Message, AllocError>
    ensures { IfOk result (λ g. message_of g ≡ when_message_of here promise (when_of when)) }
{
    let sent = Sent {
        delivery: Delivery::Waiting(when),
        result: promise,
        after: Fence::empty(alloc),
    };
    Message::new(alloc, sent, Place::At(here))
}
