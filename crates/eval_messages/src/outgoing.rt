// Sends.
ghost use Rattle.std.specs.Prelude.{◌≡◌, ◌+◌, ◌<◌, true, IfOk, OnOk};
ghost use Rattle.eval_rules.specs.Answered.{OnEnd};
ghost use Rattle.eval_rules.specs.Doings.{call_message, has_message_room, next_message, next_promise, send_end, send_out, sent_end, sent_at};
ghost use Rattle.eval_rules.specs.Outcomes.{value as value_end, values};
ghost use Rattle.eval_rules.specs.View.{at};
ghost use Rattle.post.specs.MessageView.{message_of};
ghost use Rattle.sends.specs.Making.{makes};
ghost use Rattle.sends.specs.View.{sent_of};
ghost use Rattle.values.specs.View.{val_of, vals_of};

use crate::posting::{first_place, post};
use crate::stops::refused;
use eval_rules::end::Stop;
use eval_rules::outbox::Note;
use eval_rules::working::{MAX_MESSAGES, Working};
use ids::names::{MsgId, VatNo};
use post::call::Call;
use post::delivery::Delivery;
use post::message::{Message, Sent};
use sends::refusing::Making;
use sends::sending::{Draw, Sending, home_of, send};
use std::alloc::{AllocError, Global};
use values::value::Value;
use values::verb::Verb;

/// What the turn's next message is drawn from. Where there is no room for one more, its name is of no matter.
pub(crate) fn draw(w: &Working) -> Draw
    ensures here { result.here ≡ (at w.now).vat }
    ensures message { result.room ≡ true → result.message ≡ next_message (at w.now) }
    ensures room { result.room ≡ has_message_room (at w.now) }
    ensures promise { (home : VatNo) → record { event = result.event; index = result.index; home = home } ≡ next_promise (at w.now) home }
{
    let count = w.out.letters.len();
    let own = w.draft.ejector(0);
    Draw {
        here: own.vat,
        message: MsgId {
            event: own.event,
            index: number_of(count),
        },
        room: count < MAX_MESSAGES,
        event: own.event,
        index: w.out.promises,
    }
}

/// The number of a message with so many before it, where a turn may make one more.
#[inline(always)]
fn number_of(count: usize) -> u32
    ensures { count < MAX_MESSAGES → result ≡ count }
{
    if count < MAX_MESSAGES {
        count as u32
    } else {
        0
    }
}

/// Sends a call with these arguments to a receiver, and gives the promise for its result.
pub fn send_call(
    w: &mut Working,
    receiver: &Value,
    verb: &Verb,
    args: &[Value],
    into: &mut Value,
) -> Result<(), Stop>
    requires promised { w.old.out.promises + w.old.steps < u32.MAX }
    ensures { OnEnd result into.new w.new (λ o b. (o ≡ sent_end (val_of receiver.now) (values (vals_of args.now)) (at w.old))
        × (b ≡ sent_at verb.now (val_of receiver.now) (values (vals_of args.now)) (at w.old))) }
{
    let draw = draw(w);
    let making = send(w.alloc, &mut w.draft, draw, receiver, args)?;
    match making {
        Making::Makes(sent) => Ok(post_call(w, draw, verb, sent, into)?),
        Making::Refused(why) => Err(refused(w, why)),
    }
}

/// Puts a call that was sent into the outbox.
fn post_call(
    w: &mut Working,
    draw: Draw,
    verb: &Verb,
    sent: Sending,
    into: &mut Value,
) -> Result<(), AllocError>
    requires here { draw.here ≡ (at w.old).vat }
    requires message { draw.message ≡ next_message (at w.old) }
    requires promised { w.old.out.promises + w.old.steps < u32.MAX }
    ensures end { OnOk result (value_end (val_of into.new) ≡ send_end (makes (sent_of sent))) }
    ensures place { OnOk result (at w.new ≡ send_out verb.now (makes (sent_of sent)) (at w.old)) }
{
    let result = sent.result;
    let message = message_to(w.alloc, draw.here, verb, sent)?;
    post(w, draw.message, message, Note::Sent(draw.message))?;
    *into = Value::Promise(result);
    Ok(())
}

/// The message of a call that was sent.
fn message_to(alloc: Global, here: VatNo, verb: &Verb, sent: Sending) -> Result<Message, AllocError>
    ensures { IfOk result (λ g. message_of g ≡ call_message here verb.now (sent_of sent)) }
{
    let to = home_of(here, &sent.target);
    let place = first_place(here, to);
    let Sending {
        target,
        arguments,
        fences,
        after,
        result,
    } = sent;
    let call = Call::new(alloc, target, verb.share()?, arguments, fences)?;
    let posted = Sent {
        delivery: Delivery::Sent(call),
        result,
        after,
    };
    Message::new(alloc, posted, place)
}
