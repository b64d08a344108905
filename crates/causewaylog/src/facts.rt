// The records of a log.
ghost use Rattle.std.specs.Prelude.{◌≡◌, codes, IfOk};
ghost use Rattle.ids.specs.Names.{message_text, promise_text};
ghost use Rattle.eval_rules.specs.OutboxView.{note_of};
ghost use Rattle.serde_json.specs.Data.{string, member, no_members};
ghost use Rattle.serde_json.specs.View.{view};
ghost use Rattle.causewaylog.specs.Facts.{anchor, class, got_fact, note_fact, record_at};

use eval_rules::outbox::Note;
use ids::names::{MsgId, PromId};
use serde_json::{Value, json};
use std::alloc::{AllocError, Global};

/// Where a record stands: in which turn of a vat, and how many records of that turn stand before it.
pub(crate) fn anchor(
    alloc: Global,
    loop_name: &str,
    turn: usize,
    number: usize,
) -> Result<Value, AllocError>
    ensures { IfOk result (λ v. view v ≡ anchor loop_name.now turn number) }
{
    json!(in alloc; {"number": number, "turn": {"loop": loop_name, "number": turn}})
}

/// The classes of a record of this kind.
fn class(alloc: Global, kind: &str) -> Result<Value, AllocError>
    ensures { IfOk result (λ v. view v ≡ class kind.now) }
{
    let own = format!(in alloc; "org.ref_send.log.{kind}")?;
    json!(in alloc; [own, "org.ref_send.log.Event"])
}

/// A message was got or sent.
fn of_message(alloc: Global, anchor: Value, kind: &str, message: MsgId) -> Result<Value, AllocError>
    ensures { IfOk result (λ v. view v ≡ record_at (view anchor) (record { kind = kind.now; says = member (codes "message") (string (message_text message)) no_members })) }
{
    let class = class(alloc, kind)?;
    let message = message.to_string(alloc)?;
    json!(in alloc; {"anchor": anchor, "class": class, "message": message})
}

/// A message was sent that waits for a promise.
fn of_wait(
    alloc: Global,
    anchor: Value,
    condition: PromId,
    message: MsgId,
) -> Result<Value, AllocError>
    ensures { IfOk result (λ v. view v ≡ record_at (view anchor) (record { kind = codes "SentIf"; says = member (codes "condition") (string (promise_text condition)) (member (codes "message") (string (message_text message)) no_members) })) }
{
    let class = class(alloc, "SentIf")?;
    let condition = condition.to_string(alloc)?;
    let message = message.to_string(alloc)?;
    json!(in alloc; {"anchor": anchor, "class": class, "condition": condition, "message": message})
}

/// A promise was resolved.
fn of_promise(alloc: Global, anchor: Value, promise: PromId) -> Result<Value, AllocError>
    ensures { IfOk result (λ v. view v ≡ record_at (view anchor) (record { kind = codes "Resolved"; says = member (codes "condition") (string (promise_text promise)) no_members })) }
{
    let class = class(alloc, "Resolved")?;
    let condition = promise.to_string(alloc)?;
    json!(in alloc; {"anchor": anchor, "class": class, "condition": condition})
}

/// A turn ended with this problem, or was abandoned for this reason.
fn of_words(alloc: Global, anchor: Value, words: &str) -> Result<Value, AllocError>
    ensures { IfOk result (λ v. view v ≡ record_at (view anchor) (record { kind = codes "Comment"; says = member (codes "text") (string words.now) no_members })) }
{
    let class = class(alloc, "Comment")?;
    json!(in alloc; {"anchor": anchor, "class": class, "text": words})
}

/// The record of the message that a turn got.
pub(crate) fn of_got(alloc: Global, anchor: Value, message: MsgId) -> Result<Value, AllocError>
    ensures { IfOk result (λ v. view v ≡ record_at (view anchor) (got_fact message)) }
{
    of_message(alloc, anchor, "Got", message)
}

/// The record of a note.
pub(crate) fn of_note(alloc: Global, anchor: Value, note: &Note) -> Result<Value, AllocError>
    ensures { IfOk result (λ v. view v ≡ record_at (view anchor) (note_fact (note_of note.now))) }
{
    match note {
        Note::Sent(message) => of_message(alloc, anchor, "Sent", *message),
        Note::Waits(condition, message) => of_wait(alloc, anchor, *condition, *message),
        Note::Resolved(promise) => of_promise(alloc, anchor, *promise),
        Note::Comment(words) => of_words(alloc, anchor, words.as_str()),
    }
}
