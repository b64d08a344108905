// How turns end.
ghost use Rattle.std.specs.Prelude.{◌≡◌, ◌∷◌, [], IfOk, OnOk, option_map};
ghost use Rattle.values.specs.View.{reply_of, val_of};
ghost use Rattle.eval_rules.specs.Doings.{noted, published_out};
ghost use Rattle.eval_rules.specs.Outcomes.{halt, value as value_end};
ghost use Rattle.eval_rules.specs.OutboxView.{note_of, outbox_of};
ghost use Rattle.eval_rules.specs.View.{at, cause_of, halt_of};
ghost use Rattle.sends.specs.View.{published_of};
ghost use Rattle.turn_deliveries.specs.Outcomes.{told_of};
ghost use Rattle.turn_deliveries.specs.Turn.{commented, lost, lost_outbox, settled_reply, told as told_reply};
ghost use Rattle.turn.specs.Runs.{LeavesAtEnd, RunsToEnd};

use eorder::carried::Carried;
use eval_rules::end::{Abandon, Halt};
use eval_rules::outbox::{Note, Outbox};
use eval_rules::working::Working;
use ids::names::PromId;
use ids::text::Text;
use post::published::Published;
use sends::ends::settle;
use sends::publishing::{Resolution, end_with};
use std::alloc::{AllocError, Global};
use turn_deliveries::outcome::TurnEnd;
use values::value::{Answer, Value};

/// Ends a turn whose delivery gave this value: its settled form is published.
pub(crate) fn end(w: &mut Working, promise: PromId, value: &Value) -> Result<TurnEnd, AllocError>
    ensures { IfOk result (λ e. RunsToEnd w.new e promise (value_end (val_of value.now)) (at w.old)) }
{
    let form = settle(w.alloc, &mut w.draft, value)?;
    let told = answer_of(w.alloc, form)?;
    tell(w, promise, told)
}

/// What a settled form tells, if there is one.
fn answer_of(alloc: Global, form: Option<Value>) -> Result<Answer, AllocError>
    ensures { IfOk result (λ a. reply_of a ≡ settled_reply (option_map val_of form)) }
{
    match form {
        Some(settled) => Ok(Answer::Gives(settled)),
        None => Ok(Answer::Throws(Text::new(alloc, "value too large")?)),
    }
}

/// Ends a turn whose delivery was halted: its result is broken. Of an abandoned turn nothing else is kept.
pub(crate) fn lose(w: &mut Working, promise: PromId) -> Result<TurnEnd, AllocError>
    ensures { IfOk result (λ e. RunsToEnd w.new e promise (halt (halt_of w.old.halt)) (at w.old)) }
{
    match &w.halt {
        Halt::Thrown(problem) => {
            let told = Answer::Throws(problem.share()?);
            tell(w, promise, told)
        }
        // No ejection leaves its Escape.
        Halt::Ejected(_, _) => {
            let told = Answer::Throws(Text::new(w.alloc, "ejector is spent")?);
            tell(w, promise, told)
        }
        Halt::Abandoned(why) => {
            let why = *why;
            abandon(w, promise, why)
        }
    }
}

/// Ends a turn that tells this.
fn tell(w: &mut Working, promise: PromId, told: Answer) -> Result<TurnEnd, AllocError>
    ensures { IfOk result (λ e. LeavesAtEnd w.new e promise (told_reply (reply_of told)) (at w.old)) }
{
    let ended = ended_by(&told)?;
    comment(&mut w.out, &told)?;
    let resolved = end_with(w.alloc, &mut w.draft, promise, told)?;
    publish(w.alloc, &mut w.out, promise, resolved)?;
    Ok(ended)
}

/// What is told in a reply.
fn ended_by(told: &Answer) -> Result<TurnEnd, AllocError>
    ensures { IfOk result (λ e. told_of e ≡ told_reply (reply_of told.now)) }
{
    match told {
        Answer::Gives(value) => Ok(TurnEnd::Value(value.share()?)),
        Answer::Throws(problem) => Ok(TurnEnd::Problem(problem.share()?)),
    }
}

/// A problem stands in the log.
fn comment(out: &mut Outbox, told: &Answer) -> Result<(), AllocError>
    ensures commented { OnOk result (outbox_of out.new ≡ commented (reply_of told.now) (outbox_of out.old)) }
    ensures promises { out.new.promises ≡ out.old.promises }
{
    match told {
        Answer::Gives(_) => Ok(()),
        Answer::Throws(problem) => note(out, Note::Comment(problem.share()?)),
    }
}

/// One more note for the log.
fn note(out: &mut Outbox, note: Note) -> Result<(), AllocError>
    ensures noted { OnOk result (outbox_of out.new ≡ noted (note_of note ∷ []) (outbox_of out.old)) }
    ensures promises { out.new.promises ≡ out.old.promises }
{
    out.notes.push(note)?;
    Ok(())
}

/// A promise is published as this.
fn publish(
    alloc: Global,
    out: &mut Outbox,
    promise: PromId,
    resolved: Resolution,
) -> Result<(), AllocError>
    ensures published { OnOk result (outbox_of out.new ≡ published_out promise (published_of resolved) (outbox_of out.old)) }
    ensures promises { out.new.promises ≡ out.old.promises }
{
    let published = Published::new(alloc, resolved.value, resolved.fences)?;
    out.publications.add(promise, published)?;
    note(out, Note::Resolved(promise))
}

/// Ends an abandoned turn: its result is broken by the reason.
fn abandon(w: &mut Working, promise: PromId, why: Abandon) -> Result<TurnEnd, AllocError>
    ensures { IfOk result (λ e. LeavesAtEnd w.new e promise (lost (cause_of why)) (at w.old)) }
{
    w.out = broken_result(w.alloc, promise, why)?;
    Ok(TurnEnd::Abandoned(why))
}

/// What an abandoned turn publishes and notes.
fn broken_result(alloc: Global, promise: PromId, why: Abandon) -> Result<Outbox, AllocError>
    ensures { IfOk result (λ o. outbox_of o ≡ lost_outbox promise (cause_of why)) }
{
    let reason = Text::new(alloc, why.reason())?;
    let mut out = Outbox::new(alloc);
    note(&mut out, Note::Comment(reason.share()?))?;
    let resolved = Resolution {
        value: Value::Broken(reason),
        fences: Carried::empty(alloc),
        joined: None,
    };
    publish(alloc, &mut out, promise, resolved)?;
    Ok(out)
}
