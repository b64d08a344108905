// Answers that many verbs give.
ghost use Rattle.std.specs.Prelude.{◌≡◌, ◌++◌, ℤ, pos, IfOk, SomeIff, FitsSigned, codes, decimal};
ghost use Rattle.std.specs.Int.{w64};
ghost use Rattle.values.specs.Data.{gives, throws, bool};
ghost use Rattle.values.specs.Replies.{fitted, limited as limited_reply, wrong_kind};
ghost use Rattle.values.specs.View.{val_of, reply_of};

use crate::limits::is_within_limits;
use crate::value::{Answer, Value};
use crate::verb::Verb;
use ids::text::Text;
use std::alloc::{AllocError, Global};

/// A problem that is thrown.
#[inline(never)]
pub(crate) fn thrown(alloc: Global, problem: &str) -> Result<Answer, AllocError>
    ensures { IfOk result (λ a. reply_of a ≡ throws problem.now) }
{
    Ok(Answer::Throws(Text::new(alloc, problem)?))
}

/// A verb that the receiver does not have, with this many arguments.
#[inline(never)]
pub(crate) fn no_method(alloc: Global, verb: &Verb, count: usize) -> Result<Answer, AllocError>
    ensures { IfOk result (λ a. reply_of a ≡ throws (codes "no method " ++ (verb.now ++ (codes "/" ++ decimal count)))) }
{
    let verb = verb.as_str();
    let problem = format!(in alloc; "no method {verb}/{count}")?;
    Ok(Answer::Throws(Text::from_string(problem)?))
}

/// A truth value.
pub(crate) fn truth(holds: bool) -> Answer
    ensures { reply_of result ≡ gives (bool holds) }
{
    Answer::Gives(Value::Bool(holds))
}

/// An integer, or the problem that 64 bits do not hold it.
pub(crate) fn fitting(alloc: Global, integer: Option<i64>) -> Result<Answer, AllocError>
    ensures { IfOk result (λ a. (z : ℤ) → SomeIff integer (FitsSigned w64 z) z → reply_of a ≡ fitted z) }
{
    match integer {
        Some(integer) => Ok(Answer::Gives(Value::Int(integer))),
        None => thrown(alloc, "integer too large"),
    }
}

/// A size as an integer.
pub(crate) fn sized(alloc: Global, size: usize) -> Result<Answer, AllocError>
    ensures { IfOk result (λ a. reply_of a ≡ fitted (pos size)) }
{
    fitting(alloc, i64::try_from(size).ok())
}

/// A value, or the problem that it is too large.
pub(crate) fn limited(alloc: Global, value: Value) -> Result<Answer, AllocError>
    ensures { IfOk result (λ a. reply_of a ≡ limited_reply (val_of value)) }
{
    if is_within_limits(&value) {
        Ok(Answer::Gives(value))
    } else {
        thrown(alloc, "value too large")
    }
}

/// What an argument of the wrong kind leads to: its own problem, if it is broken.
#[inline(never)]
pub(crate) fn wrong_argument(alloc: Global, argument: &Value) -> Result<Answer, AllocError>
    ensures { IfOk result (λ a. reply_of a ≡ wrong_kind (val_of argument.now)) }
{
    match argument {
        Value::Broken(problem) => Ok(Answer::Throws(problem.share()?)),
        Value::Null
        | Value::Bool(_)
        | Value::Int(_)
        | Value::Text(_)
        | Value::List(_)
        | Value::Object(_)
        | Value::Ejector(_)
        | Value::Promise(_) => { thrown(alloc, "bad argument") }
    }
}
