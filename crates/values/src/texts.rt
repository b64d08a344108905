// The verbs of texts, and text literals.
ghost use Rattle.std.specs.Prelude.{◌≡◌, ◌++◌, IfOk, Bool, count_by};
ghost use Rattle.values.specs.Data.{text};
ghost use Rattle.values.specs.Limits.{within_limits};
ghost use Rattle.values.specs.Replies.{text_table, text_add as add_reply, text_size as size_reply, text_reply, begins_character};
ghost use Rattle.values.specs.View.{val_of, vals_of, reply_of};

use crate::limits::MOST_WEIGHT;
use crate::replies::{limited, no_method, sized, thrown, wrong_argument};
use crate::value::{Answer, Value};
use crate::verb::{Verb, Word};
use ids::text::Text;
use std::alloc::{AllocError, Global};

/// The most bytes of a text that is not too large: it weighs one more.
const MOST_BYTES: usize = MOST_WEIGHT as usize - 1;

/// A text literal, or the problem that it is too large.
pub fn text_value(alloc: Global, text: &Text) -> Result<Answer, AllocError>
    ensures { IfOk result (λ a. reply_of a ≡ text_reply text.now) }
{
    limited(alloc, Value::Text(text.share()?))
}

/// What a verb of a text leads to.
#[inline(never)]
pub(crate) fn text_call(
    alloc: Global,
    text: &Text,
    verb: &Verb,
    arguments: &[Value],
) -> Result<Answer, AllocError>
    ensures { IfOk result (λ a. reply_of a ≡ text_table text.now verb.now (vals_of arguments.now)) }
{
    match arguments {
        [] => match verb.word() {
            Some(Word::Size) => text_size(alloc, text.as_str()),
            _ => no_method(alloc, verb, 0),
        },
        [argument] => match verb.word() {
            Some(Word::Add) => text_add(alloc, text.as_str(), argument),
            _ => no_method(alloc, verb, 1),
        },
        _ => no_method(alloc, verb, arguments.len()),
    }
}

fn text_size(alloc: Global, text: &str) -> Result<Answer, AllocError>
    ensures { IfOk result (λ a. reply_of a ≡ size_reply text.now) }
{
    sized(alloc, characters(text))
}

/// How many characters a text has: each begins at a byte that continues no other one.
fn characters(text: &str) -> usize
    ensures { result ≡ count_by begins_character text.now }
{
    text.as_bytes()
        .iter()
        .filter(|byte| !(128..192).contains(*byte))
        .count()
}

fn text_add(alloc: Global, text: &str, argument: &Value) -> Result<Answer, AllocError>
    ensures { IfOk result (λ a. reply_of a ≡ add_reply text.now (val_of argument.now)) }
{
    match argument {
        Value::Text(more) => joined_text(alloc, text, more.as_str()),
        Value::Null
        | Value::Bool(_)
        | Value::Int(_)
        | Value::List(_)
        | Value::Object(_)
        | Value::Ejector(_)
        | Value::Promise(_)
        | Value::Broken(_) => wrong_argument(alloc, argument),
    }
}

/// One text behind another, built only where it is not too large.
fn joined_text(alloc: Global, first: &str, second: &str) -> Result<Answer, AllocError>
    ensures { IfOk result (λ a. reply_of a ≡ text_reply (first.now ++ second.now)) }
{
    if !fits_text(first, second) {
        return thrown(alloc, "value too large");
    }
    let mut both = String::with_capacity(alloc, first.len() + second.len())?;
    both.push_str(first)?;
    both.push_str(second)?;
    Ok(Answer::Gives(Value::Text(Text::from_string(both)?)))
}

/// Whether a text of the first and the second is not too large.
pub(crate) fn fits_text(first: &str, second: &str) -> bool
    ensures { result ≡ within_limits (text (first.now ++ second.now)) }
{
    first.len() <= MOST_BYTES && second.len() <= MOST_BYTES - first.len()
}
