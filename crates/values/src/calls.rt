// The verbs of data. Calls on integers are inlined where they are made, and no others, so that a sum costs little.
ghost use Rattle.std.specs.Prelude.{◌≡◌, IfOk, option_map};
ghost use Rattle.values.specs.Data.{int, and_val, no_vals};
ghost use Rattle.values.specs.Replies.{bool_table, data_reply, value_given};
ghost use Rattle.values.specs.View.{val_of, vals_of, reply_of};

use crate::integers::{IntReply, int_call, int_with};
use crate::lists::list_call;
use crate::replies::{no_method, truth};
use crate::texts::text_call;
use crate::value::{Answer, Value};
use crate::verb::{Verb, Word};
use ids::text::Text;
use std::alloc::{AllocError, Global};

/// What a verb that is given as a text leads to. It is looked up at each call, which takes memory.
pub fn data_call(
    alloc: Global,
    receiver: &Value,
    verb: &str,
    arguments: &[Value],
) -> Result<Answer, AllocError>
    ensures { IfOk result (λ a. reply_of a ≡ data_reply (val_of receiver.now) verb.now (vals_of arguments.now)) }
{
    let verb = Verb::new(Text::new(alloc, verb)?);
    call_verb(alloc, receiver, &verb, arguments)
}

/// What a verb of data leads to. A broken receiver throws its problem; else the verb and the number
/// of arguments are looked up first, then the arguments' kinds are tested, and then the result.
/// Null and references have no verbs of data. No texts are compared.
#[inline(always)]
pub fn call_verb(
    alloc: Global,
    receiver: &Value,
    verb: &Verb,
    arguments: &[Value],
) -> Result<Answer, AllocError>
    ensures { IfOk result (λ a. reply_of a ≡ data_reply (val_of receiver.now) verb.now (vals_of arguments.now)) }
{
    match receiver {
        Value::Null | Value::Object(_) | Value::Ejector(_) | Value::Promise(_) => no_method(
            alloc,
            verb,
            arguments.len(),
        ),
        Value::Bool(holds) => bool_call(alloc, *holds, verb, arguments),
        Value::Int(integer) => int_call(alloc, *integer, verb, arguments),
        Value::Text(text) => text_call(alloc, text, verb, arguments),
        Value::List(items) => list_call(alloc, items, verb, arguments),
        Value::Broken(problem) => Ok(Answer::Throws(problem.share()?)),
    }
}

/// The value that a verb gives on two integers, if it gives one. Nothing is made.
#[inline(always)]
pub fn call_integers(x: i64, verb: &Verb, y: i64) -> Option<Value>
    ensures { option_map val_of result ≡ value_given (data_reply (int x) verb.now (and_val (int y) no_vals)) }
{
    match int_with(x, verb, &Value::Int(y)) {
        IntReply::Integer(integer) => Some(Value::Int(integer)),
        IntReply::Truth(holds) => Some(Value::Bool(holds)),
        IntReply::TooLarge
        | IntReply::DivisionByZero
        | IntReply::WrongArgument
        | IntReply::NoMethod => None,
    }
}

/// What a verb of a truth value leads to.
#[inline(never)]
fn bool_call(
    alloc: Global,
    holds: bool,
    verb: &Verb,
    arguments: &[Value],
) -> Result<Answer, AllocError>
    ensures { IfOk result (λ a. reply_of a ≡ bool_table holds verb.now (vals_of arguments.now)) }
{
    match arguments {
        [] => match verb.word() {
            Some(Word::Not) => Ok(truth(!holds)),
            _ => no_method(alloc, verb, 0),
        },
        _ => no_method(alloc, verb, arguments.len()),
    }
}
