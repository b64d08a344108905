// What literals, lists and calls of data give.
ghost use Rattle.std.specs.Prelude.{◌≡◌};
ghost use Rattle.values.specs.Replies.{text_reply, list_reply, data_reply};
ghost use Rattle.values.specs.View.{val_of, vals_of, reply_of};
ghost use Rattle.eval_rules.specs.Answered.{OnEnd};
ghost use Rattle.eval_rules.specs.Outcomes.{reply_end};
ghost use Rattle.eval_rules.specs.Rules.{no_such_method as no_such_method_end};
ghost use Rattle.eval_rules.specs.View.{at};

use crate::end::Stop;
use crate::halting::throw;
use crate::working::Working;
use ids::text::Text;
use values::calls::call_verb;
use values::lists::list_value;
use values::texts::text_value;
use values::value::{Answer, Value};
use values::verb::Verb;

/// What a text literal gives.
pub fn give_text(w: &mut Working, text: &Text, into: &mut Value) -> Result<(), Stop>
    ensures { OnEnd result into.new w.new (λ o b. (o ≡ reply_end (text_reply text.now)) × (b ≡ at w.old)) }
{
    let answer = text_value(w.alloc, text)?;
    give(w, answer, into)
}

/// What a list literal of these items gives.
pub fn give_list(w: &mut Working, items: Vec<Value>, into: &mut Value) -> Result<(), Stop>
    ensures { OnEnd result into.new w.new (λ o b. (o ≡ reply_end (list_reply (vals_of items.items))) × (b ≡ at w.old)) }
{
    let answer = list_value(w.alloc, items)?;
    give(w, answer, into)
}

/// What a call on data gives.
pub fn call_data(
    w: &mut Working,
    receiver: &Value,
    verb: &Verb,
    args: &[Value],
    into: &mut Value,
) -> Result<(), Stop>
    ensures { OnEnd result into.new w.new (λ o b. (o ≡ reply_end (data_reply (val_of receiver.now) verb.now (vals_of args.now))) × (b ≡ at w.old)) }
{
    let answer = call_verb(w.alloc, receiver, verb, args)?;
    give(w, answer, into)
}

/// What a call gives on what has no such verb with so many arguments.
pub fn no_such_method(
    w: &mut Working,
    verb: &Verb,
    args: &[Value],
    into: &mut Value,
) -> Result<(), Stop>
    ensures { OnEnd result into.new w.new (λ o b. (o ≡ no_such_method_end verb.now (vals_of args.now)) × (b ≡ at w.old)) }
{
    // Null has no verb at all.
    call_data(w, &Value::Null, verb, args, into)
}

/// An answer of data as what an evaluation gives.
#[inline(always)]
pub fn give(w: &mut Working, answer: Answer, into: &mut Value) -> Result<(), Stop>
    ensures { OnEnd result into.new w.new (λ o b. (o ≡ reply_end (reply_of answer)) × (b ≡ at w.old)) }
{
    match answer {
        Answer::Gives(value) => {
            *into = value;
            Ok(())
        }
        Answer::Throws(problem) => Err(throw(w, problem)),
    }
}
