// Calls of data.
ghost use Rattle.std.specs.Prelude.{◌≡◌, OnOk};
ghost use Rattle.eval_messages.specs.Arguments.{data_args, wanted_args};
ghost use Rattle.eval_messages.specs.Ending.{EndsBy};
ghost use Rattle.eval_rules.specs.Answered.{OnEnd};
ghost use Rattle.eval_rules.specs.Doings.{behind, data_of, given_by};
ghost use Rattle.eval_rules.specs.Outcomes.{reply_end};
ghost use Rattle.eval_rules.specs.View.{at};
ghost use Rattle.values.specs.Data.{and_val, no_vals};
ghost use Rattle.values.specs.View.{val_of, vals_of};

use crate::ends::take_end;
use eval_rules::end::Stop;
use eval_rules::results::call_data;
use eval_rules::working::Working;
use std::alloc::AllocError;
use values::value::Value;
use values::verb::Verb;
use values::wanted::wants_datum;

/// What a call on data gives. Where its verb wants a datum, its argument's end is taken.
pub fn call_datum(
    w: &mut Working,
    receiver: &Value,
    verb: &Verb,
    args: &mut [Value],
    into: &mut Value,
) -> Result<(), Stop>
    ensures { OnEnd result into.new w.new (EndsBy (data_of (val_of receiver.now) verb.now (vals_of args.old)) reply_end (λ reply b. b) (at w.old)) }
{
    take_datum(w, receiver, verb, args)?;
    call_data(w, receiver, verb, args, into)
}

/// Takes the end of the only argument, where the verb wants a datum.
fn take_datum(
    w: &mut Working,
    receiver: &Value,
    verb: &Verb,
    args: &mut [Value],
) -> Result<(), AllocError>
    ensures args { OnOk result (vals_of args.new ≡ given_by (data_args (val_of receiver.now) verb.now (vals_of args.old)) (at w.old)) }
    ensures place { OnOk result (at w.new ≡ behind (data_args (val_of receiver.now) verb.now (vals_of args.old)) (at w.old)) }
{
    match args {
        [argument] => take_wanted(w, wants_datum(receiver, verb), argument),
        _ => Ok(()),
    }
}

/// Takes a value's end, if that is wanted.
#[inline(always)]
fn take_wanted(w: &mut Working, wanted: bool, value: &mut Value) -> Result<(), AllocError>
    ensures args { OnOk result (and_val (val_of value.new) no_vals ≡ given_by (wanted_args wanted (val_of value.old)) (at w.old)) }
    ensures place { OnOk result (at w.new ≡ behind (wanted_args wanted (val_of value.old)) (at w.old)) }
{
    if wanted { take_end(w, value) } else { Ok(()) }
}
