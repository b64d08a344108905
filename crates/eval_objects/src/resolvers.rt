// Calls on the resolvers of promises.
ghost use Rattle.std.specs.Prelude.{◌≡◌};
ghost use Rattle.eval_rules.specs.Rules.{resolver_target};
ghost use Rattle.eval_rules.specs.View.{at};
ghost use Rattle.eval_objects.specs.View.{Led};
ghost use Rattle.eval_rules.specs.Answered.{OnEnd};
ghost use Rattle.values.specs.Data.{and_val, no_vals};
ghost use Rattle.values.specs.View.{val_of, vals_of};

use eval_messages::promises::{use_resolve, use_smash};
use eval_rules::end::Stop;
use eval_rules::results::no_such_method;
use eval_rules::working::Working;
use ids::names::PromId;
use values::value::Value;
use values::verb::Verb;

/// What a call on the resolver of a promise gives: `resolve` and `smash` take one argument.
pub(crate) fn call_resolver(
    w: &mut Working,
    promise: PromId,
    verb: &Verb,
    args: &[Value],
    into: &mut Value,
) -> Result<(), Stop>
    ensures { OnEnd result into.new w.new (Led (λ t b. (t ≡ resolver_target promise verb.now (vals_of args.now)) × (b ≡ at w.old))) }
{
    if args.len() == 1 {
        use_resolver(w, promise, verb, &args[0], args, into)
    } else {
        no_such_method(w, verb, args, into)
    }
}

/// The same with one argument.
fn use_resolver(
    w: &mut Working,
    promise: PromId,
    verb: &Verb,
    given: &Value,
    args: &[Value],
    into: &mut Value,
) -> Result<(), Stop>
    requires { vals_of args.now ≡ and_val (val_of given.now) no_vals }
    ensures { OnEnd result into.new w.new (Led (λ t b. (t ≡ resolver_target promise verb.now (vals_of args.now)) × (b ≡ at w.old))) }
{
    if verb.text().as_str() == "resolve" {
        use_resolve(w, promise, given, into)
    } else if verb.text().as_str() == "smash" {
        use_smash(w, promise, given, into)
    } else {
        no_such_method(w, verb, args, into)
    }
}
