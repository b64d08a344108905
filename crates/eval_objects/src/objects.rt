// Objects: what they capture, how they are made, and how a call finds a method.
ghost use Rattle.std.specs.Prelude.{◌≡◌, [], ◌∷◌, ◌++◌, IfNone, IfOk, OnOk, length};
ghost use Rattle.std.specs.Option.{option_copied};
ghost use Rattle.code.specs.Frames.{only_names, captured_names_of, all_placed, fits_methods};
ghost use Rattle.code.specs.Index.{Indexes, index_in, index_fits};
ghost use Rattle.heap.specs.Names.{names_of};
ghost use Rattle.eval_rules.specs.Fits.{frame_at, ObjectFits};
ghost use Rattle.eval_objects.specs.Finding.{FindsForCount};
ghost use Rattle.kernele_scopes.specs.Scope.{name_of};
ghost use Rattle.kernele.specs.Tree.{Name};
ghost use Rattle.code.specs.View.{methods_of_codes};
ghost use Rattle.values.specs.Data.{object as object_value};
ghost use Rattle.values.specs.View.{val_of, vals_of};
ghost use Rattle.heap.specs.State.{Nouns, object_cell, read};
ghost use Rattle.eval_rules.specs.Answered.{OnAnswer, OnEnd};
ghost use Rattle.eval_rules.specs.Rules.{reached, captured};
ghost use Rattle.eval_rules.specs.Rules.{named, named_all};
ghost use Rattle.eval_rules.specs.Rules.{object_target as object_target_of};
ghost use Rattle.heap.specs.View.{bind_of, nouns_of, plain_of};
ghost use Rattle.heap.specs.Drafts.{draft_of};
ghost use Rattle.eval_rules.specs.Locals.{captured_in, locals_after};
ghost use Rattle.eval_rules.specs.View.{at};
ghost use Rattle.eval_objects.specs.Making.{CapturesAll, DefinesObject, EntersMethod, MissesOne, PlacesObject};
ghost use Rattle.eval_objects.specs.View.{met_as, IsNoMethod, OnTarget};

use crate::calls::empty_frame;
use crate::nouns::{match_pattern, reach_name, seek, undefined};
use crate::resolvers::call_resolver;
use code::code::{Capture as CaptureCode, MethodCode};
use code::index::{MethodIndex, share_index};
use eval_rules::end::{Abandon, Stop};
use eval_rules::entry::MethodEntry;
use eval_rules::halting::abandon;
use eval_rules::local::Local;
use eval_rules::results::no_such_method;
use eval_rules::working::{MAX_OBJECTS, Working};
use heap::made::{Made, Plain};
use heap::state::{Binding, Noun};
use ids::names::{ObjId, PromId};
use ids::text::Text;
use kernele::tree::Pattern;
use std::alloc::{AllocError, Global};
use std::mem;
use std::snapshot::Snapshot;
use std::sync::Arc;
use values::value::Value;
use values::verb::Verb;

/// Makes an object once its names are captured, and binds its pattern.
pub fn define_object(
    w: &mut Working,
    pattern: &Pattern,
    captures: &Arc<Vec<CaptureCode>>,
    methods: &Arc<Vec<MethodCode>>,
    index: &Option<Arc<MethodIndex>>,
    into: &mut Value,
) -> Result<(), Stop>
    requires fits { ObjectFits (at w.old) pattern.now captures.now.value.items methods.now.value.items (index_in index.now) }
    ensures { OnEnd result into.new w.new (DefinesObject pattern.now (methods_of_codes methods.now.value.items) (at w.old)) }
{
    let nouns = capture_all(w, captures.as_slice())?;
    place(w, pattern, nouns, methods, index, into)
}

/// Captures names from the left, the newest last. A variable is captured as its slot; the first name that stands for nothing
/// throws.
pub(crate) fn capture_all(w: &mut Working, captures: &[CaptureCode]) -> Result<Vec<Noun>, Stop>
    requires { all_placed (frame_at (at w.old)) captures.now }
    ensures { OnAnswer result w.new
        (λ ns b. CapturesAll (captured_names_of captures.now) (at w.old) (nouns_of ns.items) b)
        (λ h b. MissesOne (captured_names_of captures.now) (at w.old) h b) }
{
    let mut nouns = Vec::with_capacity(w.alloc, captures.len())?;
    let mut rest = captures;
    while let Some((first, others)) = rest.split_first() {
        reach_name(w, &first.name, first.place)?;
        match seek(w, &first.name, first.place) {
            Some(binding) => add_noun(&mut nouns, &first.name, binding.share()?)?,
            None => return Err(undefined(w, &first.name)),
        }
        rest = others;
    }
    Ok(nouns)
}

/// Adds a newer name to those that are captured.
fn add_noun(nouns: &mut Vec<Noun>, name: &Text, binding: Binding) -> Result<(), AllocError>
    ensures { OnOk result (nouns_of nouns.new.items ≡ (name.now, bind_of binding) ∷ nouns_of nouns.old.items) }
{
    let name = name.share()?;
    nouns.push(Noun { name, binding })?;
    Ok(())
}

/// Makes an object with these names and binds its pattern, or abandons a turn that has made too many.
fn place(
    w: &mut Working,
    pattern: &Pattern,
    nouns: Vec<Noun>,
    methods: &Arc<Vec<MethodCode>>,
    index: &Option<Arc<MethodIndex>>,
    into: &mut Value,
) -> Result<(), Stop>
    requires fits { fits_methods (names_of nouns.items ++ only_names (name_of pattern.now)) methods.now.value.items }
    requires indexed { index_fits (index_in index.now) (methods_of_codes methods.now.value.items) }
    ensures { OnEnd result into.new w.new (PlacesObject pattern.now
        (record { own = pattern.now; captured = nouns_of nouns.items; methods = methods_of_codes methods.now.value.items }) (at w.old)) }
{
    if w.draft.object_count() >= MAX_OBJECTS {
        return Err(abandon(w, Abandon::Size));
    }
    let made = make(w.alloc, pattern, nouns, methods, index)?;
    *into = Value::Object(w.draft.new_object(Made::Plain(made))?);
    Ok(match_pattern(w, pattern, into)?)
}

/// What an object with these names is made of. It shares its pattern and its methods with its definition.
fn make(
    alloc: Global,
    pattern: &Pattern,
    nouns: Vec<Noun>,
    methods: &Arc<Vec<MethodCode>>,
    index: &Option<Arc<MethodIndex>>,
) -> Result<Plain, AllocError>
    requires fits { fits_methods (names_of nouns.items ++ only_names (name_of pattern.now)) methods.now.value.items }
    requires indexed { index_fits (index_in index.now) (methods_of_codes methods.now.value.items) }
    ensures { IfOk result (λ made. plain_of made
        ≡ record { own = pattern.now; captured = nouns_of nouns.items; methods = methods_of_codes methods.now.value.items }) }
{
    let captured = Arc::new(alloc, nouns)?;
    let own = pattern.share()?;
    let methods = Arc::try_clone(methods)?;
    let index = share_index(index)?;
    Ok(Plain {
        own,
        captured,
        methods,
        index,
    })
}

/// What a call on an object leads to, which reads the object.
pub(crate) fn object_target(
    w: &mut Working,
    id: ObjId,
    verb: &Verb,
    args: &mut [Value],
    into: &mut Value,
) -> Result<Option<MethodEntry>, Stop>
    ensures { OnTarget result into.new w.new (λ t b. (t
        ≡ object_target_of id (read (draft_of w.old.draft) (object_cell id)) verb.now (vals_of args.old))
        × (b ≡ reached (object_cell id) (at w.old))) }
{
    w.draft.reach_object(id)?;
    let frame = empty_frame(w);
    let met = meet(w, frame, id, verb, args)?;
    match met {
        Met::Method(entry) => Ok(Some(entry)),
        Met::Resolver(promise) => {
            call_resolver(w, promise, verb, args, into)?;
            Ok(None)
        }
        Met::Nothing => {
            no_such_method(w, verb, args, into)?;
            Ok(None)
        }
    }
}

/// What a call meets on an object.
#[derive(Drop)]
enum Met {
    Method(MethodEntry),
    /// The object is the resolver of this promise.
    Resolver(PromId),
    Nothing,
}

/// What a call on an object meets.
#[inline(always)]
fn meet(
    w: &Working,
    frame: Vec<Local>,
    id: ObjId,
    verb: &Verb,
    args: &mut [Value],
) -> Result<Met, AllocError>
    requires { frame.items ≡ [] }
    ensures met { IfOk result (λ m. met_as m verb.now (vals_of args.old)
        ≡ object_target_of id (read (draft_of w.now.draft) (object_cell id)) verb.now (vals_of args.old)) }
    ensures kept { IfOk result (λ m. IsNoMethod m → args.new ≡ args.old) }
{
    match w.draft.object(id) {
        Some(Made::Plain(object)) => {
            let entry = method_entry(frame, id, object, verb, args)?;
            match entry {
                Some(entry) => Ok(Met::Method(entry)),
                None => Ok(Met::Nothing),
            }
        }
        Some(Made::Resolver(promise)) => Ok(Met::Resolver(*promise)),
        None => Ok(Met::Nothing),
    }
}

/// The method that a call on this object enters, with the names that it begins with, in an empty frame.
fn method_entry(
    frame: Vec<Local>,
    id: ObjId,
    object: &Plain,
    verb: &Verb,
    args: &mut [Value],
) -> Result<Option<MethodEntry>, AllocError>
    requires { frame.items ≡ [] }
    ensures entry { IfOk result (λ e. EntersMethod id (plain_of object.now) verb.now (vals_of args.old) e) }
    ensures kept { IfOk result (λ e. IfNone e (args.new ≡ args.old)) }
{
    match find_method(object, verb, args.len())? {
        Some(method) => {
            let captured = share_captured(&object.captured)?;
            let body = Arc::try_clone(&method.body)?;
            let nouns = method_nouns(frame, id, object, method.parameters.as_slice(), args)?;
            Ok(Some(MethodEntry {
                captured,
                nouns,
                body,
            }))
        }
        None => Ok(None),
    }
}

/// What an object captured, shared, if it captured anything.
#[inline(always)]
pub fn share_captured(captured: &Arc<Vec<Noun>>) -> Result<Option<Arc<Vec<Noun>>>, AllocError>
    ensures { IfOk result (λ c. captured_in c ≡ captured.now.value.items) }
{
    if captured.is_empty() {
        Ok(None)
    } else {
        Ok(Some(Arc::try_clone(captured)?))
    }
}

/// The method with this verb and so many parameters: among many it is looked up, among few sought.
#[inline(always)]
pub fn find_method<'a>(
    object: &'a Plain,
    verb: &Verb,
    count: usize,
) -> Result<Option<&'a MethodCode>, AllocError>
    ensures { IfOk result (λ method. FindsForCount object.now.methods.value.items verb.now count (option_copied method)) }
{
    let methods = object.methods.as_slice();
    match &object.index {
        Some(index) => look_up_method(methods, index, verb, count),
        None => Ok(scan_methods(methods, verb, count)),
    }
}

/// The method that an index finds.
fn look_up_method<'a>(
    methods: &'a [MethodCode],
    index: &MethodIndex,
    verb: &Verb,
    count: usize,
) -> Result<Option<&'a MethodCode>, AllocError>
    requires { Indexes index.now (methods_of_codes methods.now) }
    ensures { IfOk result (λ method. FindsForCount methods.now verb.now count (option_copied method)) }
{
    match index.find(verb, count)? {
        Some(position) => Ok(Some(&methods[position])),
        None => Ok(None),
    }
}

/// The method that is found by looking at one after another.
#[inline(always)]
fn scan_methods<'a>(methods: &'a [MethodCode], verb: &Verb, count: usize) -> Option<&'a MethodCode>
    ensures { FindsForCount methods.now verb.now count (option_copied result) }
{
    let mut rest = methods;
    while let Some((method, others)) = rest.split_first() {
        if count == method.parameters.len() && method.verb.as_str() == verb.text().as_str() {
            return Some(method);
        }
        rest = others;
    }
    None
}

/// The names that a method begins with behind those that its object captured: the object's own, and the parameters, which take the
/// arguments.
fn method_nouns(
    mut nouns: Vec<Local>,
    id: ObjId,
    object: &Plain,
    parameters: &[Pattern],
    args: &mut [Value],
) -> Result<Vec<Local>, AllocError>
    requires empty { nouns.items ≡ [] }
    requires count { length args.old ≡ length parameters.now }
    ensures { IfOk result (λ ns. locals_after (nouns_of object.now.captured.value.items) ns.items ≡ named_all parameters.now (vals_of args.old)
        (named object.now.own (object_value id) (nouns_of object.now.captured.value.items))) }
{
    name_value(&mut nouns, &object.own, Value::Object(id))?;
    for i in 0..parameters.len() {
        let value = mem::replace(&mut args[i], Value::Null);
        name_value(&mut nouns, &parameters[i], value)?;
    }
    Ok(nouns)
}

/// Adds what a pattern names.
#[inline(always)]
pub fn name_value(nouns: &mut Vec<Local>, pattern: &Pattern, value: Value) -> Result<(), AllocError>
    ensures { OnOk result ((ns : Nouns) → locals_after ns nouns.new.items ≡ named pattern.now (val_of value) (locals_after ns nouns.old.items)) }
{
    match pattern {
        Pattern::Name(name) => add_local(nouns, name, Binding::Fixed(value)),
        Pattern::Ignore => Ok(()),
    }
}

/// Adds a newer name to a frame.
#[inline(always)]
fn add_local(nouns: &mut Vec<Local>, name: &Text, binding: Binding) -> Result<(), AllocError>
    ensures { OnOk result ((ns : Nouns) → locals_after ns nouns.new.items ≡ (name.now, bind_of binding) ∷ locals_after ns nouns.old.items) }
{
    let name = Snapshot::of(name);
    nouns.push(Local { name, binding })?;
    Ok(())
}
