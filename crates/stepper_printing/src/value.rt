// Values, as they are printed.
ghost use Rattle.std.specs.Prelude.{◌++◌, codes};
ghost use Rattle.ids.specs.Names.{reference_text};
ghost use Rattle.ids.specs.Quoted.{quoted};
ghost use Rattle.values.specs.Shown.{shown, shown_items};
ghost use Rattle.values.specs.View.{val_of, vals_of};
ghost use Rattle.stepper_streams.specs.Outlet.{Tells};

use crate::names::put_reference;
use crate::quoting::put_quoted;
use ids::reference::Reference;
use std::io::Write;
use stepper_streams::outlet::Outlet;
use values::value::Value;

fn put_target<W: Write>(reference: Reference, out: &mut Outlet<W>)
    ensures { Tells W.contents out.old out.new (codes "<" ++ (reference_text reference ++ codes ">")) }
{
    out.put("<");
    put_reference(reference, out);
    out.put(">");
}

fn put_broken<W: Write>(problem: &str, out: &mut Outlet<W>)
    ensures { Tells W.contents out.old out.new (codes "<broken " ++ (quoted problem.now ++ codes ">")) }
{
    out.put("<broken ");
    put_quoted(problem, out);
    out.put(">");
}

/// Puts a value.
#[cycle(printing)]
pub fn put_value<W: Write>(value: &Value, out: &mut Outlet<W>)
    ensures { Tells W.contents out.old out.new (shown (val_of value.now)) }
{
    match value {
        Value::Null => out.put("null"),
        Value::Bool(true) => out.put("true"),
        Value::Bool(false) => out.put("false"),
        Value::Int(integer) => out.put_number(*integer),
        Value::Text(text) => put_quoted(text.as_str(), out),
        Value::List(items) => put_list(items.as_slice(), out),
        Value::Object(object) => put_target(Reference::Object(*object), out),
        Value::Ejector(ejector) => put_target(Reference::Ejector(*ejector), out),
        Value::Promise(promise) => put_target(Reference::Promise(*promise), out),
        Value::Broken(problem) => put_broken(problem.as_str(), out),
    }
}

/// Puts items between brackets, with a comma and a space between two of them.
#[cycle(printing)]
fn put_list<W: Write>(items: &[Value], out: &mut Outlet<W>)
    ensures { Tells W.contents out.old out.new (codes "[" ++ (shown_items (vals_of items.now) ++ codes "]")) }
{
    out.put("[");
    let mut separator = "";
    for item in items {
        out.put(separator);
        put_value(item, out);
        separator = ", ";
    }
    out.put("]");
}
