// Values as text.
ghost use Rattle.std.specs.Prelude.{◌≡◌, ◌++◌, IfOk, OnOk, codes, string_bytes};
ghost use Rattle.ids.specs.Quoted.{quoted};
ghost use Rattle.values.specs.Shown.{shown, shown_items};
ghost use Rattle.values.specs.View.{val_of, vals_of};

use crate::value::Value;
use ids::quote::write_quoted;
use std::alloc::{AllocError, Global};
use std::fmt::Write;

/// A value as text.
pub fn show(alloc: Global, value: &Value) -> Result<String, AllocError>
    ensures { IfOk result (λ s. string_bytes s ≡ shown (val_of value.now)) }
{
    let mut text = String::new(alloc);
    write_value(value, &mut text)?;
    Ok(text)
}

/// Writes a value as text at the end of a string.
#[cycle(showing)]
pub fn write_value(value: &Value, out: &mut String) -> Result<(), AllocError>
    ensures { OnOk result (string_bytes out.new ≡ string_bytes out.old ++ shown (val_of value.now)) }
{
    match value {
        Value::Null => out.push_str("null"),
        Value::Bool(true) => out.push_str("true"),
        Value::Bool(false) => out.push_str("false"),
        Value::Int(integer) => write!(out, "{integer}"),
        Value::Text(text) => write_quoted(text.as_str(), out),
        Value::List(items) => write_list(items.as_slice(), out),
        Value::Object(object) => write!(out, "<{object}>"),
        Value::Ejector(ejector) => write!(out, "<{ejector}>"),
        Value::Promise(promise) => write!(out, "<{promise}>"),
        Value::Broken(problem) => write_broken(problem.as_str(), out),
    }
}

/// Writes items between brackets, with a comma and a space between two of them.
#[cycle(showing)]
fn write_list(items: &[Value], out: &mut String) -> Result<(), AllocError>
    ensures { OnOk result (string_bytes out.new ≡ string_bytes out.old ++ (codes "[" ++ (shown_items (vals_of items.now) ++ codes "]"))) }
{
    out.push_str("[")?;
    let mut separator = "";
    for item in items {
        out.push_str(separator)?;
        write_value(item, out)?;
        separator = ", ";
    }
    out.push_str("]")
}

fn write_broken(problem: &str, out: &mut String) -> Result<(), AllocError>
    ensures { OnOk result (string_bytes out.new ≡ string_bytes out.old ++ (codes "<broken " ++ (quoted problem.now ++ codes ">"))) }
{
    out.push_str("<broken ")?;
    write_quoted(problem, out)?;
    out.push('>')
}
