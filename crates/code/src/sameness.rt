// When two programs are the same. Where their names are found is not compared, since it goes by the names.
ghost use Rattle.std.specs.Prelude.{◌≡◌};
ghost use Rattle.code.specs.View.{tree_of_code, trees_of_codes, methods_of_codes};
ghost use Rattle.code.specs.Sameness.{pattern_alike, patterns_alike, primitive_alike, alike, all_alike, methods_alike, method_alike};

use crate::code::{Code, MethodCode};
use kernele::tree::{Pattern, Primitive};
use std::sync::Arc;

/// Whether patterns bind the same.
pub fn same_pattern(a: &Pattern, b: &Pattern) -> bool
    ensures { result ≡ pattern_alike a.now b.now }
{
    match (a, b) {
        (Pattern::Name(x), Pattern::Name(y)) => x == y,
        (Pattern::Ignore, Pattern::Ignore) => true,
        _ => false,
    }
}

fn same_patterns(ps: &Arc<Vec<Pattern>>, qs: &Arc<Vec<Pattern>>) -> bool
    ensures { result ≡ patterns_alike ps.now.value.items qs.now.value.items }
{
    if ps.len() != qs.len() {
        return false;
    }
    for (p, q) in ps.iter().zip(qs.iter()) {
        if !same_pattern(p, q) {
            return false;
        }
    }
    true
}

fn same_primitive(p: &Primitive, q: &Primitive) -> bool
    ensures { result ≡ primitive_alike p.now q.now }
{
    match (p, q) {
        (Primitive::Throw, Primitive::Throw)
        | (Primitive::BreakRef, Primitive::BreakRef)
        | (Primitive::StateRef, Primitive::StateRef) => true,
        _ => false,
    }
}

#[cycle(sameness)]
fn same_code(a: &Code, b: &Code) -> bool
    ensures { result ≡ alike (tree_of_code a.now) (tree_of_code b.now) }
{
    match (a, b) {
        (Code::Null, Code::Null) => true,
        (Code::Bool(x), Code::Bool(y)) => x == y,
        (Code::Int(x), Code::Int(y)) => x == y,
        (Code::Text(x), Code::Text(y)) => x == y,
        (Code::Noun(x, _), Code::Noun(y, _)) => x == y,
        (Code::Def(p, e), Code::Def(q, f)) => same_pattern(p, q) && same_code(e, f),
        (Code::Var(x, e), Code::Var(y, f)) => x == y && same_code(e, f),
        (Code::Assign(x, _, e), Code::Assign(y, _, f)) => x == y && same_code(e, f),
        (Code::Call(r, v, xs), Code::Call(s, w, ys)) => {
            v.text() == w.text() && same_code(r, s) && same_codes(xs, ys)
        }
        (Code::List(xs), Code::List(ys)) => same_codes(xs, ys),
        (Code::Hide(xs), Code::Hide(ys)) => same_codes(xs, ys),
        (Code::Same(l, r), Code::Same(m, s)) => same_code(l, m) && same_code(r, s),
        (Code::DefList(ps, e), Code::DefList(qs, f)) => same_patterns(ps, qs) && same_code(e, f),
        (Code::If(c, xs, us), Code::If(d, ys, vs)) => {
            same_code(c, d) && same_codes(xs, ys) && same_codes(us, vs)
        }
        (Code::While(c, xs), Code::While(d, ys)) => same_code(c, d) && same_codes(xs, ys),
        (Code::For(p, e, xs), Code::For(q, f, ys)) => {
            same_pattern(p, q) && same_code(e, f) && same_codes(xs, ys)
        }
        (Code::Try(xs, p, us), Code::Try(ys, q, vs)) => {
            same_codes(xs, ys) && same_pattern(p, q) && same_codes(us, vs)
        }
        (Code::Primitive(p, e), Code::Primitive(q, f)) => same_primitive(p, q) && same_code(e, f),
        (Code::Object(p, _, ms, _), Code::Object(q, _, ns, _)) => {
            same_pattern(p, q) && same_methods(ms, ns)
        }
        (Code::Escape(x, xs), Code::Escape(y, ys)) => x == y && same_codes(xs, ys),
        (Code::Send(r, v, xs), Code::Send(s, w, ys)) => {
            v.text() == w.text() && same_code(r, s) && same_codes(xs, ys)
        }
        (Code::When(e, _, xs), Code::When(f, _, ys)) => same_code(e, f) && same_codes(xs, ys),
        (Code::WhenCatch(e, _, xs, p, us), Code::WhenCatch(f, _, ys, q, vs)) => {
            same_code(e, f) && same_codes(xs, ys) && same_pattern(p, q) && same_codes(us, vs)
        }
        (Code::NewPromise, Code::NewPromise) => true,
        _ => false,
    }
}

/// Whether code in order stands for the same trees.
#[cycle(sameness)]
pub fn same_codes(xs: &Arc<Vec<Code>>, ys: &Arc<Vec<Code>>) -> bool
    ensures { result ≡ all_alike (trees_of_codes xs.now.value.items) (trees_of_codes ys.now.value.items) }
{
    if xs.len() != ys.len() {
        return false;
    }
    for (x, y) in xs.iter().zip(ys.iter()) {
        if !same_code(x, y) {
            return false;
        }
    }
    true
}

/// Whether methods stand for the same ones.
#[cycle(sameness)]
pub fn same_methods(ms: &Arc<Vec<MethodCode>>, ns: &Arc<Vec<MethodCode>>) -> bool
    ensures { result ≡ methods_alike (methods_of_codes ms.now.value.items) (methods_of_codes ns.now.value.items) }
{
    if ms.len() != ns.len() {
        return false;
    }
    for (m, n) in ms.iter().zip(ns.iter()) {
        if !same_method(m, n) {
            return false;
        }
    }
    true
}

#[cycle(sameness)]
fn same_method(m: &MethodCode, n: &MethodCode) -> bool
    ensures { result ≡ method_alike m.now n.now }
{
    m.verb == n.verb && same_patterns(&m.parameters, &n.parameters) && same_codes(&m.body, &n.body)
}
