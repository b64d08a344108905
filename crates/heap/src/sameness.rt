// When the contents of two cells are the same.
ghost use Rattle.std.specs.Prelude.{◌≡◌, ◌↔◌, IsTrue};
ghost use Rattle.heap.specs.View.{bind_of, nouns_of, plain_of, object_of, view_of};

use crate::made::{Made, Plain};
use crate::state::{Binding, Noun, View};
use code::sameness::{same_methods, same_pattern};
use std::sync::Arc;
use values::sameness::same;

/// Whether two names stand for the same.
pub fn same_binding(a: &Binding, b: &Binding) -> bool
    ensures { IsTrue result ↔ (bind_of a.now ≡ bind_of b.now) }
{
    match (a, b) {
        (Binding::Fixed(x), Binding::Fixed(y)) => same(x, y),
        (Binding::Slot(i), Binding::Slot(j)) => i == j,
        _ => false,
    }
}

/// Whether two objects are the same: both made alike by definitions, or resolvers of one promise.
pub fn same_made(a: &Made, b: &Made) -> bool
    ensures { IsTrue result ↔ (object_of a.now ≡ object_of b.now) }
{
    match (a, b) {
        (Made::Plain(x), Made::Plain(y)) => same_plain(x, y),
        (Made::Resolver(p), Made::Resolver(q)) => p == q,
        _ => false,
    }
}

/// Whether two objects that definitions made are the same: what they are named, what they captured, and their methods.
fn same_plain(a: &Plain, b: &Plain) -> bool
    ensures { IsTrue result ↔ (plain_of a.now ≡ plain_of b.now) }
{
    same_pattern(&a.own, &b.own)
        && same_nouns(&a.captured, &b.captured)
        && same_methods(&a.methods, &b.methods)
}

/// Whether the same is known of two promises.
pub fn same_view(a: &View, b: &View) -> bool
    ensures { IsTrue result ↔ (view_of a.now ≡ view_of b.now) }
{
    match (a, b) {
        (View::Open, View::Open) => true,
        (View::Resolved(x), View::Resolved(y)) => same(x, y),
        _ => false,
    }
}

/// Whether names stand for the same, in the same order.
pub fn same_nouns(xs: &Arc<Vec<Noun>>, ys: &Arc<Vec<Noun>>) -> bool
    ensures { IsTrue result ↔ (nouns_of xs.now.value.items ≡ nouns_of ys.now.value.items) }
{
    if xs.len() != ys.len() {
        return false;
    }
    for (x, y) in xs.iter().zip(ys.iter()) {
        if !same_noun(x, y) {
            return false;
        }
    }
    true
}

fn same_noun(x: &Noun, y: &Noun) -> bool
    ensures { IsTrue result ↔ ((x.now.name ≡ y.now.name) × (bind_of x.now.binding ≡ bind_of y.now.binding)) }
{
    x.name == y.name && same_binding(&x.binding, &y.binding)
}
