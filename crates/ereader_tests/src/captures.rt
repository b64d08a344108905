// The names that a program defines, and what an object or a `when` captures.

use crate::answers::Asked;
use crate::tables::expect;

const DEFINED: &str = r#"
def y := (var x := 1) => var x def y
def f(x) { def y := x }; { def z := 1 } => def f
def [a, _, b] := [1, 2, 3] => def a def b
when ((def x := a)) -> { def y := 1 } catch z { } => def x
(def x := a) <- m((var y := b)); Ref.state((def z := 1)) => def x var y def z
"#;

const CAPTURED: &str = r#"
def f { method m(x) { b + (f + a) } method n() { a } } => b a
def f { method m(x) { def y := z; y := x } } => z
def f { method m() { z := y } } => z y
def f { method m() { a <- m(b, a) } } => a b
def f { method m() { when (a) -> { b } catch p { p + (f + c) } } } => a b c
when (a) -> { b + (c + b) } => b c
when (a) -> { def x := b; x } catch p { p + (x + b) } => b x
when ((def x := a)) -> { x } => x
when (a) -> { x := y } => x y
"#;

#[test]
fn finds_names(rt: HostRuntime) {
    expect(&rt, Asked::Names, &[DEFINED]);
    expect(&rt, Asked::Captures, &[CAPTURED]);
}
