// What programs are read as: the canonical spelling of the tree.

use crate::answers::Asked;
use crate::tables::{expect, expect_answer, expect_repeated, repeated};

const PROGRAMS: &str = r#"
 =>
; ; ; =>
1 ; 2 ; ; 3 ; => 1; 2; 3
; x => x
null ; true ; false ; "hi" ; x => null; true; false; "hi"; x
1 + 2 * 3 => 1.add(2.multiply(3))
1 * 2 + 3 => 1.multiply(2).add(3)
( 1 + 2 ) * 3 => 1.add(2).multiply(3)
1 - 2 - 3 => 1.subtract(2).subtract(3)
8 // 4 * 2 => 8.floorDivide(4).multiply(2)
1 + 2 < 3 => 1.add(2).lessThan(3)
a <= b ; a > b ; a >= b => a.atMost(b); a.moreThan(b); a.atLeast(b)
a == b ; a != b => (a == b); (a == b).not()
- 1 + ! a => 1.negate().add(a.not())
- a . size ( ) => a.size().negate()
f ( 1 , 2 ) ( 3 ) => f.run(1, 2).run(3)
a [ 1 ] . with ( x ) => a.get(1).with(x)
[ ] ; [ 1 , [ 2 ] ] => []; [1, [2]]
def x := 1 + 2 => def x := 1.add(2)
( def _ := 1 ) + 2 => (def _ := 1).add(2)
var x := 1 + 2 => var x := 1.add(2)
x := x == 1 ; y => x := (x == 1); y
( var x := 1 ) + 2 => (var x := 1).add(2)
f ( ( x := 1 ) ) => f.run((x := 1))
x:=y␊z := (y := 2) => x := y; z := (y := 2)
def x:=-1␊# a comment␊x!=2 => def x := 1.negate(); (x == 2).not()
"#;

const BLOCKS: &str = r#"
{ } => { }
{ ; ; } => { }
{ 1 ; { 2 ; { } } } ; 3 => { 1; { 2; { } } }; 3
{ def x := 1␊x } => { def x := 1; x }
f ( { 1 } , { 2 } ) + { 3 } => f.run({ 1 }, { 2 }).add({ 3 })
{ 1 } . size ( ) => ({ 1 }).size()
def [ ] := [ ] => def [] := []
def [ a , _ , b ] := c + 1 => def [a, _, b] := c.add(1)
( def [ a ] := b ) . size ( ) => (def [a] := b).size()
if ( a ) { b } => if (a) { b } else { }
if ( a ) { b } else { c ; d } => if (a) { b } else { c; d }
if ( a ) { 1 } else if ( b ) { 2 } else { 3 } => if (a) { 1 } else { if (b) { 2 } else { 3 } }
if ( a ) { } else if ( b ) { } else if ( c ) { 3 } => if (a) { } else { if (b) { } else { if (c) { 3 } else { } } }
if ( a ) { 1 } + 2 => (if (a) { 1 } else { }).add(2)
if ( ( def x := 1 ) ) { x } => if ((def x := 1)) { x } else { }
while ( a < 1 ) { a := a + 1 ; b } => while (a.lessThan(1)) { a := a.add(1); b }
for x in [ 1 , 2 ] { x } => for x in [1, 2] { x }
for _ in a || b { } => for _ in if (a) { true } else { b } { }
for a in for b in c { 1 } { 2 } => for a in for b in c { 1 } { 2 }
try { 1 ; 2 } catch p { 3 } => try { 1; 2 } catch p { 3 }
try { } catch _ { } => try { } catch _ { }
throw ( "no" ) ; 1 => throw("no"); 1
- throw ( 1 ) * 2 => (throw(1)).negate().multiply(2)
"#;

const OBJECTS: &str = r#"
def x { } => def x { }
def x { method m ( a , _ ) { 1 ; a } method m ( ) { } } => def x { method m(a, _) { 1; a } method m() { } }
def _ { to m ( ) { 1 } method n ( ) { 2 } } => def _ { method m() { escape __return { 1; null } } method n() { 2 } }
def x {␊ to m ( ) {␊ 1␊ }␊␊ method n ( ) { }␊}␊x => def x { method m() { escape __return { 1; null } } method n() { } }; x
def f ( x , y ) { x } => def f { method run(x, y) { escape __return { x; null } } }
def f ( ) { } ( 1 ) + 2 => (def f { method run() { escape __return { null } } }).run(1).add(2)
- def x { } . size ( ) * 2 => (def x { }).size().negate().multiply(2)
def x := def y { } => def x := def y { }
f ( def x { } , [ def y { } ] ) => f.run(def x { }, [def y { }])
for x in def y { } { } => for x in def y { } { }
escape x { x ( 1 ) ; 2 } => escape x { x.run(1); 2 }
escape x { } . size ( ) + 1 => (escape x { }).size().add(1)
"#;

const RETURNS: &str = r#"
return => __return.run(null)
return ; 1 => __return.run(null); 1
return␊1 => __return.run(null); 1
{ return } => { __return.run(null) }
( return ) + 1 => __return.run(null).add(1)
return 1 + 2 => __return.run(1.add(2))
return a || b => __return.run(if (a) { true } else { b })
return - 1 ; return ! a => __return.run(1.negate()); __return.run(a.not())
return ( 1 ) ; return [ ] => __return.run(1); __return.run([])
return { 1 } => __return.run({ 1 })
return "a" ; return null => __return.run("a"); __return.run(null)
return if ( a ) { } => __return.run(if (a) { } else { })
return def x { } => __return.run(def x { })
return escape x { } => __return.run(escape x { })
return throw ( a ) => __return.run(throw(a))
"#;

const SENDS: &str = r#"
a <- b ( 1 , c ) => a <- b(1, c)
a <- ( ) => a <- run()
a <- ( 1 ) ( 2 ) => a <- run(1).run(2)
a <- f ( ) <- g ( ) . h ( ) [ 1 ] => a <- f() <- g().h().get(1)
( a + b ) <- c ( ) => a.add(b) <- c()
- a <- b ( ) => a <- b().negate()
[ a ] <- b ( c <- d ( ) ) => [a] <- b(c <- d())
{ a } <- b ( ) => ({ a }) <- b()
a <- b ( ) + 1 == 2 => (a <- b().add(1) == 2)
( def x := a ) <- b ( ( def y := c ) ) => (def x := a) <- b((def y := c))
a <- promise ( ) . broken ( ) => a <- promise().broken()
a␊<- b ( ) => a <- b()
"#;

const WHENS: &str = r#"
when ( a ) -> { b } => when (a) -> { b }
when ( a ) -> { } catch p { p } => when (a) -> { } catch p { p }
when ( a && b ) -> { 1 ; 2 } catch _ { } => when (if (a) { b } else { false }) -> { 1; 2 } catch _ { }
when ( ( def x := a ) ) -> { x } => when ((def x := a)) -> { x }
when ( a ) -> { b } . size ( ) => (when (a) -> { b }).size()
when ( a ) -> { } catch p { } <- f ( ) + 1 => (when (a) -> { } catch p { }) <- f().add(1)
x␊when ( a ) -> { }␊catch p { }␊y => x; when (a) -> { } catch p { }; y
try { when ( a ) -> { } } catch p { } => try { when (a) -> { } } catch p { }
when ( when ( a ) -> { } catch p { } ) -> { } => when (when (a) -> { } catch p { }) -> { }
return when ( a ) -> { } => __return.run(when (a) -> { })
"#;

const REFS: &str = r#"
Ref . promise ( ) => Ref.promise()
Ref . broken ( "no" ) ; Ref . state ( x ) => Ref.broken("no"); Ref.state(x)
Ref . state ( ( def x := 1 ) ) => Ref.state((def x := 1))
- Ref . promise ( ) [ 0 ] => (Ref.promise()).get(0).negate()
def [ p , r ] := Ref . promise ( ) => def [p, r] := Ref.promise()
x␊Ref . promise ( ) => x; Ref.promise()
return Ref . promise ( ) => __return.run(Ref.promise())
promise ; broken ( state ) => promise; broken.run(state)
"#;

const AND_AND_OR: &str = r#"
a && b => if (a) { b } else { false }
a || b => if (a) { true } else { b }
a || b && c => if (a) { true } else { if (b) { c } else { false } }
a && b || c => if (if (a) { b } else { false }) { true } else { c }
a && b && c => if (if (a) { b } else { false }) { c } else { false }
a || b || c => if (if (a) { true } else { b }) { true } else { c }
a == 1 && ! b => if ((a == 1)) { b.not() } else { false }
def x := a && b => def x := if (a) { b } else { false }
[ a || b , c ] => [if (a) { true } else { b }, c]
"#;

const GIVEN_TOKENS: &str = r#"
a(1) => a.run(1)
a(1 => L5 Unexpected 3
a(" => L2 UnclosedText 2
"#;

#[test]
fn reads_programs(rt: HostRuntime) {
    expect(
        &rt,
        Asked::Spelling,
        &[
            PROGRAMS, BLOCKS, OBJECTS, RETURNS, AND_AND_OR, SENDS, WHENS, REFS,
        ],
    );
    expect(&rt, Asked::SpellingOfTokens, &[GIVEN_TOKENS]);
}

#[test]
fn reads_long_programs(rt: HostRuntime) {
    let wanted = repeated(rt.alloc(), "1.add(2); f.run(x).y(); ", 1_200, "3").expect(
        &rt,
        "no memory",
    );
    expect_repeated(
        &rt,
        Asked::Spelling,
        &[("1 + 2 ; f ( x ) . y ( ) ; ", 1_200, "3", &wanted)],
    );
}

/// No bracket is open where one `for` stands in the list of another; the program reads the deepest of them.
#[test]
fn reads_deep_programs(rt: HostRuntime) {
    let bodies = repeated(rt.alloc(), " { }", 500, "").expect(&rt, "no memory");
    let end = format!(in rt.alloc(); "x{bodies}").expect(&rt, "no memory");
    let text = repeated(rt.alloc(), "for a in ", 500, &end).expect(&rt, "no memory");
    expect_answer(&rt, Asked::Spelling, &text, &text);
}
