// What tokens a text has: each behind its offset.

use crate::answers::Asked;
use crate::tables::{expect, expect_repeated};

const EACH_KIND: &str = r#"
 =>
 ␉␍␊# only a comment =>
def x := 007 => 0:Def 4:x 6:Becomes 9:7
defx _ _x __ Ref x1 => 0:defx 5:Underscore 7:_x 10:__ 13:Ref 17:x1
12ab => 0:12 2:ab
"a\n\"\\\'\t\r" "é" => 0:"a␊"\'␉␍" 16:"é"
9223372036854775807 => 0:9223372036854775807
"#;

const LONGEST: &str = r#"
<=<-<->=> => 0:AtMost 2:SendTo 4:SendTo 6:AtLeast 8:More
->-:===!=! => 0:Arrow 2:Minus 3:Becomes 5:Equal 7:NotEqual 9:Not
x<-1 => 0:x 1:SendTo 3:1
&&||//+*,. => 0:And 2:Or 4:Divide 6:Plus 7:Times 8:Comma 9:Dot
"#;

const BREAKS: &str = r#"
a␊-b => 0:a 2:Semicolon 2:Minus 3:b
a␊␊ # note␊ b => 0:a 12:Semicolon 12:b
a # note␊b => 0:a 9:Semicolon 9:b
a # note => 0:a
␊a␍ b␊+ c␊{ => 1:a 4:b 6:Plus 8:c 10:OpenCurly
(a␊b)␊c => 0:OpenRound 1:a 3:b 4:CloseRound 6:Semicolon 6:c
({a␊b␊}␊) => 0:OpenRound 1:OpenCurly 2:a 4:Semicolon 4:b 6:CloseCurly 8:CloseRound
)␊[a␊b}␊c => 0:CloseRound 2:Semicolon 2:OpenSquare 3:a 5:b 6:CloseCurly 8:Semicolon 8:c
"x␊y"␊!z => 0:"x␊y" 6:Semicolon 6:Not 7:z
return␊1␊else␊to;␊a => 0:Return 7:Semicolon 7:1 9:Else 14:To 16:Semicolon 18:a
"#;

#[test]
fn finds_tokens(rt: HostRuntime) {
    expect(&rt, Asked::Tokens, &[EACH_KIND, LONGEST, BREAKS]);
}

/// Line feeds that are tokens count as tokens do.
#[test]
fn limits(rt: HostRuntime) {
    expect_repeated(&rt, Asked::Tokens, &[("a\n", 8_193, "", "L8 TooLong")]);
}
