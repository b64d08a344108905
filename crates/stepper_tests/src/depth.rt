// The deepest calls on a stack smaller than the program's own, as a thread of many would have it.

use crate::fakes::{Talk, commands_of, replies_within};
use book_crew::crew::Nobody;
use std::alloc::Global;
use std::process::Abort;
use std::rt::Runtime;
use std::thread::{Builder, Threads};
use stepper::{Limits, run};
use stepper_streams::lines::Lines;
use stepper_streams::outlet::Outlet;

/// The stack of a thread that only runs turns, in bytes: level 1,000 fits it.
const STACK_OF_TURNS: usize = 16 << 20;

/// The replies to commands, where the run comes to its end.
fn replies(alloc: Global, commands: &[u8]) -> Option<Vec<u8>> {
    let limits = Limits {
        budget: 10_000,
        workers: 8,
    };
    let mut source = Lines::new(alloc, commands).ok()?;
    let mut sink = Outlet::new(alloc, Vec::new(alloc));
    match run(alloc, &mut source, &mut sink, limits, &mut Nobody) {
        Ok(_) => Some(sink.into_writer()),
        Err(_) => None,
    }
}

/// Runs commands on the smaller stack, and compares the replies.
fn expect(rt: &(impl Runtime + AllocGlobal + Threads + Abort), commands: String, wanted: &str) {
    let alloc = rt.alloc();
    let answering = move || replies(alloc, commands.as_bytes());
    let thread = Builder::new()
        .stack_size(STACK_OF_TURNS)
        .spawn(rt, answering)
        .expect(rt, "no thread");
    match thread.join(rt) {
        Some(written) => {
            let answered = str::from_utf8(&written).unwrap_or("bytes that are no text");
            if answered != wanted {
                panic!(rt; "is answered: {answered}\nand wanted is: {wanted}");
            }
        }
        None => rt.panic("no memory"),
    }
}

/// Calls without end.
const ENDLESS: Talk = &[
    ("vat a () 1\ndef f() { f() }\n", "ok e1 e1.m0\n"),
    ("turn e1.m0\n", "ok e2 value <e2.o0>\n"),
    ("ask a f()\n", "ok e3 e3.m0\n"),
    ("turn e3.m0\n", "ok e4 abandoned \"calls too deep\"\n"),
];

/// One of `f(n)` at level k reaches level k + 2n + 3; the deepest is 1,000.
const DEEPEST: Talk = &[
    (
        "vat a () 1\ndef f { method run(n) { if (n > 0) { f(n - 1) } } }\n",
        "ok e1 e1.m0\n",
    ),
    ("turn e1.m0\n", "ok e2 value <e2.o0>\n"),
    ("ask a f(498)\n", "ok e3 e3.m0\n"),
    ("turn e3.m0\n", "ok e4 value null\n"),
    ("ask a [f(498)]\n", "ok e5 e5.m0\n"),
    ("turn e5.m0\n", "ok e6 abandoned \"calls too deep\"\n"),
];

/// The same where each call returns.
const RETURNING: Talk = &[
    (
        "vat a () 1\ndef f(n) { if (n == 0) { return 0 }; return f(n - 1) }\n",
        "ok e1 e1.m0\n",
    ),
    ("turn e1.m0\n", "ok e2 value <e2.o0>\n"),
    ("ask a f(331)\n", "ok e3 e3.m0\n"),
    ("turn e3.m0\n", "ok e4 value 0\n"),
    ("ask a f(332)\n", "ok e5 e5.m0\n"),
    ("turn e5.m0\n", "ok e6 abandoned \"calls too deep\"\n"),
];

/// The same through a `try`, an `escape` and a loop.
const THROUGH_BLOCKS: Talk = &[
    (
        "vat a () 1\ndef f { method run(n) { if (n > 0) { try { escape e { for x in [n] { e(f(n - 1)) } } } catch p { p } } else { n } } }\n",
        "ok e1 e1.m0\n",
    ),
    ("turn e1.m0\n", "ok e2 value <e2.o0>\n"),
    ("ask a f(124)\n", "ok e3 e3.m0\n"),
    ("turn e3.m0\n", "ok e4 value 0\n"),
    ("ask a f(200)\n", "ok e5 e5.m0\n"),
    ("turn e5.m0\n", "ok e6 abandoned \"calls too deep\"\n"),
];

#[test]
fn deep_calls(rt: HostRuntime) {
    for talk in [ENDLESS, DEEPEST, RETURNING, THROUGH_BLOCKS] {
        let commands = commands_of(&rt, talk);
        let wanted = replies_within(&rt, talk, commands.len());
        expect(&rt, commands, &wanted);
    }
}

/// A sum of 198 ones is 198 levels deep, so the call of it may stand at level 801.
#[test]
fn the_deepest_tree_at_the_deepest_level(rt: HostRuntime) {
    let ones = "1 + ".repeat(rt.alloc(), 197).expect(&rt, "no memory");
    let commands = format!(in rt.alloc();
        "vat a () 2\ndef g {{ method run() {{ {ones}1 }} }}\ndef f {{ method run(n) {{ if (n > 0) {{ f(n - 1) }} else {{ g() }} }} }}\nturn e1.m0\nask a f(399)\nturn e3.m0\nask a f(400)\nturn e5.m0\n"
    ).expect(&rt, "no memory");
    let wanted =
        "ok e1 e1.m0\nok e2 value <e2.o1>\nok e3 e3.m0\nok e4 value 198\nok e5 e5.m0\nok e6 abandoned \"calls too deep\"\n";
    expect(&rt, commands, wanted);
}
