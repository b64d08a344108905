// Readers and writers that fail.

use crate::fakes::{Drip, ORDER, SUM, Tap, commands_of, dripping, replies_within, tapping, told};
use std::process::Abort;

fn expect(rt: &impl Abort, of: &str, told: &str, wanted: &str) {
    if told != wanted {
        panic!(rt; "{of}\nends: {told}\nand wanted is: {wanted}");
    }
}

/// A read fails behind the third line feed, which comes in pieces of several sizes.
#[test]
fn a_read_fails_behind_three_lines(rt: HostRuntime) {
    let commands = commands_of(&rt, SUM);
    for (most, calls_left) in [(1, 34), (2, 17), (17, 2), (34, 1)] {
        let input = Drip {
            bytes: commands.as_bytes(),
            most,
            calls_left,
        };
        let wanted = "ok e1 e1.m0\nok e2 value null\nok e3 e3.m0\n|reader 1 0";
        expect(
            &rt,
            "a reader",
            &told(&rt, input, tapping(&rt, 100)),
            wanted,
        );
    }
}

/// A writer takes twenty bytes, or none, and then fails or takes nothing more.
#[test]
fn a_write_fails(rt: HostRuntime) {
    let commands = commands_of(&rt, SUM);
    for most in [1, 3, 100] {
        for (room, wanted) in [(20, "ok e1 e1.m0\nok e2 va|writer 0 1"), (0, "|writer 0 1")] {
            let output = Tap {
                room,
                ..tapping(&rt, most)
            };
            let input = dripping(commands.as_bytes(), most);
            expect(
                &rt,
                "a writer that is full",
                &told(&rt, input, output),
                wanted,
            );
        }
    }
    // A flush comes before the first read.
    for (calls_left, wanted) in [(21, "ok e1 e1.m0\nok e2 va|writer 0 1"), (0, "|writer 0 1")] {
        let output = Tap {
            calls_left,
            ..tapping(&rt, 1)
        };
        let input = dripping(commands.as_bytes(), 100);
        expect(
            &rt,
            "a writer that fails",
            &told(&rt, input, output),
            wanted,
        );
    }
}

/// Each read of a session fails in turn: what was read whole is answered, and nothing else.
#[test]
fn each_read_fails(rt: HostRuntime) {
    let commands = commands_of(&rt, ORDER);
    for most in [1, 7, 100] {
        for calls_left in 0..600u32 {
            let count = (calls_left as usize).saturating_mul(most);
            if count > commands.len() {
                break;
            }
            let input = Drip {
                bytes: commands.as_bytes(),
                most,
                calls_left,
            };
            let replies = replies_within(&rt, ORDER, count);
            let wanted = format!(in rt.alloc(); "{replies}|reader 1 0").expect(&rt, "no memory");
            let outcome = told(&rt, input, tapping(&rt, 100));
            expect(&rt, "a read that fails", &outcome, &wanted);
        }
    }
}

/// Each write of a session fails in turn: what went out is a beginning of the replies, and all that the calls before took.
#[test]
fn each_write_fails(rt: HostRuntime) {
    let commands = commands_of(&rt, ORDER);
    let replies = replies_within(&rt, ORDER, commands.len());
    for (most, taken) in [(1, 1), (1, 100), (100, 7), (8_192, 100)] {
        let mut before: usize = 0;
        let mut is_whole = false;
        for calls_left in 0..3_000u32 {
            let output = Tap {
                calls_left,
                ..tapping(&rt, taken)
            };
            let outcome = told(&rt, dripping(commands.as_bytes(), most), output);
            let Some(out) = outcome.as_str().strip_suffix("|writer 0 1") else {
                let wanted = format!(in rt.alloc(); "{replies}|refused 0 0").expect(
                    &rt,
                    "no memory",
                );
                expect(&rt, "a session", &outcome, &wanted);
                is_whole = true;
                break;
            };
            assert!(rt; replies.as_str().starts_with(out));
            // One call more takes no less than was taken before, and not much more.
            assert!(rt; out.len() >= before);
            assert!(rt; out.len() <= before.saturating_add(taken));
            before = out.len();
        }
        assert!(rt; is_whole);
        assert!(rt; replies.len() <= before.saturating_add(taken));
    }
}

/// What a step told goes out before the next one: a writer that fails behind it took that, and nothing else.
#[test]
fn a_write_fails_within_a_run(rt: HostRuntime) {
    let input = dripping(b"vat a () 0\nvat b () 0\nrun 4\n", 100);
    let output = Tap {
        calls_left: 3,
        ..tapping(&rt, 100)
    };
    let wanted = "ok e1 e1.m0\nok e2 e2.m0\nok e3 value null\n|writer 0 1";
    expect(&rt, "a run", &told(&rt, input, output), wanted);
}
