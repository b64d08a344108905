// Lines that are long, or that the input ends within.

use crate::fakes::{dripping, tapping, told};
use std::process::Abort;

/// Runs commands in pieces of several sizes.
fn expect(rt: &(impl Abort + AllocGlobal), commands: &str, wanted: &str) {
    for most in [1, 5, 8_191, 100_000] {
        let outcome = told(rt, dripping(commands.as_bytes(), most), tapping(rt, 100));
        if outcome.as_str() != wanted {
            panic!(rt; "in pieces of {most} is answered: {outcome}\nand wanted is: {wanted}");
        }
    }
}

#[test]
fn sessions_end_anywhere(rt: HostRuntime) {
    for (commands, wanted) in [
        ("", "|accepted 0 0"),
        ("\n \t\n# nothing\r\n", "|accepted 0 0"),
        ("vat a () 0", "ok e1 e1.m0\n|accepted 0 0"),
        (
            "vat a () 0\r\nhop\n\nvat b () 0\n",
            "ok e1 e1.m0\nno S1 UnknownCommand\nok e2 e2.m0\n|refused 0 0",
        ),
        ("vat a () 0\r", "no S2 BadWord\n|refused 0 0"),
        ("vat a () 1\n", "no S4 Truncated\n|refused 0 0"),
        ("vat a () 1\n\n", "ok e1 e1.m0\n|accepted 0 0"),
        ("vat a () 3\ndef x := 1\nx", "no S4 Truncated\n|refused 0 0"),
        (
            "vat a () 3\nx\nx\nvat b () 0\nvat c () 0\n",
            "no L5 Unexpected 8\nok e1 e1.m0\n|refused 0 0",
        ),
        (
            "vat a () x\nvat b () 0\n",
            "no S2 BadWord\nok e1 e1.m0\n|refused 0 0",
        ),
        (
            "vat a (b) 1\n1\nturn e1.m0\n",
            "no B1 NoVat b\nno B3 NoMessage e1.m0\n|refused 0 0",
        ),
    ] {
        expect(&rt, commands, wanted);
    }
}

/// A line of 65,536 bytes is read; one byte more is too much, also in a script, all of whose lines are taken.
#[test]
fn lines_of_each_length(rt: HostRuntime) {
    let fits = "x".repeat(rt.alloc(), 65_536).expect(&rt, "no memory");
    let commands = format!(in rt.alloc();
        "{fits}\nx{fits}\nvat a () 2\nx{fits}\nvat b () 0\nvat c () 0\n"
    ).expect(&rt, "no memory");
    let wanted =
        "no S1 UnknownCommand\nno S3 LineTooLong\nno S3 LineTooLong\nok e1 e1.m0\n|refused 0 0";
    expect(&rt, &commands, wanted);
}
