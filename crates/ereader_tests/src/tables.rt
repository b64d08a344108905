// Tables of texts and of the answers that are wanted. A line of a table is a text, ` =>`, and its answer; the picture of a
// control character, as ␊ of the line feed, stands for that character. Memory is ample, so where it runs out a test fails.

use crate::answers::{Asked, answer};
use std::alloc::{AllocError, Global};
use std::process::Abort;

/// Compares what each text of some tables is answered with what stands beside it.
pub(crate) fn expect(rt: &(impl Abort + AllocGlobal), asked: Asked, tables: &[&str]) {
    for table in tables {
        for line in table.lines() {
            let row = meant(rt.alloc(), line).expect(rt, "no memory");
            expect_row(rt, asked, &row);
        }
    }
}

fn expect_row(rt: &(impl Abort + AllocGlobal), asked: Asked, row: &str) {
    match row.split_once(" =>") {
        Some((text, wanted)) => expect_answer(rt, asked, text, wanted.trim_start()),
        None => assert!(rt; row.is_empty(), "no answer in {row}"),
    }
}

/// The same for texts that repeat a part: the part, how many times, the end behind it, and the answer that is wanted.
pub(crate) fn expect_repeated(
    rt: &(impl Abort + AllocGlobal),
    asked: Asked,
    rows: &[(&str, usize, &str, &str)],
) {
    for (part, times, end, wanted) in rows {
        let text = repeated(rt.alloc(), part, *times, end).expect(rt, "no memory");
        expect_answer(rt, asked, &text, wanted);
    }
}

/// A part so many times, and an end behind it.
pub(crate) fn repeated(
    alloc: Global,
    part: &str,
    times: usize,
    end: &str,
) -> Result<String, AllocError> {
    let mut text = part.repeat(alloc, times)?;
    text.push_str(end)?;
    Ok(text)
}

/// Compares what a text is answered with the answer that is wanted.
pub(crate) fn expect_answer(
    rt: &(impl Abort + AllocGlobal),
    asked: Asked,
    text: &str,
    wanted: &str,
) {
    let answered = answer(rt.alloc(), asked, text).expect(rt, "no memory");
    expect_text(rt, text, &answered, wanted);
}

/// Compares an answer with the one that is wanted, and says what it answers where they differ.
pub(crate) fn expect_text(rt: &impl Abort, of: &str, answered: &str, wanted: &str) {
    if answered != wanted {
        panic!(rt; "{of}\nis answered: {answered}\nand wanted is: {wanted}");
    }
}

/// What a line of a table means.
fn meant(alloc: Global, line: &str) -> Result<String, AllocError> {
    let mut row = String::new(alloc);
    for sign in line.chars() {
        row.push(match sign {
            '␀' => '\0',
            '␉' => '\t',
            '␊' => '\n',
            '␍' => '\r',
            _ => sign,
        })?;
    }
    Ok(row)
}
