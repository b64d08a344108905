// The verbs of integers.
ghost use Rattle.std.specs.Prelude.{◌≡◌, ◌≢◌, ℕ, ℤ, List, pos, IfOk, SomeIff, FitsSigned};
ghost use Rattle.std.specs.Int.{w64};
ghost use Rattle.values.specs.Data.{Val, and_val, no_vals};
ghost use Rattle.values.specs.Replies.{int_table, fitted, int_add as add_reply, int_subtract as subtract_reply, int_multiply as multiply_reply, int_floor_divide as floor_divide_reply, int_less_than as less_than_reply, int_at_most as at_most_reply, int_more_than as more_than_reply, int_at_least as at_least_reply, floor_divided};
ghost use Rattle.values.specs.Verbs.{text_of};
ghost use Rattle.values.specs.View.{val_of, vals_of, reply_of, int_reply};

use crate::replies::{fitting, no_method, thrown, truth, wrong_argument};
use crate::value::{Answer, Value};
use crate::verb::{Verb, Word};
use std::alloc::{AllocError, Global};

/// What a verb of an integer with one argument leads to. It is small, where an answer has room for every value.
#[derive(Clone, Copy)]
pub(crate) enum IntReply {
    Integer(i64),
    Truth(bool),
    TooLarge,
    DivisionByZero,
    WrongArgument,
    NoMethod,
}

/// What a verb of an integer leads to.
#[inline(always)]
pub(crate) fn int_call(
    alloc: Global,
    x: i64,
    verb: &Verb,
    arguments: &[Value],
) -> Result<Answer, AllocError>
    ensures { IfOk result (λ a. reply_of a ≡ int_table x verb.now (vals_of arguments.now)) }
{
    match arguments {
        [] => match verb.word() {
            Some(Word::Negate) => fitting(alloc, x.checked_neg()),
            _ => no_method(alloc, verb, 0),
        },
        [argument] => int_answer(alloc, int_with(x, verb, argument), verb, argument),
        _ => no_method(alloc, verb, arguments.len()),
    }
}

/// What a verb with one argument leads to.
#[inline(always)]
pub(crate) fn int_with(x: i64, verb: &Verb, argument: &Value) -> IntReply
    ensures { int_reply result verb.now (val_of argument.now) ≡ int_table x verb.now (and_val (val_of argument.now) no_vals) }
{
    match verb.word() {
        Some(word) => int_word(x, word, argument),
        None => IntReply::NoMethod,
    }
}

/// What a verb of data with one argument leads to.
#[inline(always)]
fn int_word(x: i64, word: Word, argument: &Value) -> IntReply
    ensures { int_reply result (text_of word) (val_of argument.now) ≡ int_table x (text_of word) (and_val (val_of argument.now) no_vals) }
{
    match word {
        Word::Add => int_add(x, argument),
        Word::Subtract => int_subtract(x, argument),
        Word::Multiply => int_multiply(x, argument),
        Word::FloorDivide => int_floor_divide(x, argument),
        Word::LessThan => int_less_than(x, argument),
        Word::AtMost => int_at_most(x, argument),
        Word::MoreThan => int_more_than(x, argument),
        Word::AtLeast => int_at_least(x, argument),
        Word::Negate | Word::Not | Word::Size | Word::With | Word::Get => IntReply::NoMethod,
    }
}

/// The answer that a reply of an integer stands for.
#[inline(always)]
fn int_answer(
    alloc: Global,
    reply: IntReply,
    verb: &Verb,
    argument: &Value,
) -> Result<Answer, AllocError>
    ensures { IfOk result (λ a. reply_of a ≡ int_reply reply verb.now (val_of argument.now)) }
{
    match reply {
        IntReply::Integer(integer) => Ok(Answer::Gives(Value::Int(integer))),
        IntReply::Truth(holds) => Ok(truth(holds)),
        IntReply::TooLarge => thrown(alloc, "integer too large"),
        IntReply::DivisionByZero => thrown(alloc, "division by zero"),
        IntReply::WrongArgument => wrong_argument(alloc, argument),
        IntReply::NoMethod => no_method(alloc, verb, 1),
    }
}

/// An integer, or that 64 bits do not hold it.
fn in_range(integer: Option<i64>) -> IntReply
    ensures { (z : ℤ) (verb : List ℕ) (v : Val) → SomeIff integer (FitsSigned w64 z) z → int_reply result verb v ≡ fitted z }
{
    match integer {
        Some(integer) => IntReply::Integer(integer),
        None => IntReply::TooLarge,
    }
}

fn int_add(x: i64, argument: &Value) -> IntReply
    ensures { (verb : List ℕ) → int_reply result verb (val_of argument.now) ≡ add_reply x (val_of argument.now) }
{
    match argument.as_int() {
        Some(y) => in_range(x.checked_add(y)),
        None => IntReply::WrongArgument,
    }
}

fn int_subtract(x: i64, argument: &Value) -> IntReply
    ensures { (verb : List ℕ) → int_reply result verb (val_of argument.now) ≡ subtract_reply x (val_of argument.now) }
{
    match argument.as_int() {
        Some(y) => in_range(x.checked_sub(y)),
        None => IntReply::WrongArgument,
    }
}

fn int_multiply(x: i64, argument: &Value) -> IntReply
    ensures { (verb : List ℕ) → int_reply result verb (val_of argument.now) ≡ multiply_reply x (val_of argument.now) }
{
    match argument.as_int() {
        Some(y) => in_range(x.checked_mul(y)),
        None => IntReply::WrongArgument,
    }
}

fn int_floor_divide(x: i64, argument: &Value) -> IntReply
    ensures { (verb : List ℕ) → int_reply result verb (val_of argument.now) ≡ floor_divide_reply x (val_of argument.now) }
{
    match argument.as_int() {
        Some(0) => IntReply::DivisionByZero,
        Some(y) => in_range(floor_quotient(x, y)),
        None => IntReply::WrongArgument,
    }
}

/// The quotient rounded towards minus infinity, where 64 bits hold it.
fn floor_quotient(x: i64, y: i64) -> Option<i64>
    requires { y ≢ pos 0 }
    ensures { SomeIff result (FitsSigned w64 (floor_divided x y)) (floor_divided x y) }
{
    let (x, y) = (i128::from(x), i128::from(y));
    let quotient = if y > 0 {
        x.div_euclid(y)
    } else {
        (-x).div_euclid(-y)
    };
    i64::try_from(quotient).ok()
}

fn int_less_than(x: i64, argument: &Value) -> IntReply
    ensures { (verb : List ℕ) → int_reply result verb (val_of argument.now) ≡ less_than_reply x (val_of argument.now) }
{
    match argument.as_int() {
        Some(y) => IntReply::Truth(x < y),
        None => IntReply::WrongArgument,
    }
}

fn int_at_most(x: i64, argument: &Value) -> IntReply
    ensures { (verb : List ℕ) → int_reply result verb (val_of argument.now) ≡ at_most_reply x (val_of argument.now) }
{
    match argument.as_int() {
        Some(y) => IntReply::Truth(x <= y),
        None => IntReply::WrongArgument,
    }
}

fn int_more_than(x: i64, argument: &Value) -> IntReply
    ensures { (verb : List ℕ) → int_reply result verb (val_of argument.now) ≡ more_than_reply x (val_of argument.now) }
{
    match argument.as_int() {
        Some(y) => IntReply::Truth(x > y),
        None => IntReply::WrongArgument,
    }
}

fn int_at_least(x: i64, argument: &Value) -> IntReply
    ensures { (verb : List ℕ) → int_reply result verb (val_of argument.now) ≡ at_least_reply x (val_of argument.now) }
{
    match argument.as_int() {
        Some(y) => IntReply::Truth(x >= y),
        None => IntReply::WrongArgument,
    }
}
