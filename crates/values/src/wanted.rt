// Which verbs of data look at the datum that their argument leads to.
ghost use Rattle.std.specs.Prelude.{◌≡◌};
ghost use Rattle.values.specs.View.{val_of};
ghost use Rattle.values.specs.Wanted.{int_wants, list_wants, text_wants, word_wants, wants_datum as wants_datum_of};

use crate::value::Value;
use crate::verb::{Verb, Word};

/// Whether a verb of this receiver with one argument looks at where the argument leads.
pub fn wants_datum(receiver: &Value, verb: &Verb) -> bool
    ensures { result ≡ wants_datum_of (val_of receiver.now) verb.now }
{
    match verb.word() {
        Some(word) => word_wants_datum(receiver, word),
        None => false,
    }
}

fn word_wants_datum(receiver: &Value, word: Word) -> bool
    ensures { result ≡ word_wants (val_of receiver.now) word }
{
    match receiver {
        Value::Int(_) => int_wants_datum(word),
        Value::Text(_) => text_wants_datum(word),
        Value::List(_) => list_wants_datum(word),
        Value::Null
        | Value::Bool(_)
        | Value::Object(_)
        | Value::Ejector(_)
        | Value::Promise(_)
        | Value::Broken(_) => false,
    }
}

fn int_wants_datum(word: Word) -> bool
    ensures { result ≡ int_wants word }
{
    match word {
        Word::Add
        | Word::Subtract
        | Word::Multiply
        | Word::FloorDivide
        | Word::LessThan
        | Word::AtMost
        | Word::MoreThan
        | Word::AtLeast => true,
        Word::Negate | Word::Not | Word::Size | Word::With | Word::Get => false,
    }
}

fn text_wants_datum(word: Word) -> bool
    ensures { result ≡ text_wants word }
{
    match word {
        Word::Add => true,
        Word::Subtract
        | Word::Multiply
        | Word::FloorDivide
        | Word::LessThan
        | Word::AtMost
        | Word::MoreThan
        | Word::AtLeast
        | Word::Negate
        | Word::Not
        | Word::Size
        | Word::With
        | Word::Get => false,
    }
}

fn list_wants_datum(word: Word) -> bool
    ensures { result ≡ list_wants word }
{
    match word {
        Word::Add | Word::Get => true,
        Word::Subtract
        | Word::Multiply
        | Word::FloorDivide
        | Word::LessThan
        | Word::AtMost
        | Word::MoreThan
        | Word::AtLeast
        | Word::Negate
        | Word::Not
        | Word::Size
        | Word::With => false,
    }
}
