// The verbs of data, and the verbs that programs call.
ghost use Rattle.std.specs.Prelude.{◌≡◌, IfOk, nat_eq};
ghost use Rattle.std.specs.Hash as fed;
ghost use Rattle.std.specs.Cmp.Lexicographic.{pointwise, nat_list_eq_equiv};
ghost use Rattle.std.specs.Cmp.{partial_equiv_from_equiv};
ghost use Rattle.std.specs.Cmp.Rules.{hashing};
ghost use Rattle.std.proofs.Common.{rules};
ghost use Rattle.values.specs.Verbs.{word_of, number_of};

use ids::text::Text;
use std::alloc::AllocError;
use std::hash::{Hash, Hasher};
use std::marker::Model;

/// A verb of data: one that the table of some kind of receiver has.
#[derive(Clone, Copy)]
pub enum Word {
    /// `add`
    Add,
    /// `subtract`
    Subtract,
    /// `multiply`
    Multiply,
    /// `floorDivide`
    FloorDivide,
    /// `lessThan`
    LessThan,
    /// `atMost`
    AtMost,
    /// `moreThan`
    MoreThan,
    /// `atLeast`
    AtLeast,
    /// `negate`
    Negate,
    /// `not`
    Not,
    /// `size`
    Size,
    /// `with`
    With,
    /// `get`
    Get,
}

impl Word {
    /// The verb that a text spells, if it spells one.
    pub(crate) fn of(text: &str) -> Option<Word>
        ensures { result ≡ word_of text.now }
    {
        match text {
            "add" => Some(Word::Add),
            "subtract" => Some(Word::Subtract),
            "multiply" => Some(Word::Multiply),
            "floorDivide" => Some(Word::FloorDivide),
            "lessThan" => Some(Word::LessThan),
            "atMost" => Some(Word::AtMost),
            "moreThan" => Some(Word::MoreThan),
            "atLeast" => Some(Word::AtLeast),
            "negate" => Some(Word::Negate),
            "not" => Some(Word::Not),
            "size" => Some(Word::Size),
            "with" => Some(Word::With),
            "get" => Some(Word::Get),
            _ => None,
        }
    }
}

/// A verb that a program calls, looked up once among the verbs of data. Clauses see its text.
#[derive(Drop)]
pub struct Verb {
    text: Text,
    word: Option<Word>,
    // Mostly enough to tell it from another verb.
    number: u32,
}

impl Model for Verb {
    ghost use Rattle.std.specs.Prelude.{List, ℕ, ◌≡◌};
    ghost use Rattle.values.specs.Verbs.{word_of, number_of};

    ghost Value = { List ℕ };

    ghost view = { λ v. v.text };

    // The verb of data that its text spells, if it spells one, and the number of its text.
    ghost invariant = { λ v. (v.word ≡ word_of v.text) × (v.number ≡ number_of v.text) };
}

/// The number of a text.
fn number(text: &str) -> u32
    ensures { result ≡ number_of text.now }
{
    let mut number: u32 = 0;
    for byte in text.as_bytes() {
        number = number.wrapping_mul(31).wrapping_add(u32::from(*byte));
    }
    number
}

impl Verb {
    /// The verb of this text.
    pub fn new(text: Text) -> Verb
        ensures { result ≡ text }
    {
        let word = Word::of(text.as_str());
        let number = number(text.as_str());
        Verb { text, word, number }
    }

    /// Its text.
    pub fn text(&self) -> &Text
        ensures { result.now ≡ self.now }
    {
        &self.text
    }

    /// Its text, as a slice.
    pub(crate) fn as_str(&self) -> &str
        ensures { result.now ≡ self.now }
    {
        self.text.as_str()
    }

    /// The verb of data that it is, if it is one.
    pub(crate) fn word(&self) -> Option<Word>
        ensures { result ≡ word_of self.now }
    {
        self.word
    }

    /// The same verb, shared.
    pub fn share(&self) -> Result<Verb, AllocError>
        ensures { IfOk result (λ v. v ≡ self.now) }
    {
        Ok(Verb {
            text: self.text.share()?,
            word: self.word,
            number: self.number,
        })
    }
}

/// By number first: most verbs that differ have different ones.
impl PartialEq for Verb {
    ghost eq = { λ x y. pointwise nat_eq x y };

    ghost laws = { partial_equiv_from_equiv nat_list_eq_equiv };

    fn eq(&self, other: &Self) -> bool {
        self.number == other.number && self.text == other.text
    }
}

impl Eq for Verb {
    ghost laws = { nat_list_eq_equiv };
}

/// By number alone.
impl Hash for Verb {
    ghost hash_input = { λ v. fed.u32 (number_of v) };

    ghost respects_eq = { Prim.search (hashing, rules) };

    fn hash<H: Hasher>(&self, state: &mut H) {
        self.number.hash(state);
    }
}
