// What words stand for.
ghost use Rattle.std.specs.Prelude.{◌≡◌};
ghost use Rattle.ereader_forms.specs.Forms.{literal_of, ref_word_of};
ghost use Rattle.ereader_forms.specs.View.{GivesTree};

use etoken::token::Reserved;
use kernele::tree::Expr;

/// The literal that a word is, if it is one.
pub fn literal(word: Reserved) -> Option<Expr>
    ensures { GivesTree result (literal_of word) }
{
    match word {
        Reserved::True => Some(Expr::Bool(true)),
        Reserved::False => Some(Expr::Bool(false)),
        Reserved::Null => Some(Expr::Null),
        _ => None,
    }
}

/// A name with a meaning of its own behind `Ref.`.
#[derive(Clone, Copy)]
pub enum RefWord {
    Promise,
    Broken,
    State,
}

impl RefWord {
    /// The one that a name is, if it is one.
    pub fn of(name: &str) -> Option<RefWord>
        ensures { result ≡ ref_word_of name.now }
    {
        match name {
            "promise" => Some(RefWord::Promise),
            "broken" => Some(RefWord::Broken),
            "state" => Some(RefWord::State),
            _ => None,
        }
    }
}
