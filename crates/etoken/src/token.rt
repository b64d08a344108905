// Tokens, and where they stand.

use ids::text::Text;

/// A word of the language that is no name.
#[derive(Clone, Copy, Debug)]
pub enum Reserved {
    Def,
    Var,
    Method,
    To,
    Return,
    If,
    Else,
    While,
    For,
    In,
    Escape,
    Try,
    Catch,
    When,
    True,
    False,
    Null,
    Throw,
    Ref,
}

/// A sign of one or two characters.
#[derive(Clone, Copy, Debug)]
pub enum Sign {
    OpenRound,
    CloseRound,
    OpenSquare,
    CloseSquare,
    OpenCurly,
    CloseCurly,
    Comma,
    Semicolon,
    Dot,
    /// `<-`
    SendTo,
    /// `->`
    Arrow,
    /// `:=`
    Becomes,
    /// `==`
    Equal,
    /// `!=`
    NotEqual,
    /// `<=`
    AtMost,
    /// `>=`
    AtLeast,
    Less,
    More,
    /// `&&`
    And,
    /// `||`
    Or,
    Not,
    Plus,
    Minus,
    Times,
    /// `//`
    Divide,
    /// `_`
    Underscore,
}

/// A token.
#[derive(Drop)]
pub enum Token {
    Int(i64),
    /// What stands between the quotation marks, its escapes replaced.
    Text(Text),
    Name(Text),
    Word(Reserved),
    Sign(Sign),
}

/// A token, and where it begins, in bytes of the text. A semicolon that a line break gives stands where the token behind
/// it begins.
#[derive(Drop)]
pub struct Placed {
    pub token: Token,
    pub offset: usize,
}
