// Signs, by what they stand for where they stand.
ghost use Rattle.std.specs.Prelude.{◌≡◌, IfOk};
ghost use Rattle.ereader_signs.specs.Signs.{closer, is_send, link_of, operator_of, prefix_operator, verb_of};

use etoken::breaks::Bracket;
use etoken::token::Sign;
use ids::text::Text;
use std::alloc::{AllocError, Global};

/// A sign between two operands.
#[derive(Clone, Copy)]
pub enum Operator {
    Add,
    Subtract,
    Multiply,
    FloorDivide,
    LessThan,
    AtMost,
    MoreThan,
    AtLeast,
    Same,
    Differ,
    And,
    Or,
}

/// How tightly operators between two operands bind: each level's operands are those of the level behind it here.
#[derive(Clone, Copy)]
pub enum Level {
    Disjunction,
    Conjunction,
    Comparison,
    Sum,
    Product,
    /// No operator between two operands.
    Unary,
}

impl Level {
    /// The operator of the level that a sign is between two operands, if it is one.
    pub fn operator(self, sign: Sign) -> Option<Operator>
        ensures { result ≡ operator_of self sign }
    {
        match self {
            Level::Disjunction => match sign {
                Sign::Or => Some(Operator::Or),
                _ => None,
            },
            Level::Conjunction => match sign {
                Sign::And => Some(Operator::And),
                _ => None,
            },
            Level::Comparison => match sign {
                Sign::Equal => Some(Operator::Same),
                Sign::NotEqual => Some(Operator::Differ),
                Sign::Less => Some(Operator::LessThan),
                Sign::AtMost => Some(Operator::AtMost),
                Sign::More => Some(Operator::MoreThan),
                Sign::AtLeast => Some(Operator::AtLeast),
                _ => None,
            },
            Level::Sum => match sign {
                Sign::Plus => Some(Operator::Add),
                Sign::Minus => Some(Operator::Subtract),
                _ => None,
            },
            Level::Product => match sign {
                Sign::Times => Some(Operator::Multiply),
                Sign::Divide => Some(Operator::FloorDivide),
                _ => None,
            },
            Level::Unary => None,
        }
    }
}

/// A sign before an operand.
#[derive(Clone, Copy)]
pub enum Prefix {
    Not,
    Negate,
}

impl Prefix {
    /// The operator that a sign is before an operand.
    pub fn of(sign: Sign) -> Option<Prefix>
        ensures { result ≡ prefix_operator sign }
    {
        match sign {
            Sign::Not => Some(Prefix::Not),
            Sign::Minus => Some(Prefix::Negate),
            _ => None,
        }
    }
}

/// What makes a call or a send of the receiver before it.
#[derive(Clone, Copy)]
pub enum CallSign {
    /// `.verb(`
    Method,
    /// `(`
    Run,
    /// `[`
    Index,
    /// `<-`
    Send,
}

impl CallSign {
    /// What a sign behind a receiver begins, if it makes a call or a send of it.
    pub fn of(sign: Sign) -> Option<CallSign>
        ensures { result ≡ link_of sign }
    {
        match sign {
            Sign::Dot => Some(CallSign::Method),
            Sign::OpenRound => Some(CallSign::Run),
            Sign::OpenSquare => Some(CallSign::Index),
            Sign::SendTo => Some(CallSign::Send),
            _ => None,
        }
    }

    /// Whether it makes a send, and no call.
    pub fn is_send(self) -> bool
        ensures { result ≡ is_send self }
    {
        match self {
            CallSign::Method | CallSign::Run | CallSign::Index => false,
            CallSign::Send => true,
        }
    }

    /// The verb, where no name may stand for it.
    pub fn verb(self, alloc: Global) -> Result<Option<Text>, AllocError>
        ensures { IfOk result (λ verb. verb ≡ verb_of self) }
    {
        Ok(match self {
            CallSign::Method | CallSign::Send => None,
            CallSign::Run => Some(Text::new(alloc, "run")?),
            CallSign::Index => Some(Text::new(alloc, "get")?),
        })
    }

    /// The bracket that its arguments stand in.
    pub fn bracket(self) -> Bracket
        ensures { result ≡ closer self }
    {
        match self {
            CallSign::Method | CallSign::Run | CallSign::Send => Bracket::Round,
            CallSign::Index => Bracket::Square,
        }
    }
}
