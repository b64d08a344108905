// What the operands of the operators of a level are.
ghost use Rattle.std.specs.Prelude.{◌≡◌};
ghost use Rattle.ereader_parser.specs.Levels as levels;

use ereader_signs::operator::Level;

/// The level of its operands, if it has operators.
pub(crate) fn tighter(level: Level) -> Option<Level>
    ensures { result ≡ levels.tighter level }
{
    match level {
        Level::Disjunction => Some(Level::Conjunction),
        Level::Conjunction => Some(Level::Comparison),
        Level::Comparison => Some(Level::Sum),
        Level::Sum => Some(Level::Product),
        Level::Product => Some(Level::Unary),
        Level::Unary => None,
    }
}

/// Whether two of its operators never stand in a row, as in `a < b < c`.
pub(crate) fn joins_two(level: Level) -> bool
    ensures { result ≡ levels.joins_two level }
{
    matches!(level, Level::Comparison)
}
