// What stands before a value.

use ids::text::Text;
use kernele::tree::Pattern;

/// What a value is given to.
#[derive(Drop)]
pub enum Target {
    /// What a definition binds.
    Definition(Pattern),
    /// What a definition binds to the items of a list.
    Definitions(Vec<Pattern>),
    /// The name of a new variable.
    Variable(Text),
    /// The name that is assigned.
    Assignment(Text),
}
