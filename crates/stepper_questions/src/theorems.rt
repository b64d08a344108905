// What holds of chains and of what is refused.
ghost use Rattle.stepper_questions.specs.Laws.{ChainsAreConsequences, RefusalsAreExplained};

/// A chain leads from one event to a later one exactly where this is a consequence of that. What an undo or a redo is refused for is
/// explained: of a gap and of a missing cause there is a chain, and where events cross there is a cell at which they do; so it is of
/// neighbours that may not change places.
pub fn answers_are_lawful()
    ensures consequences { ChainsAreConsequences }
    ensures refusals { RefusalsAreExplained }
{}
