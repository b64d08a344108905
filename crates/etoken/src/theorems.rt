// What holds of the tokens of any text.
ghost use Rattle.etoken.specs.Laws.{OneAnswer, LimitsAreNumbers};

/// No text has two answers: two lists of tokens, two faults, or both.
pub fn one_answer()
    ensures { OneAnswer }
{}

/// A text has at most 65,536 bytes and 16,384 tokens.
pub fn limits_are_numbers()
    ensures { LimitsAreNumbers }
{}
