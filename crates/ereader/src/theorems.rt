// Laws of what is read.
ghost use Rattle.ereader.specs.Laws.{OneReading, ReadIsSpelled, ReadsAgain, ReadsItself, ReadsWithinLimits, LimitsAreNumbers};

/// A text that is read as a program spells that program and is read as nothing else. A text that spells a program is
/// read as it within the limits on bytes, tokens and open brackets; so are, within these limits, the canonical spelling of
/// a program whose names are names of the language and whose integers have literals, and that of a program that was read.
pub fn reading_is_lawful()
    ensures one_reading { OneReading }
    ensures read_is_spelled { ReadIsSpelled }
    ensures reads_within_limits { ReadsWithinLimits }
    ensures reads_itself { ReadsItself }
    ensures reads_again { ReadsAgain }
{}

/// At most 100 brackets may be open at once.
pub fn limits_are_numbers()
    ensures { LimitsAreNumbers }
{}
