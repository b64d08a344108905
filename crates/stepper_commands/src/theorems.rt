// What inputs, lines and commands are as texts.
ghost use Rattle.stepper_commands.specs.Inputs.{InputsAreLines, LinesAreTold, WordsAreTold};
ghost use Rattle.stepper_commands.specs.Spells.{LinesAreRefused, LinesAreSkipped, LinesSpellCommands};
ghost use Rattle.stepper_commands.specs.Limits.{LimitsAreNumbers};

/// An input is its lines, one after another, and in one way only; a line is its words, with blanks around them; it is read as the
/// command that it spells, and as no other; it is skipped where it has none, and else refused.
pub fn commands_are_texts()
    ensures lines { InputsAreLines }
    ensures one_way { LinesAreTold }
    ensures words { WordsAreTold }
    ensures spelled { LinesSpellCommands }
    ensures skipped { LinesAreSkipped }
    ensures refused { LinesAreRefused }
{}

/// A line has at most 65,536 bytes, a vat's name at most 64, a script at most 4,096 lines. At most 1,000,000 steps, 64 workers and
/// 1,000,000 turns of workers are commanded at once.
pub fn limits_are_numbers()
    ensures { LimitsAreNumbers }
{}
