// Laws of the grammar and of the canonical spelling.
ghost use Rattle.ereader_grammar.specs.Laws.{OwnSpelling, ReadsBack, ReadsWhatIsSpelled, SpelledIsSpellable, SpelledOnce, SpellsAgain, SpellsItself, Unambiguous};

/// What tokens spell can be computed: the function of `specs/Reading.antt` gives it, and nothing where they spell
/// nothing. No tokens, and no text, have two programs, and a text spells only programs whose names are names of the
/// language and whose integers have literals. The canonical spelling of such a program spells it, as tokens and as a
/// text, whatever its size, and no two programs have the same.
pub fn grammar_is_lawful()
    ensures computed { ReadsWhatIsSpelled }
    ensures unambiguous { Unambiguous }
    ensures spelled_once { SpelledOnce }
    ensures spellable { SpelledIsSpellable }
    ensures spells_again { SpellsAgain }
    ensures spells_itself { SpellsItself }
    ensures reads_back { ReadsBack }
    ensures own_spelling { OwnSpelling }
{}
