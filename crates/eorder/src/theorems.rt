// What fences keep: the laws are clauses of these contracts.
ghost use Rattle.history.specs.Subject.{Subject, Laws};
ghost use Rattle.eorder.specs.Fences.{FencesAreSets};
ghost use Rattle.eorder.specs.Rules.{RulesAreActs};
ghost use Rattle.eorder.specs.Worlds.{Worlds, StepLaw};
ghost use Rattle.eorder.specs.Journals.{Doing, worlds_of, AllDo};
ghost use Rattle.eorder.specs.Theorems.{FencesCover, FencesHaveNoMore, AssignedIsAdded, RulesMayAssign, EntriesKeepOrder, DeedsKeepOrder, RowsKeepOrder};
ghost use Rattle.eorder.specs.Theorems.{CellsCover, EventsKeepOrder, RunsStaySettled, LiveEntriesRan, LiveEntriesKeepOrder};

/// Fences with the same names are one; two together have the names of both; and the rules on them are the rules on sets of names.
pub fn fences_are_sets()
    ensures sets { FencesAreSets }
    ensures rules { RulesAreActs }
{}

/// A fence is a frontier: what is behind a place is in its fence, or it was behind the reference on which one of the fence was
/// sent; and a fence has only what is behind.
pub fn fences_cover()
    ensures covered { FencesCover }
    ensures no_more { FencesHaveNoMore }
{}

/// What is added to an empty place may be assigned: so the rules may assign where each message is sent once, and each reference
/// leaves in a carrier once.
pub fn rules_may_assign()
    ensures place { AssignedIsAdded }
    ensures history { RulesMayAssign }
{}

/// What comes before a message that had its turn was done before it: of entries, and of turns and learnt values. So of two
/// messages that a vat sends on one reference, the first has its turn first.
pub fn turns_keep_order()
    ensures entries { EntriesKeepOrder }
    ensures deeds { DeedsKeepOrder }
    ensures rows { RowsKeepOrder }
{}

/// Worlds whose cells hold fences, and whose steps do what their deeds say.
pub trait Fenced {
    ghost worlds: { Worlds };

    ghost steps: { StepLaw worlds };
}

/// Both theorems, of the cells of a world to which events ran; and that world is a start as good as the first.
pub fn worlds_keep_order<F: Fenced>()
    ensures covered { CellsCover F.worlds }
    ensures order { EventsKeepOrder F.worlds }
    ensures settled { RunsStaySettled F.worlds }
{}

/// What can be undone, by events that do deeds.
pub trait Recorded {
    ghost subject: { Subject };

    ghost laws: { Laws subject };

    ghost doing: { Doing subject };

    ghost all_do: { AllDo subject doing };

    ghost steps: { StepLaw (worlds_of subject doing) };
}

/// The live entries of a journal ran, each by a deed, and those that had their turns had them in order: also after an undo, a redo
/// or an exchange, since the journal still stands.
pub fn journals_keep_order<R: Recorded>()
    ensures ran { LiveEntriesRan R.subject R.doing }
    ensures order { LiveEntriesKeepOrder R.subject R.doing }
{}
