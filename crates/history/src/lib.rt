//! Undo and redo, over any events whose effects go by the cells that they touch: the laws are clauses of these contracts.
#![tactic(auto)]

ghost use Rattle.history.specs.Subject.{Subject, Laws};
ghost use Rattle.history.specs.Theorems.{RunsAreOne, GoodRuns, GoodRun, StandingRun};
ghost use Rattle.history.specs.Theorems.{Begun, Appended, CausesAreNamed, NamesAreFree, WritesAreRecorded};
ghost use Rattle.history.specs.Theorems.{Undone, EntriesAreMarked, UndoneElsewhere, ClosedOfSound, Redone, RedoneNext, ExchangedTwice, Exchanged};
ghost use Rattle.history.specs.Theorems.{LastWriter, CausesAreChains, ChainEnds, ChainIsFollowed, WalkUndo, WalkRedo};
ghost use Rattle.history.specs.Theorems.{ConeIsClosed, ConeHasRoot, ConeIsLeast, ConeIsPart, ClosedIsNoneOutside};

/// What can be undone: its events go by the cells that they touch.
pub trait Undoable {
    ghost subject: { Subject };

    ghost laws: { Laws subject };
}

/// Events lead from a world to at most one world, and the entries of a good set run to its world. So do the live entries of a
/// journal that stands, to the contents of its state.
pub fn events_run<S: Undoable>()
    ensures runs_are_one { RunsAreOne S.subject }
    ensures footprints { GoodRuns S.subject }
    ensures events { GoodRun S.subject }
    ensures standing { StandingRun S.subject }
{}

/// The empty journal stands. It stands after an event that is possible and whose name is free is appended with its footprint, its
/// causes and the last writers of the cells that it touches, and a record of what it writes is exchanged with the state.
pub fn events_are_appended<S: Undoable>()
    ensures begun { Begun S.subject }
    ensures appended { Appended S.subject }
    ensures causes_are_named { CausesAreNamed S.subject }
    ensures names_are_free { NamesAreFree S.subject }
    ensures writes_are_recorded { WritesAreRecorded S.subject }
{}

/// A journal stands after a closed part of its live entries is undone, and after undone entries are redone that are sound together
/// with what is live, as those that were just undone are: that gives back the rows and the state. Neighbours that do not meet
/// change places.
pub fn undo_is_lawful<S: Undoable>()
    ensures undone { Undone S.subject }
    ensures entries_are_marked { EntriesAreMarked S.subject }
    ensures elsewhere { UndoneElsewhere S.subject }
    ensures closed_of_sound { ClosedOfSound S.subject }
    ensures redone { Redone S.subject }
    ensures redone_next { RedoneNext S.subject }
    ensures exchanged_twice { ExchangedTwice S.subject }
    ensures exchanged { Exchanged S.subject }
{}

/// A state shows the newest live writer of each cell. What each entry has of last writers leads to all its causes.
pub fn writers_are_causes<S: Undoable>()
    ensures last_writer { LastWriter S.subject }
    ensures causes_are_chains { CausesAreChains S.subject }
    ensures chain_ends { ChainEnds S.subject }
    ensures chain_is_followed { ChainIsFollowed S.subject }
{}

/// Items of a vector that are exchanged at the positions of a set, one after another, are the rows after it is undone, or redone.
pub fn walks_are_undo<S: Undoable>()
    ensures undo { WalkUndo S.subject }
    ensures redo { WalkRedo S.subject }
{}

/// The cone of an entry is the least closed set that has it. A set is closed where no member outside it has one of it as a cause.
pub fn cones_are_least<S: Undoable>()
    ensures cone_is_closed { ConeIsClosed S.subject }
    ensures cone_has_root { ConeHasRoot S.subject }
    ensures cone_is_least { ConeIsLeast S.subject }
    ensures cone_is_part { ConeIsPart S.subject }
    ensures closed_is_none_outside { ClosedIsNoneOutside S.subject }
{}
