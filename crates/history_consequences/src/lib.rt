//! The index of consequences: what follows an entry, what may come back and what is in its way, from last writers alone.
#![tactic(auto)]

ghost use Rattle.history_consequences.specs.Laws.{StandingIsOrderly, LastWritersAreCauses, SoundIsLast, ClosedIsUnfollowed};
ghost use Rattle.history_consequences.specs.Laws.{ConeIsGathered, FirstOutsider, LineIsWalkedBack};
ghost use Rattle.history_consequences.specs.Laws.{HeirsAreOne, WritersAreOnChain, OvertakingIsMutual};
ghost use Rattle.history_consequences.specs.Laws.{RedoIsExact, FirstMissing, FirstCrossing};
ghost use Rattle.history_consequences.specs.Laws.{IndexBegins, IndexEnters, IndexMarks, IndexExchanges, IndexSettles};
ghost use Rattle.history_consequences.specs.Laws.{ListsFollowers, ClosedIsUnlisted, VersionsAreListed, BaseIsSeen, BaseIsExact};

use history::Undoable;

/// The entries of a journal that stands are in order. Last writers are causes. A set is sound just where each member has, of each cell
/// that it touched, the set's last writer before it.
pub fn last_writers_tell<S: Undoable>()
    ensures orderly { StandingIsOrderly S.subject }
    ensures causes { LastWritersAreCauses S.subject }
    ensures sound { SoundIsLast S.subject }
{}

/// A set is closed just where no live entry outside it follows a member. What is gathered by following an entry is its cone. The first
/// outsider that comes of a member is found along the heirs of what the member wrote, or by walking back.
pub fn consequences_follow<S: Undoable>()
    ensures closed { ClosedIsUnfollowed S.subject }
    ensures cone { ConeIsGathered S.subject }
    ensures outsider { FirstOutsider S.subject }
    ensures line { LineIsWalkedBack S.subject }
{}

/// Entries may be redone just where their last writers are there, and nobody stands behind one that wrote over what it found. The first
/// missing cause and the first crossing are found so.
pub fn redo_is_exact<S: Undoable>()
    ensures exact { RedoIsExact S.subject }
    ensures missing { FirstMissing S.subject }
    ensures crossing { FirstCrossing S.subject }
{}

/// In a sound set a version of a cell has one heir, and each member that wrote the cell is met walking back from the last writer. Whether
/// one entry wrote over what another found is told by the versions of each of the two.
pub fn heirs_are_one<S: Undoable>()
    ensures one { HeirsAreOne S.subject }
    ensures chain { WritersAreOnChain S.subject }
    ensures either { OvertakingIsMutual S.subject }
{}

/// The index is right for no entries, and stays right when an entry is linked, when entries are undone, redone or settled, and when
/// neighbours change places.
pub fn index_is_kept<S: Undoable>()
    ensures begins { IndexBegins S.subject }
    ensures enters { IndexEnters S.subject }
    ensures marks { IndexMarks S.subject }
    ensures exchanges { IndexExchanges S.subject }
    ensures settles { IndexSettles S.subject }
{}

/// An open entry lists just those that follow it, so a set of open entries is closed just where no member lists a live one outside it.
/// Whoever found a version of a cell is listed at it.
pub fn index_tells<S: Undoable>()
    ensures lists { ListsFollowers S.subject }
    ensures closed { ClosedIsUnlisted S.subject }
    ensures versions { VersionsAreListed S.subject }
{}

/// What the base left in a cell is told by the open entries that touched it so, or else by the last writer of all; and so it is whether
/// one of the base wrote over what an entry found.
pub fn base_is_seen<S: Undoable>()
    ensures seen { BaseIsSeen S.subject }
    ensures exact { BaseIsExact S.subject }
{}
