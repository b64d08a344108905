// What holds of evaluation.
ghost use Rattle.eval_rules.specs.Laws.{AtMostOneOutcome, EachTreeHasAnOutcome, TouchedGrows, Frame, OthersStay, WritesAlike, BeginningStays, StepsOnlyFall, PromisesArePaidFor, StepsAreNodes, NoneRunsTooDeep, RoomIsKept, NamesAreOnlyAdded, DefinitionsAreAdded, EjectionsAreOpen, TreesTouchByTheTable, LimitsAreNumbers};

/// A tree has exactly one outcome. It depends on no cell but those that it touches, and leaves each that it does not write.
/// It takes a step for each node that begins, and gives none back; each promise that it makes is paid for by a step. No node runs
/// past level 1,000. Where a turn has made at most 4,096 slots and as many objects, so it has behind it. It adds newer names to the
/// scopes and takes none away: where it gives a value, the names that it defines. A value on its way to an Escape leaves it only
/// inside that Escape.
pub fn evaluation_is_lawful()
    ensures one_outcome { AtMostOneOutcome }
    ensures has_an_outcome { EachTreeHasAnOutcome }
    ensures touched_grows { TouchedGrows }
    ensures frame { Frame }
    ensures others_stay { OthersStay }
    ensures writes_alike { WritesAlike }
    ensures beginning_stays { BeginningStays }
    ensures steps_only_fall { StepsOnlyFall }
    ensures promises_are_paid_for { PromisesArePaidFor }
    ensures steps_are_nodes { StepsAreNodes }
    ensures none_runs_too_deep { NoneRunsTooDeep }
    ensures room_is_kept { RoomIsKept }
    ensures names_are_only_added { NamesAreOnlyAdded }
    ensures definitions_are_added { DefinitionsAreAdded }
    ensures ejections_are_open { EjectionsAreOpen }
{}

/// A tree touches and writes just the cells that the table has for its nodes, beside those that were touched and written before.
pub fn cells_are_those_of_the_table()
    ensures { TreesTouchByTheTable }
{}

/// No node begins past level 1,000; a turn makes at most 4,096 slots, 4,096 objects and 4,096 messages.
pub fn limits_are_numbers()
    ensures { LimitsAreNumbers }
{}
