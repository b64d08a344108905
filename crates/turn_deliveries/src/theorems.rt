// What holds of deliveries.
ghost use Rattle.turn_deliveries.specs.Laws.{AtMostOneDelivery, EachDeliveryHasAnOutcome, WritesAreTouched, DeliveryFrame, OthersStayInTurns, WithinBudget, BudgetIsNodes, NoDeliveryRunsTooDeep, DeliveriesStayInRoom, NoEjectionLeavesATurn, TurnsTouchByTheTable};

/// A delivery has exactly one outcome. What it writes it touches. It depends on no cell but those that it touches, and leaves each that it does
/// not write. It takes a step of its budget for each node that begins, runs no node past level 1,000, and makes at most 4,096 slots, as many
/// objects, and as many messages. No value on its way to an Escape leaves the program of a turn.
pub fn turns_are_lawful()
    ensures one_outcome { AtMostOneDelivery }
    ensures has_an_outcome { EachDeliveryHasAnOutcome }
    ensures writes_are_touched { WritesAreTouched }
    ensures frame { DeliveryFrame }
    ensures others_stay { OthersStayInTurns }
    ensures within_budget { WithinBudget }
    ensures budget_is_nodes { BudgetIsNodes }
    ensures none_runs_too_deep { NoDeliveryRunsTooDeep }
    ensures stays_in_room { DeliveriesStayInRoom }
    ensures no_ejection_leaves { NoEjectionLeavesATurn }
{}

/// A turn touches and writes just the cells that the table has for it: by how it begins, what it runs, and how it ends.
pub fn cells_are_those_of_the_table()
    ensures { TurnsTouchByTheTable }
{}
