// What holds of events.
ghost use Rattle.history.specs.Subject.{Laws};
ghost use Rattle.event.specs.Events.{events, noted_events};
ghost use Rattle.event.specs.Laws.{NotesAreOnce, ReadyMessagesHaveTurns, TurnsTouchByTheTable, VatsLearnByTheTable, AbandonedTurnsWriteTwoCells};

/// Events of each kind depend on no cell but those that they touch, and do one thing in one world. So do events with their notes, which
/// are the same wherever those cells are.
pub fn events_obey_the_law()
    ensures alone { Laws events }
    ensures noted { Laws noted_events }
    ensures once { NotesAreOnce }
{}

/// At an event of which a world has no message yet, a turn can happen there exactly where its message is ready: where that is at a vat,
/// leads there, and what it waits for is done.
pub fn ready_messages_have_turns()
    ensures { ReadyMessagesHaveTurns }
{}

/// Turns, and vats that learn, touch and write just the cells that the table has for them. An abandoned turn writes nothing but its message
/// and the board of its result.
pub fn cells_are_those_of_the_table()
    ensures turns { TurnsTouchByTheTable }
    ensures learns { VatsLearnByTheTable }
    ensures abandoned { AbandonedTurnsWriteTwoCells }
{}
