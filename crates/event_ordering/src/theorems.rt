// What holds of the order of messages.
ghost use Rattle.eorder.specs.Worlds.{StepLaw};
ghost use Rattle.event_ordering.specs.Deeds.{happening};
ghost use Rattle.event_ordering.specs.Laws.{DeliveriesAct, LearningActs};
ghost use Rattle.event_ordering.specs.Sending.{OthersSendNothingOfIt, SendsAreNew, NewTurnsWantReadyMessages};
ghost use Rattle.event_ordering.specs.Theorems.{RunsAreDeeds, RunsKeepOrder, RunsAreInOrder, JournalsKeepOrder};

/// What a delivery does to the fences of its vat, and the fences in what it makes, are just what its acts make of the fences from
/// before, and each message that it sends has its event's name. So it is of what a vat learns.
pub fn fences_are_those_of_acts()
    ensures deliveries { DeliveriesAct }
    ensures learning { LearningActs }
{}

/// In a world where no message has its name, an event does to the cells of fences what its deed says, and waits for what it has to
/// wait for.
pub fn events_do_their_deeds()
    ensures { StepLaw happening }
{}

/// In every run of events with names of their own from the empty world, and so of the live entries of a journal: if a message is
/// before another one in the partial order, and the later one had its turn, then the earlier had its turn before.
pub fn turns_keep_the_order_of_messages()
    ensures deeds { RunsAreDeeds }
    ensures runs { RunsKeepOrder }
    ensures in_order { RunsAreInOrder }
    ensures journals { JournalsKeepOrder }
{}

/// In the world of a run from the empty world, a turn of an event that has a new name sends messages that are new there, whatever it
/// sends. So it can happen exactly where its message is ready.
pub fn turns_send_new_messages()
    ensures messages { OthersSendNothingOfIt }
    ensures sends { SendsAreNew }
    ensures turns { NewTurnsWantReadyMessages }
{}
