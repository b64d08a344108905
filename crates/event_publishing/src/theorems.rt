// What holds of what turns publish.
ghost use Rattle.event_publishing.specs.Publishing.{AllCounts, JournalsPublishNewPromises, PublicationsStay, PublishesNewPromises};

/// In every run of events with names of their own from the empty world, a turn of an event that has a new name publishes promises
/// that were never published there, each once. So all that it publishes counts, and so it is in the world of each journal that stands.
/// What was published stays as it is, whatever happens.
pub fn promises_are_published_once()
    ensures promises { PublishesNewPromises }
    ensures counts { AllCounts }
    ensures journals { JournalsPublishNewPromises }
    ensures stays { PublicationsStay }
{}
