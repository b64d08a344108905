// What holds of sets of events.
ghost use Rattle.causality.specs.Exact.{GapsAreExact, CrossingsAreExact, ConesMayBeUndone};

/// The least gap and the least crossing are there exactly where a set is not closed, or not sound with what is live. A cone may be undone.
pub fn selections_are_exact()
    ensures gaps { GapsAreExact }
    ensures crossings { CrossingsAreExact }
    ensures cones { ConesMayBeUndone }
{}
