// What holds of every Bench.
ghost use Rattle.bench.specs.Limits.{LimitIsANumber};

/// A seat has at most the number 4,294,967,295.
pub fn limit_is_a_number()
    ensures { LimitIsANumber }
{}
