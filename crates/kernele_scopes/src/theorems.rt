// What holds of the check.
ghost use Rattle.kernele_scopes.specs.Bindings.{ScriptsAreChecked, AskedAreChecked};
ghost use Rattle.kernele_scopes.specs.Scope.{LimitsAreNumbers};

/// The check passes a program exactly where it is no larger and no deeper than it may be and the rules of scope find nothing wrong in it, and
/// else tells the first fault.
pub fn scopes_are_lawful()
    ensures scripts { ScriptsAreChecked }
    ensures asked { AskedAreChecked }
{}

/// A program has at most 16,384 nodes, and its trees are at most 200 deep.
pub fn limits_are_numbers()
    ensures { LimitsAreNumbers }
{}
