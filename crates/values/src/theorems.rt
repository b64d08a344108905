// Laws of the definitions that the other contracts name.
ghost use Rattle.values.specs.Laws.{SameAsItself, SameBothWays, SameAsAThird, SameIsEqual, EachVerbIsFound, OnlyItsTextSpells, NoOtherVerbs, LimitsAreNumbers};

/// Sameness is an equivalence, and it is equality of content. The verbs of data are those of the tables, and each has
/// one text.
pub fn values_are_lawful()
    ensures reflexive { SameAsItself }
    ensures symmetric { SameBothWays }
    ensures transitive { SameAsAThird }
    ensures exact { SameIsEqual }
    ensures found { EachVerbIsFound }
    ensures spelled { OnlyItsTextSpells }
    ensures others { NoOtherVerbs }
{}

/// A value weighs at most 65,536, and lists stand in it at most 64 deep.
pub fn limits_are_numbers()
    ensures { LimitsAreNumbers }
{}
