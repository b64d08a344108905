// Laws of the definitions that the other contracts name.
ghost use Rattle.refs.specs.Laws.{WhatEndsIsLed, WhatHasNoEndCircles, WhatIsLedEnds, WhatCirclesHasNoEnd, OneEnd, NoEndInARing, SettlesAsItUnfolds, OneUnfolding, SettledIsWithinLimits, SettledIsOpen, SettledSettlesToItself, ListOfItselfHasNone};

/// The walk that is computed is the one of the rules, which lead to at most one end.
pub fn walks_are_lawful()
    ensures led { WhatEndsIsLed }
    ensures ringed { WhatHasNoEndCircles }
    ensures found { WhatIsLedEnds }
    ensures without_end { WhatCirclesHasNoEnd }
    ensures one { OneEnd }
    ensures exclusive { NoEndInARing }
{}

/// The settled form of a value is what the value unfolds to by the rules, which is one value at most, if that is within
/// the limits of a value, and else there is none. No promise in it leads on, and it settles to itself. A promise that was
/// resolved to a list of itself has none.
pub fn settled_forms_are_lawful()
    ensures by_rules { SettlesAsItUnfolds }
    ensures one { OneUnfolding }
    ensures within { SettledIsWithinLimits }
    ensures open_promises { SettledIsOpen }
    ensures again { SettledSettlesToItself }
    ensures unfolded { ListOfItselfHasNone }
{}
