// Laws of what is done under a turn.
ghost use Rattle.sends.specs.Laws.{EndsAreFollowed, SettledFormsAreThoseOfTheViews, EndsAreTaken, FormsAreTaken, PromisesCome, ReferencesCome, PromisesAreEntered, ReferencesPass, MessagesAreSent, WhensAreMade, PairsAreMade, ValuesArePublished, TurnsPublish, ResolversResolve, ResolversSmash};

/// Ends and settled forms under a turn are those of the map that its views of promises are, and touch the views of their
/// walks alone.
pub fn ends_are_those_of_the_views()
    ensures ends { EndsAreFollowed }
    ensures settled { SettledFormsAreThoseOfTheViews }
{}

/// What is done touches and writes just the cells of its row in the table, by what the vat's cells hold as it begins.
pub fn cells_are_those_of_the_table()
    ensures ends { EndsAreTaken }
    ensures forms { FormsAreTaken }
    ensures comes { PromisesCome }
    ensures come { ReferencesCome }
    ensures entered { PromisesAreEntered }
    ensures passed { ReferencesPass }
    ensures sent { MessagesAreSent }
    ensures waits { WhensAreMade }
    ensures pairs { PairsAreMade }
    ensures published { ValuesArePublished }
    ensures told { TurnsPublish }
    ensures resolved { ResolversResolve }
    ensures smashed { ResolversSmash }
{}
