// What holds of replies.
ghost use Rattle.book.specs.Books.{blank};
ghost use Rattle.book.specs.Good.{IsGood};
ghost use Rattle.stepper.specs.Laws.{OneAnswer, OneBirth, InputsHaveOneText, WholeOnesAreAll};

/// A whole input has one text of replies at most: from the blank book on each reply is a function of the input, and the book in the end is
/// one. The same holds of the commands that were whole before a read failed. So it is in any two books that are the same, and good, as the
/// blank one is: a command has one reply at most, and leaves one book. Not where a reply ends for want of memory, and but for the place at
/// which a text is refused as unexpected. It is said of each command but `work`, whose threads may do things in one order or another, of a
/// run of many steps too.
pub fn replies_are_told()
    ensures begins { IsGood blank }
    ensures answers { OneAnswer }
    ensures births { OneBirth }
    ensures inputs { InputsHaveOneText }
    ensures whole { WholeOnesAreAll }
{}
