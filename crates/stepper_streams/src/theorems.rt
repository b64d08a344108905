// What holds of the lines of a reader.
ghost use Rattle.stepper_streams.specs.Laws.{KeptIsShort, FirstLineIsTaken, NoneIsLeftAtEnd};

use std::io::Read;

/// However a reader cuts its bytes into pieces, the lines are those of the bytes: each is the first of what is left, until
/// nothing is. No line keeps more than 65,536 bytes.
pub fn lines_are_lawful<R: Read>()
    ensures kept { KeptIsShort }
    ensures first { FirstLineIsTaken R.remaining }
    ensures none { NoneIsLeftAtEnd R.remaining }
{}
