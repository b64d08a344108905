// Lines on their way to the engine: before each read the replies so far go out.
ghost use Rattle.std.specs.Prelude.{◌≡◌, IfOk, IfErr, OnOk, MatchResult, MatchOption, Ok, [], true, false};
ghost use Rattle.stepper_streams.specs.Lines.{IsSound, is_at_hand, lines_taken, lines_refused, CountsTaken, ReadsNothing, TakesLine, HasNoLine};
ghost use Rattle.stepper_streams.specs.Outlet.{waiting, is_cut, Gives};
ghost use Rattle.stepper.specs.Taking.{StopsAtLine, StopsWithin, TakesHeld};

use crate::fault::Fault;
use std::alloc::Global;
use std::io::{Read, Write};
use stepper_commands::command::LineFault;
use stepper_commands::script::{Joined, text_of};
use stepper_streams::line::Line;
use stepper_streams::lines::Lines;
use stepper_streams::outlet::Outlet;

/// Takes the next line. Where that may need a read, all replies so far are sent first.
pub(crate) fn next_line<R: Read, W: Write>(
    source: &mut Lines<R>,
    sink: &mut Outlet<W>,
) -> Result<Option<Line>, Fault>
    requires sound { IsSound R.remaining source.old }
    requires open { is_cut sink.old ≡ false }
    ensures line { IfOk result (λ line. MatchOption line (HasNoLine R.remaining source.old source.new) (TakesLine R.remaining source.old source.new)) }
    ensures gives { OnOk result (Gives W.contents sink.old sink.new []) }
    ensures err { IfErr result (StopsAtLine R.remaining W.contents source.old source.new sink.old sink.new) }
    ensures at_hand { is_at_hand source.old ≡ true → ReadsNothing source.old source.new }
    ensures sent { is_at_hand source.old ≡ false → waiting sink.new ≡ [] }
    ensures uncut { OnOk result (is_cut sink.new ≡ false) }
    ensures counted { IfOk result (λ line. CountsTaken (lines_taken source.old) (lines_taken source.new) (Ok line)) }
    ensures none_refused { OnOk result (lines_refused source.new ≡ lines_refused source.old) }
{
    if !source.is_at_hand() {
        sink.send()?;
    }
    Ok(source.next_line()?)
}

/// Takes so many lines, whatever is wrong with them, and joins them by line feeds, as long as there is memory for it.
pub(crate) fn take_script<R: Read, W: Write>(
    alloc: Global,
    lines: u32,
    source: &mut Lines<R>,
    sink: &mut Outlet<W>,
) -> Result<Result<Option<String>, LineFault>, Fault>
    requires sound { IsSound R.remaining source.old }
    requires open { is_cut sink.old ≡ false }
    ensures { MatchResult result (TakesHeld R.remaining W.contents lines source.old source.new sink.old sink.new) (StopsWithin R.remaining W.contents source.old source.new sink.old sink.new lines) }
{
    let mut joined = Joined::new(alloc);
    'lines: for taken in 0..lines {
        match next_line(source, sink)? {
            Some(line) => joined.add(text_of(line.text.as_slice(), line.is_long), taken == 0),
            None => return Ok(Err(LineFault::Truncated)),
        }
    }
    Ok(joined.finish())
}
