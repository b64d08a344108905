// The engine over a reader and a writer.
ghost use Rattle.evats.specs.Edge.{EndsAs};

use book_crew::crew::Crew;
use std::alloc::Global;
use std::io::{Read, Write};
use stepper::{Ended, Fault, Limits, run};
use stepper_streams::lines::Lines;
use stepper_streams::outlet::Outlet;

/// Answers the commands of a reader on a writer, with a crew for `work`.
pub(crate) fn answer_commands<I: Read + Drop, O: Write + Drop, C: Crew>(
    alloc: Global,
    input: I,
    output: O,
    limits: Limits,
    crew: &mut C,
) -> Ended
    requires { C.ready }
    ensures { EndsAs I.remaining O.contents limits input output result }
{
    match Lines::new(alloc, input) {
        Ok(mut source) => {
            let mut sink = Outlet::new(alloc, output);
            Ended::Ran(run(alloc, &mut source, &mut sink, limits, crew))
        }
        Err(_) => Ended::Ran(Err(Fault::Memory)),
    }
}
