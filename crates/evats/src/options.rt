// The words of the command line.
ghost use Rattle.std.specs.Prelude.{◌≡◌, ◌≢◌, ◌⊎◌, Ok, Err, codes};
ghost use Rattle.std.specs.Option.{option_map};
ghost use Rattle.clap.specs.Words.{found_of, one_text, first_value};
ghost use Rattle.clap.specs.Values.{kind_of};
ghost use Rattle.clap.specs.declared.error.kind.ErrorKind.TheVariants.{OutOfMemory, DisplayHelp, DisplayVersion};
ghost use Rattle.stepper.specs.declared.ended.Ended.TheVariants.{Help, Usage};
ghost use Rattle.stepper.specs.declared.fault.Fault.TheVariants.{Writer, Memory};
ghost use Rattle.evats.specs.Options.{IsNumber, IsFileOf};

use book::book::MOST_STEPS;
use clap::error::ErrorKind;
use clap::{Arg, ArgMatches, Command, Error, value_parser};
use std::alloc::{AllocError, Global};
use stepper::{Ended, Fault, Limits};

/// What `--version` tells.
const VERSION: &str = "0.2.0";

/// What stands below the options in the help.
const COMMANDS: &str = "\
Commands, one a line:
  vat NAME (EARLIER..) N    a vat, whose script is the next N lines, with the nouns of earlier vats
  ask NAME PROGRAM          a question to a vat
  enabled                   what may be done now
  step                      does the first that may be done
  run N                     up to N steps
  work K N                  K workers, up to N turns
  arrive M                  the message M arrives at the vat of its target
  forward M                 the message M goes on to where its target lives now
  turn M                    the turn of the message M
  learn NAME P              a vat learns what came of the promise P
  show                      the world
  journal                   all events with their causes
  log NAME                  what the turns of a vat got and sent, as JSON
  cone E                    the event E with all its consequences
  undo E..                  takes events back that have no consequences but each other
  undo-cone E               takes an event back with all its consequences
  redo E..                  does events again where they stood
  exchange P                lets the entry at position P and the next one change places
  settle P                  settles the entries up to position P, which can then not be taken back
  why E F                   how the later of two events came of the earlier
  event E                   the cells that the event E touched, each with who wrote it before
  message M                 what the message M waits for, and what it delivers
  object O                  what the object O captured, and its methods

For example:
  vat a () 1
  def greet(name) { return \"hello \" + name }
  turn e1.m0
  ask a greet(\"world\")
  turn e3.m0";

/// The options of a run.
#[derive(Drop)]
pub struct Options<'a> {
    pub limits: Limits,
    /// The file to be read, or none for standard input.
    pub file: Option<&'a str>,
}

/// What the words ask for.
#[derive(Drop)]
pub enum Parsed<'a> {
    Options(Options<'a>),
    /// Help was printed, or what is wrong.
    Stop(Ended),
}

/// An option that is a number from 1 on.
fn numbered<'a>(alloc: Global, name: &'a str, most: i64, help: &'a str) -> Arg<'a> {
    Arg::new(alloc, name)
        .long(name)
        .value_name("N")
        .value_parser(value_parser!(u32).range(1..=most))
        .help(help)
}

fn file<'a>(alloc: Global) -> Arg<'a> {
    Arg::new(alloc, "file").value_name("FILE").help(
        "The commands; without FILE, or where it is -, standard input is read",
    )
}

fn command<'a>(alloc: Global) -> Result<Command<'a>, AllocError> {
    let budget = numbered(
        alloc,
        "budget",
        i64::from(MOST_STEPS),
        "The most steps of a turn, 1 to 1,000,000; 10,000 if not given",
    );
    let workers = numbered(
        alloc,
        "workers",
        64,
        "The most workers that a command may start, 1 to 64; 8 if not given",
    );
    Command::new(alloc, "evats")
        .version(VERSION)
        .about("Runs programs of communicating event-loop vats: one reply for each command")
        .after_help(COMMANDS)
        .arg(budget)?
        .arg(workers)?
        .arg(file(alloc))
}

/// The number of an option, or another one where none was given.
fn number(matches: &ArgMatches, name: &str, otherwise: u32) -> u32
    ensures { IsNumber otherwise (one_text (found_of matches.now) name.now) result }
{
    matches.get_one::<u32>(name).unwrap_or(otherwise)
}

/// The file that a word names; `-` is standard input.
fn named_file(word: Option<&str>) -> Option<&str>
    ensures { IsFileOf (option_map (λ s. s.now) word.entry) (option_map (λ s. s.now) result) }
{
    match word {
        Some(path) => { if path == "-" { None } else { Some(path) } }
        None => None,
    }
}

impl<'a> Options<'a> {
    /// The options that words were matched to: 10,000 steps and 8 workers where they say no other numbers.
    fn from_matches(matches: &ArgMatches<'a>) -> Self
        ensures budget { IsNumber 10000 (one_text (found_of matches.now) (codes "budget")) result.limits.budget }
        ensures workers { IsNumber 8 (one_text (found_of matches.now) (codes "workers")) result.limits.workers }
        ensures file { IsFileOf (first_value (found_of matches.now) (codes "file")) (option_map (λ s. s.now) result.file) }
    {
        Options {
            limits: Limits {
                budget: number(matches, "budget", 10_000),
                workers: number(matches, "workers", 8),
            },
            file: named_file(matches.get_str("file")),
        }
    }
}

/// Prints the help, or what is wrong with the words.
fn stop<R: Print + Eprint>(rt: &R, error: &Error) -> Result<Ended, Fault>
    ensures memory { kind_of error.now ≡ OutOfMemory → result ≡ Err Memory }
    ensures shown { (kind_of error.now ≡ DisplayHelp) ⊎ (kind_of error.now ≡ DisplayVersion) → (result ≡ Ok Help) ⊎ (result ≡ Err Writer) }
    ensures wrong { kind_of error.now ≢ OutOfMemory → kind_of error.now ≢ DisplayHelp → kind_of error.now ≢ DisplayVersion → result ≡ Ok Usage }
{
    match error.kind() {
        ErrorKind::OutOfMemory => Err(Fault::Memory),
        ErrorKind::DisplayHelp | ErrorKind::DisplayVersion => match error.print(rt) {
            Ok(()) => Ok(Ended::Help),
            Err(_) => Err(Fault::Writer),
        },
        _ => {
            // Where standard error cannot be written the status alone tells it.
            let _ = error.print(rt);
            Ok(Ended::Usage)
        }
    }
}

/// Reads the words, the program's own name first, and prints the help or what is wrong.
pub(crate) fn parse<'a, R: Print + Eprint + AllocGlobal>(
    rt: &R,
    words: &'a [String],
) -> Result<Parsed<'a>, Fault> {
    let Ok(command) = command(rt.alloc()) else {
        return Err(Fault::Memory);
    };
    match command.try_get_matches_from(words) {
        Ok(matches) => Ok(Parsed::Options(Options::from_matches(&matches))),
        Err(error) => Ok(Parsed::Stop(stop(rt, &error)?)),
    }
}
