//! Runs commands on vats, and writes one reply for each, as it is read.
#![tactic(auto)]

mod complaint;
mod edge;
mod options;
mod threaded;
mod words;

use complaint::{Complaint, RunEnd, exit_status, outcome};
use edge::answer_commands;
use options::{Options, Parsed, parse};
use std::process::ExitCode;
use std::rt::Runtime;
use std::sync::Wait;
use std::thread::{Builder, Threads};
use std::{fs, io};
use stepper::{Fault, STACK};
use threaded::Threaded;
use words::{WordsFault, words};

/// Answers the commands of a file, or of standard input, on standard output.
fn answer<'a, R: Runtime + AllocGlobal + Threads + Wait + Sync>(
    rt: &R,
    options: Options<'a>,
) -> RunEnd<'a> {
    let Options { limits, file } = options;
    let output = io::writer(rt);
    let mut crew = Threaded { rt };
    match file {
        Some(name) => match fs::open(rt, name) {
            Ok(input) => outcome(answer_commands(rt.alloc(), input, output, limits, &mut crew)),
            Err(_) => Err(Complaint::NoFile(name)),
        },
        None => outcome(answer_commands(rt.alloc(), rt.reader(), output, limits, &mut crew)),
    }
}

/// Does what the words ask for, the program's own name first.
fn obey<'a, R: Runtime + AllocGlobal + Threads + Wait + Sync>(
    rt: &R,
    words: &'a [String],
) -> RunEnd<'a> {
    match parse(rt, words) {
        Ok(Parsed::Options(options)) => answer(rt, options),
        Ok(Parsed::Stop(ended)) => Ok(ended),
        Err(fault) => Err(Complaint::Cut(fault)),
    }
}

/// Says on standard error what is complained of, and gives the exit status. Where it cannot be said, the status alone tells it.
fn end(rt: &impl Eprint, outcome: &RunEnd<'_>) -> u8 {
    if let Err(complaint) = outcome {
        let _ = eprintln!(rt; "evats: {complaint}");
    }
    exit_status(outcome)
}

/// Does what the words of the command line ask for, and gives the exit status.
fn run<R: Runtime + AllocGlobal + Threads + Wait + Sync>(rt: &R) -> u8 {
    match words(rt) {
        Ok(words) => end(rt, &obey(rt, words.as_slice())),
        Err(WordsFault::NotText(word)) => end(rt, &Err(Complaint::NotText(&word))),
        Err(WordsFault::Memory) => end(rt, &Err(Complaint::Cut(Fault::Memory))),
    }
}

fn main(rt: HostRuntime) -> ExitCode {
    // All is done on a stack whose size the system's limits do not set.
    let own = rt;
    let status = match Builder::new()
        .stack_size(STACK)
        .spawn(&rt, move || run(&own))
    {
        Ok(thread) => thread.join(&rt),
        Err(_) => end(&rt, &Err(Complaint::NoThread)),
    };
    ExitCode::from(status)
}
