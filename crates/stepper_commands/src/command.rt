// Commands, as lines spell them.
ghost use Rattle.std.specs.Prelude.{◌≡◌, ℕ, Some, None, cond};
ghost use Rattle.std.specs.Option.{option_map, option_and_then};
ghost use Rattle.stepper_commands.specs.Numbers.{number_of};
ghost use Rattle.stepper_commands.specs.Words.{words_in};
ghost use Rattle.ids.specs.declared.names.EventName.{EventName};
ghost use Rattle.ids.specs.declared.names.MsgId.{MsgId};
ghost use Rattle.stepper_commands.specs.Commands.{Spelled, is_vat_name, at_most, from_one_to, is_among, are_vats, earlier_of, lines_of, birth_of, ask_of, arrive, forward, learn_of, turn, step, run_of, work_of, enabled, show, journal, log_of, cone, undo, undo_cone, redo, exchange, settle, why_of, event, message, object_of, of_position, alone, of_message, of_event, of_events, is_skipped, begun_by, spelled_by, command_of, reading_of, fault_text};

use crate::numbers::{
    ObjectName, PromiseName, are_events, behind_tag, event_named, message_named, number,
    object_named, promise_named,
};
use crate::words::{cut_word, ends_blank, skip_blanks};
use etoken::names::is_name;
use ids::names::{EventName, MsgId};
use std::fmt;
use std::fmt::{Debug, Display, Formatter, Write};
use thiserror::Error;

/// The most bytes that may stand before a line feed.
pub const LONGEST_LINE: usize = 65_536;

/// The most script lines that a vat may have.
const MOST_LINES: u32 = 4_096;

/// The most bytes of a vat's name.
const LONGEST_NAME: usize = 64;

/// The most steps that may be commanded at once.
const MOST_STEPS: u32 = 1_000_000;

/// The most workers that may be commanded at once.
const MOST_WORKERS: u32 = 64;

/// The most turns that may be commanded of workers.
const MOST_TURNS: u32 = 1_000_000;

/// A command.
#[derive(Clone, Copy)]
pub enum Command<'a> {
    /// A new vat: its script is in so many lines that follow, and may name the vats that these words do.
    Birth {
        name: &'a str,
        earlier: &'a str,
        lines: u32,
    },
    /// A program that is asked of a vat.
    Ask {
        name: &'a str,
        text: &'a str,
    },
    Arrive(MsgId),
    Forward(MsgId),
    /// A vat is to learn what is known of a promise.
    Learn {
        name: &'a str,
        promise: PromiseName,
    },
    Turn(MsgId),
    /// The first of what may happen is to happen.
    Step,
    /// So many steps, one after another.
    Run(u32),
    /// So many workers are to do what may be done, until so many turns were taken.
    Work {
        workers: u32,
        turns: u32,
    },
    /// All that may happen is to be listed.
    Enabled,
    Show,
    Journal,
    /// The log of a vat's turns is to be written.
    Log(&'a str),
    Cone(EventName),
    /// The events that these words name are to be undone.
    Undo(&'a str),
    /// An event is undone with its cone.
    UndoCone(EventName),
    /// The events that these words name are to be live again.
    Redo(&'a str),
    /// The entry at a position, counted from 1, and the one behind it are to change places.
    Exchange(usize),
    /// All entries up to a position, counted from 1, are to be settled.
    Settle(usize),
    /// How the later of two events came of the earlier is to be told.
    Why(EventName, EventName),
    /// The cells that an event touched are to be told.
    Event(EventName),
    /// What a message delivers is to be told.
    Message(MsgId),
    /// What is in an object is to be told.
    Object(ObjectName),
}

/// Why a line is no command.
#[derive(Clone, Copy, Error)]
pub enum LineFault {
    UnknownCommand,
    /// A wrong count or form of words, a number out of range, or bytes that are no text.
    BadWord,
    LineTooLong,
    /// The input ends inside a script.
    Truncated,
}

impl Display for LineFault {
    ghost output = { λ fault. Some (fault_text fault) };

    fn fmt<W: Write>(&self, f: &mut Formatter<W>) -> fmt::Result {
        f.write_str(match self {
            LineFault::UnknownCommand => "S1 UnknownCommand",
            LineFault::BadWord => "S2 BadWord",
            LineFault::LineTooLong => "S3 LineTooLong",
            LineFault::Truncated => "S4 Truncated",
        })
    }
}

impl Debug for LineFault {
    fn fmt<W: Write>(&self, f: &mut Formatter<W>) -> fmt::Result {
        Display::fmt(self, f)
    }
}

/// Whether a word is a name that a vat may have.
fn is_vat_name(word: &str) -> bool
    ensures { result ≡ is_vat_name word.now }
{
    is_name(word) && word.len() <= LONGEST_NAME
}

/// A number that is no greater than this.
fn number_up_to(word: &str, most: u32) -> Option<u32>
    ensures { result ≡ option_and_then (at_most most) (number_of word.now) }
{
    let number = number(word)?;
    (number <= most).then_some(number)
}

/// The number of lines that stands behind blanks, with nothing behind it.
fn lines_behind(text: &str) -> Option<u32>
    ensures { result ≡ lines_of text.now }
{
    let (against, behind) = cut_word(text);
    let (count, end) = cut_word(behind);
    if against.is_empty() && end.is_empty() {
        number_up_to(count, MOST_LINES)
    } else {
        None
    }
}

/// Whether a word is among those of a text.
fn is_among(text: &str, word: &str) -> bool
    ensures { result ≡ is_among (words_in text.now) word.now }
{
    let mut rest = skip_blanks(text);
    'words: while !rest.is_empty() {
        let (other, behind) = cut_word(rest);
        if other == word {
            return true;
        }
        rest = behind;
    }
    false
}

/// Whether all words of a text may name vats, and none is given twice.
fn are_vats(text: &str) -> bool
    ensures { result ≡ are_vats (words_in text.now) }
{
    let mut rest = skip_blanks(text);
    'words: while !rest.is_empty() {
        let (word, behind) = cut_word(rest);
        if !is_vat_name(word) {
            return false;
        }
        if is_among(behind, word) {
            return false;
        }
        rest = behind;
    }
    true
}

/// Whether the words inside brackets may name earlier vats: they stand against the brackets, and these against each other where there is
/// none.
fn may_be_earlier(inside: &str) -> bool
    ensures { cond result (Some (words_in inside.now)) None ≡ earlier_of inside.now }
{
    let (first, _) = cut_word(inside);
    if first.is_empty() && !inside.is_empty() || ends_blank(inside.as_bytes()) {
        return false;
    }
    are_vats(inside)
}

fn birth(words: &str) -> Option<Command<'_>>
    ensures { option_map command_of result ≡ birth_of words.now }
{
    let (name, behind) = cut_word(words);
    if !is_vat_name(name) {
        return None;
    }
    let Some(text) = behind_tag('(', behind) else {
        return None;
    };
    let Some((earlier, behind)) = text.split_once(')') else {
        return None;
    };
    let Some(lines) = lines_behind(behind) else {
        return None;
    };
    if !may_be_earlier(earlier) {
        return None;
    }
    Some(Command::Birth {
        name,
        earlier,
        lines,
    })
}

fn ask(words: &str) -> Option<Command<'_>>
    ensures { option_map command_of result ≡ ask_of words.now }
{
    let (name, text) = cut_word(words);
    is_vat_name(name).then_some(Command::Ask { name, text })
}

/// One message's name, with nothing behind it.
fn one_message(words: &str) -> Option<MsgId>
    ensures { (command : MsgId → Spelled) → option_map command result ≡ of_message command words.now }
{
    let (name, end) = cut_word(words);
    if !end.is_empty() {
        return None;
    }
    message_named(name)
}

fn arrive(words: &str) -> Option<Command<'_>>
    ensures { option_map command_of result ≡ of_message arrive words.now }
{
    Some(Command::Arrive(one_message(words)?))
}

fn forward(words: &str) -> Option<Command<'_>>
    ensures { option_map command_of result ≡ of_message forward words.now }
{
    Some(Command::Forward(one_message(words)?))
}

fn learn(words: &str) -> Option<Command<'_>>
    ensures { option_map command_of result ≡ learn_of words.now }
{
    let (name, behind) = cut_word(words);
    let (promise, end) = cut_word(behind);
    if is_vat_name(name) && end.is_empty() {
        let promise = promise_named(promise)?;
        Some(Command::Learn { name, promise })
    } else {
        None
    }
}

fn turn(words: &str) -> Option<Command<'_>>
    ensures { option_map command_of result ≡ of_message turn words.now }
{
    Some(Command::Turn(one_message(words)?))
}

fn step(words: &str) -> Option<Command<'_>>
    ensures { option_map command_of result ≡ alone step words.now }
{
    words.is_empty().then_some(Command::Step)
}

fn run(words: &str) -> Option<Command<'_>>
    ensures { option_map command_of result ≡ run_of words.now }
{
    let (count, end) = cut_word(words);
    if !end.is_empty() {
        return None;
    }
    Some(Command::Run(number_up_to(count, MOST_STEPS)?))
}

/// A number of workers: one at least.
fn worker_count(word: &str) -> Option<u32>
    ensures { result ≡ option_and_then (from_one_to MOST_WORKERS) (number_of word.now) }
{
    let count = number(word)?;
    (count >= 1 && count <= MOST_WORKERS).then_some(count)
}

fn work(words: &str) -> Option<Command<'_>>
    ensures { option_map command_of result ≡ work_of words.now }
{
    let (workers, behind) = cut_word(words);
    let (turns, end) = cut_word(behind);
    if !end.is_empty() {
        return None;
    }
    let workers = worker_count(workers)?;
    let turns = number_up_to(turns, MOST_TURNS)?;
    Some(Command::Work { workers, turns })
}

fn enabled(words: &str) -> Option<Command<'_>>
    ensures { option_map command_of result ≡ alone enabled words.now }
{
    words.is_empty().then_some(Command::Enabled)
}

fn show(words: &str) -> Option<Command<'_>>
    ensures { option_map command_of result ≡ alone show words.now }
{
    words.is_empty().then_some(Command::Show)
}

fn journal(words: &str) -> Option<Command<'_>>
    ensures { option_map command_of result ≡ alone journal words.now }
{
    words.is_empty().then_some(Command::Journal)
}

fn log(words: &str) -> Option<Command<'_>>
    ensures { option_map command_of result ≡ log_of words.now }
{
    let (name, end) = cut_word(words);
    if !end.is_empty() {
        return None;
    }
    is_vat_name(name).then_some(Command::Log(name))
}

/// One event's name, with nothing behind it.
fn one_event(words: &str) -> Option<EventName>
    ensures { (command : EventName → Spelled) → option_map command result ≡ of_event command words.now }
{
    let (name, end) = cut_word(words);
    if !end.is_empty() {
        return None;
    }
    event_named(name)
}

fn cone(words: &str) -> Option<Command<'_>>
    ensures { option_map command_of result ≡ of_event cone words.now }
{
    Some(Command::Cone(one_event(words)?))
}

fn undo_cone(words: &str) -> Option<Command<'_>>
    ensures { option_map command_of result ≡ of_event undo_cone words.now }
{
    Some(Command::UndoCone(one_event(words)?))
}

fn undo(words: &str) -> Option<Command<'_>>
    ensures { option_map command_of result ≡ of_events undo words.now }
{
    are_events(words).then_some(Command::Undo(words))
}

fn redo(words: &str) -> Option<Command<'_>>
    ensures { option_map command_of result ≡ of_events redo words.now }
{
    are_events(words).then_some(Command::Redo(words))
}

/// The one position that words name.
fn position_named(words: &str) -> Option<usize>
    ensures { (command : ℕ → Spelled) → option_map command result ≡ of_position command words.now }
{
    let (position, end) = cut_word(words);
    if !end.is_empty() {
        return None;
    }
    Some(number(position)? as usize)
}

fn exchange(words: &str) -> Option<Command<'_>>
    ensures { option_map command_of result ≡ of_position exchange words.now }
{
    Some(Command::Exchange(position_named(words)?))
}

fn settle(words: &str) -> Option<Command<'_>>
    ensures { option_map command_of result ≡ of_position settle words.now }
{
    Some(Command::Settle(position_named(words)?))
}

fn why(words: &str) -> Option<Command<'_>>
    ensures { option_map command_of result ≡ why_of words.now }
{
    let (first, behind) = cut_word(words);
    let (second, end) = cut_word(behind);
    if !end.is_empty() {
        return None;
    }
    let first = event_named(first)?;
    let second = event_named(second)?;
    Some(Command::Why(first, second))
}

fn event(words: &str) -> Option<Command<'_>>
    ensures { option_map command_of result ≡ of_event event words.now }
{
    Some(Command::Event(one_event(words)?))
}

fn message(words: &str) -> Option<Command<'_>>
    ensures { option_map command_of result ≡ of_message message words.now }
{
    Some(Command::Message(one_message(words)?))
}

fn object(words: &str) -> Option<Command<'_>>
    ensures { option_map command_of result ≡ object_of words.now }
{
    let (name, end) = cut_word(words);
    if !end.is_empty() {
        return None;
    }
    Some(Command::Object(object_named(name)?))
}

fn is_skipped(text: &[u8]) -> bool
    ensures { result ≡ is_skipped text.now }
{
    match text.first() {
        Some(first) => *first == b'#',
        None => true,
    }
}

/// What a line says: a command, or none where the line is blank or a comment.
pub type Said<'a> = Result<Option<Command<'a>>, LineFault>;

/// The command that a word begins.
fn begun_by<'a>(word: &str, words: &'a str) -> Said<'a>
    ensures { reading_of result ≡ begun_by word.now words.now }
{
    let command = match word {
        "vat" => birth(words),
        "ask" => ask(words),
        "arrive" => arrive(words),
        "forward" => forward(words),
        "learn" => learn(words),
        "turn" => turn(words),
        "step" => step(words),
        "run" => run(words),
        "work" => work(words),
        "enabled" => enabled(words),
        "show" => show(words),
        "journal" => journal(words),
        "log" => log(words),
        "cone" => cone(words),
        "undo" => undo(words),
        "undo-cone" => undo_cone(words),
        "redo" => redo(words),
        "exchange" => exchange(words),
        "settle" => settle(words),
        "why" => why(words),
        "event" => event(words),
        "message" => message(words),
        "object" => object(words),
        _ => return Err(LineFault::UnknownCommand),
    };
    match command {
        Some(command) => Ok(Some(command)),
        None => Err(LineFault::BadWord),
    }
}

/// The command that a line spells, or none where the line is blank or a comment.
pub fn command_of(line: &str) -> Said<'_>
    ensures { reading_of result ≡ spelled_by line.now }
{
    let text = skip_blanks(line);
    if is_skipped(text.as_bytes()) {
        return Ok(None);
    }
    let (word, words) = cut_word(text);
    begun_by(word, words)
}
