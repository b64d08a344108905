// Why the book refuses a call.
ghost use Rattle.std.specs.Prelude.{◌≡◌, Option, Some};
ghost use Rattle.std.specs.Fmt.{DisplaysOnOk, option_append};
ghost use Rattle.book_refusals.specs.declared.fault.BookFault.TheVariants.{Memory};
ghost use Rattle.book_refusals.specs.Fault.{Tells, delay_tells, fault_text, pair_text, work_text};
ghost use Rattle.book_refusals.specs.Refusals.{Refusal, refusal_of};

use event::ready::{Delay, Unready};
use ids::names::{EventName, MsgId};
use ids::text::Text;
use kernele_scopes::CheckFault;
use std::alloc::{AllocError, AllocFailed};
use std::fmt;
use std::fmt::{Debug, Display, Formatter, Write};
use thiserror::Error;

/// Why a call of the book is refused. The book is then as it was.
#[derive(Drop, Error)]
pub enum BookFault {
    /// No vat has this name.
    NoVat(Text),
    NameTaken(Text),
    /// No message has this name.
    NoMessage(MsgId),
    /// The message is not at a vat.
    NotThere,
    /// The message's target does not lead to the vat where it is, or elsewhere; or the value of its `when` is not known.
    NotReady,
    /// This message must be done first.
    Before(MsgId),
    /// The promise is not open in the vat's view, or not published.
    NothingToLearn,
    /// The journal has no room, or names are used up.
    Full,
    /// The world is no longer as the turn found it.
    Stale,
    /// A ticket of the vat is out.
    VatOut,
    /// No such ticket is out.
    NoTicket,
    /// No entry of the journal has this name.
    NoEvent(EventName),
    /// The journal has no entry at this position, counted from 1.
    NoPosition(usize),
    /// The event is settled: it can no longer be taken back.
    Settled(EventName),
    /// The event is undone.
    NotLive(EventName),
    /// The event is live already.
    IsLive(EventName),
    /// The second event is live, came of the first, and is not to be undone with it.
    NotClosed(EventName, EventName),
    /// The second event would be a cause of the first, and was none.
    Crossed(EventName, EventName),
    /// The second event is a cause of the first, and would not be live.
    CauseMissing(EventName, EventName),
    /// One of these neighbours wrote a cell that the other touched.
    Dependent(EventName, EventName),
    /// A budget is 1 to `MOST_STEPS`.
    BadBudget,
    /// The program does not pass the check.
    Check(CheckFault),
    Memory,
}

/// Writes words, and behind them what they are about.
fn write_about<T: Display, W: Write>(f: &mut Formatter<W>, words: &str, about: &T) -> fmt::Result
    ensures { DisplaysOnOk W.write_str_gives f.old result (option_append (Some words.now) (T.output about.now)) f.new }
{
    f.write_str(words)?;
    about.fmt(f)
}

/// Writes words, and behind them two events.
fn write_pair<W: Write>(
    f: &mut Formatter<W>,
    words: &str,
    event: EventName,
    other: EventName,
) -> fmt::Result
    ensures { DisplaysOnOk W.write_str_gives f.old result (Some (pair_text words.now event other)) f.new }
{
    write!(f, "{words}{event} {other}")
}

impl Display for BookFault {
    ghost output = { λ fault. Some (fault_text fault) };

    #[tactic(auto, using(crate::proofs::Words::check_words))]
    fn fmt<W: Write>(&self, f: &mut Formatter<W>) -> fmt::Result {
        match self {
            BookFault::NoVat(name) => write_about(f, "B1 NoVat ", name),
            BookFault::NameTaken(name) => write_about(f, "B2 NameTaken ", name),
            BookFault::NoMessage(message) => write_about(f, "B3 NoMessage ", message),
            BookFault::NotThere => f.write_str("B4 NotThere"),
            BookFault::NotReady => f.write_str("B5 NotReady"),
            BookFault::Before(message) => write_about(f, "B6 Before ", message),
            BookFault::NothingToLearn => f.write_str("B7 NothingToLearn"),
            BookFault::Full => f.write_str("B8 Full"),
            BookFault::Stale => f.write_str("B9 Stale"),
            BookFault::VatOut => f.write_str("B10 VatOut"),
            BookFault::NoTicket => f.write_str("B11 NoTicket"),
            BookFault::NoEvent(event) => write_about(f, "B12 NoEvent ", event),
            BookFault::NoPosition(position) => write_about(f, "B12 NoEvent ", position),
            BookFault::Settled(event) => write_about(f, "B22 Settled ", event),
            BookFault::NotLive(event) => write_about(f, "B13 NotLive ", event),
            BookFault::IsLive(event) => write_about(f, "B14 IsLive ", event),
            BookFault::NotClosed(event, other) => write_pair(f, "B15 NotClosed ", *event, *other),
            BookFault::Crossed(event, other) => write_pair(f, "B16 Crossed ", *event, *other),
            BookFault::CauseMissing(event, other) => {
                write_pair(f, "B17 CauseMissing ", *event, *other)
            }
            BookFault::Dependent(event, other) => write_pair(f, "B18 Dependent ", *event, *other),
            BookFault::BadBudget => f.write_str("B19 BadBudget"),
            BookFault::Check(fault) => Display::fmt(fault, f),
            BookFault::Memory => f.write_str("B20 Memory"),
        }
    }
}

impl Debug for BookFault {
    fn fmt<W: Write>(&self, f: &mut Formatter<W>) -> fmt::Result {
        Display::fmt(self, f)
    }
}

impl From<AllocError> for BookFault {
    ghost from_gives = { λ _ e. e ≡ Memory };

    fn from(_error: AllocError) -> Self {
        BookFault::Memory
    }
}

impl<T: Drop> From<AllocFailed<T>> for BookFault {
    ghost from_gives = { λ _ e. e ≡ Memory };

    fn from(_error: AllocFailed<T>) -> Self {
        BookFault::Memory
    }
}

/// Why a message that is not ready may not be delivered.
pub fn unready_fault(message: MsgId, unready: Unready) -> BookFault
    ensures { Tells result (Some (refusal_of message unready)) }
{
    match unready {
        Unready::NoMessage => BookFault::NoMessage(message),
        Unready::NotThere => BookFault::NotThere,
        Unready::NotReady => BookFault::NotReady,
        Unready::Before(first) => BookFault::Before(first),
    }
}

/// Why a delivery is put off, also where memory ran out.
pub fn delay_fault(message: MsgId, delay: Delay) -> BookFault
    ensures { (refusal : Option Refusal) → delay_tells message delay refusal → Tells result refusal }
{
    match delay {
        Delay::Memory => BookFault::Memory,
        Delay::Unready(unready) => unready_fault(message, unready),
    }
}

/// Why workers did nothing.
#[derive(Drop, Error)]
pub enum WorkFault {
    /// No worker could be started.
    NoWorker,
    /// As a call of the book is refused: turns may not have this budget, or memory ran out.
    Book(BookFault),
}

impl Display for WorkFault {
    ghost output = { λ fault. Some (work_text fault) };

    fn fmt<W: Write>(&self, f: &mut Formatter<W>) -> fmt::Result {
        match self {
            WorkFault::NoWorker => f.write_str("S7 NoWorker"),
            WorkFault::Book(fault) => Display::fmt(fault, f),
        }
    }
}

impl Debug for WorkFault {
    fn fmt<W: Write>(&self, f: &mut Formatter<W>) -> fmt::Result {
        Display::fmt(self, f)
    }
}
