// Refusals in words, as they are printed. What a `Display` writes may fail without a reason, and a reply may not.
ghost use Rattle.std.specs.Prelude.{◌++◌, codes};
ghost use Rattle.std.specs.Fmt.{decimal};
ghost use Rattle.ids.specs.Names.{event_text, message_text};
ghost use Rattle.ereader.specs.Shown.{shown};
ghost use Rattle.stepper_commands.specs.Commands.{fault_text};
ghost use Rattle.book_refusals.specs.Fault as book_fault;
ghost use Rattle.book_refusals.specs.Fault.{pair_text};
ghost use Rattle.stepper_questions.specs.Refusals.{unanswered_text};
ghost use Rattle.stepper.specs.Words.{check_text};
ghost use Rattle.stepper_streams.specs.Outlet.{Tells};

use book_refusals::fault::{BookFault, WorkFault};
use ereader::fault::ReadFault;
use ids::names::{EventName, MsgId};
use kernele_scopes::CheckFault;
use std::io::Write;
use stepper_commands::command::LineFault;
use stepper_printing::names::{put_event, put_message};
use stepper_questions::unanswered::Unanswered;
use stepper_streams::outlet::Outlet;

fn put_about<W: Write>(words: &str, name: &str, out: &mut Outlet<W>)
    ensures { Tells W.contents out.old out.new (words.now ++ name.now) }
{
    out.put(words);
    out.put(name);
}

fn put_about_event<W: Write>(words: &str, event: EventName, out: &mut Outlet<W>)
    ensures { Tells W.contents out.old out.new (words.now ++ event_text event) }
{
    out.put(words);
    put_event(event, out);
}

fn put_about_message<W: Write>(words: &str, message: MsgId, out: &mut Outlet<W>)
    ensures { Tells W.contents out.old out.new (words.now ++ message_text message) }
{
    out.put(words);
    put_message(message, out);
}

fn put_about_number<W: Write>(words: &str, number: usize, out: &mut Outlet<W>)
    ensures { Tells W.contents out.old out.new (words.now ++ decimal number) }
{
    out.put(words);
    out.put_number(number);
}

fn put_about_pair<W: Write>(words: &str, event: EventName, other: EventName, out: &mut Outlet<W>)
    ensures { Tells W.contents out.old out.new (pair_text words.now event other) }
{
    out.put(words);
    put_event(event, out);
    out.put(" ");
    put_event(other, out);
}

pub(crate) fn put_line_fault<W: Write>(fault: LineFault, out: &mut Outlet<W>)
    ensures { Tells W.contents out.old out.new (fault_text fault) }
{
    match fault {
        LineFault::UnknownCommand => out.put("S1 UnknownCommand"),
        LineFault::BadWord => out.put("S2 BadWord"),
        LineFault::LineTooLong => out.put("S3 LineTooLong"),
        LineFault::Truncated => out.put("S4 Truncated"),
    }
}

pub(crate) fn put_read_fault<W: Write>(fault: &ReadFault, out: &mut Outlet<W>)
    ensures { Tells W.contents out.old out.new (shown fault.now) }
{
    match fault {
        ReadFault::BadCharacter(offset) => put_about_number("L1 BadCharacter ", *offset, out),
        ReadFault::UnclosedText(offset) => put_about_number("L2 UnclosedText ", *offset, out),
        ReadFault::BadEscape(offset) => put_about_number("L3 BadEscape ", *offset, out),
        ReadFault::IntegerTooLarge(offset) => put_about_number("L4 IntegerTooLarge ", *offset, out),
        ReadFault::Unexpected(offset) => put_about_number("L5 Unexpected ", *offset, out),
        ReadFault::TooDeep => out.put("L6 TooDeep"),
        ReadFault::Memory => out.put("L7 Memory"),
        ReadFault::TooLong => out.put("L8 TooLong"),
    }
}

fn put_check_fault<W: Write>(fault: &CheckFault, out: &mut Outlet<W>)
    ensures { Tells W.contents out.old out.new (check_text fault.now) }
{
    match fault {
        CheckFault::Unbound(name) => put_about("K1 Unbound ", name.as_str(), out),
        CheckFault::AssignToDef(name) => put_about("K2 AssignToDef ", name.as_str(), out),
        CheckFault::DuplicateName(name) => put_about("K3 DuplicateName ", name.as_str(), out),
        CheckFault::TooDeep => out.put("K4 TooDeep"),
        CheckFault::TooLong => out.put("K5 TooLong"),
        CheckFault::Memory => out.put("B20 Memory"),
    }
}

pub(crate) fn put_book_fault<W: Write>(fault: &BookFault, out: &mut Outlet<W>)
    ensures { Tells W.contents out.old out.new (book_fault.fault_text fault.now) }
{
    match fault {
        BookFault::NoVat(name) => put_about("B1 NoVat ", name.as_str(), out),
        BookFault::NameTaken(name) => put_about("B2 NameTaken ", name.as_str(), out),
        BookFault::NoMessage(message) => put_about_message("B3 NoMessage ", *message, out),
        BookFault::NotThere => out.put("B4 NotThere"),
        BookFault::NotReady => out.put("B5 NotReady"),
        BookFault::Before(message) => put_about_message("B6 Before ", *message, out),
        BookFault::NothingToLearn => out.put("B7 NothingToLearn"),
        BookFault::Full => out.put("B8 Full"),
        BookFault::Stale => out.put("B9 Stale"),
        BookFault::VatOut => out.put("B10 VatOut"),
        BookFault::NoTicket => out.put("B11 NoTicket"),
        BookFault::NoEvent(event) => put_about_event("B12 NoEvent ", *event, out),
        BookFault::NoPosition(position) => put_about_number("B12 NoEvent ", *position, out),
        BookFault::Settled(event) => put_about_event("B22 Settled ", *event, out),
        BookFault::NotLive(event) => put_about_event("B13 NotLive ", *event, out),
        BookFault::IsLive(event) => put_about_event("B14 IsLive ", *event, out),
        BookFault::NotClosed(event, other) => put_about_pair("B15 NotClosed ", *event, *other, out),
        BookFault::Crossed(event, other) => put_about_pair("B16 Crossed ", *event, *other, out),
        BookFault::CauseMissing(event, other) => {
            put_about_pair("B17 CauseMissing ", *event, *other, out)
        }
        BookFault::Dependent(event, other) => put_about_pair("B18 Dependent ", *event, *other, out),
        BookFault::BadBudget => out.put("B19 BadBudget"),
        BookFault::Check(fault) => put_check_fault(fault, out),
        BookFault::Memory => out.put("B20 Memory"),
    }
}

pub(crate) fn put_work_fault<W: Write>(fault: &WorkFault, out: &mut Outlet<W>)
    ensures { Tells W.contents out.old out.new (book_fault.work_text fault.now) }
{
    match fault {
        WorkFault::NoWorker => out.put("S7 NoWorker"),
        WorkFault::Book(fault) => put_book_fault(fault, out),
    }
}

fn put_about_object<W: Write>(words: &str, event: EventName, index: u32, out: &mut Outlet<W>)
    ensures { Tells W.contents out.old out.new (words.now ++ (event_text event ++ (codes ".o" ++ decimal index))) }
{
    out.put(words);
    put_event(event, out);
    out.put(".o");
    out.put_number(index);
}

pub(crate) fn put_unanswered<W: Write>(fault: &Unanswered, out: &mut Outlet<W>)
    ensures { Tells W.contents out.old out.new (unanswered_text fault.now) }
{
    match fault {
        Unanswered::NoMessage(message) => put_about_message("B3 NoMessage ", *message, out),
        Unanswered::NoEvent(event) => put_about_event("B12 NoEvent ", *event, out),
        Unanswered::Settled(event) => put_about_event("B22 Settled ", *event, out),
        Unanswered::NoObject(event, index) => {
            put_about_object("B23 NoObject ", *event, *index, out)
        }
        Unanswered::Memory => out.put("B20 Memory"),
    }
}
