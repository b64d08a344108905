// Replies, as they are given to an outlet piece by piece: they take no memory.
ghost use Rattle.std.specs.Prelude.{◌++◌, true, codes};
ghost use Rattle.ids.specs.Quoted.{quoted};
ghost use Rattle.values.specs.Shown as values;
ghost use Rattle.values.specs.View.{val_of};
ghost use Rattle.ereader.specs.Shown.{shown};
ghost use Rattle.book_refusals.specs.Fault as book_fault;
ghost use Rattle.turn_deliveries.specs.Outcomes.{told_of};
ghost use Rattle.stepper_commands.specs.Commands.{fault_text};
ghost use Rattle.stepper_questions.specs.Refusals.{unanswered_text};
ghost use Rattle.stepper.specs.Replies.{refused, queued_text, done_text, idle_text, turned_text, told_text, undone_text, redone_text, exchanged_text, settled_text, worked_text, logged_text};
ghost use Rattle.stepper_streams.specs.Outlet.{Tells};

use crate::words::{
    put_book_fault, put_line_fault, put_read_fault, put_unanswered, put_work_fault,
};
use book_refusals::fault::{BookFault, WorkFault};
use ereader::fault::ReadFault;
use ids::names::{EventName, MsgId};
use std::io::Write;
use stepper_commands::command::LineFault;
use stepper_printing::names::{put_event, put_message};
use stepper_printing::quoting::put_quoted;
use stepper_printing::value::put_value;
use stepper_questions::unanswered::Unanswered;
use stepper_streams::outlet::Outlet;
use turn_deliveries::outcome::TurnEnd;
use values::value::Value;

/// What is kept of the replies.
#[derive(Clone, Copy)]
pub struct Written {
    /// Whether one was a refusal.
    pub refused: bool,
}

/// An event happened that made one message.
pub(crate) fn put_queued<W: Write>(event: EventName, out: &mut Outlet<W>)
    ensures { Tells W.contents out.old out.new (queued_text event) }
{
    out.put("ok ");
    put_event(event, out);
    out.put(" ");
    put_message(MsgId { event, index: 0 }, out);
    out.put("\n");
}

/// An event happened that has nothing to tell.
pub(crate) fn put_done<W: Write>(event: EventName, out: &mut Outlet<W>)
    ensures { Tells W.contents out.old out.new (done_text event) }
{
    out.put("ok ");
    put_event(event, out);
    out.put("\n");
}

/// There is nothing to do.
pub(crate) fn put_idle<W: Write>(out: &mut Outlet<W>)
    ensures { Tells W.contents out.old out.new idle_text }
{
    out.put("idle\n");
}

fn put_given<W: Write>(value: &Value, out: &mut Outlet<W>)
    ensures { Tells W.contents out.old out.new (codes "value " ++ values.shown (val_of value.now)) }
{
    out.put("value ");
    put_value(value, out);
}

fn put_reason<W: Write>(words: &str, reason: &str, out: &mut Outlet<W>)
    ensures { Tells W.contents out.old out.new (words.now ++ quoted reason.now) }
{
    out.put(words);
    put_quoted(reason, out);
}

fn put_end<W: Write>(ended: &TurnEnd, out: &mut Outlet<W>)
    ensures { Tells W.contents out.old out.new (told_text (told_of ended.now)) }
{
    match ended {
        TurnEnd::Value(value) => put_given(value, out),
        TurnEnd::Problem(problem) => put_reason("problem ", problem.as_str(), out),
        TurnEnd::Abandoned(why) => put_reason("abandoned ", why.reason(), out),
    }
}

/// A turn was run.
pub(crate) fn put_turned<W: Write>(event: EventName, ended: &TurnEnd, out: &mut Outlet<W>)
    ensures { Tells W.contents out.old out.new (turned_text event (told_of ended.now)) }
{
    out.put("ok ");
    put_event(event, out);
    out.put(" ");
    put_end(ended, out);
    out.put("\n");
}

/// The log of a vat is written.
pub(crate) fn put_log<W: Write>(text: &str, out: &mut Outlet<W>)
    ensures { Tells W.contents out.old out.new (logged_text text.now) }
{
    out.put(text);
    out.put("\n");
}

/// Workers took turns, of which so many were entered.
pub(crate) fn put_worked<W: Write>(turns: u64, out: &mut Outlet<W>)
    ensures { Tells W.contents out.old out.new (worked_text turns) }
{
    out.put("ok work ");
    out.put_number(turns);
    out.put("\n");
}

/// So many entries were undone.
pub(crate) fn put_undone<W: Write>(count: usize, out: &mut Outlet<W>)
    ensures { Tells W.contents out.old out.new (undone_text count) }
{
    out.put("ok undone ");
    out.put_number(count);
    out.put("\n");
}

/// So many entries are live again.
pub(crate) fn put_redone<W: Write>(count: usize, out: &mut Outlet<W>)
    ensures { Tells W.contents out.old out.new (redone_text count) }
{
    out.put("ok redone ");
    out.put_number(count);
    out.put("\n");
}

/// The entries of two events changed places.
pub(crate) fn put_exchanged<W: Write>(event: EventName, other: EventName, out: &mut Outlet<W>)
    ensures { Tells W.contents out.old out.new (exchanged_text event other) }
{
    out.put("ok exchanged ");
    put_event(event, out);
    out.put(" ");
    put_event(other, out);
    out.put("\n");
}

/// All entries up to a position are settled.
pub(crate) fn put_settled<W: Write>(position: usize, out: &mut Outlet<W>)
    ensures { Tells W.contents out.old out.new (settled_text position) }
{
    out.put("ok settled ");
    out.put_number(position);
    out.put("\n");
}

impl Written {
    ghost use Rattle.stepper.specs.Written.{Adds};

    pub(crate) fn refuse_line<W: Write>(&mut self, fault: LineFault, out: &mut Outlet<W>)
        ensures { Adds W.contents self.old self.new out.old out.new (refused (fault_text fault)) true }
    {
        self.refused = true;
        out.put("no ");
        put_line_fault(fault, out);
        out.put("\n");
    }

    pub(crate) fn refuse_text<W: Write>(&mut self, fault: &ReadFault, out: &mut Outlet<W>)
        ensures { Adds W.contents self.old self.new out.old out.new (refused (shown fault.now)) true }
    {
        self.refused = true;
        out.put("no ");
        put_read_fault(fault, out);
        out.put("\n");
    }

    pub(crate) fn refuse_call<W: Write>(&mut self, fault: &BookFault, out: &mut Outlet<W>)
        ensures { Adds W.contents self.old self.new out.old out.new (refused (book_fault.fault_text fault.now)) true }
    {
        self.refused = true;
        out.put("no ");
        put_book_fault(fault, out);
        out.put("\n");
    }

    pub(crate) fn refuse_work<W: Write>(&mut self, fault: &WorkFault, out: &mut Outlet<W>)
        ensures { Adds W.contents self.old self.new out.old out.new (refused (book_fault.work_text fault.now)) true }
    {
        self.refused = true;
        out.put("no ");
        put_work_fault(fault, out);
        out.put("\n");
    }

    pub(crate) fn refuse_question<W: Write>(&mut self, fault: &Unanswered, out: &mut Outlet<W>)
        ensures { Adds W.contents self.old self.new out.old out.new (refused (unanswered_text fault.now)) true }
    {
        self.refused = true;
        out.put("no ");
        put_unanswered(fault, out);
        out.put("\n");
    }
}
