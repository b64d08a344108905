// Commands answered one after another.
ghost use Rattle.std.specs.Prelude.{◌≡◌, ℕ, List, [], Result, IfOk, IfErr, MatchResult, Ok, Some, false};
ghost use Rattle.kernele.specs.View.{program_of};
ghost use Rattle.ereader.specs.Texts.{ReadAs};
ghost use Rattle.book.specs.Books.{blank};
ghost use Rattle.book.specs.BookView.{book_of};
ghost use Rattle.stepper_commands.specs.Commands as commands;
ghost use Rattle.stepper_commands.specs.Commands.{command_of, reading_of};
ghost use Rattle.stepper_commands.specs.Numbers.{events_in};
ghost use Rattle.stepper_commands.specs.ScriptView.{IsHeld, IsScript};
ghost use Rattle.stepper_commands.specs.Words.{words_in};
ghost use Rattle.stepper_commands.specs.declared.command.LineFault.{LineFault};
ghost use Rattle.stepper_streams.specs.Lines.{is_ended, IsSound};
ghost use Rattle.stepper_streams.specs.Pieces.{Reads, IsOneLine};
ghost use Rattle.stepper_streams.specs.Outlet.{waiting, is_cut};
ghost use Rattle.stepper.specs.Replies.{Answers, AnswersBirth, Moves, Steps, EnabledIn};
ghost use Rattle.stepper.specs.Taking.{DoesOrStops, AnswersOrStops, StaysOpen};
ghost use Rattle.stepper.specs.Runs.{RunsToEnd, RunsTo};

use crate::fault::Fault;
use crate::input::{next_line, take_script};
use crate::reply::{
    Written, put_done, put_exchanged, put_idle, put_log, put_queued, put_redone, put_settled,
    put_turned, put_undone, put_worked,
};
use book::book::{Book, NO_SEAT, Turned};
use book::request::Request;
use book_agenda::agenda::{Move, Step};
use book_crew::crew::{Crew, Order};
use book_refusals::fault::BookFault;
use causewaylog::log::log_of;
use ereader::read;
use ids::names::{EventName, MsgId};
use ids::text::Text;
use kernele::tree::Program;
use std::alloc::{AllocError, Global};
use std::io::{Read, Write};
use std::mem;
use stepper_commands::command::{Command, LineFault, Said, command_of};
use stepper_commands::script::text_of;
use stepper_commands::{ObjectName, PromiseName, all_words, events_in};
use stepper_printing::enabled::{choice_of, put_enabled};
use stepper_printing::gathering::listing_of;
use stepper_printing::listing::{put_cone, put_journal};
use stepper_printing::picture::Picture;
use stepper_printing::show::put_world;
use stepper_questions::events::{event_told, put_told_event};
use stepper_questions::message::{message_told, put_told_message};
use stepper_questions::object::{object_told, put_told_object};
use stepper_questions::reason::put_reason;
use stepper_questions::why::why;
use stepper_streams::line::Line;
use stepper_streams::lines::Lines;
use stepper_streams::outlet::{Outlet, WriteFailed};

/// The bytes of the stack on which commands are to be answered: a text may nest thousands of levels deep, and the calls
/// that read it nest with it. The deepest text was measured to need 13 MiB of it, and level 1,000 of a turn less than two.
pub const STACK: usize = 32 << 20;

/// What the author's options allow.
#[derive(Clone, Copy)]
pub struct Limits {
    /// The most steps of a turn, from 1 to 1,000,000.
    pub budget: u32,
    /// The most workers that a command may start, from 1 to 64.
    pub workers: u32,
}

/// What is known of a run that came to its end.
#[derive(Clone, Copy)]
pub struct Summary {
    /// Whether a command was refused.
    pub refused: bool,
}

/// The book, and the replies so far.
#[derive(Drop)]
struct Engine {
    alloc: Global,
    limits: Limits,
    book: Book,
    written: Written,
}

impl Engine {
    ghost use Rattle.stepper.specs.Engine.{Happens, Moved};

    fn ask_program<W: Write>(&mut self, name: &str, program: Program, out: &mut Outlet<W>)
        ensures { (text : List ℕ) → ReadAs text (Ok (program_of program)) → Happens W.contents self.old self.new out.old out.new (λ b r s d. Answers self.old.limits b (commands.ask name.now text) r s d) }
    {
        let Ok(name) = Text::new(self.alloc, name) else {
            return self.written.refuse_call(&BookFault::Memory, out);
        };
        match self.book.ask(&name, program) {
            Ok(event) => put_queued(event, out),
            Err(fault) => self.written.refuse_call(&fault, out),
        }
    }

    fn ask<W: Write>(&mut self, name: &str, text: &str, out: &mut Outlet<W>)
        ensures { Happens W.contents self.old self.new out.old out.new (λ b r s d. Answers self.old.limits b (commands.ask name.now text.now) r s d) }
    {
        match read(self.alloc, text) {
            Ok(program) => self.ask_program(name, program, out),
            Err(fault) => self.written.refuse_text(&fault, out),
        }
    }

    fn learn<W: Write>(&mut self, name: &str, promise: PromiseName, out: &mut Outlet<W>)
        ensures { Happens W.contents self.old self.new out.old out.new (λ b r s d. Answers self.old.limits b (commands.learn name.now promise) r s d) }
    {
        let Ok(name) = Text::new(self.alloc, name) else {
            return self.written.refuse_call(&BookFault::Memory, out);
        };
        match self.book.learn_named(&name, promise.event, promise.index) {
            Ok(event) => put_done(event, out),
            Err(fault) => self.written.refuse_call(&fault, out),
        }
    }

    /// Enters a move, if it may be made.
    fn enter_move<W: Write>(&mut self, what: Move, out: &mut Outlet<W>) -> bool
        ensures { Moved W.contents self.old self.new out.old out.new (Step.Move what) result }
    {
        match self.book.enter(Request::Move(what), NO_SEAT) {
            Ok(event) => {
                put_done(event, out);
                true
            }
            Err(fault) => {
                self.written.refuse_call(&fault, out);
                false
            }
        }
    }

    fn turn<W: Write>(&mut self, message: MsgId, out: &mut Outlet<W>) -> bool
        ensures { Moved W.contents self.old self.new out.old out.new (Step.Turn message) result }
    {
        match self.book.turn(message, self.limits.budget) {
            Ok(Turned { event, ended }) => {
                put_turned(event, &ended, out);
                true
            }
            Err(fault) => {
                self.written.refuse_call(&fault, out);
                false
            }
        }
    }

    /// Does something, and answers whether it was done.
    fn make_step<W: Write>(&mut self, step: Step, out: &mut Outlet<W>) -> bool
        ensures { Moved W.contents self.old self.new out.old out.new step result }
    {
        match step {
            Step::Move(what) => self.enter_move(what, out),
            Step::Turn(message) => self.turn(message, out),
        }
    }

    /// Does what a command of one message says.
    fn obey<W: Write>(&mut self, step: Step, out: &mut Outlet<W>)
        ensures { Happens W.contents self.old self.new out.old out.new (λ b r s d. Moves self.old.limits b step r s d) }
    {
        let _ = self.make_step(step, out);
    }

    /// Does the first that may be done. Answers whether a next step may follow: something was found, and it was not refused.
    fn try_step<W: Write>(&mut self, out: &mut Outlet<W>) -> bool
        ensures { Happens W.contents self.old self.new out.old out.new (λ b r s d. Steps self.old.limits b r s d result) }
    {
        match self.book.next() {
            Ok(Some(step)) => self.make_step(step, out),
            Ok(None) => {
                put_idle(out);
                false
            }
            Err(AllocError) => {
                self.written.refuse_call(&BookFault::Memory, out);
                false
            }
        }
    }

    fn step<W: Write>(&mut self, out: &mut Outlet<W>)
        ensures { Happens W.contents self.old self.new out.old out.new (λ b r s d. Answers self.old.limits b commands.step r s d) }
    {
        let _ = self.try_step(out);
    }

    /// Steps, at most so many, up to one that finds nothing to do or is refused. What was told of each goes out before the next one, and
    /// none follows where that fails.
    fn run<W: Write>(&mut self, most: u32, out: &mut Outlet<W>)
        ensures { Happens W.contents self.old self.new out.old out.new (λ b r s d. Answers self.old.limits b (commands.run most) r s d) }
    {
        let mut left = most;
        'steps: while left > 0 {
            let goes_on = self.try_step(out);
            if !goes_on {
                return;
            }
            match out.send() {
                Ok(()) => left -= 1,
                Err(WriteFailed) => return,
            }
        }
    }

    /// Hands the book to the crew, and takes it back.
    fn work<W: Write, C: Crew>(
        &mut self,
        crew: &mut C,
        workers: u32,
        turns: u32,
        out: &mut Outlet<W>,
    )
        requires crew { C.ready }
        ensures { Happens W.contents self.old self.new out.old out.new (λ b r s d. Answers self.old.limits b (commands.work workers turns) r s d) }
    {
        let order = Order {
            budget: self.limits.budget,
            workers: workers.min(self.limits.workers),
            turns,
        };
        let book = mem::replace(&mut self.book, Book::new(self.alloc));
        let (book, answer) = crew.work(self.alloc, book, order);
        self.book = book;
        match answer {
            Ok(turns) => put_worked(turns, out),
            Err(fault) => self.written.refuse_work(&fault, out),
        }
    }

    fn choose<W: Write>(&mut self, steps: Vec<Step>, out: &mut Outlet<W>)
        ensures { EnabledIn (book_of self.old.book) steps.items → Happens W.contents self.old self.new out.old out.new (λ b r s d. Answers self.old.limits b commands.enabled r s d) }
    {
        match choice_of(self.alloc, self.book.world(), steps) {
            Ok(choice) => put_enabled(&choice, out),
            Err(AllocError) => self.written.refuse_call(&BookFault::Memory, out),
        }
    }

    fn enabled<W: Write>(&mut self, out: &mut Outlet<W>)
        ensures { Happens W.contents self.old self.new out.old out.new (λ b r s d. Answers self.old.limits b commands.enabled r s d) }
    {
        match self.book.enabled() {
            Ok(steps) => self.choose(steps, out),
            Err(AllocError) => self.written.refuse_call(&BookFault::Memory, out),
        }
    }

    fn show<W: Write>(&mut self, out: &mut Outlet<W>)
        ensures { Happens W.contents self.old self.new out.old out.new (λ b r s d. Answers self.old.limits b commands.show r s d) }
    {
        match Picture::new(self.alloc, self.book.world()) {
            Ok(picture) => put_world(&picture, out),
            Err(AllocError) => self.written.refuse_call(&BookFault::Memory, out),
        }
    }

    fn journal<W: Write>(&mut self, out: &mut Outlet<W>)
        ensures { Happens W.contents self.old self.new out.old out.new (λ b r s d. Answers self.old.limits b commands.journal r s d) }
    {
        match listing_of(self.alloc, self.book.journal()) {
            Ok(listing) => put_journal(&listing, out),
            Err(AllocError) => self.written.refuse_call(&BookFault::Memory, out),
        }
    }

    /// The log of the turns of the vat of this name.
    fn log<W: Write>(&mut self, name: &str, out: &mut Outlet<W>)
        ensures { Happens W.contents self.old self.new out.old out.new (λ b r s d. Answers self.old.limits b (commands.log name.now) r s d) }
    {
        match log_of(self.alloc, &self.book, name) {
            Ok(text) => put_log(text.as_str(), out),
            Err(_) => self.written.refuse_call(&BookFault::Memory, out),
        }
    }

    fn cone<W: Write>(&mut self, event: EventName, out: &mut Outlet<W>)
        ensures { Happens W.contents self.old self.new out.old out.new (λ b r s d. Answers self.old.limits b (commands.cone event) r s d) }
    {
        match self.book.cone(event) {
            Ok(events) => put_cone(&events, out),
            Err(fault) => self.written.refuse_call(&fault, out),
        }
    }

    fn undo<W: Write>(&mut self, events: &[EventName], out: &mut Outlet<W>)
        ensures { Happens W.contents self.old self.new out.old out.new (λ b r s d. Answers self.old.limits b (commands.undo events.now) r s d) }
    {
        match self.book.undo(events) {
            Ok(count) => put_undone(count, out),
            Err(fault) => self.written.refuse_call(&fault, out),
        }
    }

    /// Undoes the events that words name.
    fn undo_named<W: Write>(&mut self, words: &str, out: &mut Outlet<W>)
        ensures { Happens W.contents self.old self.new out.old out.new (λ b r s d. Answers self.old.limits b (commands.undo (events_in words.now)) r s d) }
    {
        match events_in(self.alloc, words) {
            Ok(events) => self.undo(&events, out),
            Err(AllocError) => self.written.refuse_call(&BookFault::Memory, out),
        }
    }

    /// Undoes an event with its cone.
    fn undo_cone<W: Write>(&mut self, event: EventName, out: &mut Outlet<W>)
        ensures { Happens W.contents self.old self.new out.old out.new (λ b r s d. Answers self.old.limits b (commands.undo_cone event) r s d) }
    {
        match self.book.cone(event) {
            Ok(events) => self.undo(&events, out),
            Err(fault) => self.written.refuse_call(&fault, out),
        }
    }

    fn redo<W: Write>(&mut self, events: &[EventName], out: &mut Outlet<W>)
        ensures { Happens W.contents self.old self.new out.old out.new (λ b r s d. Answers self.old.limits b (commands.redo events.now) r s d) }
    {
        match self.book.redo(events) {
            Ok(count) => put_redone(count, out),
            Err(fault) => self.written.refuse_call(&fault, out),
        }
    }

    /// Redoes the events that words name.
    fn redo_named<W: Write>(&mut self, words: &str, out: &mut Outlet<W>)
        ensures { Happens W.contents self.old self.new out.old out.new (λ b r s d. Answers self.old.limits b (commands.redo (events_in words.now)) r s d) }
    {
        match events_in(self.alloc, words) {
            Ok(events) => self.redo(&events, out),
            Err(AllocError) => self.written.refuse_call(&BookFault::Memory, out),
        }
    }

    /// Lets the entry at a position and the one behind it change places.
    fn exchange<W: Write>(&mut self, position: usize, out: &mut Outlet<W>)
        ensures { Happens W.contents self.old self.new out.old out.new (λ b r s d. Answers self.old.limits b (commands.exchange position) r s d) }
    {
        match self.book.exchange(position) {
            Ok((event, other)) => put_exchanged(event, other, out),
            Err(refusal) => self.written.refuse_call(&refusal, out),
        }
    }

    /// Settles all entries up to a position.
    fn settle<W: Write>(&mut self, position: usize, out: &mut Outlet<W>)
        ensures { Happens W.contents self.old self.new out.old out.new (λ b r s d. Answers self.old.limits b (commands.settle position) r s d) }
    {
        match self.book.settle(position) {
            Ok(()) => put_settled(position, out),
            Err(fault) => self.written.refuse_call(&fault, out),
        }
    }

    /// How the later of two events came of the earlier.
    fn why<W: Write>(&mut self, event: EventName, other: EventName, out: &mut Outlet<W>)
        ensures { Happens W.contents self.old self.new out.old out.new (λ b r s d. Answers self.old.limits b (commands.why event other) r s d) }
    {
        match why(self.alloc, self.book.journal(), event, other) {
            Ok(told) => put_reason(&told, out),
            Err(fault) => self.written.refuse_question(&fault, out),
        }
    }

    /// Which cells an event touched.
    fn event<W: Write>(&mut self, event: EventName, out: &mut Outlet<W>)
        ensures { Happens W.contents self.old self.new out.old out.new (λ b r s d. Answers self.old.limits b (commands.event event) r s d) }
    {
        match event_told(self.alloc, self.book.journal(), event) {
            Ok(told) => put_told_event(&told, out),
            Err(fault) => self.written.refuse_question(&fault, out),
        }
    }

    /// What a message delivers.
    fn message<W: Write>(&mut self, message: MsgId, out: &mut Outlet<W>)
        ensures { Happens W.contents self.old self.new out.old out.new (λ b r s d. Answers self.old.limits b (commands.message message) r s d) }
    {
        match message_told(self.alloc, self.book.world(), message) {
            Ok(told) => put_told_message(&told, out),
            Err(fault) => self.written.refuse_question(&fault, out),
        }
    }

    /// What is in an object.
    fn object<W: Write>(&mut self, object: ObjectName, out: &mut Outlet<W>)
        ensures { Happens W.contents self.old self.new out.old out.new (λ b r s d. Answers self.old.limits b (commands.object object) r s d) }
    {
        match object_told(self.alloc, self.book.world(), object.event, object.index) {
            Ok(told) => put_told_object(&told, out),
            Err(fault) => self.written.refuse_question(&fault, out),
        }
    }

    fn birth_program<W: Write>(
        &mut self,
        name: &str,
        earlier: &str,
        script: Program,
        out: &mut Outlet<W>,
    )
        ensures { (text : List ℕ) → ReadAs text (Ok (program_of script)) → Happens W.contents self.old self.new out.old out.new (λ b r s d. AnswersBirth b name.now (words_in earlier.now) (Ok text) r s d) }
    {
        let Ok(name) = Text::new(self.alloc, name) else {
            return self.written.refuse_call(&BookFault::Memory, out);
        };
        let Ok(earlier) = texts(self.alloc, earlier) else {
            return self.written.refuse_call(&BookFault::Memory, out);
        };
        match self.book.birth(&name, earlier, script) {
            Ok(event) => put_queued(event, out),
            Err(fault) => self.written.refuse_call(&fault, out),
        }
    }

    fn birth_text<W: Write>(&mut self, name: &str, earlier: &str, text: &str, out: &mut Outlet<W>)
        ensures { Happens W.contents self.old self.new out.old out.new (λ b r s d. AnswersBirth b name.now (words_in earlier.now) (Ok text.now) r s d) }
    {
        match read(self.alloc, text) {
            Ok(program) => self.birth_program(name, earlier, program, out),
            Err(fault) => self.written.refuse_text(&fault, out),
        }
    }

    /// A new vat, whose script is held, if there was memory for it.
    fn birth_held<W: Write>(
        &mut self,
        name: &str,
        earlier: &str,
        script: &Option<String>,
        out: &mut Outlet<W>,
    )
        ensures { (text : List ℕ) → IsHeld script.now text → Happens W.contents self.old self.new out.old out.new (λ b r s d. AnswersBirth b name.now (words_in earlier.now) (Ok text) r s d) }
    {
        match script {
            Some(text) => self.birth_text(name, earlier, text.as_str(), out),
            None => self.written.refuse_call(&BookFault::Memory, out),
        }
    }

    /// A new vat, whose script was taken from the lines behind the command.
    fn birth<W: Write>(
        &mut self,
        name: &str,
        earlier: &str,
        script: &Result<Option<String>, LineFault>,
        out: &mut Outlet<W>,
    )
        ensures { (text : Result (List ℕ) LineFault) → IsScript script.now text → Happens W.contents self.old self.new out.old out.new (λ b r s d. AnswersBirth b name.now (words_in earlier.now) text r s d) }
    {
        match script {
            Ok(held) => self.birth_held(name, earlier, held, out),
            Err(fault) => self.written.refuse_line(*fault, out),
        }
    }

    /// Answers a command, whose script is taken from the lines behind it.
    fn answer<R: Read, W: Write, C: Crew>(
        &mut self,
        command: Command,
        source: &mut Lines<R>,
        sink: &mut Outlet<W>,
        crew: &mut C,
    ) -> Result<(), Fault>
        requires sound { IsSound R.remaining source.old }
        requires open { is_cut sink.old ≡ false }
        requires crew { C.ready }
        ensures { DoesOrStops R.remaining W.contents result self.old self.new source.old source.new sink.old sink.new (Ok (Some (command_of command.entry))) }
    {
        match command {
            Command::Birth {
                name,
                earlier,
                lines,
            } => {
                let script = take_script(self.alloc, lines, source, sink)?;
                self.birth(name, earlier, &script, sink);
            }
            Command::Ask { name, text } => self.ask(name, text, sink),
            Command::Arrive(message) => self.obey(Step::Move(Move::Arrive(message)), sink),
            Command::Forward(message) => self.obey(Step::Move(Move::Forward(message)), sink),
            Command::Learn { name, promise } => self.learn(name, promise, sink),
            Command::Turn(message) => self.obey(Step::Turn(message), sink),
            Command::Step => self.step(sink),
            Command::Run(most) => self.run(most, sink),
            Command::Work { workers, turns } => self.work(crew, workers, turns, sink),
            Command::Enabled => self.enabled(sink),
            Command::Show => self.show(sink),
            Command::Journal => self.journal(sink),
            Command::Log(name) => self.log(name, sink),
            Command::Cone(event) => self.cone(event, sink),
            Command::Undo(words) => self.undo_named(words, sink),
            Command::UndoCone(event) => self.undo_cone(event, sink),
            Command::Redo(words) => self.redo_named(words, sink),
            Command::Exchange(position) => self.exchange(position, sink),
            Command::Settle(position) => self.settle(position, sink),
            Command::Why(event, other) => self.why(event, other, sink),
            Command::Event(event) => self.event(event, sink),
            Command::Message(message) => self.message(message, sink),
            Command::Object(object) => self.object(object, sink),
        }
        Ok(())
    }

    /// Answers what a line says.
    fn answer_said<R: Read, W: Write, C: Crew>(
        &mut self,
        says: Said<'_>,
        source: &mut Lines<R>,
        sink: &mut Outlet<W>,
        crew: &mut C,
    ) -> Result<(), Fault>
        requires sound { IsSound R.remaining source.old }
        requires open { is_cut sink.old ≡ false }
        requires crew { C.ready }
        ensures { DoesOrStops R.remaining W.contents result self.old self.new source.old source.new sink.old sink.new (reading_of says.entry) }
    {
        match says {
            Ok(spelled) => match spelled {
                Some(command) => self.answer(command, source, sink, crew),
                None => Ok(()),
            },
            Err(fault) => {
                self.written.refuse_line(fault, sink);
                Ok(())
            }
        }
    }

    /// Answers the command that a line begins.
    fn answer_line<R: Read, W: Write, C: Crew>(
        &mut self,
        line: &Line,
        source: &mut Lines<R>,
        sink: &mut Outlet<W>,
        crew: &mut C,
    ) -> Result<(), Fault>
        requires sound { IsSound R.remaining source.old }
        requires open { is_cut sink.old ≡ false }
        requires crew { C.ready }
        ensures { (bytes : List ℕ) → Reads line.now bytes → IsOneLine bytes (is_ended source.old)
            → AnswersOrStops R.remaining W.contents result self.old self.new source.old source.new sink.old sink.new bytes }
    {
        match text_of(line.text.as_slice(), line.is_long) {
            Ok(text) => self.answer_said(command_of(text), source, sink, crew),
            Err(fault) => self.answer_said(Err(fault), source, sink, crew),
        }
    }

    /// Answers all commands.
    fn answer_all<R: Read, W: Write, C: Crew>(
        &mut self,
        source: &mut Lines<R>,
        sink: &mut Outlet<W>,
        crew: &mut C,
    ) -> Result<(), Fault>
        requires blank { book_of self.old.book ≡ blank }
        requires none_refused { self.old.written.refused ≡ false }
        requires sound { IsSound R.remaining source.old }
        requires open { is_cut sink.old ≡ false }
        requires crew { C.ready }
        ensures whole { MatchResult result
            (λ _. RunsToEnd R.remaining W.contents self.old.limits source.old source.new sink.old sink.new self.new.written.refused)
            (RunsTo R.remaining W.contents self.old.limits source.old source.new sink.old sink.new) }
        ensures uncut { StaysOpen result (is_cut sink.new) }
    {
        'commands: loop {
            match next_line(source, sink)? {
                Some(line) => self.answer_line(&line, source, sink, crew)?,
                None => return Ok(()),
            }
            sink.check()?;
        }
    }

    /// Answers all commands on an outlet that is open again, and sends what waits there behind the last.
    fn answer_and_send<R: Read, W: Write, C: Crew>(
        &mut self,
        source: &mut Lines<R>,
        sink: &mut Outlet<W>,
        crew: &mut C,
    ) -> Result<Summary, Fault>
        requires blank { book_of self.old.book ≡ blank }
        requires none_refused { self.old.written.refused ≡ false }
        requires sound { IsSound R.remaining source.old }
        requires crew { C.ready }
        ensures ok { IfOk result (λ summary. RunsToEnd R.remaining W.contents self.old.limits source.old source.new sink.old sink.new summary.refused) }
        ensures err { IfErr result (RunsTo R.remaining W.contents self.old.limits source.old source.new sink.old sink.new) }
        ensures all_out { waiting sink.new ≡ [] }
    {
        sink.reopen();
        match self.answer_all(source, sink, crew) {
            Ok(()) => {
                sink.send()?;
                Ok(Summary {
                    refused: self.written.refused,
                })
            }
            Err(Fault::Reader) => {
                sink.send()?;
                Err(Fault::Reader)
            }
            // Nothing waits any more.
            Err(Fault::Writer) => Err(Fault::Writer),
            Err(Fault::Memory) => {
                sink.send()?;
                Err(Fault::Memory)
            }
        }
    }
}

/// The names that words are, as texts of their own.
fn texts(alloc: Global, words: &str) -> Result<Vec<Text>, AllocError>
    ensures { IfOk result (λ texts. texts.items ≡ words_in words.now) }
{
    let names = all_words(alloc, words)?;
    let mut texts = Vec::with_capacity(alloc, names.len())?;
    for name in &names {
        texts.push(Text::new(alloc, name)?)?;
    }
    Ok(texts)
}

/// Answers the commands of a source one after another: each before it reads past the block that holds it. Only for `work` it hands the book to
/// the crew. A reply takes no memory: want of it for what a command needs is replied, before the command takes effect. The book is left
/// as it is: a run is the last thing that a process does.
///
/// # Errors
/// `Reader` where a read failed: the commands that were read whole are answered. `Writer` where a write failed: a beginning of
/// the replies went out. `Memory` where there was no room for a line: just the commands before it are answered.
pub fn run<R: Read, W: Write, C: Crew>(
    alloc: Global,
    source: &mut Lines<R>,
    sink: &mut Outlet<W>,
    limits: Limits,
    crew: &mut C,
) -> Result<Summary, Fault>
    requires sound { IsSound R.remaining source.old }
    requires crew { C.ready }
    ensures ok { IfOk result (λ summary. RunsToEnd R.remaining W.contents limits source.old source.new sink.old sink.new summary.refused) }
    ensures err { IfErr result (RunsTo R.remaining W.contents limits source.old source.new sink.old sink.new) }
    ensures all_out { waiting sink.new ≡ [] }
{
    let mut engine = Engine {
        alloc,
        limits,
        book: Book::new(alloc),
        written: Written { refused: false },
    };
    let summary = engine.answer_and_send(source, sink, crew);
    // What the book holds goes back with all else when the process ends, and not entry by entry before that.
    mem::forget(engine);
    summary
}
