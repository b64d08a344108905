// Events that are entered from no seat.
ghost use Rattle.std.specs.Prelude.{◌≡◌, IfOk, IfErr, OnOk, OnErr};
ghost use Rattle.kernele.specs.View.{program_of};
ghost use Rattle.book_agenda.specs.declared.agenda.Move.TheVariants.{Arrive, Forward};
ghost use Rattle.book_refusals.specs.Fault.{Tells};
ghost use Rattle.book.specs.Refusals.{birth_refusal, ask_refusal, arrival_refusal, forward_refusal, learn_refusal};
ghost use Rattle.book.specs.Calls.{Asks, Births, Learns, Makes};

use crate::book::{Book, NO_SEAT};
use book_refusals::fault::BookFault;
use ids::names::{EventName, MsgId, PromId};
use ids::text::Text;
use kernele::tree::Program;

impl Book {
    ghost use Rattle.book.specs.BookView.{book_of, swaps_of};
    ghost use Rattle.book.specs.Counting.{CountsNew};

    /// As `birth_as`, also in its errors, from no seat.
    pub fn birth(
        &mut self,
        name: &Text,
        earlier: Vec<Text>,
        script: Program,
    ) -> Result<EventName, BookFault>
        ensures ok { IfOk result (λ e. Births name.now earlier.items (program_of script) 0 e (book_of self.old) (book_of self.new)) }
        ensures err { IfErr result (λ fault. Tells fault (birth_refusal (book_of self.old) name.now earlier.items (program_of script))) }
        ensures unchanged { OnErr result (book_of self.new ≡ book_of self.old) }
        ensures counted { OnOk result (CountsNew self.old self.new) }
        ensures none { OnErr result (swaps_of self.new ≡ swaps_of self.old) }
    {
        self.birth_as(name, earlier, script, NO_SEAT)
    }

    /// As `ask_as`, also in its errors, from no seat.
    pub fn ask(&mut self, name: &Text, program: Program) -> Result<EventName, BookFault>
        ensures ok { IfOk result (λ e. Asks name.now (program_of program) 0 e (book_of self.old) (book_of self.new)) }
        ensures err { IfErr result (λ fault. Tells fault (ask_refusal (book_of self.old) name.now (program_of program))) }
        ensures unchanged { OnErr result (book_of self.new ≡ book_of self.old) }
        ensures counted { OnOk result (CountsNew self.old self.new) }
        ensures none { OnErr result (swaps_of self.new ≡ swaps_of self.old) }
    {
        self.ask_as(name, program, NO_SEAT)
    }

    /// As `arrive_as`, also in its errors, from no seat.
    pub fn arrive(&mut self, name: MsgId) -> Result<EventName, BookFault>
        ensures ok { IfOk result (λ e. Makes (Arrive name) 0 e (book_of self.old) (book_of self.new)) }
        ensures err { IfErr result (λ fault. Tells fault (arrival_refusal (book_of self.old) name)) }
        ensures unchanged { OnErr result (book_of self.new ≡ book_of self.old) }
        ensures counted { OnOk result (CountsNew self.old self.new) }
        ensures none { OnErr result (swaps_of self.new ≡ swaps_of self.old) }
    {
        self.arrive_as(name, NO_SEAT)
    }

    /// As `forward_as`, also in its errors, from no seat.
    pub fn forward(&mut self, name: MsgId) -> Result<EventName, BookFault>
        ensures ok { IfOk result (λ e. Makes (Forward name) 0 e (book_of self.old) (book_of self.new)) }
        ensures err { IfErr result (λ fault. Tells fault (forward_refusal (book_of self.old) name)) }
        ensures unchanged { OnErr result (book_of self.new ≡ book_of self.old) }
        ensures counted { OnOk result (CountsNew self.old self.new) }
        ensures none { OnErr result (swaps_of self.new ≡ swaps_of self.old) }
    {
        self.forward_as(name, NO_SEAT)
    }

    /// As `learn_as`, also in its errors, from no seat.
    pub fn learn(&mut self, name: &Text, promise: PromId) -> Result<EventName, BookFault>
        ensures ok { IfOk result (λ e. Learns name.now promise 0 e (book_of self.old) (book_of self.new)) }
        ensures err { IfErr result (λ fault. Tells fault (learn_refusal (book_of self.old) name.now promise)) }
        ensures unchanged { OnErr result (book_of self.new ≡ book_of self.old) }
        ensures counted { OnOk result (CountsNew self.old self.new) }
        ensures none { OnErr result (swaps_of self.new ≡ swaps_of self.old) }
    {
        self.learn_as(name, promise, NO_SEAT)
    }
}
