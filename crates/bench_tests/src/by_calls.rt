// Seats and tickets, call by call.
ghost use Rattle.std.specs.Prelude.{◌≡◌};
ghost use Rattle.book.specs.BookView.{book_of};
ghost use Rattle.book.specs.Entered.{entered_in};

use crate::books::{BUDGET, asked, begun, message, name, passed_on, program, vat};
use bench::Bench;
use bench::instruction::Instruction;
use bench::pick::Pick;
use bench::seat::{Opening, Seat};
use bench::start::Begun;
use book::request::Request;
use book_agenda::agenda::Move;
use book_refusals::fault::BookFault;
use ids::names::{EventName, PromId};
use std::marker::Brand;
use std::process::Abort;
use std::sync::Wait;
use std::sync::ledger::Blank;
use turn::ticket::{Out, Ran, Ticket};

/// A seat that is there.
pub(crate) fn seat<L: Opening>(rt: &(impl Wait + Abort), bench: &Bench<L>) -> Seat<L> {
    match bench.seat(rt) {
        Some(seat) => seat,
        None => rt.panic("no seat"),
    }
}

/// The ticket of the turn that may be done first, whose number is this.
fn checkout<L: Opening>(
    rt: &(impl Wait + Abort),
    bench: &Bench<L>,
    seat: &mut Seat<L>,
    event: u32,
) -> Ticket<Out> {
    match bench.checkout(rt, seat) {
        Ok(Pick::Turn(ticket)) => {
            if ticket.carried().event != EventName(event) {
                ticket.discard();
                return rt.panic("another number");
            }
            ticket
        }
        Ok(Pick::Moved(_)) => rt.panic("moved"),
        Ok(Pick::Nothing) => rt.panic("nothing to do"),
        Err(fault) => panic!(rt; "checkout: {fault}"),
    }
}

/// The same ticket, once its turn was run.
pub(crate) fn run(rt: &impl Abort, ticket: Ticket<Out>) -> Ticket<Ran> {
    match ticket.run() {
        Ok(ran) => ran,
        Err((ticket, _)) => {
            ticket.discard();
            rt.panic("no memory")
        }
    }
}

/// Gives a ticket that is accepted.
pub(crate) fn give<L: Opening>(
    rt: &(impl Wait + Abort),
    bench: &Bench<L>,
    ticket: Ticket<Ran>,
    seat: &mut Seat<L>,
    event: u32,
) {
    match bench.give(rt, ticket, seat) {
        Ok(entered) => assert!(rt; entered == EventName(event)),
        Err((ticket, fault)) => {
            ticket.discard();
            panic!(rt; "give: {fault}");
        }
    }
}

/// Gives a ticket that is refused: it comes back, with why.
fn refuse<L: Opening>(
    rt: &(impl Wait + Abort),
    bench: &Bench<L>,
    ticket: Ticket<Ran>,
    seat: &mut Seat<L>,
) -> (Ticket<Ran>, BookFault) {
    match bench.give(rt, ticket, seat) {
        Ok(_) => rt.panic("accepted"),
        Err(back) => back,
    }
}

/// Gives a ticket that is not out, or not for this seat. It comes back.
fn refuse_strange<L: Opening>(
    rt: &(impl Wait + Abort),
    bench: &Bench<L>,
    ticket: Ticket<Ran>,
    seat: &mut Seat<L>,
) -> Ticket<Ran> {
    let (ticket, fault) = refuse(rt, bench, ticket, seat);
    if !matches!(fault, BookFault::NoTicket) {
        ticket.discard();
        return panic!(rt; "give: {fault}");
    }
    ticket
}

/// Gives a ticket whose message is no longer there. It comes back.
fn refuse_stale<L: Opening>(
    rt: &(impl Wait + Abort),
    bench: &Bench<L>,
    ticket: Ticket<Ran>,
    seat: &mut Seat<L>,
) -> Ticket<Ran> {
    let (ticket, fault) = refuse(rt, bench, ticket, seat);
    if !matches!(fault, BookFault::Stale) {
        ticket.discard();
        return panic!(rt; "give: {fault}");
    }
    ticket
}

/// Does an instruction that enters an event of this number, or none.
pub(crate) fn author<L: Opening>(
    rt: &(impl Wait + Abort),
    bench: &Bench<L>,
    instruction: Instruction,
    seat: &mut Seat<L>,
    event: Option<u32>,
) {
    match bench.author(rt, instruction, seat) {
        Ok(entered) => assert!(rt; entered == event.map(EventName)),
        Err(fault) => panic!(rt; "author: {fault}"),
    }
}

fn ask_alice(rt: &(impl Abort + AllocGlobal)) -> Instruction {
    Instruction::Enter(Request::Ask(name(rt, "alice"), program(rt, "1")))
}

/// These events alone.
fn events(rt: &(impl Abort + AllocGlobal), event: u32) -> Vec<EventName> {
    let mut events = Vec::new(rt.alloc());
    events.push(EventName(event)).expect(rt, "no memory");
    events
}

/// The seats that are handed in at the end.
fn both<L: Opening>(rt: &(impl Abort + AllocGlobal), one: Seat<L>, two: Seat<L>) -> Vec<Seat<L>> {
    let mut seats = Vec::new(rt.alloc());
    seats.push(one).expect(rt, "no memory");
    seats.push(two).expect(rt, "no memory");
    seats
}

/// Two seats, of which one is not handed in at the end. There are two questions, `e5` and `e6`.
fn strange_tickets<L: Opening, R: Wait + Abort + AllocGlobal>(
    rt: &R,
    begun: Begun,
    blank: Blank,
    parts: u64,
)
    requires ledger { (blank.name ≡ L.name) × (blank.parts ≡ L.parts) × (L.parts ≡ L.seats) × (parts ≡ L.seats) }
    requires book { (begun.table ≡ L.table) × (entered_in (book_of begun.book).journal ≡ L.began) × (begun.before ≡ L.before) }
{
    let bench = Bench::<L>::new(begun, BUDGET, blank, parts);
    let mut one = seat(rt, &bench);
    let mut two = seat(rt, &bench);
    // The ledger has two parts.
    assert!(rt; bench.seat(rt).is_none());
    assert!(rt; one.number() == 1 && two.number() == 2);
    // Another seat's, and then sealed and opened with its own.
    let ran = run(rt, checkout(rt, &bench, &mut one, 7));
    let ran = refuse_strange(rt, &bench, ran, &mut two);
    give(rt, &bench, ran.seal().unseal(), &mut one, 7);
    assert!(rt; one.tally() == 1 && one.turns() == 1 && two.tally() == 0);
    // Abandoned, by another seat.
    let ran = run(rt, checkout(rt, &bench, &mut two, 8));
    author(
        rt,
        &bench,
        Instruction::Abandon(EventName(8)),
        &mut one,
        None,
    );
    assert!(rt;
        matches!(
            bench.author(rt, Instruction::Abandon(EventName(8)), &mut one),
            Err(BookFault::NoTicket)
        )
    );
    refuse_strange(rt, &bench, ran, &mut two).discard();
    let ran = run(rt, checkout(rt, &bench, &mut two, 9));
    give(rt, &bench, ran, &mut two, 9);
    drop(one);
    let mut seats = Vec::new(rt.alloc());
    seats.push(two).expect(rt, "no memory");
    let (book, whole) = bench.close(rt, seats);
    assert!(rt; !whole);
    assert!(rt; book.journal().len() == 8);
}

fn strange_tickets_now<R: Wait + Abort + AllocGlobal>(rt: &R) {
    strange_tickets::<Brand, R>(rt, begun(rt, asked(rt, 2)), Blank::new(2), 2)
}

#[test]
fn strange(rt: HostRuntime) {
    strange_tickets_now(&rt)
}

/// Tickets that are out while events come and go. Of the book's 14 events all are done.
fn moving_world<L: Opening, R: Wait + Abort + AllocGlobal>(
    rt: &R,
    begun: Begun,
    blank: Blank,
    parts: u64,
)
    requires ledger { (blank.name ≡ L.name) × (blank.parts ≡ L.parts) × (L.parts ≡ L.seats) × (parts ≡ L.seats) }
    requires book { (begun.table ≡ L.table) × (entered_in (book_of begun.book).journal ≡ L.began) × (begun.before ≡ L.before) }
{
    let bench = Bench::<L>::new(begun, BUDGET, blank, parts);
    let mut worker = seat(rt, &bench);
    let mut author_seat = seat(rt, &bench);
    // The vat learns something that its turn did not look at.
    author(rt, &bench, ask_alice(rt), &mut author_seat, Some(15));
    let ticket = checkout(rt, &bench, &mut worker, 16);
    let opening = PromId {
        event: EventName(1),
        index: 0,
        home: vat(1),
    };
    author(
        rt,
        &bench,
        Instruction::Enter(Request::Move(Move::Learn(vat(5), opening))),
        &mut author_seat,
        Some(17),
    );
    give(rt, &bench, run(rt, ticket), &mut worker, 16);
    // An event of other vats is undone.
    author(rt, &bench, ask_alice(rt), &mut author_seat, Some(18));
    let ticket = checkout(rt, &bench, &mut worker, 19);
    author(
        rt,
        &bench,
        Instruction::Undo(events(rt, 14)),
        &mut author_seat,
        None,
    );
    give(rt, &bench, run(rt, ticket), &mut worker, 19);
    author(
        rt,
        &bench,
        Instruction::Redo(events(rt, 14)),
        &mut author_seat,
        None,
    );
    // The question itself is undone, and the ticket is stale; given again it is strange, also when the question is there again.
    author(rt, &bench, ask_alice(rt), &mut author_seat, Some(20));
    let ticket = checkout(rt, &bench, &mut worker, 21);
    author(
        rt,
        &bench,
        Instruction::Undo(events(rt, 20)),
        &mut author_seat,
        None,
    );
    let ran = refuse_stale(rt, &bench, run(rt, ticket), &mut worker);
    author(
        rt,
        &bench,
        Instruction::Redo(events(rt, 20)),
        &mut author_seat,
        None,
    );
    refuse_strange(rt, &bench, ran, &mut worker).discard();
    give(
        rt,
        &bench,
        run(rt, checkout(rt, &bench, &mut worker, 22)),
        &mut worker,
        22,
    );
    assert!(rt; worker.tally() == 3 && worker.turns() == 3);
    assert!(rt; author_seat.tally() == 4 && author_seat.turns() == 0);
    let (book, whole) = bench.close(rt, both(rt, worker, author_seat));
    assert!(rt; whole);
    assert!(rt; book.journal().len() == 21);
}

fn moving_world_now<R: Wait + Abort + AllocGlobal>(rt: &R) {
    moving_world::<Brand, R>(rt, begun(rt, passed_on(rt)), Blank::new(2), 2)
}

#[test]
fn tickets_while_the_world_moves(rt: HostRuntime) {
    moving_world_now(&rt)
}

/// The ticket of a turn of another book, which was run.
fn foreign_ticket(rt: &(impl Abort + AllocGlobal), seat: u64) -> Ticket<Ran> {
    let mut other = asked(rt, 2);
    match other.checkout(message(5), BUDGET, seat) {
        Ok(ticket) => run(rt, ticket),
        Err(fault) => panic!(rt; "checkout: {fault}"),
    }
}

/// A ticket of another book is strange.
fn other_books<L: Opening, R: Wait + Abort + AllocGlobal>(
    rt: &R,
    begun: Begun,
    blank: Blank,
    parts: u64,
)
    requires ledger { (blank.name ≡ L.name) × (blank.parts ≡ L.parts) × (L.parts ≡ L.seats) × (parts ≡ L.seats) }
    requires book { (begun.table ≡ L.table) × (entered_in (book_of begun.book).journal ≡ L.began) × (begun.before ≡ L.before) }
{
    let bench = Bench::<L>::new(begun, BUDGET, blank, parts);
    let mut mine = seat(rt, &bench);
    let ran = foreign_ticket(rt, mine.number());
    refuse_strange(rt, &bench, ran, &mut mine).discard();
    assert!(rt; mine.tally() == 0);
}

fn other_books_now<R: Wait + Abort + AllocGlobal>(rt: &R) {
    other_books::<Brand, R>(rt, begun(rt, asked(rt, 2)), Blank::new(1), 1)
}

#[test]
fn a_ticket_of_another_book(rt: HostRuntime) {
    other_books_now(&rt)
}
