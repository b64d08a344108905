// A run to its end, by one seat.
ghost use Rattle.std.specs.Prelude.{◌≡◌};
ghost use Rattle.book.specs.BookView.{book_of};
ghost use Rattle.book.specs.Entered.{entered_in};

use crate::books::{BUDGET, begun, name, program, vat};
use crate::by_calls::{author, give, run, seat};
use bench::Bench;
use bench::instruction::Instruction;
use bench::pick::Pick;
use bench::seat::{Opening, Seat};
use bench::start::Begun;
use book::book::Book;
use book::request::Request;
use ids::names::{EventName, PromId};
use ids::text::Text;
use post::published::Published;
use std::marker::Brand;
use std::process::Abort;
use std::sync::Wait;
use std::sync::ledger::Blank;
use values::value::Value;

/// A birth of a vat whose script sees these earlier ones.
fn birth(
    rt: &(impl Abort + AllocGlobal),
    vat: &str,
    earlier: &[&str],
    script: &str,
) -> Instruction {
    let mut names: Vec<Text> = Vec::new(rt.alloc());
    for other in earlier {
        names.push(name(rt, other)).expect(rt, "no memory");
    }
    Instruction::Enter(Request::Birth(name(rt, vat), names, program(rt, script)))
}

/// Does all that may be done.
fn finish<L: Opening>(rt: &(impl Wait + Abort), bench: &Bench<L>, mine: &mut Seat<L>) {
    for _ in 0..100 {
        match bench.checkout(rt, mine) {
            Ok(Pick::Nothing) => return,
            Ok(Pick::Moved(_)) => {}
            Ok(Pick::Turn(ticket)) => {
                let event = ticket.carried().event.0;
                give(rt, bench, run(rt, ticket), mine, event);
            }
            Err(fault) => panic!(rt; "checkout: {fault}"),
        }
    }
    rt.panic("no end")
}

/// A message is sent to what another message will give, and both are delivered.
fn pipelined<L: Opening, R: Wait + Abort + AllocGlobal>(
    rt: &R,
    begun: Begun,
    blank: Blank,
    parts: u64,
)
    requires ledger { (blank.name ≡ L.name) × (blank.parts ≡ L.parts) × (L.parts ≡ L.seats) × (parts ≡ L.seats) }
    requires book { (begun.table ≡ L.table) × (entered_in (book_of begun.book).journal ≡ L.began) × (begun.before ≡ L.before) }
{
    let bench = Bench::<L>::new(begun, BUDGET, blank, parts);
    let mut mine = seat(rt, &bench);
    let hit = "def _ { method hit() { 9 } method note() { 8 } }";
    author(rt, &bench, birth(rt, "c", &[], hit), &mut mine, Some(1));
    let make = "def _ { method make() { c <- note(); c } }";
    author(rt, &bench, birth(rt, "b", &["c"], make), &mut mine, Some(2));
    author(rt, &bench, birth(rt, "a", &["b"], ""), &mut mine, Some(3));
    let question = Instruction::Enter(Request::Ask(
        name(rt, "a"),
        program(rt, "(b <- make()) <- hit()"),
    ));
    author(rt, &bench, question, &mut mine, Some(4));
    finish(rt, &bench, &mut mine);
    let mut seats = Vec::new(rt.alloc());
    seats.push(mine).expect(rt, "no memory");
    let (book, whole) = bench.close(rt, seats);
    assert!(rt; whole);
    let sum = PromId {
        event: EventName(8),
        index: 1,
        home: vat(2),
    };
    let is_nine = matches!(
        book.world().published(sum),
        Some(Published {
            value: Value::Int(9),
            ..
        })
    );
    assert!(rt; is_nine);
}

fn pipelined_now<R: Wait + Abort + AllocGlobal>(rt: &R) {
    pipelined::<Brand, R>(rt, begun(rt, Book::new(rt.alloc())), Blank::new(1), 1)
}

#[test]
fn a_pipelined_message(rt: HostRuntime) {
    pipelined_now(&rt)
}
