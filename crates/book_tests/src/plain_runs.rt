// The plain run of events.

use crate::calls::{BUDGET, message, name, question, script};
use ids::names::{EventName, PromId, VatNo};
use std::process::Abort;
use values::value::Value;
use world::run::plain_run;
use world::step::StepFault;
use world_cells::event::{Action, Event};
use world_cells::world::World;

const COUNTING: &str = "n := n + 1";

fn event(name: u32, action: Action) -> Event {
    Event {
        name: EventName(name),
        action,
    }
}

/// The turn of the first message of an event, at the vat that another one bore.
fn turn_at(born: u32, asked: u32) -> Action {
    Action::Turn {
        vat: VatNo(EventName(born)),
        message: message(asked),
        budget: BUDGET,
    }
}

/// What was published for the question of an event at the first vat, if it was.
fn published(world: &World, asked: u32) -> Option<&Value> {
    let promise = PromId {
        event: EventName(asked),
        index: 0,
        home: VatNo(EventName(1)),
    };
    match world.published(promise) {
        Some(found) => Some(&found.value),
        None => None,
    }
}

/// The integer that the question of an event at the first vat was answered, if it was one.
fn answer(world: &World, asked: u32) -> Option<i64> {
    match published(world, asked) {
        Some(Value::Int(found)) => Some(*found),
        _ => None,
    }
}

/// A birth and its turn, and a question and its turn at the vat that this event bore, in order.
fn events(rt: &(impl Abort + AllocGlobal), asked: &str, born: u32) -> Vec<Event> {
    let birth = Action::Birth(
        name(rt, "a"),
        Vec::new(rt.alloc()),
        script(rt, "var n := 20"),
    );
    let ask = Action::Ask(name(rt, "a"), question(rt, asked));
    vec![in rt.alloc();
        event(1, birth),
        event(2, turn_at(1, 1)),
        event(3, ask),
        event(4, turn_at(born, 3)),
    ]
    .expect(rt, "no memory")
}

/// Whether one of these events is not possible where it comes.
fn is_impossible(rt: &(impl Abort + AllocGlobal), events: &[Event]) -> bool {
    matches!(plain_run(rt.alloc(), events), Err(StepFault::Impossible))
}

#[test]
fn a_plain_run(rt: HostRuntime) {
    match plain_run(rt.alloc(), &events(&rt, COUNTING, 1)) {
        Ok(world) => {
            assert!(rt; answer(&world, 1) == Some(20));
            assert!(rt; answer(&world, 3) == Some(21));
        }
        Err(_) => rt.panic("no run"),
    }
}

/// Without its birth a turn is impossible, and so is a question that is asked of no vat.
#[test]
fn impossible_runs(rt: HostRuntime) {
    let events = events(&rt, COUNTING, 1);
    assert!(rt; events.len() == 4);
    assert!(rt; is_impossible(&rt, &events[1..]));
    assert!(rt; is_impossible(&rt, &events[2..]));
    assert!(rt; is_impossible(&rt, &events[3..]));
}

/// A message has no turn at another vat than its own.
#[test]
fn a_turn_elsewhere(rt: HostRuntime) {
    assert!(rt; is_impossible(&rt, &events(&rt, COUNTING, 2)));
}

/// A plain run checks no program: a name that stands for nothing throws where it is evaluated.
#[test]
fn names_that_nothing_defines(rt: HostRuntime) {
    for asked in ["z", "z; def z := 1"] {
        match plain_run(rt.alloc(), &events(&rt, asked, 1)) {
            Ok(world) => match published(&world, 3) {
                Some(Value::Broken(problem)) => assert!(rt; problem.as_str() == "undefined noun z"),
                _ => rt.panic("no problem"),
            },
            Err(_) => rt.panic("no run"),
        }
    }
}
