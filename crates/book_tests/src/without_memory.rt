// What takes no memory, where each request for some is refused.
ghost use Rattle.std.specs.Prelude.{◌≡◌, ◌∷◌, [], true};
ghost use Rattle.journal.specs.Items.{all_ready};
ghost use Rattle.undo.specs.CoreView.{items_of, ready_of, settled_of};

use crate::calls::{birth, expect_journal, name, script};
use crate::spent::Spent;
use crate::tickets::{asked, checkout, refuse_strange, run};
use book::book::Book;
use book_refusals::fault::BookFault;
use event::effects::{Effects, birth_effects};
use ids::names::EventName;
use ids::text::Text;
use journal::entry::Mark;
use std::process::Abort;
use undo::records::{make_rooms, swap_records};
use undo::undoing::{Core, Deed};
use world_cells::event::{Action, Event};
use world_cells::world::World;

/// What the birth of a vat with an empty script writes.
fn effects(rt: &(impl Abort + AllocGlobal), event: u32, name: &Text) -> Effects {
    let script = script(rt, "");
    let tops = Vec::new(rt.alloc());
    birth_effects(rt.alloc(), EventName(event), name, &[], &[], tops, &script).expect(
        rt,
        "no memory",
    )
}

/// Enters the birth of a vat.
fn enter(rt: &(impl Abort + AllocGlobal), core: &mut Core, number: u32, vat: &str)
    ensures settled { settled_of core.new ≡ settled_of core.old }
{
    let name = name(rt, vat);
    let Effects {
        touched,
        records,
        notes,
    } = effects(rt, number, &name);
    let action = Action::Birth(name, Vec::new(rt.alloc()), script(rt, ""));
    let event = Event {
        name: EventName(number),
        action,
    };
    let deed = Deed {
        event,
        notes,
        seat: 0,
    };
    core.enter(rt.alloc(), deed, &touched, records)
        .expect(rt, "no memory");
}

/// The births of `a` and of `b`.
fn born(rt: &(impl Abort + AllocGlobal)) -> Core
    ensures settled { settled_of result ≡ 0 }
{
    let mut core = Core::new(rt.alloc());
    enter(rt, &mut core, 1, "a");
    enter(rt, &mut core, 2, "b");
    core
}

/// Makes room to undo or redo the first event.
fn prepare(rt: &(impl Abort + AllocGlobal), core: &mut Core)
    requires { settled_of core.old ≡ 0 }
    ensures ready { all_ready (ready_of core.new) (items_of core.new) (0 ∷ []) ≡ true }
    ensures settled { settled_of core.new ≡ 0 }
{
    assert!(rt; core.len() == 2);
    match core.prepare(rt.alloc(), &[0]) {
        Ok(()) => {}
        Err(_) => rt.panic("no memory"),
    }
}

/// Whether there is a vat of this name.
fn is_there(rt: &(impl Abort + AllocGlobal), world: &World, vat: &str) -> bool {
    world.vat(&name(rt, vat)).is_some()
}

#[test]
fn undo_and_redo(rt: HostRuntime) {
    let mut core = born(&rt);
    prepare(&rt, &mut core);
    let spent = Spent::all(&rt);
    core.undo(&[0]);
    drop(spent);
    assert!(rt; !is_there(&rt, core.world(), "a"));
    assert!(rt; is_there(&rt, core.world(), "b"));
    prepare(&rt, &mut core);
    let spent = Spent::all(&rt);
    core.redo(&[0]);
    drop(spent);
    assert!(rt; is_there(&rt, core.world(), "a"));
}

#[test]
fn records(rt: HostRuntime) {
    let a = name(&rt, "a");
    let Effects {
        touched: _,
        mut records,
        notes: _,
    } = effects(&rt, 1, &a);
    let mut world = World::new(rt.alloc());
    match make_rooms(rt.alloc(), &mut world, &records) {
        Ok(()) => {
            let spent = Spent::all(&rt);
            swap_records(&mut world, &mut records);
            drop(spent);
        }
        Err(_) => rt.panic("no memory"),
    }
    assert!(rt; world.vat(&a).is_some());
}

/// An exchange is done, while an undo, which has to make room, is refused.
#[test]
fn exchange(rt: HostRuntime) {
    let mut book = Book::new(rt.alloc());
    birth(&rt, &mut book, "a", "", 1);
    birth(&rt, &mut book, "b", "", 2);
    let spent = Spent::all(&rt);
    let undone = book.undo(&[EventName(2)]);
    let exchanged = book.exchange(1);
    drop(spent);
    assert!(rt; matches!(undone, Err(BookFault::Memory)));
    assert!(rt; exchanged.is_ok());
    expect_journal(&rt, &book, &[(2, Mark::Live), (1, Mark::Live)]);
}

/// A ticket is sealed and opened, and its number let go; another one is discarded, whose number stays out until it is let go.
#[test]
fn tickets(rt: HostRuntime) {
    let mut book = asked(&rt, "n := 1");
    let ticket = checkout(&rt, &mut book, 3, 5);
    let ran = run(&rt, ticket);
    let spent = Spent::all(&rt);
    let opened = ran.seal().unseal();
    let let_go = book.abandon(EventName(5));
    drop(spent);
    refuse_strange(&rt, &mut book, opened);
    assert!(rt; let_go.is_ok());
    let ticket = checkout(&rt, &mut book, 3, 6);
    let ran = run(&rt, ticket);
    let spent = Spent::all(&rt);
    ran.discard();
    drop(spent);
    assert!(rt; book.abandon(EventName(6)).is_ok());
}
