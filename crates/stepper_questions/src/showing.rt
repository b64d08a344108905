// Cells, as they are told.
ghost use Rattle.std.specs.Prelude.{◌++◌, codes};
ghost use Rattle.ids.specs.Names.{event_text, message_text, promise_text, slot_text, object_text, reference_text};
ghost use Rattle.stepper_questions.specs.Cells.{cell_text};
ghost use Rattle.stepper_streams.specs.Outlet.{Tells};

use crate::cell::ToldCell;
use ids::names::{MsgId, ObjId, PromId, SlotId, VatNo};
use ids::reference::Reference;
use std::io::Write;
use stepper_printing::names::{
    put_event, put_message, put_object, put_promise, put_reference, put_slot,
};
use stepper_streams::outlet::Outlet;

fn put_name<W: Write>(kind: &str, name: &str, out: &mut Outlet<W>)
    ensures { Tells W.contents out.old out.new (kind.now ++ name.now) }
{
    out.put(kind);
    out.put(name);
}

fn put_noun<W: Write>(vat: VatNo, name: &str, out: &mut Outlet<W>)
    ensures { Tells W.contents out.old out.new (codes "noun " ++ (event_text vat.0 ++ (codes " " ++ name.now))) }
{
    out.put("noun ");
    put_event(vat.0, out);
    out.put(" ");
    out.put(name);
}

fn put_slot_cell<W: Write>(slot: SlotId, out: &mut Outlet<W>)
    ensures { Tells W.contents out.old out.new (codes "slot " ++ slot_text slot) }
{
    out.put("slot ");
    put_slot(slot, out);
}

fn put_object_cell<W: Write>(object: ObjId, out: &mut Outlet<W>)
    ensures { Tells W.contents out.old out.new (codes "object " ++ object_text object) }
{
    out.put("object ");
    put_object(object, out);
}

fn put_view<W: Write>(vat: VatNo, promise: PromId, out: &mut Outlet<W>)
    ensures { Tells W.contents out.old out.new (codes "view " ++ (event_text vat.0 ++ (codes " " ++ promise_text promise))) }
{
    out.put("view ");
    put_event(vat.0, out);
    out.put(" ");
    put_promise(promise, out);
}

fn put_fence<W: Write>(vat: VatNo, reference: Reference, out: &mut Outlet<W>)
    ensures { Tells W.contents out.old out.new (codes "fence " ++ (event_text vat.0 ++ (codes " " ++ reference_text reference))) }
{
    out.put("fence ");
    put_event(vat.0, out);
    out.put(" ");
    put_reference(reference, out);
}

fn put_message_cell<W: Write>(message: MsgId, out: &mut Outlet<W>)
    ensures { Tells W.contents out.old out.new (codes "msg " ++ message_text message) }
{
    out.put("msg ");
    put_message(message, out);
}

fn put_board<W: Write>(promise: PromId, out: &mut Outlet<W>)
    ensures { Tells W.contents out.old out.new (codes "board " ++ promise_text promise) }
{
    out.put("board ");
    put_promise(promise, out);
}

/// Puts the kind of a cell and its name, of a vat's own also the vat's birth.
pub(crate) fn put_cell<W: Write>(cell: &ToldCell, out: &mut Outlet<W>)
    ensures { Tells W.contents out.old out.new (cell_text cell.now) }
{
    match cell {
        ToldCell::Vat(name) => put_name("vat ", name.as_str(), out),
        ToldCell::Noun(vat, name) => put_noun(*vat, name.as_str(), out),
        ToldCell::Slot(slot) => put_slot_cell(*slot, out),
        ToldCell::Object(object) => put_object_cell(*object, out),
        ToldCell::View(vat, promise) => put_view(*vat, *promise, out),
        ToldCell::Fence(vat, reference) => put_fence(*vat, *reference, out),
        ToldCell::Message(message) => put_message_cell(*message, out),
        ToldCell::Board(promise) => put_board(*promise, out),
    }
}
