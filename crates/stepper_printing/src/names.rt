// Names, as they are printed.
ghost use Rattle.std.specs.Prelude.{◌++◌};
ghost use Rattle.std.specs.Fmt.{decimal};
ghost use Rattle.ids.specs.Names.{event_text, message_text, promise_text, slot_text, object_text, ejector_text, reference_text};
ghost use Rattle.stepper_streams.specs.Outlet.{Tells};

use ids::names::{EjId, EventName, MsgId, ObjId, PromId, SlotId};
use ids::reference::Reference;
use std::io::Write;
use stepper_streams::outlet::Outlet;

/// Puts the name of an event, as `e3`.
pub fn put_event<W: Write>(event: EventName, out: &mut Outlet<W>)
    ensures { Tells W.contents out.old out.new (event_text event) }
{
    out.put("e");
    out.put_number(event.0);
}

/// Puts an event, a mark, and the number of what the event made.
fn put_made<W: Write>(event: EventName, mark: &str, index: u32, out: &mut Outlet<W>)
    ensures { Tells W.contents out.old out.new (event_text event ++ mark.now ++ decimal index) }
{
    put_event(event, out);
    out.put(mark);
    out.put_number(index);
}

/// Puts the name of a message, as `e3.m0`.
pub fn put_message<W: Write>(message: MsgId, out: &mut Outlet<W>)
    ensures { Tells W.contents out.old out.new (message_text message) }
{
    put_made(message.event, ".m", message.index, out);
}

/// Puts the name of a promise, as `e3.p0`.
pub fn put_promise<W: Write>(promise: PromId, out: &mut Outlet<W>)
    ensures { Tells W.contents out.old out.new (promise_text promise) }
{
    put_made(promise.event, ".p", promise.index, out);
}

/// Puts the name of a slot, as `e3.s0`.
pub fn put_slot<W: Write>(slot: SlotId, out: &mut Outlet<W>)
    ensures { Tells W.contents out.old out.new (slot_text slot) }
{
    put_made(slot.event, ".s", slot.index, out);
}

/// Puts the name of an object, as `e3.o0`.
pub fn put_object<W: Write>(object: ObjId, out: &mut Outlet<W>)
    ensures { Tells W.contents out.old out.new (object_text object) }
{
    put_made(object.event, ".o", object.index, out);
}

/// Puts the name of an ejector, as `e3.j0`.
pub fn put_ejector<W: Write>(ejector: EjId, out: &mut Outlet<W>)
    ensures { Tells W.contents out.old out.new (ejector_text ejector) }
{
    put_made(ejector.event, ".j", ejector.index, out);
}

/// Puts the name of what is referred to.
pub fn put_reference<W: Write>(reference: Reference, out: &mut Outlet<W>)
    ensures { Tells W.contents out.old out.new (reference_text reference) }
{
    match reference {
        Reference::Promise(promise) => put_promise(promise, out),
        Reference::Object(object) => put_object(object, out),
        Reference::Ejector(ejector) => put_ejector(ejector, out),
    }
}
