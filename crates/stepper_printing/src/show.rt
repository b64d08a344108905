// The world as a text.
ghost use Rattle.std.specs.Prelude.{◌++◌, codes, option_copied};
ghost use Rattle.ids.specs.Names.{event_text, promise_text, slot_text};
ghost use Rattle.kernele.specs.Spelling.{bound_name};
ghost use Rattle.values.specs.Shown.{shown};
ghost use Rattle.values.specs.View.{val_of};
ghost use Rattle.heap.specs.State.{bound, held, made, viewed, fenced};
ghost use Rattle.heap.specs.View.{bind_of, object_of, view_of};
ghost use Rattle.post.specs.MessageView.{place_of, message_of, published_of};
ghost use Rattle.world_cells.specs.World.{message as message_content, published};
ghost use Rattle.stepper_printing.specs.Show.{content_text, noun_line, noun_lines, slot_line, slot_lines, object_line, object_lines, view_line, view_lines, names_text, fence_line, fence_lines, vat_line, named_text, place_text, message_line, message_lines, board_line, board_lines};
ghost use Rattle.stepper_printing.specs.ShowView.{nouns_in, slots_in, objects_in, views_in, fences_in, messages_in, board_in};
ghost use Rattle.stepper_printing.specs.PictureView.{contents_text, held_text, home_text, homes_text, picture_text};
ghost use Rattle.stepper_streams.specs.Outlet.{Tells};

use crate::names::{put_event, put_message, put_object, put_promise, put_reference, put_slot};
use crate::picture::{Picture, VatHome};
use crate::value::put_value;
use eorder::fence::Fence;
use heap::made::Made;
use heap::state::{Binding, Contents, View};
use ids::names::{EventName, MsgId, ObjId, PromId, SlotId, VatNo};
use ids::reference::Reference;
use ids::text::Text;
use kernele::tree::Pattern;
use post::message::{Message, Place};
use post::published::Published;
use std::collections::BTreeMap;
use std::io::Write;
use stepper_streams::outlet::Outlet;
use values::value::Value;

fn put_slot_bound<W: Write>(slot: SlotId, out: &mut Outlet<W>)
    ensures { Tells W.contents out.old out.new (codes "slot " ++ slot_text slot) }
{
    out.put("slot ");
    put_slot(slot, out);
}

/// Puts what a name stands for: a value, or the slot of a variable.
pub fn put_binding<W: Write>(binding: &Binding, out: &mut Outlet<W>)
    ensures { Tells W.contents out.old out.new (content_text (bound (bind_of binding.now))) }
{
    match binding {
        Binding::Fixed(value) => put_value(value, out),
        Binding::Slot(slot) => put_slot_bound(*slot, out),
    }
}

fn put_noun_line<W: Write>(name: &Text, binding: &Binding, out: &mut Outlet<W>)
    ensures { Tells W.contents out.old out.new (noun_line (name.now, bound (bind_of binding.now))) }
{
    out.put(" noun ");
    out.put(name.as_str());
    out.put(" = ");
    put_binding(binding, out);
    out.put("\n");
}

/// Puts top nouns in order of bytes.
fn put_nouns<W: Write>(nouns: &BTreeMap<Text, Binding>, out: &mut Outlet<W>)
    ensures { Tells W.contents out.old out.new (noun_lines (nouns_in nouns.now)) }
{
    for (name, binding) in nouns.iter() {
        put_noun_line(name, binding, out);
    }
}

fn put_slot_line<W: Write>(slot: SlotId, value: &Value, out: &mut Outlet<W>)
    ensures { Tells W.contents out.old out.new (slot_line (slot, held (val_of value.now))) }
{
    out.put(" slot ");
    put_slot(slot, out);
    out.put(" = ");
    put_value(value, out);
    out.put("\n");
}

/// Puts slots in order of their names.
fn put_slots<W: Write>(slots: &BTreeMap<SlotId, Value>, out: &mut Outlet<W>)
    ensures { Tells W.contents out.old out.new (slot_lines (slots_in slots.now)) }
{
    for (slot, value) in slots.iter() {
        put_slot_line(*slot, value, out);
    }
}

/// Puts what a pattern binds.
pub fn put_pattern<W: Write>(pattern: &Pattern, out: &mut Outlet<W>)
    ensures { Tells W.contents out.old out.new (bound_name pattern.now) }
{
    match pattern {
        Pattern::Name(name) => out.put(name.as_str()),
        Pattern::Ignore => out.put("_"),
    }
}

fn put_resolver<W: Write>(promise: PromId, out: &mut Outlet<W>)
    ensures { Tells W.contents out.old out.new (codes "resolver " ++ promise_text promise) }
{
    out.put("resolver ");
    put_promise(promise, out);
}

/// Puts what an object is: its own name in its methods, or which promise it resolves.
pub fn put_made<W: Write>(object: &Made, out: &mut Outlet<W>)
    ensures { Tells W.contents out.old out.new (content_text (made (object_of object.now))) }
{
    match object {
        Made::Plain(plain) => put_pattern(&plain.own, out),
        Made::Resolver(promise) => put_resolver(*promise, out),
    }
}

fn put_object_line<W: Write>(name: ObjId, object: &Made, out: &mut Outlet<W>)
    ensures { Tells W.contents out.old out.new (object_line (name, made (object_of object.now))) }
{
    out.put(" object ");
    put_object(name, out);
    out.put(" ");
    put_made(object, out);
    out.put("\n");
}

/// Puts objects in order of their names.
fn put_objects<W: Write>(objects: &BTreeMap<ObjId, Made>, out: &mut Outlet<W>)
    ensures { Tells W.contents out.old out.new (object_lines (objects_in objects.now)) }
{
    for (name, object) in objects.iter() {
        put_object_line(*name, object, out);
    }
}

fn put_resolved<W: Write>(value: &Value, out: &mut Outlet<W>)
    ensures { Tells W.contents out.old out.new (codes " = " ++ shown (val_of value.now)) }
{
    out.put(" = ");
    put_value(value, out);
}

fn put_view<W: Write>(view: &View, out: &mut Outlet<W>)
    ensures { Tells W.contents out.old out.new (content_text (viewed (view_of view.now))) }
{
    match view {
        View::Open => out.put(" open"),
        View::Resolved(value) => put_resolved(value, out),
    }
}

fn put_view_line<W: Write>(promise: PromId, view: &View, out: &mut Outlet<W>)
    ensures { Tells W.contents out.old out.new (view_line (promise, viewed (view_of view.now))) }
{
    out.put(" view ");
    put_promise(promise, out);
    put_view(view, out);
    out.put("\n");
}

/// Puts what is known of promises, in order of their names.
fn put_views<W: Write>(views: &BTreeMap<PromId, View>, out: &mut Outlet<W>)
    ensures { Tells W.contents out.old out.new (view_lines (views_in views.now)) }
{
    for (promise, view) in views.iter() {
        put_view_line(*promise, view, out);
    }
}

/// Puts names of messages, each behind a space.
pub fn put_names<W: Write>(names: &[MsgId], out: &mut Outlet<W>)
    ensures { Tells W.contents out.old out.new (names_text names.now) }
{
    for name in names {
        out.put(" ");
        put_message(*name, out);
    }
}

fn put_fence_line<W: Write>(reference: Reference, fence: &Fence, out: &mut Outlet<W>)
    ensures { Tells W.contents out.old out.new (fence_line (reference, fenced fence.now)) }
{
    out.put(" fence ");
    put_reference(reference, out);
    out.put(":");
    put_names(fence.names(), out);
    out.put("\n");
}

/// Puts fences in order of their references.
fn put_fences<W: Write>(fences: &BTreeMap<Reference, Fence>, out: &mut Outlet<W>)
    ensures { Tells W.contents out.old out.new (fence_lines (fences_in fences.now)) }
{
    for (reference, fence) in fences.iter() {
        put_fence_line(*reference, fence, out);
    }
}

fn put_vat_line<W: Write>(number: VatNo, name: &Text, out: &mut Outlet<W>)
    ensures { Tells W.contents out.old out.new (vat_line number name.now) }
{
    out.put("vat ");
    out.put(name.as_str());
    out.put(" ");
    put_event(number.0, out);
    out.put("\n");
}

/// Puts the top nouns, the slots, the objects, the views and the fences of a vat's state.
fn put_contents<W: Write>(contents: &Contents, out: &mut Outlet<W>)
    ensures { Tells W.contents out.old out.new (contents_text contents.now) }
{
    put_nouns(&contents.nouns, out);
    put_slots(&contents.slots, out);
    put_objects(&contents.objects, out);
    put_views(&contents.views, out);
    put_fences(&contents.fences, out);
}

/// Puts what a vat holds, which is nothing where it has no state.
fn put_held<W: Write>(held: &Option<Contents>, out: &mut Outlet<W>)
    ensures { Tells W.contents out.old out.new (held_text held.now) }
{
    match held {
        Some(contents) => put_contents(contents, out),
        None => out.put(""),
    }
}

fn put_home<W: Write>(home: &VatHome, out: &mut Outlet<W>)
    ensures { Tells W.contents out.old out.new (home_text home.now) }
{
    put_vat_line(home.number, &home.name, out);
    put_held(&home.held, out);
}

/// Puts vats, each with what it holds.
fn put_homes<W: Write>(homes: &[VatHome], out: &mut Outlet<W>)
    ensures { Tells W.contents out.old out.new (homes_text homes.now) }
{
    for home in homes {
        put_home(home, out);
    }
}

fn put_vat_name<W: Write>(words: &str, name: Option<&Text>, out: &mut Outlet<W>)
    ensures { Tells W.contents out.old out.new (named_text words.now (option_copied name.entry)) }
{
    match name {
        Some(name) => put_both(words, name.as_str(), out),
        None => out.put(""),
    }
}

fn put_both<W: Write>(first: &str, second: &str, out: &mut Outlet<W>)
    ensures { Tells W.contents out.old out.new (first.now ++ second.now) }
{
    out.put(first);
    out.put(second);
}

fn put_done<W: Write>(event: EventName, out: &mut Outlet<W>)
    ensures { Tells W.contents out.old out.new (codes " done " ++ event_text event) }
{
    out.put(" done ");
    put_event(event, out);
}

fn put_place<W: Write>(place: Place, vats: &BTreeMap<VatNo, Text>, out: &mut Outlet<W>)
    ensures { Tells W.contents out.old out.new (place_text vats.now.entries (place_of place)) }
{
    match place {
        Place::Flying(number) => put_vat_name(" flying ", vats.get(&number), out),
        Place::At(number) => put_vat_name(" at ", vats.get(&number), out),
        Place::Done(event) => put_done(event, out),
    }
}

/// Puts where a message is, among vats with their names.
pub fn put_message_line<W: Write>(
    name: MsgId,
    message: &Message,
    vats: &BTreeMap<VatNo, Text>,
    out: &mut Outlet<W>,
)
    ensures { Tells W.contents out.old out.new (message_line vats.now.entries (name, message_content (message_of message.now))) }
{
    out.put("msg ");
    put_message(name, out);
    put_place(message.place, vats, out);
    out.put("\n");
}

/// Puts the messages in order of their names.
fn put_messages<W: Write>(
    messages: &BTreeMap<MsgId, Message>,
    vats: &BTreeMap<VatNo, Text>,
    out: &mut Outlet<W>,
)
    ensures { Tells W.contents out.old out.new (message_lines vats.now.entries (messages_in messages.now)) }
{
    for (name, message) in messages.iter() {
        put_message_line(*name, message, vats, out);
    }
}

fn put_board_line<W: Write>(promise: PromId, publication: &Published, out: &mut Outlet<W>)
    ensures { Tells W.contents out.old out.new (board_line (promise, published (published_of publication.now))) }
{
    out.put("board ");
    put_promise(promise, out);
    out.put(" = ");
    put_value(&publication.value, out);
    out.put("\n");
}

/// Puts what was published, in order of the promises.
fn put_board<W: Write>(board: &BTreeMap<PromId, Published>, out: &mut Outlet<W>)
    ensures { Tells W.contents out.old out.new (board_lines (board_in board.now)) }
{
    for (promise, publication) in board.iter() {
        put_board_line(*promise, publication, out);
    }
}

/// Puts a world: its vats by birth, its messages and what was published in order of their names.
pub fn put_world<W: Write>(picture: &Picture, out: &mut Outlet<W>)
    ensures { Tells W.contents out.old out.new (picture_text picture.now) }
{
    put_homes(&picture.homes, out);
    put_messages(&picture.messages, &picture.vats, out);
    put_board(&picture.board, out);
}
