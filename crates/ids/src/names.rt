// Names of events and of what they make.
ghost use Rattle.std.specs.Prelude.{◌++◌, Some};
ghost use Rattle.std.specs.Fmt.{WritesOnOk, decimal};
ghost use Rattle.ids.specs.Names.{event_text, message_text, promise_text, slot_text, object_text, ejector_text};

use crate::text::Text;
use std::fmt;

/// The name of an event: a number drawn from the book's counter, from 1. The default is no event's name.
#[derive(Clone, Copy, Default, PartialEq, Eq, PartialOrd, Ord, Hash)]
pub struct EventName(pub u32);

/// A vat's number: the name of its birth.
#[derive(Clone, Copy, PartialEq, Eq, PartialOrd, Ord, Hash)]
pub struct VatNo(pub EventName);

/// A message: the event that sent it, and its number among that event's messages, from 0. The default is no message's name.
#[derive(Clone, Copy, Default, PartialEq, Eq, PartialOrd, Ord, Hash)]
pub struct MsgId {
    pub event: EventName,
    pub index: u32,
}

/// A promise: the event that made it, its number among that event's promises, from 0, and its home.
#[derive(Clone, Copy, PartialEq, Eq, PartialOrd, Ord, Hash)]
pub struct PromId {
    pub event: EventName,
    pub index: u32,
    pub home: VatNo,
}

/// A variable's slot: the event that made it, its number among that event's slots, from 0, and its vat.
#[derive(Clone, Copy, PartialEq, Eq, PartialOrd, Ord, Hash)]
pub struct SlotId {
    pub event: EventName,
    pub index: u32,
    pub vat: VatNo,
}

/// An object: the event that made it, its number among that event's objects, from 0, and its vat.
#[derive(Clone, Copy, PartialEq, Eq, PartialOrd, Ord, Hash)]
pub struct ObjId {
    pub event: EventName,
    pub index: u32,
    pub vat: VatNo,
}

/// An ejector: the event that made it, its number among that event's ejectors, from 0, and its vat.
#[derive(Clone, Copy, PartialEq, Eq, PartialOrd, Ord, Hash)]
pub struct EjId {
    pub event: EventName,
    pub index: u32,
    pub vat: VatNo,
}

impl fmt::Display for EventName {
    ghost output = { λ e. Some (event_text e) };

    fn fmt<W: fmt::Write>(&self, f: &mut fmt::Formatter<W>) -> fmt::Result {
        write!(f, "e{}", self.0)
    }
}

/// Writes an event, a mark, and the number of what the event made.
fn write_made<W: fmt::Write>(
    f: &mut fmt::Formatter<W>,
    event: EventName,
    mark: &str,
    index: u32,
) -> fmt::Result
    ensures { WritesOnOk W.write_str_gives f.old result (event_text event ++ mark.now ++ decimal index) f.new }
{
    write!(f, "{event}{mark}{index}")
}

impl fmt::Display for MsgId {
    ghost output = { λ m. Some (message_text m) };

    fn fmt<W: fmt::Write>(&self, f: &mut fmt::Formatter<W>) -> fmt::Result {
        write_made(f, self.event, ".m", self.index)
    }
}

impl fmt::Display for PromId {
    ghost output = { λ p. Some (promise_text p) };

    fn fmt<W: fmt::Write>(&self, f: &mut fmt::Formatter<W>) -> fmt::Result {
        write_made(f, self.event, ".p", self.index)
    }
}

impl fmt::Display for SlotId {
    ghost output = { λ s. Some (slot_text s) };

    fn fmt<W: fmt::Write>(&self, f: &mut fmt::Formatter<W>) -> fmt::Result {
        write_made(f, self.event, ".s", self.index)
    }
}

impl fmt::Display for ObjId {
    ghost output = { λ o. Some (object_text o) };

    fn fmt<W: fmt::Write>(&self, f: &mut fmt::Formatter<W>) -> fmt::Result {
        write_made(f, self.event, ".o", self.index)
    }
}

impl fmt::Display for EjId {
    ghost output = { λ j. Some (ejector_text j) };

    fn fmt<W: fmt::Write>(&self, f: &mut fmt::Formatter<W>) -> fmt::Result {
        write_made(f, self.event, ".j", self.index)
    }
}
