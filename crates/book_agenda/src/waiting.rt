// How messages wait, and which of those that are ready is the first at each vat.
ghost use Rattle.std.specs.Prelude.{◌≡◌, true, None, Some, IsTrue, OnOk};

use ids::names::{EventName, MsgId, VatNo};
use std::alloc::{AllocError, Global};
use std::collections::{BTreeMap, BTreeSet};

/// How a message waits that is not done.
#[derive(Clone, Copy)]
pub(crate) enum Waits {
    /// It may arrive, or go on to another vat.
    Moving,
    /// It may have its turn at this vat.
    Ready(VatNo),
    /// It sleeps: it can do nothing before one of the cells changes that tell how it waits.
    Behind,
}

/// A message that is ready at a vat.
#[derive(Clone, Copy, PartialEq, Eq, PartialOrd, Ord)]
pub(crate) struct Ready {
    pub vat: VatNo,
    pub message: MsgId,
}

/// Messages that are not done, by how they wait.
#[derive(Drop)]
pub(crate) struct Waiting {
    /// How each waits.
    pub all: BTreeMap<MsgId, Waits>,
    /// Those that are ready, by vat.
    pub ready: BTreeSet<Ready>,
    /// Those that move, and of those that are ready at a vat the first.
    pub fronts: BTreeSet<MsgId>,
}

impl Waiting {
    ghost use Rattle.book_agenda.specs.Waiting.{how, AddsFront, FirstAt, GetsReady, Indexed, Puts, ReplacesFront};

    /// No messages.
    pub fn new(alloc: Global) -> Waiting
        ensures none { (m : MsgId) → how result m ≡ None }
        ensures indexed { Indexed result }
    {
        Waiting {
            all: BTreeMap::new(alloc),
            ready: BTreeSet::new(alloc),
            fronts: BTreeSet::new(alloc),
        }
    }

    /// How a message waits, if it does.
    pub fn get(&self, name: MsgId) -> Option<Waits>
        ensures { result ≡ how self.now name }
    {
        self.all.get(&name).copied()
    }

    /// Notes how a message waits, or that it does not. Fails only for want of memory, and is then of no use.
    pub fn put(&mut self, name: MsgId, waits: Option<Waits>) -> Result<(), AllocError>
        ensures { OnOk result (Puts name waits self.old self.new) }
    {
        if is_same(self.get(name), waits) {
            return Ok(());
        }
        self.remove(name)?;
        match waits {
            Some(waits) => self.add(name, waits),
            None => Ok(()),
        }
    }

    /// The first message that is ready at a vat.
    fn first_at(&self, vat: VatNo) -> Option<MsgId>
        ensures { FirstAt self.now vat result }
    {
        let first = Ready {
            vat,
            message: MsgId {
                event: EventName(0),
                index: 0,
            },
        };
        let ready = self.ready.range(first..).next()?;
        if ready.vat == vat {
            Some(ready.message)
        } else {
            None
        }
    }

    /// Takes a message out. Where it was the first at its vat, the next one there comes to the front.
    fn remove(&mut self, name: MsgId) -> Result<(), AllocError>
        ensures { OnOk result (Puts name None self.old self.new) }
    {
        match self.all.remove(&name) {
            None => Ok(()),
            Some(Waits::Behind) => Ok(()),
            Some(Waits::Moving) => {
                self.fronts.remove(&name);
                Ok(())
            }
            Some(Waits::Ready(vat)) => {
                self.ready.remove(&Ready { vat, message: name });
                self.fronts.remove(&name);
                match self.first_at(vat) {
                    Some(next) => self.add_front(next),
                    None => Ok(()),
                }
            }
        }
    }

    /// Adds a message that is not here.
    fn add(&mut self, name: MsgId, waits: Waits) -> Result<(), AllocError>
        ensures { how self.old name ≡ None → OnOk result (Puts name (Some waits) self.old self.new) }
    {
        self.all.insert(name, waits)?;
        match waits {
            Waits::Moving => self.add_front(name),
            Waits::Ready(vat) => self.add_ready(vat, name),
            Waits::Behind => Ok(()),
        }
    }

    /// Adds a message to the fronts.
    fn add_front(&mut self, name: MsgId) -> Result<(), AllocError>
        ensures { OnOk result (AddsFront name self.old self.new) }
    {
        self.fronts.insert(name)?;
        Ok(())
    }

    /// Adds a message to those that are ready at a vat. If it is the first of them, it comes to the front in place of the first till now.
    fn add_ready(&mut self, vat: VatNo, name: MsgId) -> Result<(), AllocError>
        ensures { OnOk result (GetsReady vat name self.old self.new) }
    {
        let first = self.first_at(vat);
        self.ready.insert(Ready { vat, message: name })?;
        match first {
            Some(first) => self.replace_front(first, name),
            None => self.add_front(name),
        }
    }

    /// Lets a message be a front in place of another one, unless that one comes before it.
    fn replace_front(&mut self, first: MsgId, name: MsgId) -> Result<(), AllocError>
        ensures { OnOk result (ReplacesFront first name self.old self.new) }
    {
        if first < name {
            return Ok(());
        }
        self.fronts.remove(&first);
        self.add_front(name)
    }
}

/// Whether a message waits as it did; false says nothing.
fn is_same(found: Option<Waits>, waits: Option<Waits>) -> bool
    ensures { IsTrue result → found ≡ waits }
{
    match (found, waits) {
        (None, None) => true,
        (Some(Waits::Moving), Some(Waits::Moving)) => true,
        (Some(Waits::Ready(here)), Some(Waits::Ready(vat))) => here == vat,
        (Some(Waits::Behind), Some(Waits::Behind)) => true,
        _ => false,
    }
}
