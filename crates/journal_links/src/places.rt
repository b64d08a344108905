// Where the entry of each event stands.
ghost use Rattle.std.specs.Prelude.{◌≡◌, ◌==◌, cond, None, Some, OnOk};
ghost use Rattle.ids.specs.declared.names.EventName.{EventName};

use ids::names::EventName;
use std::alloc::{AllocError, Global};

/// Where the entries of events stand. Names are drawn one after another, so each has its place in a list.
#[derive(Drop)]
pub struct Places {
    by_name: Vec<Option<usize>>,
}

impl Places {
    ghost use Rattle.journal_links.specs.Places.{place_of, HasRoom};

    /// No entry stands anywhere.
    pub fn new(alloc: Global) -> Places
        ensures { (e : EventName) → place_of result e ≡ None }
    {
        Places {
            by_name: Vec::new(alloc),
        }
    }

    /// Where the entry of an event stands, if there is one.
    pub fn place_of(&self, event: EventName) -> Option<usize>
        ensures { result ≡ place_of self.now event }
    {
        match self.by_name.get(event.0 as usize) {
            Some(place) => *place,
            None => None,
        }
    }

    /// Makes room for the place of an event. No place changes. Fails only for want of memory.
    pub fn make_room(&mut self, event: EventName) -> Result<(), AllocError>
        ensures ok { OnOk result (HasRoom self.new event) }
        ensures same { (e : EventName) → place_of self.new e ≡ place_of self.old e }
    {
        while self.by_name.len() <= event.0 as usize {
            self.by_name.push(None)?;
        }
        Ok(())
    }

    /// The entry of an event stands at a place from now on. It takes no memory.
    pub fn put(&mut self, event: EventName, place: usize)
        requires { HasRoom self.old event }
        ensures put { (e : EventName) → place_of self.new e ≡ cond (e.0 == event.0) (Some place) (place_of self.old e) }
        ensures room { (e : EventName) → HasRoom self.old e → HasRoom self.new e }
    {
        self.by_name[event.0 as usize] = Some(place);
    }
}
