// Who wrote over what each event left.
ghost use Rattle.std.specs.Prelude.{◌≡◌, [], true, OnOk};
ghost use Rattle.ids.specs.declared.names.EventName.{EventName};

use crate::followers::list;
use ids::names::EventName;
use std::alloc::{AllocError, Global};

/// Of each event a list with all that wrote a cell as it had left it. A list may name others too.
#[derive(Drop)]
pub struct Heirs {
    by_name: Vec<Vec<EventName>>,
}

impl Heirs {
    ghost use Rattle.journal_links.specs.Heirs.{heirs_of, is_heir, HasRoom};

    /// Nobody wrote over anything.
    pub fn new(alloc: Global) -> Heirs
        ensures { (e : EventName) → heirs_of result e ≡ [] }
    {
        Heirs {
            by_name: Vec::new(alloc),
        }
    }

    /// Who wrote over what an event left.
    pub fn of(&self, event: EventName) -> &[EventName]
        ensures { result.now ≡ heirs_of self.now event }
    {
        match self.by_name.get(event.0 as usize) {
            Some(heirs) => heirs,
            None => &[],
        }
    }

    /// Begins the lists up to that of an event.
    fn make_room(&mut self, event: EventName) -> Result<(), AllocError>
        ensures ok { OnOk result (HasRoom self.new event) }
        ensures same { (e : EventName) → heirs_of self.new e ≡ heirs_of self.old e }
    {
        while self.by_name.len() <= event.0 as usize {
            let alloc = *self.by_name.allocator();
            self.by_name.push(Vec::new(alloc))?;
        }
        Ok(())
    }

    /// Lists who wrote over what an event left. Fails only for want of memory.
    pub fn add(&mut self, event: EventName, heir: EventName) -> Result<(), AllocError>
        ensures ok { OnOk result (is_heir self.new event heir ≡ true) }
        ensures kept { (e f : EventName) → is_heir self.old e f ≡ true → is_heir self.new e f ≡ true }
    {
        self.make_room(event)?;
        list(&mut self.by_name[event.0 as usize], heir)
    }
}
