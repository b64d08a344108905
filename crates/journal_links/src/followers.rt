// Who followed each event: touched a cell that it had written last.
ghost use Rattle.std.specs.Prelude.{◌≡◌, ◌≢◌, ◌==◌, [], true, Some, OnOk};
ghost use Rattle.std.specs.Option.{option_map};
ghost use Rattle.std.specs.List.{list_any};
ghost use Rattle.ids.specs.declared.names.EventName.{EventName};

use ids::names::EventName;
use std::alloc::{AllocError, Global};

/// Of each event a list with all that followed it, or none, once it was let go. A list may name others too.
#[derive(Drop)]
pub struct Followers {
    by_name: Vec<Option<Vec<EventName>>>,
}

/// Puts a name on a list, if it does not end with it.
pub(crate) fn list(names: &mut Vec<EventName>, name: EventName) -> Result<(), AllocError>
    ensures ok { OnOk result (list_any (λ f. f.0 == name.0) names.new.items ≡ true) }
    ensures kept { (e : EventName) → list_any (λ f. f.0 == e.0) names.old.items ≡ true → list_any (λ f. f.0 == e.0) names.new.items ≡ true }
{
    if names.last() != Some(&name) {
        names.push(name)?;
    }
    Ok(())
}

impl Followers {
    ghost use Rattle.journal_links.specs.Followers.{followers_of, may_follow, IsLetGo, HasRoom};

    /// Nobody followed anything.
    pub fn new(alloc: Global) -> Followers
        ensures { (e : EventName) → followers_of result e ≡ Some [] }
    {
        Followers {
            by_name: Vec::new(alloc),
        }
    }

    /// Who followed an event, if that is kept.
    pub fn of(&self, event: EventName) -> Option<&[EventName]>
        ensures { option_map (λ es. es.now) result ≡ followers_of self.now event }
    {
        match self.by_name.get(event.0 as usize) {
            Some(Some(followers)) => Some(followers),
            Some(None) => None,
            None => Some(&[]),
        }
    }

    /// Begins the lists up to that of an event.
    fn make_room(&mut self, event: EventName) -> Result<(), AllocError>
        ensures ok { OnOk result (HasRoom self.new event) }
        ensures same { (e : EventName) → followers_of self.new e ≡ followers_of self.old e }
    {
        while self.by_name.len() <= event.0 as usize {
            let alloc = *self.by_name.allocator();
            self.by_name.push(Some(Vec::new(alloc)))?;
        }
        Ok(())
    }

    /// Lists a follower of an event, where its followers are kept. Fails only for want of memory.
    pub fn add(&mut self, event: EventName, follower: EventName) -> Result<(), AllocError>
        ensures ok { OnOk result (may_follow self.new event follower ≡ true) }
        ensures kept { (e f : EventName) → may_follow self.old e f ≡ true → may_follow self.new e f ≡ true }
    {
        self.make_room(event)?;
        if let Some(followers) = &mut self.by_name[event.0 as usize] {
            list(followers, follower)?;
        }
        Ok(())
    }

    /// Lets go who followed an event. It takes no memory.
    pub fn let_go(&mut self, event: EventName)
        ensures others { (e : EventName) → e.0 ≢ event.0 → followers_of self.new e ≡ followers_of self.old e }
        ensures gone { IsLetGo self.new event }
        ensures kept { (f : EventName) → may_follow self.old event f ≡ true → may_follow self.new event f ≡ true }
    {
        if let Some(followers) = self.by_name.get_mut(event.0 as usize) {
            *followers = None;
        }
    }
}
