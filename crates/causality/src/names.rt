// Sets of names that find a name without a walk along them.
ghost use Rattle.std.specs.Prelude.{◌≡◌, IfOk};
ghost use Rattle.history.specs.Journal.{is_in};
ghost use Rattle.ids.specs.declared.names.EventName.{EventName};
ghost use Rattle.causality.specs.Selections.{numbers};
ghost use Rattle.causality.specs.Names.{SameNames};

use ids::names::EventName;
use std::alloc::{AllocError, Global};
use std::collections::BTreeSet;
use std::marker::Model;

/// Names of events as they were given, of which each is found without a walk along them.
#[derive(Drop)]
pub struct NameSet<'a> {
    given: &'a [EventName],
    sorted: BTreeSet<EventName>,
}

impl<'a> Model for NameSet<'a> {
    ghost use Rattle.std.specs.Prelude.{List};
    ghost use Rattle.ids.specs.declared.names.EventName.{EventName};
    ghost use Rattle.causality.specs.Names.{SameNames};

    ghost Value = { List EventName };

    ghost view = { λ s. s.given.now };

    ghost invariant = { λ s. SameNames s.sorted.keys s.given.now };
}

impl<'a> NameSet<'a> {
    /// These names. Fails only for want of memory.
    pub fn new(alloc: Global, given: &'a [EventName]) -> Result<NameSet<'a>, AllocError>
        ensures { IfOk result (λ set. set ≡ given.now) }
    {
        let sorted = sorted(alloc, given)?;
        Ok(NameSet { given, sorted })
    }

    /// The names as they were given.
    pub fn given(&self) -> &'a [EventName]
        ensures { result.now ≡ self.now }
    {
        self.given
    }

    /// Whether a name is one of these.
    pub fn has(&self, name: EventName) -> bool
        ensures { result ≡ is_in (numbers self.now) name.0 }
    {
        has(&self.sorted, name)
    }
}

/// These names as a set.
fn sorted(alloc: Global, names: &[EventName]) -> Result<BTreeSet<EventName>, AllocError>
    ensures { IfOk result (λ set. SameNames set.keys names.now) }
{
    let mut set = BTreeSet::new(alloc);
    for name in names {
        set.insert(*name)?;
    }
    Ok(set)
}

/// Whether a set has a name.
fn has(set: &BTreeSet<EventName>, name: EventName) -> bool
    ensures { result ≡ is_in (numbers set.now.keys) name.0 }
{
    set.contains(&name)
}
