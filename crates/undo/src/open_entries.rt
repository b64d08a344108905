// The entries that are not settled.
ghost use Rattle.std.specs.Prelude.{◌≡◌, ◌==◌, ◌+◌, ◌<◌, ◌≤◌, true, if◌then◌else◌, is_ok, [], ◌∷◌, ◌++◌, length, map, take, drop, slice_index_or};
ghost use Rattle.std.specs.List.{list_all};
ghost use Rattle.world_cells.specs.View.{is_ready, swaps_of, RisesBy};
ghost use Rattle.world_cells.specs.Theory.{state_of_world, all_pass};
ghost use Rattle.journal.specs.Items.{item_of, is_live, swap_item, all_ready, records_at, exchanged};
ghost use Rattle.undo.specs.Emptied.{is_emptied};

use crate::records::swap_records;
use ids::names::{EventName, MsgId};
use journal::entry::{Entry, Mark};
use std::alloc::{AllocError, Global};
use world_cells::event::{Action, Event};
use world_cells::world::World;

/// The entries that are not settled, the oldest first. In front of them stand emptied ones, no more than they are: so those that are
/// settled are let go one by one, and each that stays is moved once for each of them at most.
pub struct OpenEntries {
    all: Vec<Entry>,
    emptied: usize,
    ghost few: { emptied + emptied ≤ length all.items },
    ghost light: { list_all is_emptied (take emptied all.items) ≡ true },
}

// By hand, so that what drops one elsewhere calls this and is not proved anew for all that it holds.
impl Drop for OpenEntries {
    fn drop(self) {
        let OpenEntries { all: _, emptied: _ } = self;
    }
}

/// Exchanges the records of an entry with the cells, and marks it. It takes no memory.
fn swap_one(world: &mut World, entry: &mut Entry, mark: Mark)
    requires { all_pass (is_ready world.old) (item_of entry.old).kept ≡ true }
    ensures item { (item_of entry.new, state_of_world world.new) ≡ swap_item (is_live mark) (item_of entry.old) (state_of_world world.old) }
    ensures ready { is_ready world.new ≡ is_ready world.old }
    ensures counted { RisesBy (length (item_of entry.old).kept) (swaps_of world.old) (swaps_of world.new) }
{
    swap_records(world, &mut entry.records);
    entry.mark = mark;
}

/// An entry that keeps nothing.
fn nothing(alloc: Global) -> Entry
    ensures { is_emptied result ≡ true }
{
    let event = EventName(0);
    Entry {
        event: Event {
            name: event,
            action: Action::Arrive(MsgId { event, index: 0 }),
        },
        notes: Vec::new(alloc),
        seat: 0,
        mark: Mark::Live,
        touched: Vec::new(alloc),
        records: Vec::new(alloc),
    }
}

/// Empties the entries from a place up to another one. It takes no memory.
fn empty(alloc: Global, all: &mut Vec<Entry>, from: usize, to: usize)
    requires order { from ≤ to }
    requires within { to ≤ length all.old.items }
    requires light { list_all is_emptied (take from all.old.items) ≡ true }
    ensures light { list_all is_emptied (take to all.new.items) ≡ true }
    ensures behind { drop to all.new.items ≡ drop to all.old.items }
    ensures count { length all.new.items ≡ length all.old.items }
{
    for place in from..to {
        all[place] = nothing(alloc);
    }
}

/// Takes away the first entries, so many. It takes no memory.
fn cut(all: &mut Vec<Entry>, count: usize)
    requires { count ≤ length all.old.items }
    ensures { all.new.items ≡ drop count all.old.items }
{
    let left = all.len() - count;
    all.rotate_left(count);
    all.truncate(left);
}

impl OpenEntries {
    ghost use Rattle.undo.specs.OpenView.{opens, SwapsAt};

    /// No entries.
    pub fn new(alloc: Global) -> OpenEntries
        ensures { opens result ≡ [] }
    {
        OpenEntries {
            all: Vec::new(alloc),
            emptied: 0,
        }
    }

    /// The entries, the oldest first.
    pub fn as_slice(&self) -> &[Entry]
        ensures { result.now ≡ opens self.now }
    {
        &self.all[self.emptied..]
    }

    /// How many there are.
    pub fn len(&self) -> usize
        ensures { result ≡ length (opens self.now) }
    {
        self.all.len() - self.emptied
    }

    /// Whether there is none.
    pub fn is_empty(&self) -> bool
        ensures { result ≡ (length (opens self.now) == 0) }
    {
        self.len() == 0
    }

    /// The entry at a place.
    pub fn at(&self, place: usize) -> &Entry
        requires { place < length (opens self.now) }
        ensures { result.now ≡ slice_index_or (opens self.now) place result.now }
    {
        &self.all[self.emptied + place]
    }

    /// Adds an entry behind the others. Without memory all stay as they are.
    pub fn push(&mut self, entry: Entry) -> Result<(), AllocError>
        ensures items { opens self.new ≡ (if is_ok result then opens self.old ++ entry ∷ [] else opens self.old) }
    {
        self.all.push(entry)?;
        Ok(())
    }

    /// Exchanges the records of the entry at a place with the cells, and marks it. It takes no memory.
    pub fn swap(&mut self, world: &mut World, place: usize, mark: Mark)
        requires { all_ready (is_ready world.old) (map item_of (opens self.old)) (place ∷ []) ≡ true }
        ensures entry { SwapsAt (is_live mark) place (opens self.old) (opens self.new) (state_of_world world.old) (state_of_world world.new) }
        ensures ready { is_ready world.new ≡ is_ready world.old }
        ensures counted { RisesBy (records_at (map item_of (opens self.old)) (place ∷ [])) (swaps_of world.old) (swaps_of world.new) }
    {
        swap_one(world, &mut self.all[self.emptied + place], mark);
    }

    /// Lets the entry at a place and the one behind it change places. It takes no memory.
    pub fn exchange(&mut self, place: usize)
        requires { place + 1 < length (opens self.old) }
        ensures { opens self.new ≡ exchanged place (opens self.old) }
    {
        let here = self.emptied + place;
        self.all.swap(here, here + 1);
    }

    /// Lets the first entries go, so many. It takes no memory, and moves the others only where fewer are left than were let go.
    pub fn let_go(&mut self, alloc: Global, count: usize)
        requires { count ≤ length (opens self.old) }
        ensures { opens self.new ≡ drop count (opens self.old) }
    {
        let end = self.emptied + count;
        empty(alloc, &mut self.all, self.emptied, end);
        if end > self.all.len() - end {
            cut(&mut self.all, end);
            self.emptied = 0;
        } else {
            self.emptied = end;
        }
    }
}
