// The world, and the journal of the events that wrote it.
ghost use Rattle.std.specs.Prelude.{◌≡◌, ◌+◌, ◌<◌, ◌≤◌, ℕ, if◌then◌else◌, true, false, List, [], ◌∷◌, ◌==◌, None, IfOk, OnOk, OnErr, map, length, reverse, take, All};
ghost use Rattle.std.specs.List.{AllByRecursion};
ghost use Rattle.std.specs.Arc.{arc_value};
ghost use Rattle.heap.specs.View as heap;
ghost use Rattle.history.specs.Records.{contents};
ghost use Rattle.history.specs.Walks.{step_at, walk};
ghost use Rattle.ids.specs.declared.cells.CellKey.{CellKey};
ghost use Rattle.eval_rules.specs.OutboxView.{note_of};
ghost use Rattle.journal_links.specs.Places.{ArePlaces};
ghost use Rattle.journal_links.specs.Followers.{IsLetGo};
ghost use Rattle.world_cells.specs.Events.{with_notes};
ghost use Rattle.world_cells.specs.EventView.{event_of};
ghost use Rattle.world_cells.specs.View.{RisesBy};
ghost use Rattle.world_cells.specs.World.{vat_state};
ghost use Rattle.world_cells.specs.Theory.{cells, state_of_world, kepts_of};
ghost use Rattle.journal.specs.Items.{item_of, is_live, swap_item, entered, keys_at, all_ready, records_at, may_exchange, neighbours, exchanged};
ghost use Rattle.journal.specs.Links.{AreFollowers, AreHeirs, names_of};
ghost use Rattle.journal.specs.SettledView.{items_in};
ghost use Rattle.undo.specs.OpenView.{opens};

use crate::open_entries::OpenEntries;
use crate::records::{add_keys, make_rooms};
use eval_rules::outbox::Note;
use heap::state::VatState;
use ids::cells::CellKey;
use ids::names::VatNo;
use journal::entry::{Entry, Mark, may_exchange, with_writers};
use journal::journal::Journal;
use journal::linking::{let_go, list_follower, list_heir};
use journal::settled::Settled;
use journal_links::followers::Followers;
use journal_links::heirs::Heirs;
use journal_links::places::Places;
use std::alloc::{AllocError, Global};
use std::sync::Arc;
use world_cells::event::Event;
use world_cells::record::CellRecord;
use world_cells::world::World;

/// An event with its notes and its seat, before it has an entry.
#[derive(Drop)]
pub struct Deed {
    pub event: Event,
    pub notes: Vec<Note>,
    pub seat: u64,
}

/// The cells, and an entry for each event that wrote them, the oldest first: those that are settled, and those behind them. By their
/// names it knows where each stands, who followed those that are not settled, and who wrote over what each left.
pub struct Core {
    world: World,
    settled: Vec<Settled>,
    entries: OpenEntries,
    places: Places,
    followers: Followers,
    heirs: Heirs,
    ghost placed: { ∥ ArePlaces places (names_of (items_in settled.items (opens entries))) ∥₁ },
    ghost followed: { ∥ AreFollowers followers (map item_of (opens entries)) ∥₁ },
    ghost inherited: { ∥ AreHeirs heirs (items_in settled.items (opens entries)) ∥₁ },
}

// By hand, so that what drops one elsewhere calls this and is not proved anew for all that it holds.
impl Drop for Core {
    fn drop(self) {
        let Core {
            world: _,
            settled: _,
            entries: _,
            places: _,
            followers: _,
            heirs: _,
        } = self;
    }
}

impl Core {
    ghost use Rattle.undo.specs.CoreView.{settled_of, open_of, items_of, state_of, shown, ready_of, swaps_of, lists_of};
    ghost use Rattle.journal.specs.Journals.{items_of as journal_items};
    ghost use Rattle.undo.specs.Written.{written_at};

    /// No cells, and no entries.
    pub fn new(alloc: Global) -> Core
        ensures entries { items_of result ≡ [] }
        ensures settled { settled_of result ≡ 0 }
        ensures cells { (k : CellKey) → state_of result k ≡ (None, None) }
        ensures counted { swaps_of result ≡ 0 }
    {
        Core {
            world: World::new(alloc),
            settled: Vec::new(alloc),
            entries: OpenEntries::new(alloc),
            places: Places::new(alloc),
            followers: Followers::new(alloc),
            heirs: Heirs::new(alloc),
        }
    }

    /// How many entries are not settled.
    pub fn len(&self) -> usize
        ensures { result + settled_of self.now ≡ length (items_of self.now) }
    {
        self.entries.len()
    }

    /// Whether no entry is left that is not settled.
    pub fn is_empty(&self) -> bool
        ensures { result ≡ (length (open_of self.now) == 0) }
    {
        self.entries.is_empty()
    }

    /// All entries, the oldest first.
    pub fn journal(&self) -> Journal<'_>
        ensures items { journal_items result ≡ items_of self.now }
        ensures settled { length result.settled.now ≡ settled_of self.now }
    {
        Journal {
            settled: &self.settled,
            entries: self.entries.as_slice(),
            places: &self.places,
            followers: &self.followers,
            heirs: &self.heirs,
        }
    }

    /// The world.
    pub fn world(&self) -> &World
        ensures { state_of_world result.now ≡ state_of self.now }
    {
        &self.world
    }

    /// The state of a vat, shared with a ticket. Nothing that is shown changes. Fails only for want of memory.
    pub fn share_vat(&mut self, alloc: Global, vat: VatNo) -> Result<Arc<VatState>, AllocError>
        ensures shared { IfOk result (λ s. heap.state_of (arc_value s) ≡ vat_state (contents cells (state_of self.old)) vat) }
        ensures shown { shown self.new ≡ shown self.old }
        ensures settled { settled_of self.new ≡ settled_of self.old }
        ensures counted { swaps_of self.new ≡ swaps_of self.old }
    {
        self.world.share_vat(alloc, vat)
    }

    /// Exchanges the records of the entry at a position, which is not settled, with the cells, and marks it. It takes no memory.
    fn swap_entry(&mut self, position: usize, mark: Mark)
        requires behind { settled_of self.old ≤ position }
        requires ready { all_ready (ready_of self.old) (items_of self.old) (position ∷ []) ≡ true }
        ensures shown { shown self.new ≡ step_at (swap_item (is_live mark)) position (shown self.old) }
        ensures ready { ready_of self.new ≡ ready_of self.old }
        ensures keys { (p : ℕ) → keys_at (items_of self.new) p ≡ keys_at (items_of self.old) p }
        ensures counted { RisesBy (records_at (items_of self.old) (position ∷ [])) (swaps_of self.old) (swaps_of self.new) }
        ensures settled { settled_of self.new ≡ settled_of self.old }
    {
        let place = position - self.settled.len();
        self.entries.swap(&mut self.world, place, mark);
    }

    /// Makes room for all cells of which the entries at these positions, which are not settled, have records, and makes the states of
    /// their vats their own. Nothing that is shown changes. Fails only for want of memory.
    pub fn prepare(&mut self, alloc: Global, positions: &[usize]) -> Result<(), AllocError>
        requires behind { All (λ p. settled_of self.old ≤ p) positions.now }
        requires within { All (λ p. p < length (items_of self.old)) positions.now }
        ensures ok { OnOk result (all_ready (ready_of self.new) (items_of self.new) positions.now ≡ true) }
        ensures ready { (k : CellKey) → ready_of self.old k ≡ true → ready_of self.new k ≡ true }
        ensures shown { shown self.new ≡ shown self.old }
        ensures settled { settled_of self.new ≡ settled_of self.old }
        ensures counted { swaps_of self.new ≡ swaps_of self.old }
    {
        for position in positions {
            let place = *position - self.settled.len();
            make_rooms(alloc, &mut self.world, &self.entries.at(place).records)?;
        }
        Ok(())
    }

    /// The cells of which the entries at these positions, which are not settled, have records. Fails only for want of memory.
    pub fn written_at(&self, alloc: Global, positions: &[usize]) -> Result<Vec<CellKey>, AllocError>
        requires behind { All (λ p. settled_of self.now ≤ p) positions.now }
        requires within { All (λ p. p < length (items_of self.now)) positions.now }
        ensures { IfOk result (λ keys. keys.items ≡ written_at (items_of self.now) positions.now) }
    {
        let mut keys = Vec::new(alloc);
        for position in positions {
            let place = *position - self.settled.len();
            add_keys(&mut keys, &self.entries.at(place).records)?;
        }
        Ok(keys)
    }

    /// Undoes the entries at these ascending positions, which are not settled, by exchanging their records from the last to the first.
    /// It takes no memory, so it cannot fail.
    pub fn undo(&mut self, positions: &[usize])
        requires behind { All (λ p. settled_of self.old ≤ p) positions.now }
        requires ready { all_ready (ready_of self.old) (items_of self.old) positions.now ≡ true }
        ensures shown { shown self.new ≡ walk (swap_item false) (reverse positions.now) (shown self.old) }
        ensures ready { ready_of self.new ≡ ready_of self.old }
        ensures keys { (p : ℕ) → keys_at (items_of self.new) p ≡ keys_at (items_of self.old) p }
        ensures counted { RisesBy (records_at (items_of self.old) positions.now) (swaps_of self.old) (swaps_of self.new) }
        ensures settled { settled_of self.new ≡ settled_of self.old }
    {
        let mut i = positions.len();
        while i > 0 {
            i -= 1;
            self.swap_entry(positions[i], Mark::Undone);
        }
    }

    /// Redoes the entries at these ascending positions, which are not settled, by exchanging their records from the first to the last.
    /// It takes no memory, so it cannot fail.
    pub fn redo(&mut self, positions: &[usize])
        requires behind { All (λ p. settled_of self.old ≤ p) positions.now }
        requires ready { all_ready (ready_of self.old) (items_of self.old) positions.now ≡ true }
        ensures shown { shown self.new ≡ walk (swap_item true) positions.now (shown self.old) }
        ensures ready { ready_of self.new ≡ ready_of self.old }
        ensures keys { (p : ℕ) → keys_at (items_of self.new) p ≡ keys_at (items_of self.old) p }
        ensures counted { RisesBy (records_at (items_of self.old) positions.now) (swaps_of self.old) (swaps_of self.new) }
        ensures settled { settled_of self.new ≡ settled_of self.old }
    {
        for position in positions {
            self.swap_entry(*position, Mark::Live);
        }
    }

    /// Adds the entry of an event that touched these cells, and does what it writes: each record has what a cell is to have, and the
    /// event as its writer, and gets what was there before. Without memory nothing that is shown changes, and nothing is exchanged.
    pub fn enter(
        &mut self,
        alloc: Global,
        deed: Deed,
        touched: &[CellKey],
        records: Vec<CellRecord>,
    ) -> Result<(), AllocError>
        ensures ok { OnOk result (shown self.new ≡ entered (with_notes (event_of deed.event) (map note_of deed.notes.items)) deed.seat touched.now (kepts_of records.items) (shown self.old)) }
        ensures counted { OnOk result (RisesBy (length records.items) (swaps_of self.old) (swaps_of self.new)) }
        ensures err { OnErr result (shown self.new ≡ shown self.old) }
        ensures none { OnErr result (swaps_of self.new ≡ swaps_of self.old) }
        ensures settled { settled_of self.new ≡ settled_of self.old }
    {
        make_rooms(alloc, &mut self.world, &records)?;
        let touched = with_writers(alloc, &self.world, touched)?;
        let name = deed.event.name;
        self.places.make_room(name)?;
        list_follower(&mut self.followers, name, &touched)?;
        list_heir(&mut self.heirs, name, &touched, &records)?;
        let position = self.settled.len() + self.entries.len();
        self.entries.push(Entry {
            event: deed.event,
            notes: deed.notes,
            seat: deed.seat,
            mark: Mark::Live,
            touched,
            records,
        })?;
        self.places.put(name, position);
        self.swap_entry(position, Mark::Live);
        Ok(())
    }

    /// Lets the entry at a position, which is not settled, and the one behind it change places, if neither wrote a cell that the other
    /// touched, and says whether they did. It takes no memory.
    pub fn exchange(&mut self, position: usize) -> bool
        requires behind { settled_of self.old ≤ position }
        requires within { position + 1 < length (items_of self.old) }
        ensures done { result ≡ neighbours may_exchange position (items_of self.old) }
        ensures shown { shown self.new ≡ (if result then exchanged position (items_of self.old) else items_of self.old, state_of self.old) }
        ensures ready { ready_of self.new ≡ ready_of self.old }
        ensures settled { settled_of self.new ≡ settled_of self.old }
        ensures counted { swaps_of self.new ≡ swaps_of self.old }
    {
        let place = position - self.settled.len();
        if !may_exchange(self.entries.at(place), self.entries.at(place + 1)) {
            return false;
        }
        self.entries.exchange(place);
        self.places.put(self.entries.at(place).event.name, position);
        self.places
            .put(self.entries.at(place + 1).event.name, position + 1);
        true
    }

    /// Settles the first of the entries that are not settled, so many, which are live: they can no longer be taken back, and what is
    /// not needed for that is let go. Nothing that is shown changes. Without memory nothing changes at all.
    pub fn settle(&mut self, alloc: Global, count: usize) -> Result<(), AllocError>
        requires within { count ≤ length (open_of self.old) }
        requires live { AllByRecursion (λ i. i.live ≡ true) (take count (open_of self.old)) }
        ensures shown { shown self.new ≡ shown self.old }
        ensures ok { OnOk result (settled_of self.new ≡ settled_of self.old + count) }
        ensures err { OnErr result (settled_of self.new ≡ settled_of self.old) }
        ensures unlisted { OnOk result (AllByRecursion (λ i. IsLetGo (lists_of self.new) i.event.name) (take count (open_of self.old))) }
        ensures counted { swaps_of self.new ≡ swaps_of self.old }
    {
        let first = &self.entries.as_slice()[..count];
        let mut settled = Settled::of_all(alloc, first)?;
        self.settled.append(&mut settled)?;
        let_go(&mut self.followers, first);
        self.entries.let_go(alloc, count);
        Ok(())
    }
}
