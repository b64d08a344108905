// The cells of the world.
ghost use Rattle.std.specs.Prelude.{◌≡◌, ◌+◌, ◌%◌, ◌^◌, true, None, is_some, IfOk, IfSome, IfNone, OnOk, Contains};
ghost use Rattle.std.specs.Arc.{arc_value};
ghost use Rattle.std.specs.Option.{option_map};
ghost use Rattle.ids.specs.declared.names.VatNo.{VatNo};
ghost use Rattle.ids.specs.declared.names.MsgId.{MsgId};
ghost use Rattle.ids.specs.declared.names.PromId.{PromId};
ghost use Rattle.ids.specs.declared.cells.CellKey.{CellKey};
ghost use Rattle.ids.specs.declared.cells.CellKey.TheVariants as key;
ghost use Rattle.kernele.specs.Tree.{Name};
ghost use Rattle.heap.specs.State.{Cell, nothing};
ghost use Rattle.heap.specs.View.{state_of};
ghost use Rattle.post.specs.MessageView.{vat_of, message_of, published_of};
ghost use Rattle.world_cells.specs.World.{vat, message, published, vat_state};
ghost use Rattle.world_cells.specs.Listed.{names_in, messages_in, board_in};
ghost use Rattle.world_cells.specs.Records.{record_of};

use crate::homes::Homes;
use crate::record::CellRecord;
use cells::store::CellStore;
use cells::swaps::Swaps;
use heap::state::VatState;
use ids::cells::CellKey;
use ids::names::{EventName, MsgId, PromId, VatNo};
use ids::text::Text;
use post::message::Message;
use post::published::Published;
use post::vat::Vat;
use std::alloc::{AllocError, Global};
use std::collections::BTreeMap;
use std::sync::Arc;

/// All cells, by what they hold.
pub struct World {
    names: CellStore<Text, Vat>,
    homes: Homes,
    messages: CellStore<MsgId, Message>,
    board: CellStore<PromId, Published>,
    /// How many exchanges were made.
    swaps: Swaps,
}

// By hand, so that what drops one elsewhere calls this and is not proved anew for all that it holds.
impl Drop for World {
    fn drop(self) {
        let World {
            names: _,
            homes: _,
            messages: _,
            board: _,
            swaps: _,
        } = self;
    }
}

impl World {
    ghost use Rattle.world_cells.specs.Exchanged.{hold};
    ghost use Rattle.world_cells.specs.View.{world_of, seen_of_world, is_ready, swaps_of};

    /// The world in which nothing has happened.
    pub fn new(alloc: Global) -> World
        ensures nothing { (k : CellKey) → seen_of_world result k ≡ (None, None) }
        ensures counted { swaps_of result ≡ 0 }
    {
        World {
            names: CellStore::new(alloc),
            homes: Homes::new(alloc),
            messages: CellStore::new(alloc),
            board: CellStore::new(alloc),
            swaps: Swaps::none(),
        }
    }

    /// What is known of the vat of this name.
    pub fn vat(&self, name: &Text) -> Option<&Vat>
        ensures { option_map (λ v. vat (vat_of v.now)) result ≡ world_of self.now (key.Name name.now) }
    {
        self.names.get(name)
    }

    /// The message of this name, if one was made.
    pub fn message(&self, name: MsgId) -> Option<&Message>
        ensures { option_map (λ g. message (message_of g.now)) result ≡ world_of self.now (key.Msg name) }
    {
        self.messages.get(&name)
    }

    /// What a promise was published as.
    pub fn published(&self, promise: PromId) -> Option<&Published>
        ensures { option_map (λ p. published (published_of p.now)) result ≡ world_of self.now (key.Board promise) }
    {
        self.board.get(&promise)
    }

    /// The state of a vat. Where there is none, the vat's cells hold nothing.
    pub fn home(&self, vat: VatNo) -> Option<&VatState>
        ensures there { IfSome result (λ s. state_of s.now ≡ vat_state (world_of self.now) vat) }
        ensures absent { IfNone result (vat_state (world_of self.now) vat ≡ nothing) }
    {
        self.homes.state(vat)
    }

    /// The vats that have a state: no other vat's cells hold anything. Fails only for want of memory.
    pub fn vats(&self, alloc: Global) -> Result<Vec<VatNo>, AllocError>
        ensures { IfOk result (λ vats. (v : VatNo) (c : Cell) → is_some (vat_state (world_of self.now) v c) ≡ true → Contains vats.items v) }
    {
        self.homes.vats(alloc)
    }

    /// The event that wrote a cell last.
    pub fn last_writer(&self, key: &CellKey) -> Option<EventName>
        ensures { result ≡ (seen_of_world self.now key.now).1 }
    {
        match key {
            CellKey::Name(name) => self.names.last_writer(name),
            CellKey::Slot(slot) => self.homes.slot_writer(*slot),
            CellKey::Object(object) => self.homes.object_writer(*object),
            CellKey::Top(vat, name) => self.homes.top_writer(*vat, name),
            CellKey::View(vat, promise) => self.homes.view_writer(*vat, *promise),
            CellKey::Fence(vat, reference) => self.homes.fence_writer(*vat, *reference),
            CellKey::Msg(message) => self.messages.last_writer(message),
            CellKey::Board(promise) => self.board.last_writer(promise),
        }
    }

    /// Makes room for a cell, and if it is a vat's, makes the vat's state its own. What is seen stays. Fails only for want of
    /// memory.
    pub fn make_room(&mut self, alloc: Global, key: CellKey) -> Result<(), AllocError>
        ensures ok { OnOk result (is_ready self.new key ≡ true) }
        ensures ready { (k : CellKey) → is_ready self.old k ≡ true → is_ready self.new k ≡ true }
        ensures seen { seen_of_world self.new ≡ seen_of_world self.old }
        ensures counted { swaps_of self.new ≡ swaps_of self.old }
    {
        match key {
            CellKey::Name(name) => self.names.make_room(name),
            CellKey::Slot(slot) => self.homes.make_room_for_slot(alloc, slot),
            CellKey::Object(object) => self.homes.make_room_for_object(alloc, object),
            CellKey::Top(vat, name) => self.homes.make_room_for_top(alloc, vat, name),
            CellKey::View(vat, promise) => self.homes.make_room_for_view(alloc, vat, promise),
            CellKey::Fence(vat, reference) => self.homes.make_room_for_fence(alloc, vat, reference),
            CellKey::Msg(message) => self.messages.make_room(message),
            CellKey::Board(promise) => self.board.make_room(promise),
        }
    }

    /// The state of a vat, shared with a ticket: none of its cells is ready from then on. What is seen stays. Fails only for want of
    /// memory.
    pub fn share_vat(&mut self, alloc: Global, vat: VatNo) -> Result<Arc<VatState>, AllocError>
        ensures shared { IfOk result (λ s. state_of (arc_value s) ≡ vat_state (world_of self.old) vat) }
        ensures seen { seen_of_world self.new ≡ seen_of_world self.old }
        ensures counted { swaps_of self.new ≡ swaps_of self.old }
    {
        self.homes.share(alloc, vat)
    }

    /// Exchanges what the record has with what its cell has. It takes no memory, and counts one exchange.
    pub fn swap_record(&mut self, kept: &mut CellRecord)
        requires { is_ready self.old (record_of kept.old).0 ≡ true }
        ensures seen { seen_of_world self.new ≡ hold (seen_of_world self.old) (record_of kept.old).0 (record_of kept.old).1 }
        ensures exchanged { record_of kept.new ≡ ((record_of kept.old).0, seen_of_world self.old (record_of kept.old).0) }
        ensures ready { is_ready self.new ≡ is_ready self.old }
        ensures counted { swaps_of self.new ≡ (swaps_of self.old + 1) % 2 ^ 64 }
    {
        match kept {
            CellRecord::Name(kept) => self.names.swap_record(kept, &mut self.swaps),
            CellRecord::Slot(kept) => self.homes.swap_slot(kept, &mut self.swaps),
            CellRecord::Object(kept) => self.homes.swap_object(kept, &mut self.swaps),
            CellRecord::Top(vat, kept) => self.homes.swap_top(*vat, kept, &mut self.swaps),
            CellRecord::View(vat, kept) => self.homes.swap_view(*vat, kept, &mut self.swaps),
            CellRecord::Fence(vat, kept) => self.homes.swap_fence(*vat, kept, &mut self.swaps),
            CellRecord::Msg(kept) => self.messages.swap_record(kept, &mut self.swaps),
            CellRecord::Board(kept) => self.board.swap_record(kept, &mut self.swaps),
        }
    }

    /// The vats by their names, shared, in order of bytes. Fails only for want of memory.
    pub fn names(&self, alloc: Global) -> Result<BTreeMap<Text, Vat>, AllocError>
        ensures { IfOk result (λ all. (x : Name) → names_in all x ≡ world_of self.now (key.Name x)) }
    {
        self.names.in_order(alloc)
    }

    /// The messages, shared, in order of their names. Fails only for want of memory.
    pub fn messages(&self, alloc: Global) -> Result<BTreeMap<MsgId, Message>, AllocError>
        ensures { IfOk result (λ all. (m : MsgId) → messages_in all m ≡ world_of self.now (key.Msg m)) }
    {
        self.messages.in_order(alloc)
    }

    /// What was published, shared, in order of the promises. Fails only for want of memory.
    pub fn board(&self, alloc: Global) -> Result<BTreeMap<PromId, Published>, AllocError>
        ensures { IfOk result (λ all. (p : PromId) → board_in all p ≡ world_of self.now (key.Board p)) }
    {
        self.board.in_order(alloc)
    }
}
