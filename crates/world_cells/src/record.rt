// Records of cells.
ghost use Rattle.std.specs.Prelude.{◌≡◌, IfOk};
ghost use Rattle.ids.specs.CellKeys.{same_key};
ghost use Rattle.world_cells.specs.Records.{record_of};

use cells::store::Record;
use eorder::fence::Fence;
use heap::made::Made;
use heap::state::{Binding, View};
use ids::cells::CellKey;
use ids::names::{MsgId, ObjId, PromId, SlotId, VatNo};
use ids::reference::Reference;
use ids::text::Text;
use post::message::Message;
use post::published::Published;
use post::vat::Vat;
use std::alloc::AllocError;
use values::value::Value;

/// A record of one cell: what it is to have when it is exchanged with this.
pub enum CellRecord {
    Name(Record<Text, Vat>),
    Slot(Record<SlotId, Value>),
    Object(Record<ObjId, Made>),
    /// Of a name that the vat's script defined.
    Top(VatNo, Record<Text, Binding>),
    /// Of a promise that has come into the vat.
    View(VatNo, Record<PromId, View>),
    /// Of a reference that the vat has sent on or that came in.
    Fence(VatNo, Record<Reference, Fence>),
    Msg(Record<MsgId, Message>),
    Board(Record<PromId, Published>),
}

// By hand, so that what drops one elsewhere calls this and is not proved anew for all that it holds.
impl Drop for CellRecord {
    fn drop(self) {
        match self {
            CellRecord::Name(_)
            | CellRecord::Slot(_)
            | CellRecord::Object(_)
            | CellRecord::Top(_, _)
            | CellRecord::View(_, _)
            | CellRecord::Fence(_, _)
            | CellRecord::Msg(_)
            | CellRecord::Board(_) => {}
        }
    }
}

impl CellRecord {
    /// The cell that it is of. Fails only for want of memory.
    pub fn key(&self) -> Result<CellKey, AllocError>
        ensures { IfOk result (λ k. k ≡ (record_of self.now).0) }
    {
        Ok(match self {
            CellRecord::Name(kept) => CellKey::Name(kept.key.share()?),
            CellRecord::Slot(kept) => CellKey::Slot(kept.key),
            CellRecord::Object(kept) => CellKey::Object(kept.key),
            CellRecord::Top(vat, kept) => CellKey::Top(*vat, kept.key.share()?),
            CellRecord::View(vat, kept) => CellKey::View(*vat, kept.key),
            CellRecord::Fence(vat, kept) => CellKey::Fence(*vat, kept.key),
            CellRecord::Msg(kept) => CellKey::Msg(kept.key),
            CellRecord::Board(kept) => CellKey::Board(kept.key),
        })
    }

    /// Whether it is of this cell.
    pub fn is_of(&self, key: &CellKey) -> bool
        ensures { result ≡ same_key (record_of self.now).0 key.now }
    {
        match (self, key) {
            (CellRecord::Name(kept), CellKey::Name(name)) => kept.key == *name,
            (CellRecord::Slot(kept), CellKey::Slot(slot)) => kept.key == *slot,
            (CellRecord::Object(kept), CellKey::Object(object)) => kept.key == *object,
            (CellRecord::Top(vat, kept), CellKey::Top(home, name)) => {
                *vat == *home && kept.key == *name
            }
            (CellRecord::View(vat, kept), CellKey::View(home, promise)) => {
                *vat == *home && kept.key == *promise
            }
            (CellRecord::Fence(vat, kept), CellKey::Fence(home, reference)) => {
                *vat == *home && kept.key == *reference
            }
            (CellRecord::Msg(kept), CellKey::Msg(message)) => kept.key == *message,
            (CellRecord::Board(kept), CellKey::Board(promise)) => kept.key == *promise,
            _ => false,
        }
    }
}
