// Keys of cells.
ghost use Rattle.std.specs.Prelude.{◌≡◌, true, IfOk};
ghost use Rattle.ids.specs.KeyLaws.{exact_text, exact_vat, exact_slot, exact_object, exact_message, exact_promise, exact_reference};

use crate::names::{MsgId, ObjId, PromId, SlotId, VatNo};
use crate::reference::Reference;
use crate::text::Text;
use std::alloc::AllocError;
use std::hash::Hash;

/// A cell of the world.
#[derive(PartialEq, Eq, PartialOrd, Ord, Hash, Drop)]
pub enum CellKey {
    /// What is known of a vat by its name.
    Name(Text),
    /// What a variable holds.
    Slot(SlotId),
    /// What an object is.
    Object(ObjId),
    /// What a name that a vat's script defined stands for.
    Top(VatNo, Text),
    /// What a vat knows of a promise that has come into it.
    View(VatNo, PromId),
    /// The messages that a vat keeps behind a reference.
    Fence(VatNo, Reference),
    Msg(MsgId),
    /// What a promise was published as.
    Board(PromId),
}

impl CellKey {
    /// The same key. Fails only for want of memory.
    pub fn share(&self) -> Result<CellKey, AllocError>
        ensures { IfOk result (λ k. k ≡ self.now) }
    {
        Ok(match self {
            CellKey::Name(name) => CellKey::Name(name.share()?),
            CellKey::Slot(slot) => CellKey::Slot(*slot),
            CellKey::Object(object) => CellKey::Object(*object),
            CellKey::Top(vat, name) => CellKey::Top(*vat, name.share()?),
            CellKey::View(vat, promise) => CellKey::View(*vat, *promise),
            CellKey::Fence(vat, reference) => CellKey::Fence(*vat, *reference),
            CellKey::Msg(message) => CellKey::Msg(*message),
            CellKey::Board(promise) => CellKey::Board(*promise),
        })
    }
}

/// A key: what is equal to it is the key itself, and so is what is cloned from it.
pub trait Key: Eq + Hash + Clone {
    ghost exact: { (a b : Self) → Self.eq a b ≡ true → a ≡ b };

    ghost clone_is_same: { (a b : Self) → Self.is_clone a b → b ≡ a };
}

impl Key for Text {
    ghost exact = { exact_text };

    ghost clone_is_same = { λ a b h. h };
}

impl Key for VatNo {
    ghost exact = { exact_vat };

    ghost clone_is_same = { λ a b h. h };
}

impl Key for SlotId {
    ghost exact = { exact_slot };

    ghost clone_is_same = { λ a b h. h };
}

impl Key for ObjId {
    ghost exact = { exact_object };

    ghost clone_is_same = { λ a b h. h };
}

impl Key for MsgId {
    ghost exact = { exact_message };

    ghost clone_is_same = { λ a b h. h };
}

impl Key for PromId {
    ghost exact = { exact_promise };

    ghost clone_is_same = { λ a b h. h };
}

impl Key for Reference {
    ghost exact = { exact_reference };

    ghost clone_is_same = { λ a b h. h };
}
