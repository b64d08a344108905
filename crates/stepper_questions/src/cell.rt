// Cells as questions tell them.
ghost use Rattle.std.specs.Prelude.{◌≡◌, IfOk};

use ids::cells::CellKey;
use ids::names::{MsgId, ObjId, PromId, SlotId, VatNo};
use ids::reference::Reference;
use ids::text::Text;
use std::alloc::AllocError;

/// A cell, in the order in which questions tell cells: by kind, then by name.
#[derive(PartialEq, Eq, PartialOrd, Ord, Drop)]
pub enum ToldCell {
    /// What is known of a vat by its name.
    Vat(Text),
    /// What a name that a vat's script defined stands for.
    Noun(VatNo, Text),
    /// What a variable holds.
    Slot(SlotId),
    /// What an object is.
    Object(ObjId),
    /// What a vat knows of a promise.
    View(VatNo, PromId),
    /// The messages that a vat keeps behind a reference.
    Fence(VatNo, Reference),
    Message(MsgId),
    /// What a promise was published as.
    Board(PromId),
}

impl ToldCell {
    ghost use Rattle.stepper_questions.specs.Cells.{key_of};

    /// The cell of a key. Fails only for want of memory.
    pub fn of(key: &CellKey) -> Result<ToldCell, AllocError>
        ensures { IfOk result (λ c. key_of c ≡ key.now) }
    {
        Ok(match key {
            CellKey::Name(name) => ToldCell::Vat(name.share()?),
            CellKey::Top(vat, name) => ToldCell::Noun(*vat, name.share()?),
            CellKey::Slot(slot) => ToldCell::Slot(*slot),
            CellKey::Object(object) => ToldCell::Object(*object),
            CellKey::View(vat, promise) => ToldCell::View(*vat, *promise),
            CellKey::Fence(vat, reference) => ToldCell::Fence(*vat, *reference),
            CellKey::Msg(message) => ToldCell::Message(*message),
            CellKey::Board(promise) => ToldCell::Board(*promise),
        })
    }

    /// The same cell, whose name is shared. Fails only for want of memory.
    pub(crate) fn share(&self) -> Result<ToldCell, AllocError>
        ensures { IfOk result (λ c. c ≡ self.now) }
    {
        Ok(match self {
            ToldCell::Vat(name) => ToldCell::Vat(name.share()?),
            ToldCell::Noun(vat, name) => ToldCell::Noun(*vat, name.share()?),
            ToldCell::Slot(slot) => ToldCell::Slot(*slot),
            ToldCell::Object(object) => ToldCell::Object(*object),
            ToldCell::View(vat, promise) => ToldCell::View(*vat, *promise),
            ToldCell::Fence(vat, reference) => ToldCell::Fence(*vat, *reference),
            ToldCell::Message(message) => ToldCell::Message(*message),
            ToldCell::Board(promise) => ToldCell::Board(*promise),
        })
    }
}
