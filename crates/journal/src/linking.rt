// Entries are listed with those whose cells they found, and with those whose cells they wrote over.
ghost use Rattle.std.specs.Prelude.{◌≡◌, true, OnOk};
ghost use Rattle.std.specs.List.{AllByRecursion};
ghost use Rattle.ids.specs.declared.names.EventName.{EventName};
ghost use Rattle.journal_links.specs.Followers.{may_follow, IsLetGo};
ghost use Rattle.journal_links.specs.Heirs.{is_heir};
ghost use Rattle.world_cells.specs.Theory.{kepts_of};
ghost use Rattle.journal.specs.Items.{lasts_of, number_of};
ghost use Rattle.journal.specs.Links.{anchor, event_in, lister, IsListed};
ghost use Rattle.journal.specs.Settled.{written_over};

use crate::entry::{Entry, Touched, writer_among};
use ids::cells::CellKey;
use ids::names::EventName;
use ids::reference::Reference;
use journal_links::followers::Followers;
use journal_links::heirs::Heirs;
use std::alloc::AllocError;
use world_cells::record::CellRecord;

/// For how many records the cells that an event touched are searched one after another.
const FEW_RECORDS: usize = 16;

/// The event that made what a message can be sent on.
fn event_in(reference: Reference) -> EventName
    ensures { result ≡ event_in reference }
{
    match reference {
        Reference::Promise(promise) => promise.event,
        Reference::Object(object) => object.event,
        Reference::Ejector(ejector) => ejector.event,
    }
}

/// The event in the key of a cell. The name of a vat has none, and gets what is no event's name.
fn anchor(key: &CellKey) -> EventName
    ensures { result ≡ anchor key.now }
{
    match key {
        CellKey::Name(_) => EventName(0),
        CellKey::Slot(slot) => slot.event,
        CellKey::Object(object) => object.event,
        CellKey::Top(vat, _) => vat.0,
        CellKey::View(_, promise) => promise.event,
        CellKey::Fence(_, reference) => event_in(*reference),
        CellKey::Msg(message) => message.event,
        CellKey::Board(promise) => promise.event,
    }
}

/// The event whose lists have those that found a cell with this last writer: the writer, or the one in the cell's key.
pub fn lister(key: &CellKey, writer: Option<EventName>) -> EventName
    ensures { result ≡ lister key.now (number_of writer) }
{
    match writer {
        Some(writer) => writer,
        // Nobody had written the cell.
        None => anchor(key),
    }
}

/// Lists an event for each cell that it touched. Fails only for want of memory; it may be listed for some then.
pub fn list_follower(
    followers: &mut Followers,
    event: EventName,
    touched: &[Touched],
) -> Result<(), AllocError>
    ensures ok { OnOk result (IsListed (may_follow followers.new) event (lasts_of touched.now)) }
    ensures kept { (e f : EventName) → may_follow followers.old e f ≡ true → may_follow followers.new e f ≡ true }
{
    for cell in touched {
        followers.add(lister(&cell.key, cell.writer), event)?;
    }
    Ok(())
}

/// As `list_heir`, by a search among the touched cells for each record.
fn list_exactly(
    heirs: &mut Heirs,
    event: EventName,
    touched: &[Touched],
    records: &[CellRecord],
) -> Result<(), AllocError>
    ensures ok { OnOk result (IsListed (is_heir heirs.new) event (written_over (lasts_of touched.now) (kepts_of records.now))) }
    ensures kept { (e f : EventName) → is_heir heirs.old e f ≡ true → is_heir heirs.new e f ≡ true }
{
    for record in records {
        let key = record.key()?;
        let writer = writer_among(touched, &key);
        heirs.add(lister(&key, writer), event)?;
    }
    Ok(())
}

/// Lists an event for each cell that it touched, as if it had written them all.
fn list_all(heirs: &mut Heirs, event: EventName, touched: &[Touched]) -> Result<(), AllocError>
    ensures ok { OnOk result (IsListed (is_heir heirs.new) event (lasts_of touched.now)) }
    ensures kept { (e f : EventName) → is_heir heirs.old e f ≡ true → is_heir heirs.new e f ≡ true }
{
    for found in touched {
        heirs.add(lister(&found.key, found.writer), event)?;
    }
    Ok(())
}

/// As `list_heir`, in one pass over the touched cells: it lists more than must be.
fn list_widely(
    heirs: &mut Heirs,
    event: EventName,
    touched: &[Touched],
    records: &[CellRecord],
) -> Result<(), AllocError>
    ensures ok { OnOk result (IsListed (is_heir heirs.new) event (written_over (lasts_of touched.now) (kepts_of records.now))) }
    ensures kept { (e f : EventName) → is_heir heirs.old e f ≡ true → is_heir heirs.new e f ≡ true }
{
    list_all(heirs, event, touched)?;
    // A cell that was written and not touched would have no last writer among the touched ones.
    list_exactly(heirs, event, &[], records)
}

/// Lists an event for each of these records of what it wrote. Fails only for want of memory; it may be listed for some then.
pub fn list_heir(
    heirs: &mut Heirs,
    event: EventName,
    touched: &[Touched],
    records: &[CellRecord],
) -> Result<(), AllocError>
    ensures ok { OnOk result (IsListed (is_heir heirs.new) event (written_over (lasts_of touched.now) (kepts_of records.now))) }
    ensures kept { (e f : EventName) → is_heir heirs.old e f ≡ true → is_heir heirs.new e f ≡ true }
{
    if records.len() > FEW_RECORDS {
        return list_widely(heirs, event, touched, records);
    }
    list_exactly(heirs, event, touched, records)
}

/// Lets go who followed these entries. It takes no memory.
pub fn let_go(followers: &mut Followers, entries: &[Entry])
    ensures gone { AllByRecursion (λ x. IsLetGo followers.new x.event.name) entries.now }
    ensures kept { (e f : EventName) → may_follow followers.old e f ≡ true → may_follow followers.new e f ≡ true }
{
    for entry in entries {
        followers.let_go(entry.event.name);
    }
}
