// What a listing of a journal takes memory for.
ghost use Rattle.std.specs.Prelude.{◌≡◌, ◌+◌, ◌<◌, length, map, slice_get, Some, IfOk, OnOk};
ghost use Rattle.ids.specs.declared.names.VatNo.{VatNo};
ghost use Rattle.world_cells.specs.EventView.{event_of};
ghost use Rattle.world_cells.specs.Events.{event_in};
ghost use Rattle.journal.specs.Items.{Item, item_of};
ghost use Rattle.journal.specs.Journals.{items_of, settled_item};
ghost use Rattle.journal.specs.Lines.{line_of, lines_of};
ghost use Rattle.causality.specs.Journals.{IsJournal};
ghost use Rattle.stepper_printing.specs.Listing.{born, born_as, entry_line, journal_text};
ghost use Rattle.stepper_printing.specs.ListingView.{row_line, listed_text, listing_text};
ghost use Rattle.stepper_printing.specs.Show.{name_of};

use crate::rows::{ListedEntry, Listing, Row};
use causality::causes::causes;
use ids::names::VatNo;
use ids::text::Text;
use journal::journal::Journal;
use journal::settled::Settled;
use std::alloc::{AllocError, Global};
use std::collections::BTreeMap;
use world_cells::event::{Action, Event};

/// Notes the name of the vat that is born in an event, if one is.
fn note_birth(vats: &mut BTreeMap<VatNo, Text>, event: &Event) -> Result<(), AllocError>
    ensures { OnOk result ((v : VatNo) → name_of vats.new.entries v ≡ born_as v (event_of event.now) (name_of vats.old.entries v)) }
{
    match &event.action {
        Action::Birth(name, _, _) => {
            vats.insert(VatNo(event.name), name.share()?)?;
            Ok(())
        }
        _ => Ok(()),
    }
}

/// Notes the name of the vat that was born in a settled event, if one was.
fn note_settled_birth(vats: &mut BTreeMap<VatNo, Text>, settled: &Settled) -> Result<(), AllocError>
    ensures { OnOk result ((v : VatNo) → name_of vats.new.entries v ≡ born_as v (event_in (settled_item settled.now).event) (name_of vats.old.entries v)) }
{
    match &settled.newborn {
        Some(name) => {
            vats.insert(VatNo(settled.name), name.share()?)?;
            Ok(())
        }
        None => Ok(()),
    }
}

/// The names of the vats that were born, also of births that are undone.
fn vats_born(alloc: Global, journal: Journal) -> Result<BTreeMap<VatNo, Text>, AllocError>
    ensures { IfOk result (λ vats. (v : VatNo) → name_of vats.entries v ≡ born (lines_of (items_of journal.entry)) v) }
{
    let mut vats = BTreeMap::new(alloc);
    for settled in journal.settled {
        note_settled_birth(&mut vats, settled)?;
    }
    for entry in journal.entries {
        note_birth(&mut vats, &entry.event)?;
    }
    Ok(vats)
}

/// The entries that are not settled, with their causes.
fn rows_of<'j>(alloc: Global, journal: Journal<'j>) -> Result<Vec<Row<'j>>, AllocError>
    requires { IsJournal (items_of journal) }
    ensures { IfOk result (λ rows. map row_line rows.items ≡ map (line_of (items_of journal.entry)) (map item_of journal.entry.entries.now)) }
{
    let mut rows = Vec::with_capacity(alloc, journal.entries.len())?;
    for (place, entry) in journal.entries.iter().enumerate() {
        let causes = causes(alloc, journal, place)?;
        rows.push(Row { entry, causes })?;
    }
    Ok(rows)
}

/// A journal, ready to be listed.
///
/// # Errors
/// Memory ran out for the causes of an entry, or for a name.
pub fn listing_of<'j>(alloc: Global, journal: Journal<'j>) -> Result<Listing<'j>, AllocError>
    requires { IsJournal (items_of journal) }
    ensures { IfOk result (λ listing. listing_text listing ≡ journal_text (length journal.entry.settled.now) (lines_of (items_of journal.entry))) }
{
    let vats = vats_born(alloc, journal)?;
    let rows = rows_of(alloc, journal)?;
    Ok(Listing {
        settled: journal.settled.len(),
        vats,
        rows,
    })
}

/// The entry at a place behind the settled ones, ready to be listed.
///
/// # Errors
/// Memory ran out for its causes, or for a name.
pub fn listed_entry<'j>(
    alloc: Global,
    journal: Journal<'j>,
    place: usize,
) -> Result<ListedEntry<'j>, AllocError>
    requires journal { IsJournal (items_of journal) }
    requires there { place < length journal.entries.now }
    ensures { IfOk result (λ listed. (i : Item) → slice_get (map item_of journal.entry.entries.now) place ≡ Some i → listed_text listed ≡ entry_line (born (lines_of (items_of journal.entry))) (length journal.entry.settled.now + place + 1) (line_of (items_of journal.entry) i)) }
{
    let vats = vats_born(alloc, journal)?;
    let causes = causes(alloc, journal, place)?;
    let position = journal.settled.len() + place + 1;
    let entry = &journal.entries[place];
    Ok(ListedEntry {
        position,
        vats,
        row: Row { entry, causes },
    })
}
