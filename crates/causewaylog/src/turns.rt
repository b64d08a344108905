// Which entries are live turns of a vat.
ghost use Rattle.std.specs.Prelude.{◌≡◌, ◌≤◌, map, length, is_some};
ghost use Rattle.world_cells.specs.EventView.{act_of};
ghost use Rattle.journal.specs.Items.{item_of};
ghost use Rattle.journal.specs.Journals.{items_of, settled_item};
ghost use Rattle.causewaylog.specs.Turns.{born_as as born, got_by as got, vat_called, turns_of};
ghost use Rattle.causewaylog.specs.Live.{born_in, got_from, live_of};

use ids::names::{MsgId, VatNo};
use journal::entry::{Entry, Mark};
use journal::journal::Journal;
use journal::settled::Settled;
use world_cells::event::{Action, Event};

/// The vat that an event gives birth to, if that has this name.
fn born_as(event: &Event, name: &str) -> Option<VatNo>
    ensures { result ≡ born name.now event.now.name (act_of event.now.action) }
{
    match &event.action {
        Action::Birth(own, _, _) if own.as_str() == name => Some(VatNo(event.name)),
        _ => None,
    }
}

/// The vat that a live event gives birth to, if that has this name.
fn born_live(entry: &Entry, name: &str) -> Option<VatNo>
    ensures { result ≡ born_in name.now (item_of entry.now) }
{
    match entry.mark {
        Mark::Live => born_as(&entry.event, name),
        Mark::Undone => None,
    }
}

/// The vat that a settled event gave birth to, if that has this name.
fn born_settled(settled: &Settled, name: &str) -> Option<VatNo>
    ensures { result ≡ born_in name.now (settled_item settled.now) }
{
    match &settled.newborn {
        Some(own) if own.as_str() == name => Some(VatNo(settled.name)),
        _ => None,
    }
}

/// The vat of this name, if one was born in a settled event.
fn settled_vat(settled: &[Settled], name: &str) -> Option<VatNo>
    ensures { result ≡ vat_called name.now (live_of (map settled_item settled.now)) }
{
    for event in settled {
        if let Some(vat) = born_settled(event, name) {
            return Some(vat);
        }
    }
    None
}

/// The vat of this name, if one was born in one of these entries and is there.
fn open_vat(entries: &[Entry], name: &str) -> Option<VatNo>
    ensures { result ≡ vat_called name.now (live_of (map item_of entries.now)) }
{
    for entry in entries {
        if let Some(vat) = born_live(entry, name) {
            return Some(vat);
        }
    }
    None
}

/// The vat of this name, if one was born and is there.
pub(crate) fn vat_called(journal: Journal, name: &str) -> Option<VatNo>
    ensures { result ≡ vat_called name.now (live_of (items_of journal.entry)) }
{
    match settled_vat(journal.settled, name) {
        Some(vat) => Some(vat),
        None => open_vat(journal.entries, name),
    }
}

/// Whether a settled event was a turn of a vat.
fn was_turn_of(settled: &Settled, vat: VatNo) -> bool
    ensures { result ≡ is_some (got_from vat (settled_item settled.now)) }
{
    match settled.turn_of {
        Some(home) => home == vat,
        None => false,
    }
}

/// How many settled events were turns of a vat.
pub(crate) fn settled_turns(settled: &[Settled], vat: VatNo) -> usize
    ensures turns { result ≡ length (turns_of vat (live_of (map settled_item settled.now))) }
    ensures few { result ≤ length settled.now }
{
    let mut turns = 0;
    for event in settled {
        if was_turn_of(event, vat) {
            turns += 1;
        }
    }
    turns
}

/// The message that a vat gets in an event, if that is a turn of it.
fn got_in(event: &Event, vat: VatNo) -> Option<MsgId>
    ensures { result ≡ got vat (act_of event.now.action) }
{
    match &event.action {
        Action::Turn {
            vat: home,
            message,
            ..
        } if *home == vat => Some(*message),
        _ => None,
    }
}

/// The message that a vat got, if the entry is a live turn of it.
pub(crate) fn got_by(entry: &Entry, vat: VatNo) -> Option<MsgId>
    ensures { result ≡ got_from vat (item_of entry.now) }
{
    match entry.mark {
        Mark::Live => got_in(&entry.event, vat),
        Mark::Undone => None,
    }
}
