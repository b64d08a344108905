// The journal and a cone as texts.
ghost use Rattle.std.specs.Prelude.{◌≡◌, ◌+◌, ◌<◌, ◌^◌, ◌++◌, codes, length, option_copied};
ghost use Rattle.ids.specs.Names.{message_text, promise_text};
ghost use Rattle.world_cells.specs.EventView.{act_of};
ghost use Rattle.journal.specs.Items.{is_live};
ghost use Rattle.stepper_printing.specs.Listing.{act_text, learn_text, mark_text, names_text, base_text, cone_text};
ghost use Rattle.stepper_printing.specs.ListingView.{row_text, rows_text, listed_text, listing_text};
ghost use Rattle.stepper_printing.specs.Show.{name_of};
ghost use Rattle.stepper_streams.specs.Outlet.{Tells};

use crate::names::{put_event, put_message, put_promise};
use crate::rows::{ListedEntry, Listing, Row};
use ids::names::{EventName, MsgId, PromId, VatNo};
use ids::text::Text;
use journal::entry::Mark;
use std::collections::BTreeMap;
use std::io::Write;
use stepper_streams::outlet::Outlet;
use world_cells::event::Action;

/// Puts the names of events, a space before each.
fn put_names<W: Write>(names: &[EventName], out: &mut Outlet<W>)
    ensures { Tells W.contents out.old out.new (names_text names.now) }
{
    for name in names {
        out.put(" ");
        put_event(*name, out);
    }
}

fn put_learn_of<W: Write>(name: &str, promise: PromId, out: &mut Outlet<W>)
    ensures { Tells W.contents out.old out.new (codes "learn " ++ (name.now ++ (codes " " ++ promise_text promise))) }
{
    out.put("learn ");
    out.put(name);
    out.put(" ");
    put_promise(promise, out);
}

/// Puts that a vat, by its name, learns of a promise.
pub(crate) fn put_learn<W: Write>(name: Option<&Text>, promise: PromId, out: &mut Outlet<W>)
    ensures { Tells W.contents out.old out.new (learn_text (option_copied name.entry) promise) }
{
    match name {
        Some(name) => put_learn_of(name.as_str(), promise, out),
        None => out.put(""),
    }
}

/// Puts words, and then a text.
fn put_words<W: Write>(words: &str, text: &str, out: &mut Outlet<W>)
    ensures { Tells W.contents out.old out.new (words.now ++ text.now) }
{
    out.put(words);
    out.put(text);
}

/// Puts words, and then a message.
pub(crate) fn put_words_of<W: Write>(words: &str, message: MsgId, out: &mut Outlet<W>)
    ensures { Tells W.contents out.old out.new (words.now ++ message_text message) }
{
    out.put(words);
    put_message(message, out);
}

fn put_action<W: Write>(action: &Action, vats: &BTreeMap<VatNo, Text>, out: &mut Outlet<W>)
    ensures { Tells W.contents out.old out.new (act_text (name_of vats.now.entries) (act_of action.now)) }
{
    match action {
        Action::Birth(name, _, _) => put_words("birth ", name.as_str(), out),
        Action::Ask(name, _) => put_words("ask ", name.as_str(), out),
        Action::Arrive(message) => put_words_of("arrive ", *message, out),
        Action::Forward(message) => put_words_of("forward ", *message, out),
        Action::Learn(vat, promise) => put_learn(vats.get(vat), *promise, out),
        Action::Turn { message, .. } => put_words_of("turn ", *message, out),
    }
}

fn mark_word(mark: Mark) -> &'static str
    ensures { result.now ≡ mark_text (is_live mark) }
{
    match mark {
        Mark::Live => "live",
        Mark::Undone => "undone",
    }
}

/// Puts the line of an entry at a position.
fn put_row<W: Write>(
    position: usize,
    row: &Row<'_>,
    vats: &BTreeMap<VatNo, Text>,
    out: &mut Outlet<W>,
)
    ensures { Tells W.contents out.old out.new (row_text (name_of vats.now.entries) position row.now) }
{
    let entry = row.entry;
    out.put_number(position);
    out.put(" ");
    put_event(entry.event.name, out);
    out.put(" ");
    out.put(mark_word(entry.mark));
    out.put(" ");
    put_action(&entry.event.action, vats, out);
    out.put(" causes");
    put_names(&row.causes, out);
    out.put("\n");
}

/// Puts the line of an entry, with its position from 1.
pub fn put_entry<W: Write>(listed: &ListedEntry<'_>, out: &mut Outlet<W>)
    ensures { Tells W.contents out.old out.new (listed_text listed.now) }
{
    put_row(listed.position, &listed.row, &listed.vats, out);
}

/// Puts how many entries are settled, if some are.
fn put_base<W: Write>(count: usize, out: &mut Outlet<W>)
    ensures { Tells W.contents out.old out.new (base_text count) }
{
    if count == 0 {
        out.put("");
        return;
    }
    out.put("base ");
    out.put_number(count);
    out.put("\n");
}

/// Puts the lines of entries, the first of which stands at this position.
fn put_rows<W: Write>(
    first: usize,
    rows: &[Row<'_>],
    vats: &BTreeMap<VatNo, Text>,
    out: &mut Outlet<W>,
)
    requires { first + length rows.now < 2 ^ 64 }
    ensures { Tells W.contents out.old out.new (rows_text (name_of vats.now.entries) first rows.now) }
{
    for (place, row) in rows.iter().enumerate() {
        put_row(first + place, row, vats, out);
    }
}

/// Puts a journal: how many entries are settled, if some are, and a line for each of the others, with its position from 1.
pub fn put_journal<W: Write>(listing: &Listing<'_>, out: &mut Outlet<W>)
    ensures { Tells W.contents out.old out.new (listing_text listing.now) }
{
    put_base(listing.settled, out);
    put_rows(listing.settled + 1, &listing.rows, &listing.vats, out);
}

/// Puts the events of a cone.
pub fn put_cone<W: Write>(events: &[EventName], out: &mut Outlet<W>)
    ensures { Tells W.contents out.old out.new (cone_text events.now) }
{
    out.put("cone");
    put_names(events, out);
    out.put("\n");
}
