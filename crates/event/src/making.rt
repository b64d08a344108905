// What a turn made: its cells in the world, and records of them.
ghost use Rattle.std.specs.Prelude.{◌≡◌, ◌++◌, ◌∷◌, [], Some, IfOk, OnOk, map};
ghost use Rattle.history.specs.Records.{record_of};
ghost use Rattle.ids.specs.declared.cells.CellKey.TheVariants as key;
ghost use Rattle.post.specs.MessageView.{message_of, published_of};
ghost use Rattle.eval_rules.specs.OutboxView.{letter_of};
ghost use Rattle.eval_rules.specs.PublicationsView.{publications_of, EachOnce};
ghost use Rattle.world_cells.specs.Theory.{kepts_of, kept_of, cells};
ghost use Rattle.world_cells.specs.View.{world_of};
ghost use Rattle.world_cells.specs.World as model;
ghost use Rattle.event.specs.Events.{counted, letters_from, on_the_board};

use cells::store::Record;
use eval_rules::outbox::Letter;
use eval_rules::publications::Publications;
use ids::cells::CellKey;
use ids::names::{EventName, MsgId, PromId};
use post::message::Message;
use post::published::Published;
use std::alloc::AllocError;
use world_cells::record::CellRecord;
use world_cells::world::World;

/// A record of a message's cell, in which an event wrote this.
pub(crate) fn message_record(event: EventName, name: MsgId, message: Message) -> CellRecord
    ensures { kept_of result ≡ (key.Msg name, (Some (model.message (message_of message)), Some event.0)) }
{
    CellRecord::Msg(Record {
        key: name,
        content: Some(message),
        writer: Some(event),
    })
}

/// A record of what a promise is published as.
fn publication_record(
    event: EventName,
    promise: PromId,
    published: &Published,
) -> Result<CellRecord, AllocError>
    ensures { IfOk result (λ r. kept_of r ≡ (key.Board promise, (Some (model.published (published_of published.now)), Some event.0))) }
{
    Ok(CellRecord::Board(Record {
        key: promise,
        content: Some(published.share()?),
        writer: Some(event),
    }))
}

/// The name of the message that an event makes at this place. No list of messages is so long that it has none.
fn name_at(event: EventName, place: usize) -> Result<MsgId, AllocError>
    ensures { IfOk result (λ m. m ≡ record { event = event; index = place }) }
{
    match u32::try_from(place) {
        Ok(index) => Ok(MsgId { event, index }),
        Err(_) => Err(AllocError),
    }
}

/// Touches messages that an event made.
pub(crate) fn touch_letters(
    touched: &mut Vec<CellKey>,
    event: EventName,
    letters: &[Letter],
) -> Result<(), AllocError>
    ensures { OnOk result (touched.new.items ≡ touched.old.items ++ map (λ p. p.0) (letters_from event 0 (map letter_of letters.now))) }
{
    for place in 0..letters.len() {
        touched.push(CellKey::Msg(name_at(event, place)?))?;
    }
    Ok(())
}

/// Touches what promises were published as.
pub(crate) fn touch_publications(
    touched: &mut Vec<CellKey>,
    publications: &Publications,
) -> Result<(), AllocError>
    ensures keys { OnOk result (touched.new.items ≡ touched.old.items ++ map (λ b. key.Board b.0) (publications_of publications.now)) }
    ensures once { OnOk result (EachOnce (publications_of publications.now)) }
{
    for place in 0..publications.len() {
        let (promise, _) = publications.at(place);
        touched.push(CellKey::Board(promise))?;
    }
    Ok(())
}

/// Adds records of messages that an event made.
pub(crate) fn record_letters(
    records: &mut Vec<CellRecord>,
    event: EventName,
    letters: &[Letter],
) -> Result<(), AllocError>
    ensures { OnOk result (kepts_of records.new.items ≡ kepts_of records.old.items ++ record_of cells event.0 (letters_from event 0 (map letter_of letters.now))) }
{
    for (place, letter) in letters.iter().enumerate() {
        let name = name_at(event, place)?;
        records.push(message_record(event, name, letter.message.share()?))?;
    }
    Ok(())
}

/// Adds a record of a publication, unless the promise was published before.
fn record_publication(
    records: &mut Vec<CellRecord>,
    world: &World,
    event: EventName,
    promise: PromId,
    published: &Published,
) -> Result<(), AllocError>
    ensures { OnOk result (kepts_of records.new.items ≡ kepts_of records.old.items ++ record_of cells event.0 (on_the_board (counted (world_of world.now) ((promise, published_of published.now) ∷ [])))) }
{
    if world.published(promise).is_none() {
        records.push(publication_record(event, promise, published)?)?;
    }
    Ok(())
}

/// Adds records of publications, but of none whose promise was published before.
pub(crate) fn record_publications(
    records: &mut Vec<CellRecord>,
    world: &World,
    event: EventName,
    publications: &Publications,
) -> Result<(), AllocError>
    ensures { OnOk result (kepts_of records.new.items ≡ kepts_of records.old.items ++ record_of cells event.0 (on_the_board (counted (world_of world.now) (publications_of publications.now)))) }
{
    for place in 0..publications.len() {
        let (promise, published) = publications.at(place);
        record_publication(records, world, event, promise, published)?;
    }
    Ok(())
}
