// What an event touches and writes, worked out before it is entered.
ghost use Rattle.std.specs.Prelude.{◌≡◌, ◌++◌, [], Some, List, map, IfOk, OnOk};
ghost use Rattle.history.specs.Records.{record_of};
ghost use Rattle.ids.specs.declared.cells.CellKey.TheVariants as key;
ghost use Rattle.code.specs.View.{trees_of_codes};
ghost use Rattle.kernele_scopes.specs.Scope.{own_names_in};
ghost use Rattle.heap.specs.State.{State};
ghost use Rattle.post.specs.Messages as posts;
ghost use Rattle.post.specs.MessageView.{message_of};
ghost use Rattle.eval_rules.specs.PublicationsView.{publications_of, EachOnce as PublishedOnce};
ghost use Rattle.world_cells.specs.Theory.{kepts_of, kept_of, cells};
ghost use Rattle.world_cells.specs.World as model;
ghost use Rattle.world_cells.specs.View.{world_of};
ghost use Rattle.world_cells.specs.World.{vat_state};
ghost use Rattle.turn_deliveries.specs.Outcomes.{outcome_on};
ghost use Rattle.event.specs.Entries.{EachOnce, left_of, kept_left};
ghost use Rattle.event.specs.Events.{birth_foot, ask_foot, first_message, first_promise, opening_message, asked_message, made_by, moved_foot};
ghost use Rattle.event.specs.Effects.{AreTurnEffects, Brings, BringsLearnt, known_by, turn_keys};
ghost use Rattle.event.specs.Learning.{Learns};

use crate::left::{record_cells, touch_cells};
use crate::making::{
    message_record, record_letters, record_publications, touch_letters, touch_publications,
};
use crate::noting::share_notes;
use crate::ready::Way;
use cells::store::Record;
use eorder::fence::Fence;
use eval_rules::outbox::Note;
use heap::reach::Footprint;
use ids::cells::CellKey;
use ids::names::{EventName, MsgId, PromId, VatNo};
use ids::text::Text;
use kernele_scopes::TopName;
use post::delivery::Delivery;
use post::earlier::Earlier;
use post::message::{Message, Place, Sent};
use post::program::{Question, Script};
use post::vat::Vat;
use std::alloc::{AllocError, Global};
use std::sync::Arc;
use turn_deliveries::outcome::{Outcome, TurnEnd};
use world_cells::record::CellRecord;
use world_cells::world::World;

/// For how many touched cells of a turn there is room to begin with: those of most turns.
const FEW_CELLS: usize = 8;

/// The cells that an event touches, a record of each cell that it writes, with what it writes there, and its notes for the log.
#[derive(Drop)]
pub struct Effects {
    pub touched: Vec<CellKey>,
    pub records: Vec<CellRecord>,
    pub notes: Vec<Note>,
}

/// The message that an event makes first.
fn first_message(event: EventName) -> MsgId
    ensures { result ≡ first_message event }
{
    MsgId { event, index: 0 }
}

/// The promise that an event makes first, of this home.
fn first_promise(event: EventName, home: VatNo) -> PromId
    ensures { result ≡ first_promise event home }
{
    PromId {
        event,
        index: 0,
        home,
    }
}

/// A record of the name of a vat that is born with these top nouns, and knows these earlier vats.
fn name_record(
    alloc: Global,
    event: EventName,
    name: &Text,
    earlier: &[Text],
    tops: Vec<TopName>,
) -> Result<CellRecord, AllocError>
    ensures { IfOk result (λ r. kept_of r ≡ (key.Name name.now, (Some (model.vat (record { number = record { 0 = event }; earlier = earlier.now; tops = tops.items })), Some event.0))) }
{
    let vat = Vat::new(alloc, VatNo(event), share_names(alloc, earlier)?, tops)?;
    Ok(CellRecord::Name(Record {
        key: name.share()?,
        content: Some(vat),
        writer: Some(event),
    }))
}

/// Names, shared.
fn share_names(alloc: Global, names: &[Text]) -> Result<Vec<Text>, AllocError>
    ensures { IfOk result (λ row. row.items ≡ names.now) }
{
    let mut row = Vec::with_capacity(alloc, names.len())?;
    for name in names {
        row.push(name.share()?)?;
    }
    Ok(row)
}

/// The cells of names.
fn name_keys(alloc: Global, names: &[Text]) -> Result<Vec<CellKey>, AllocError>
    ensures { IfOk result (λ keys. keys.items ≡ map key.Name names.now) }
{
    let mut keys = Vec::with_capacity(alloc, names.len())?;
    for name in names {
        keys.push(CellKey::Name(name.share()?))?;
    }
    Ok(keys)
}

/// Earlier vats by their names, each with the promise for the result of its opening.
fn known_as(alloc: Global, names: &[Text], vats: &[VatNo]) -> Result<Vec<Earlier>, AllocError>
    ensures { IfOk result (λ row. row.items ≡ known_by names.now vats.now) }
{
    let mut row = Vec::with_capacity(alloc, names.len())?;
    for (name, vat) in names.iter().zip(vats.iter()) {
        row.push(Earlier {
            name: name.share()?,
            opening: first_promise(vat.0, *vat),
        })?;
    }
    Ok(row)
}

/// The opening message of a vat that is born with this script, which knows these earlier vats by these names.
fn opening(
    alloc: Global,
    event: EventName,
    earlier: Vec<Earlier>,
    script: &Script,
) -> Result<Message, AllocError>
    ensures { IfOk result (λ g. message_of g ≡ opening_message event earlier.items (trees_of_codes script.now.items.value.items)) }
{
    let number = VatNo(event);
    let sent = Sent {
        delivery: Delivery::Opening(Arc::new(alloc, earlier)?, script.share()?),
        result: first_promise(event, number),
        after: Fence::empty(alloc),
    };
    Message::new(alloc, sent, Place::At(number))
}

/// The message of a program that is asked of a vat, which comes after the vat's opening.
fn asked(
    alloc: Global,
    event: EventName,
    vat: VatNo,
    question: &Question,
) -> Result<Message, AllocError>
    ensures { IfOk result (λ g. message_of g ≡ asked_message event vat (trees_of_codes question.now.items.value.items)) }
{
    let sent = Sent {
        delivery: Delivery::Asked(question.share()?),
        result: first_promise(event, vat),
        after: Fence::alone(alloc, first_message(vat.0)),
    };
    Message::new(alloc, sent, Place::At(vat))
}

/// The effects of a birth of this name with this script, which defines these top nouns and knows these vats by these names. The message
/// shares the script. Fails only for want of memory.
pub fn birth_effects(
    alloc: Global,
    event: EventName,
    name: &Text,
    earlier: &[Text],
    vats: &[VatNo],
    tops: Vec<TopName>,
    script: &Script,
) -> Result<Effects, AllocError>
    ensures brings { IfOk result (λ it. (found : List posts.Vat) → map (λ v. v.number) found ≡ vats.now → tops.items ≡ own_names_in (trees_of_codes script.now.items.value.items) → Brings event (birth_foot event name.now (earlier.now) found (trees_of_codes script.now.items.value.items)) it.touched.items (kepts_of it.records.items)) }
    ensures quiet { IfOk result (λ it. it.notes.items ≡ []) }
{
    let first = first_message(event);
    let message = opening(alloc, event, known_as(alloc, earlier, vats)?, script)?;
    let mut touched = name_keys(alloc, earlier)?;
    touched.push(CellKey::Name(name.share()?))?;
    touched.push(CellKey::Msg(first))?;
    Ok(Effects {
        touched,
        records: vec![in alloc;
            name_record(alloc, event, name, earlier, tops)?,
            message_record(event, first, message),
        ]?,
        notes: Vec::new(alloc),
    })
}

/// The effects of a question that is asked of the vat of this name and number. The message shares it. Fails only for want of memory.
pub fn ask_effects(
    alloc: Global,
    event: EventName,
    name: &Text,
    vat: VatNo,
    question: &Question,
) -> Result<Effects, AllocError>
    ensures brings { IfOk result (λ it. Brings event (ask_foot event name.now vat (trees_of_codes question.now.items.value.items)) it.touched.items (kepts_of it.records.items)) }
    ensures quiet { IfOk result (λ it. it.notes.items ≡ []) }
{
    let first = first_message(event);
    let message = asked(alloc, event, vat, question)?;
    Ok(Effects {
        touched: vec![in alloc; CellKey::Name(name.share()?), CellKey::Msg(first)]?,
        records: vec![in alloc; message_record(event, first, message)]?,
        notes: Vec::new(alloc),
    })
}

/// The effects of a message that is elsewhere now, for which the publications of these promises were looked at. Fails only for want
/// of memory.
pub fn move_effects(
    alloc: Global,
    event: EventName,
    name: MsgId,
    message: Message,
    through: &[PromId],
) -> Result<Effects, AllocError>
    ensures brings { IfOk result (λ it. Brings event (moved_foot (map key.Board through.now) name (message_of message)) it.touched.items (kepts_of it.records.items)) }
    ensures quiet { IfOk result (λ it. it.notes.items ≡ []) }
{
    let mut touched = Vec::new(alloc);
    touch_board(&mut touched, through)?;
    touched.push(CellKey::Msg(name))?;
    Ok(Effects {
        touched,
        records: vec![in alloc; message_record(event, name, message)]?,
        notes: Vec::new(alloc),
    })
}

/// The effects of what a vat learnt of a promise, which touched and wrote these cells of it. Fails only for want of memory.
pub fn learn_effects(
    alloc: Global,
    event: EventName,
    vat: VatNo,
    promise: PromId,
    footprint: &Footprint,
) -> Result<Effects, AllocError>
    ensures { IfOk result (λ it. (w : model.World) (b : posts.Published) → Learns (vat_state w vat) promise b footprint.now → BringsLearnt event w vat promise b it) }
{
    let mut touched = Vec::new(alloc);
    touched.push(CellKey::Board(promise))?;
    touch_cells(&mut touched, vat, footprint)?;
    let mut records = Vec::new(alloc);
    record_cells(&mut records, event, vat, footprint)?;
    let notes = Vec::new(alloc);
    Ok(Effects {
        touched,
        records,
        notes,
    })
}

/// Touches the publications of promises.
fn touch_board(touched: &mut Vec<CellKey>, promises: &[PromId]) -> Result<(), AllocError>
    ensures { OnOk result (touched.new.items ≡ touched.old.items ++ map key.Board promises.now) }
{
    for promise in promises {
        touched.push(CellKey::Board(*promise))?;
    }
    Ok(())
}

/// Touches messages.
fn touch_messages(touched: &mut Vec<CellKey>, names: &[MsgId]) -> Result<(), AllocError>
    ensures { OnOk result (touched.new.items ≡ touched.old.items ++ map key.Msg names.now) }
{
    for name in names {
        touched.push(CellKey::Msg(*name))?;
    }
    Ok(())
}

/// The cells that a turn of a message touched: what was looked at to know that it is ready, the cells of the vat, and what it made.
fn turn_touched(
    alloc: Global,
    event: EventName,
    name: MsgId,
    way: &Way,
    vat: VatNo,
    outcome: &Outcome,
) -> Result<Vec<CellKey>, AllocError>
    ensures once { OnOk result (EachOnce outcome.now.footprint) }
    ensures published { OnOk result (PublishedOnce (publications_of outcome.now.out.publications)) }
    ensures touched { IfOk result (λ keys. keys.items ≡ turn_keys event name way.now vat outcome.now) }
{
    let mut touched = Vec::with_capacity(alloc, FEW_CELLS)?;
    touch_board(&mut touched, way.through.as_slice())?;
    touch_messages(&mut touched, way.awaited.names())?;
    touch_publications(&mut touched, &outcome.out.publications)?;
    touch_cells(&mut touched, vat, &outcome.footprint)?;
    touch_letters(&mut touched, event, outcome.out.letters.as_slice())?;
    touched.push(CellKey::Msg(name))?;
    Ok(touched)
}

/// Adds records of what a turn left in its vat, unless it was abandoned.
fn record_left(
    records: &mut Vec<CellRecord>,
    event: EventName,
    vat: VatNo,
    outcome: &Outcome,
) -> Result<(), AllocError>
    ensures { OnOk result (kepts_of records.new.items ≡ kepts_of records.old.items ++ kept_left event vat (left_of outcome.now)) }
{
    match &outcome.ended {
        TurnEnd::Value(_) | TurnEnd::Problem(_) => {
            record_cells(records, event, vat, &outcome.footprint)
        }
        TurnEnd::Abandoned(_) => Ok(()),
    }
}

/// Records of what a turn of this message wrote: what it left in its vat, what it made, and the message as done.
fn turn_records(
    alloc: Global,
    world: &World,
    event: EventName,
    name: MsgId,
    message: &Message,
    vat: VatNo,
    outcome: &Outcome,
) -> Result<Vec<CellRecord>, AllocError>
    ensures { IfOk result (λ records. (u : State) → kepts_of records.items ≡ kept_left event vat (left_of outcome.now) ++ record_of cells event.0 (made_by event (world_of world.now) name (message_of message.now) (outcome_on outcome.now u))) }
{
    let mut records = Vec::new(alloc);
    record_left(&mut records, event, vat, outcome)?;
    record_letters(&mut records, event, outcome.out.letters.as_slice())?;
    record_publications(&mut records, world, event, &outcome.out.publications)?;
    records.push(message_record(event, name, message.done_in(event)?))?;
    Ok(records)
}

/// The effects of a turn of this message at this vat, which had this outcome, in a world where it sends what is new. Fails only for want
/// of memory.
pub fn turn_effects(
    alloc: Global,
    world: &World,
    event: EventName,
    name: MsgId,
    message: &Message,
    way: &Way,
    vat: VatNo,
    outcome: &Outcome,
) -> Result<Effects, AllocError>
    ensures { IfOk result (λ it. AreTurnEffects event (world_of world.now) name (message_of message.now) way.now vat outcome.now it) }
{
    Ok(Effects {
        touched: turn_touched(alloc, event, name, way, vat, outcome)?,
        records: turn_records(alloc, world, event, name, message, vat, outcome)?,
        notes: share_notes(alloc, outcome.out.notes.as_slice())?,
    })
}
