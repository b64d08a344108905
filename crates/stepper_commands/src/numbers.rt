// Numbers, and names of messages, promises, objects and events, in a command.
ghost use Rattle.std.specs.Prelude.{◌≡◌, ◌<◌, Some, IfOk, is_some};
ghost use Rattle.std.specs.Char.{is_ascii_digit};
ghost use Rattle.std.specs.Option.{option_map};
ghost use Rattle.std.specs.List.{list_all};
ghost use Rattle.stepper_commands.specs.Numbers.{number_of, behind_tag, tagged, message_named, promise_named, object_named, event_named, one_or_more, events_in, is_numeral};
ghost use Rattle.stepper_commands.specs.Words.{words_in};

use crate::words::{cut_word, skip_blanks};
use ids::names::{EventName, MsgId};
use std::alloc::{AllocError, Global};

fn all_digits(word: &[u8]) -> bool
    ensures { result ≡ list_all is_ascii_digit word.now }
{
    word.iter().all(|b| b.is_ascii_digit())
}

fn is_numeral(word: &str) -> bool
    ensures { result ≡ is_numeral word.now }
{
    !word.is_empty() && all_digits(word.as_bytes())
}

/// A number of at most 4,294,967,295, leading zeros allowed.
pub(crate) fn number(word: &str) -> Option<u32>
    ensures { result ≡ number_of word.now }
{
    if is_numeral(word) {
        word.parse::<u32>().ok()
    } else {
        None
    }
}

/// What stands behind a tag in front.
pub(crate) fn behind_tag(tag: char, word: &str) -> Option<&str>
    requires { tag < 128 }
    ensures { option_map (λ r. r.now) result ≡ behind_tag tag word.now }
{
    word.strip_prefix(tag)
}

/// The number in a name such as `e7` or `m0`.
fn tagged(tag: char, word: &str) -> Option<u32>
    requires { tag < 128 }
    ensures { result ≡ tagged tag word.now }
{
    number(behind_tag(tag, word)?)
}

/// A message's name, such as `e7.m0`.
pub(crate) fn message_named(word: &str) -> Option<MsgId>
    ensures { result ≡ message_named word.now }
{
    let (event, index) = word.split_once('.')?;
    let event = tagged('e', event)?;
    let index = tagged('m', index)?;
    Some(MsgId {
        event: EventName(event),
        index,
    })
}

/// A promise's name, such as `e8.p1`: its event, and its number among that event's promises. Where its home is, no name tells.
#[derive(Clone, Copy)]
pub struct PromiseName {
    pub event: EventName,
    pub index: u32,
}

/// A promise's name, such as `e8.p1`.
pub(crate) fn promise_named(word: &str) -> Option<PromiseName>
    ensures { result ≡ promise_named word.now }
{
    let (event, index) = word.split_once('.')?;
    let event = tagged('e', event)?;
    let index = tagged('p', index)?;
    Some(PromiseName {
        event: EventName(event),
        index,
    })
}

/// An object's name, such as `e2.o0`: its event, and its number among that event's objects. Of which vat it is, no name tells.
#[derive(Clone, Copy)]
pub struct ObjectName {
    pub event: EventName,
    pub index: u32,
}

/// An object's name, such as `e2.o0`.
pub(crate) fn object_named(word: &str) -> Option<ObjectName>
    ensures { result ≡ object_named word.now }
{
    let (event, index) = word.split_once('.')?;
    let event = tagged('e', event)?;
    let index = tagged('o', index)?;
    Some(ObjectName {
        event: EventName(event),
        index,
    })
}

/// An event's name, such as `e7`.
pub(crate) fn event_named(word: &str) -> Option<EventName>
    ensures { result ≡ event_named word.now }
{
    let number = tagged('e', word)?;
    Some(EventName(number))
}

/// Whether the words of a text are one or more, and each is an event's name.
pub(crate) fn are_events(words: &str) -> bool
    ensures { result ≡ is_some (one_or_more (words_in words.now)) }
{
    let mut rest = skip_blanks(words);
    if rest.is_empty() {
        return false;
    }
    'words: while !rest.is_empty() {
        let (word, behind) = cut_word(rest);
        if event_named(word).is_none() {
            return false;
        }
        rest = behind;
    }
    true
}

/// The events that the words of a text name, where they are one or more and all are names.
fn events_named(alloc: Global, words: &str) -> Result<Option<Vec<EventName>>, AllocError>
    ensures { IfOk result (λ r. option_map (λ events. events.items) r ≡ one_or_more (words_in words.now)) }
{
    let mut events = Vec::new(alloc);
    let mut rest = skip_blanks(words);
    'words: while !rest.is_empty() {
        let (word, behind) = cut_word(rest);
        let Some(event) = event_named(word) else {
            return Ok(None);
        };
        events.push(event)?;
        rest = behind;
    }
    Ok((!events.is_empty()).then_some(events))
}

/// The events that words name, as those of `undo` and `redo` do.
///
/// # Errors
/// Memory ran out for the list.
pub fn events_in(alloc: Global, words: &str) -> Result<Vec<EventName>, AllocError>
    ensures { IfOk result (λ events. events.items ≡ events_in words.now) }
{
    match events_named(alloc, words)? {
        Some(events) => Ok(events),
        None => Ok(Vec::new(alloc)),
    }
}
