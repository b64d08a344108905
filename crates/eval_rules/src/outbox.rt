// What a turn makes beside what it does to its vat's state.
ghost use Rattle.std.specs.Prelude.{◌≡◌};
ghost use Rattle.eval_rules.specs.Outbox.{empty_outbox};
ghost use Rattle.eval_rules.specs.OutboxView.{outbox_of};

use crate::publications::Publications;
use ids::names::{MsgId, PromId};
use ids::text::Text;
use post::message::Message;
use std::alloc::Global;

/// A message that was made, by its name.
#[derive(Drop)]
pub struct Letter {
    pub name: MsgId,
    pub message: Message,
}

/// A note for the log.
#[derive(Drop)]
pub enum Note {
    /// A message was sent.
    Sent(MsgId),
    /// A `when` waits for a promise.
    Waits(PromId, MsgId),
    /// A promise was resolved.
    Resolved(PromId),
    /// The turn ended with this problem, or was abandoned for this reason.
    Comment(Text),
}

/// Messages, publications and notes in the order of making, and how many promises were made.
#[derive(Drop)]
pub struct Outbox {
    pub letters: Vec<Letter>,
    pub promises: u32,
    pub publications: Publications,
    pub notes: Vec<Note>,
}

impl Outbox {
    /// Nothing was made.
    pub fn new(alloc: Global) -> Outbox
        ensures { outbox_of result ≡ empty_outbox }
    {
        Outbox {
            letters: Vec::new(alloc),
            promises: 0,
            publications: Publications::new(alloc),
            notes: Vec::new(alloc),
        }
    }
}
