// What happens: the events of a book.
use ids::names::{EventName, MsgId, PromId, VatNo};
use ids::text::Text;
use post::program::{Question, Script};

/// What an event does.
#[derive(Drop)]
pub enum Action {
    /// A vat of this name is born, whose script knows these earlier vats by their names.
    Birth(Text, Vec<Text>, Script),
    /// A program is asked of the vat of this name.
    Ask(Text, Question),
    /// A message arrives at the vat to which it flies.
    Arrive(MsgId),
    /// A message goes on to the vat to which its target leads.
    Forward(MsgId),
    /// A vat learns what a promise was published as.
    Learn(VatNo, PromId),
    /// A vat runs a message, with a budget of steps.
    Turn {
        vat: VatNo,
        message: MsgId,
        budget: u32,
    },
}

/// Something that happened.
#[derive(Drop)]
pub struct Event {
    pub name: EventName,
    pub action: Action,
}
