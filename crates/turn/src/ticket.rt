// A turn that is checked out: carried away, run once, and handed back.
ghost use Rattle.std.specs.Prelude.{◌≡◌, IfOk, IfErr};
ghost use Rattle.std.specs.Arc.{arc_value};
ghost use Rattle.heap.specs.Found.{Found};
ghost use Rattle.heap.specs.View.{state_of};
ghost use Rattle.post.specs.MessageView.{message_of};
ghost use Rattle.turn_deliveries.specs.Outcomes.{Meets, found_of};

use crate::delivery::deliver;
use heap::state::VatState;
use ids::names::{EventName, MsgId, VatNo};
use post::message::Message;
use std::alloc::{AllocError, Global};
use std::marker::Model;
use std::sync::Arc;
use turn_deliveries::lead::Lead;
use turn_deliveries::outcome::Outcome;

/// The task of a turn: its event, the name of its message and the message, its vat, the budget, and the seat that it is entered from.
#[derive(Drop)]
pub struct Task {
    pub event: EventName,
    pub name: MsgId,
    pub message: Message,
    /// Where the message leads.
    pub lead: Lead,
    pub vat: VatNo,
    pub budget: u32,
    pub seat: u64,
}

/// A turn to be run, and the state of its vat, shared. The state is let go when the turn was run, so that it is the vat's own again.
#[derive(Drop)]
pub struct Out {
    pub alloc: Global,
    pub carried: Task,
    pub state: Arc<VatState>,
}

/// A turn that was run: what it carried, unchanged, and its outcome, which is that of the delivery on every state that agrees with
/// what the turn found in the cells that it touched.
#[derive(Drop)]
pub struct Ran {
    pub carried: Task,
    pub outcome: Outcome,
    pub ghost met: { Meets (message_of carried.message) (found_of carried.lead) carried.event carried.vat carried.budget outcome },
}

/// A turn checked out of a book. It must be spent: run and committed, or discarded.
pub struct Ticket<S> {
    stage: S,
}

impl<S> Model for Ticket<S> {
    ghost Value = { S };

    ghost view = { λ t. t.stage };
}

impl Ticket<Out> {
    /// A ticket for a turn that is to be run.
    pub fn new(turn: Out) -> Ticket<Out>
        ensures { result ≡ turn }
    {
        Ticket { stage: turn }
    }

    /// Runs the turn, and lets go of the state. For want of memory the ticket comes back as it was.
    pub fn run(self) -> Result<Ticket<Ran>, (Ticket<Out>, AllocError)>
        ensures ok { IfOk result (λ t. t.carried ≡ self.carried) }
        ensures found { IfOk result (λ t. Found t.outcome.footprint (state_of (arc_value self.state))) }
        ensures err { IfErr result (λ e. e.0 ≡ self) }
    {
        let Ticket { stage } = self;
        let task = &stage.carried;
        match deliver(
            stage.alloc,
            &task.message,
            &task.lead,
            task.event,
            task.vat,
            &stage.state,
            task.budget,
        ) {
            Ok(outcome) => Ok(with_outcome(stage, outcome)),
            Err(error) => Err((Ticket { stage }, error)),
        }
    }
}

/// The ticket of a turn that was run with this outcome. The state is let go.
fn with_outcome(stage: Out, outcome: Outcome) -> Ticket<Ran>
    requires { Meets (message_of stage.carried.message) (found_of stage.carried.lead) stage.carried.event stage.carried.vat stage.carried.budget outcome }
    ensures carried { result.carried ≡ stage.carried }
    ensures outcome { result.outcome ≡ outcome }
{
    let Out {
        alloc: _,
        carried,
        state: _,
    } = stage;
    Ticket {
        stage: Ran { carried, outcome },
    }
}

impl Ticket<Out> {
    /// What is carried, the state aside.
    pub fn carried(&self) -> &Task
        ensures { result.now ≡ self.now.carried }
    {
        &self.stage.carried
    }
}

impl Ticket<Ran> {
    /// What was carried, and what the turn left.
    pub fn ran(&self) -> &Ran
        ensures { result.now ≡ self.now }
    {
        &self.stage
    }

    /// What the turn left.
    pub fn outcome(&self) -> &Outcome
        ensures { result.now ≡ self.now.outcome }
    {
        &self.stage.outcome
    }

    /// What was carried, and what the turn left.
    pub fn into_parts(self) -> Ran
        ensures { result ≡ self }
    {
        let Ticket { stage: ran } = self;
        ran
    }
}

/// A ticket of a turn that was run, sealed for its way to whoever enters the turn. Unlike a ticket it may be dropped: its number is then out
/// until it is abandoned.
#[derive(Drop)]
pub struct Returned {
    ran: Ran,
}

impl Model for Returned {
    ghost use Rattle.turn.specs.declared.ticket.Ran.{Ran};
    ghost use Rattle.turn.specs.contracts.ticket.Ran as ran_row;

    ghost Value = { Ran };

    ghost coded = { ran_row.the_row.coded };

    ghost view = { λ r. r.ran };
}

impl Returned {
    /// The number of the ticket: the event that its turn will be.
    pub fn number(&self) -> EventName
        ensures { result ≡ self.now.carried.event }
    {
        self.ran.carried.event
    }

    /// The same ticket. It takes no memory.
    pub fn unseal(self) -> Ticket<Ran>
        ensures { result ≡ self }
    {
        let Returned { ran } = self;
        Ticket { stage: ran }
    }
}

impl Ticket<Ran> {
    /// The same ticket, sealed. It takes no memory.
    pub fn seal(self) -> Returned
        ensures { result ≡ self }
    {
        Returned {
            ran: self.into_parts(),
        }
    }
}

impl<S: Drop> Ticket<S> {
    /// Spends the ticket, and nothing else happens.
    pub fn discard(self) {
        let Ticket { stage: _ } = self;
    }
}
