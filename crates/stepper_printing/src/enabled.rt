// What may be done next, as a text.
ghost use Rattle.std.specs.Prelude.{IfOk};
ghost use Rattle.world_cells.specs.View.{world_of};
ghost use Rattle.stepper_printing.specs.Steps.{step_text, step_lines, ShowsEnabled};
ghost use Rattle.stepper_printing.specs.StepsView.{choice_text};
ghost use Rattle.stepper_streams.specs.Outlet.{Tells};

use crate::choice::Choice;
use crate::listing::{put_learn, put_words_of};
use crate::picture::vats_by_birth;
use book_agenda::agenda::{Move, Step};
use ids::names::VatNo;
use ids::text::Text;
use std::alloc::{AllocError, Global};
use std::collections::BTreeMap;
use std::io::Write;
use stepper_streams::outlet::Outlet;
use world_cells::world::World;

/// What may be done in a world, ready to be printed.
///
/// # Errors
/// Memory ran out for a name.
pub fn choice_of(alloc: Global, world: &World, steps: Vec<Step>) -> Result<Choice, AllocError>
    ensures { IfOk result (λ choice. ShowsEnabled (world_of world.now) steps.items (choice_text choice)) }
{
    let vats = vats_by_birth(alloc, &world.names(alloc)?)?;
    Ok(Choice { vats, steps })
}

fn put_step<W: Write>(step: Step, vats: &BTreeMap<VatNo, Text>, out: &mut Outlet<W>)
    ensures { Tells W.contents out.old out.new (step_text vats.now.entries step) }
{
    match step {
        Step::Move(Move::Arrive(message)) => put_words_of("arrive ", message, out),
        Step::Move(Move::Forward(message)) => put_words_of("forward ", message, out),
        Step::Turn(message) => put_words_of("turn ", message, out),
        Step::Move(Move::Learn(vat, promise)) => put_learn(vats.get(&vat), promise, out),
    }
}

/// Puts each as the command that does it.
fn put_steps<W: Write>(steps: &[Step], vats: &BTreeMap<VatNo, Text>, out: &mut Outlet<W>)
    ensures { Tells W.contents out.old out.new (step_lines vats.now.entries steps.now) }
{
    for step in steps {
        put_step(*step, vats, out);
        out.put("\n");
    }
}

/// Puts how many things may be done, and each as the command that does it.
pub fn put_enabled<W: Write>(choice: &Choice, out: &mut Outlet<W>)
    ensures { Tells W.contents out.old out.new (choice_text choice.now) }
{
    out.put("enabled ");
    out.put_number(choice.steps.len());
    out.put("\n");
    put_steps(&choice.steps, &choice.vats, out);
}
