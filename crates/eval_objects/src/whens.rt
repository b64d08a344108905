// Whens: what they capture, and how they are made.
ghost use Rattle.std.specs.Prelude.{◌≡◌, ◌+◌, ◌<◌, false, option_map};
ghost use Rattle.code.specs.Frames.{all_placed, captured_names_of, fits_all};
ghost use Rattle.code.specs.View.{trees_of_codes};
ghost use Rattle.eval_objects.specs.Making.{DefinesWhen};
ghost use Rattle.eval_rules.specs.Answered.{OnEnd};
ghost use Rattle.eval_rules.specs.Fits.{frame_at};
ghost use Rattle.eval_rules.specs.Rules.{handled_names};
ghost use Rattle.eval_rules.specs.View.{at};
ghost use Rattle.post.specs.Blocks.{handler_fits};
ghost use Rattle.post.specs.DeliveryView.{handler_of};
ghost use Rattle.values.specs.View.{val_of};

use crate::objects::capture_all;
use code::code::{Capture, Code};
use eval_messages::whens::make_when;
use eval_rules::end::Stop;
use eval_rules::working::Working;
use post::when::Handler;
use std::mem;
use std::sync::Arc;
use values::value::Value;

/// Makes a `when` once its names are captured: on the value in the place where the promise for its result goes.
pub fn define_when(
    w: &mut Working,
    captures: &Arc<Vec<Capture>>,
    block: &Arc<Vec<Code>>,
    handler: Option<Handler>,
    into: &mut Value,
) -> Result<(), Stop>
    requires captures { captured_names_of captures.now.value.items ≡ handled_names (trees_of_codes block.now.value.items) (option_map handler_of handler) }
    requires placed { all_placed (frame_at (at w.old)) captures.now.value.items }
    requires fits { fits_all false (captured_names_of captures.now.value.items) block.now.value.items }
    requires handled { handler_fits (captured_names_of captures.now.value.items) handler }
    requires promised { w.old.out.promises + w.old.steps < u32.MAX }
    ensures { OnEnd result into.new w.new (DefinesWhen (trees_of_codes block.now.value.items) (option_map handler_of handler) (val_of into.old) (at w.old)) }
{
    let nouns = capture_all(w, captures.as_slice())?;
    let value = mem::replace(into, Value::Null);
    make_when(w, value, nouns, block, handler, into)
}
