// What a method's block begins with.
ghost use Rattle.std.specs.Prelude.{◌++◌, false};
ghost use Rattle.code.specs.Frames.{fits_all};
ghost use Rattle.code.specs.Props.{fits_all-prop};
ghost use Rattle.heap.specs.Names.{names_of};
ghost use Rattle.eval_rules.specs.Locals.{captured_in, local_names};

use crate::local::Local;
use code::code::Code;
use heap::state::Noun;
use std::sync::Arc;

/// A method's block and the names that it begins with, the newest last: those that its object captured, if there are any, which it
/// shares with it, and then its own. The block fits just these.
#[derive(Drop)]
pub struct MethodEntry {
    pub captured: Option<Arc<Vec<Noun>>>,
    pub nouns: Vec<Local>,
    pub body: Arc<Vec<Code>>,
    pub ghost fits: { fits_all false (names_of (captured_in captured) ++ local_names nouns.items) body.value.items } by { fits_all-prop false (names_of (captured_in captured) ++ local_names nouns.items) body.value.items },
}
