// What a turn works on.
ghost use Rattle.std.specs.Prelude.{◌+◌, ◌≤◌, length};
ghost use Rattle.std.below.core.specs.declared.int.u32.TheConstants.{MAX};
ghost use Rattle.eval_rules.specs.Locals.{captured_in};

use crate::end::Halt;
use crate::local::Local;
use crate::outbox::Outbox;
use heap::draft::Draft;
use heap::state::Noun;
use ids::names::EjId;
use std::alloc::Global;
use std::sync::Arc;

/// The deepest level at which a node may begin.
pub const DEEPEST: u32 = 1_000;

/// How many slots a turn may make.
pub const MAX_SLOTS: usize = 4_096;

/// How many objects a turn may make, resolvers with them.
pub const MAX_OBJECTS: usize = 4_096;

/// How many messages a turn may make.
pub const MAX_MESSAGES: usize = 4_096;

/// A turn under way. It changes a draft, which shares its vat's state and has cells of its own where the turn reached them. Where a
/// call that works on it fails for want of memory, the turn is let go, and no contract says where it then stands, but that of
/// `open_escape`.
#[derive(Drop)]
pub struct Working {
    pub alloc: Global,
    /// The vat's state, with what the turn has made.
    pub draft: Draft,
    /// Whether the innermost scope is the script's own.
    pub own_scope: bool,
    /// The names that the object of the method under way captured, the newest last, if it captured any. Outside of methods there are none.
    pub captured: Option<Arc<Vec<Noun>>>,
    /// How many of them are in scope: from the oldest on, and in a method all.
    pub older: usize,
    /// The names of the scopes entered so far, the newest last. They are newer than those that were captured.
    pub nouns: Vec<Local>,
    /// Emptied frames, which the methods that are entered next can have.
    pub spare: Vec<Vec<Local>>,
    /// The steps left.
    pub steps: u32,
    /// How many ejectors the turn has made: no more than the steps that it has taken, so that they can be counted.
    pub ejectors: u32,
    /// The ejectors whose Escape is being evaluated, the newest last.
    pub opened: Vec<EjId>,
    /// The messages, promises, publications and notes that the turn has made. No more promises than the steps that it has taken.
    pub out: Outbox,
    /// Why the last evaluation that was halted has no value.
    pub halt: Halt,
    pub ghost within: { older ≤ length (captured_in captured) },
    pub ghost counted: { ejectors + steps ≤ MAX },
    pub ghost promised: { out.promises + steps ≤ MAX },
}
