// The names of a frame.
ghost use Rattle.std.specs.Prelude.{◌≡◌, take};

use heap::state::Binding;
use ids::text::Text;
use std::mem;
use std::snapshot::Snapshot;
use values::value::Value;

/// A name of a frame, and what it stands for. The program finds names by their places, so only clauses read the name.
#[derive(Drop)]
pub struct Local {
    pub name: Snapshot<Text>,
    pub binding: Binding,
}

/// Lets names go from the newest on, until no more are left than so many.
#[inline(always)]
pub fn let_go(nouns: &mut Vec<Local>, left: usize)
    ensures { nouns.new.items ≡ take left nouns.old.items }
{
    while nouns.len() > left {
        let Some(local) = nouns.pop() else {
            return;
        };
        let_one_go(local);
    }
}

/// Lets a name go. Most hold no memory, and for those there is nothing to do.
#[inline(always)]
fn let_one_go(local: Local) {
    if holds_memory(&local.binding) {
        drop_local(local);
    } else {
        mem::forget(local);
    }
}

/// Whether what a name stands for holds memory.
#[inline(always)]
fn holds_memory(binding: &Binding) -> bool {
    match binding {
        Binding::Fixed(Value::Text(_) | Value::List(_) | Value::Broken(_)) => true,
        Binding::Fixed(_) | Binding::Slot(_) => false,
    }
}

/// Drops a name that holds memory. It stands apart, so that a frame of others is let go with little code.
#[inline(never)]
fn drop_local(local: Local) {
    let _ = local;
}
