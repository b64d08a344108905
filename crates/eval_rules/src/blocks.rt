// Scopes of blocks: their names end with them.
ghost use Rattle.std.specs.Prelude.{◌≡◌, length};
ghost use Rattle.eval_rules.specs.Rules.{entering};
ghost use Rattle.eval_rules.specs.Locals.{oldest};
ghost use Rattle.eval_rules.specs.View.{at};

use crate::local::let_go;
use crate::working::Working;

/// What a scope around a block was when the block began.
#[derive(Clone, Copy)]
pub struct ScopeMark {
    /// How many names there were.
    names: usize,
    own_scope: bool,
}

/// How many names are in scope.
#[inline(always)]
pub fn count_names(w: &Working) -> usize
    ensures { result ≡ length (at w.now).nouns }
{
    w.older + w.nouns.len()
}

/// Ends the scope of all names but the oldest ones, as many as this.
#[inline(always)]
pub fn keep_names(w: &mut Working, count: usize)
    ensures place { at w.new ≡ record (at w.old) { nouns = oldest count (at w.old).nouns } }
    ensures halt { w.new.halt ≡ w.old.halt }
{
    if count_names(w) > count {
        w.older = w.older.min(count);
        let left = count - w.older;
        let_go(&mut w.nouns, left);
    }
}

/// Begins a scope of a block's own.
pub fn enter(w: &mut Working) -> ScopeMark
    ensures names { result.names ≡ length (at w.old).nouns }
    ensures own { result.own_scope ≡ w.old.own_scope }
    ensures place { at w.new ≡ entering (at w.old) }
{
    let outer = ScopeMark {
        names: count_names(w),
        own_scope: w.own_scope,
    };
    w.own_scope = false;
    outer
}

/// Ends a block's scope.
pub fn leave(w: &mut Working, outer: ScopeMark)
    ensures place { at w.new ≡ record (at w.old) { nouns = oldest outer.names (at w.old).nouns; own_scope = outer.own_scope } }
    ensures halt { w.new.halt ≡ w.old.halt }
{
    keep_names(w, outer.names);
    w.own_scope = outer.own_scope;
}
