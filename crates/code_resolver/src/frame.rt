// The names of a frame under way, the oldest first.
ghost use Rattle.std.specs.Prelude.{◌≡◌, [], ◌∷◌, OnOk, IfOk};
ghost use Rattle.kernele_scopes.specs.Scope.{name_of, names_of_all};
ghost use Rattle.code.specs.Frames.{all_placed, behind, captured_names_of, only_names, place_in};

use code::code::{Capture, NounPlace};
use ids::text::Text;
use kernele::tree::Pattern;
use std::alloc::{AllocError, Global};

/// Where what a name stands for is found: at the newest name of its spelling.
pub(crate) fn find_place(frame: &[Text], name: &Text) -> NounPlace
    ensures { result ≡ place_in frame.now name.now }
{
    let mut rest = frame;
    while let Some((newest, older)) = rest.split_last() {
        if *newest == *name {
            return NounPlace::Frame(older.len());
        }
        rest = older;
    }
    NounPlace::Top
}

/// Adds a name, unless it goes to the vat's top nouns.
pub(crate) fn add_name(
    name: &Text,
    own_scope: bool,
    frame: &mut Vec<Text>,
) -> Result<(), AllocError>
    ensures { OnOk result (frame.new.items ≡ behind own_scope (name.now ∷ []) frame.old.items) }
{
    if !own_scope {
        frame.push(name.share()?)?;
    }
    Ok(())
}

pub(crate) fn add_bound(
    pattern: &Pattern,
    own_scope: bool,
    frame: &mut Vec<Text>,
) -> Result<(), AllocError>
    ensures { OnOk result (frame.new.items ≡ behind own_scope (only_names (name_of pattern.now)) frame.old.items) }
{
    match pattern {
        Pattern::Name(name) => add_name(name, own_scope, frame),
        Pattern::Ignore => Ok(()),
    }
}

pub(crate) fn add_all_bound(
    patterns: &[Pattern],
    own_scope: bool,
    frame: &mut Vec<Text>,
) -> Result<(), AllocError>
    ensures { OnOk result (frame.new.items ≡ behind own_scope (only_names (names_of_all patterns.now)) frame.old.items) }
{
    for pattern in patterns {
        add_bound(pattern, own_scope, frame)?;
    }
    Ok(())
}

/// Where each of these names is found when an object or a `when` captures it.
pub(crate) fn place_all(
    alloc: Global,
    names: &[Text],
    frame: &[Text],
) -> Result<Vec<Capture>, AllocError>
    ensures names { IfOk result (λ captures. captured_names_of captures.items ≡ names.now) }
    ensures places { IfOk result (λ captures. all_placed frame.now captures.items) }
{
    let mut captures = Vec::with_capacity(alloc, names.len())?;
    for name in names {
        let place = find_place(frame, name);
        captures.push(Capture {
            name: name.share()?,
            place,
        })?;
    }
    Ok(captures)
}
