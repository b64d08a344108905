// The size and the depth of a program, compared with their limits in one walk.
ghost use Rattle.std.specs.Prelude.{◌≡◌};
ghost use Rattle.kernele.specs.View.{tree_of, trees_of, methods_of};
ghost use Rattle.kernele_scopes.specs.Scope.{nodes, nodes_in, nodes_of, depth, depth_in, depth_of};
ghost use Rattle.kernele_scopes.specs.Room.{room_behind};
ghost use Rattle.kernele_scopes.specs.Parts.{part_in, part_nodes, part_depth};

use crate::parts::{NamePart, first_part, second_part, third_part};
use kernele::tree::{Expr, Method};

/// What is left of the limits behind some trees.
#[derive(Clone, Copy)]
pub(crate) struct Room {
    /// How many nodes there may be yet.
    pub nodes: u32,
    /// Whether a tree was deeper than it may be.
    pub too_deep: bool,
}

/// What a node leaves, if there may be one more.
fn behind_node(levels: u32, room: Option<Room>) -> Option<Room>
    ensures { result ≡ room_behind levels room 1 1 }
{
    let room = room?;
    Some(Room {
        nodes: room.nodes.checked_sub(1)?,
        too_deep: room.too_deep || levels == 0,
    })
}

/// What a tree leaves, if it has no more nodes than there may be. It may have so many levels.
#[cycle(count)]
fn behind_tree(e: &Expr, levels: u32, room: Option<Room>) -> Option<Room>
    ensures { result ≡ room_behind levels room (nodes (tree_of e.now)) (depth (tree_of e.now)) }
{
    let room = Some(behind_node(levels, room)?);
    let below = levels.saturating_sub(1);
    let room = behind_part(first_part(e), below, room);
    let room = behind_part(second_part(e), below, room);
    behind_part(third_part(e), below, room)
}

/// The same of a part of a tree.
#[cycle(count)]
fn behind_part(part: NamePart<'_>, levels: u32, room: Option<Room>) -> Option<Room>
    ensures { result ≡ room_behind levels room (part_nodes (part_in part.entry)) (part_depth (part_in part.entry)) }
{
    match part {
        NamePart::Evaluate(e) => behind_tree(e, levels, room),
        NamePart::EvaluateAll(trees) => behind_all(trees, levels, room),
        NamePart::Block(_, body) => behind_all(body, levels, room),
        NamePart::Methods(methods) => behind_methods(methods, levels, room),
        NamePart::Nothing
        | NamePart::Noun(_)
        | NamePart::Target(_, _)
        | NamePart::Assign(_)
        | NamePart::Bind(_) => room,
    }
}

/// The same of methods.
#[cycle(count)]
fn behind_methods(methods: &[Method], levels: u32, mut room: Option<Room>) -> Option<Room>
    ensures { result ≡ room_behind levels room (nodes_of (methods_of methods.now)) (depth_of (methods_of methods.now)) }
{
    for method in methods {
        room = behind_all(&method.body, levels, room);
    }
    room
}

/// The same of trees.
#[cycle(count)]
pub(crate) fn behind_all(trees: &[Expr], levels: u32, mut room: Option<Room>) -> Option<Room>
    ensures { result ≡ room_behind levels room (nodes_in (trees_of trees.now)) (depth_in (trees_of trees.now)) }
{
    for tree in trees {
        room = behind_tree(tree, levels, room);
    }
    room
}
