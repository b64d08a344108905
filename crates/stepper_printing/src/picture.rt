// A world, sorted to be shown: all that a picture takes memory for.
ghost use Rattle.std.specs.Prelude.{IfOk};
ghost use Rattle.std.specs.BTreeMap.{IsOrdered};
ghost use Rattle.heap.specs.View.{state_of};
ghost use Rattle.world_cells.specs.Listed.{names_in};
ghost use Rattle.world_cells.specs.View.{world_of};
ghost use Rattle.world_cells.specs.World.{vat_state};
ghost use Rattle.stepper_printing.specs.Show.{ByBirth, StateLines, VatLines, Shows};
ghost use Rattle.stepper_printing.specs.PictureView.{contents_text, held_text, homes_text, picture_text, IsHome};

use heap::state::{Contents, VatState};
use ids::names::{MsgId, PromId, VatNo};
use ids::text::Text;
use post::message::Message;
use post::published::Published;
use post::vat::Vat;
use std::alloc::{AllocError, Global};
use std::collections::BTreeMap;
use world_cells::world::World;

/// A vat, with what it holds, in order.
#[derive(Drop)]
pub(crate) struct VatHome {
    pub(crate) number: VatNo,
    pub(crate) name: Text,
    /// None where the vat has no state.
    pub(crate) held: Option<Contents>,
}

/// A world, sorted.
#[derive(Drop)]
pub struct Picture {
    /// The names of the vats.
    pub(crate) vats: BTreeMap<VatNo, Text>,
    /// The vats in order of birth.
    pub(crate) homes: Vec<VatHome>,
    pub(crate) messages: BTreeMap<MsgId, Message>,
    pub(crate) board: BTreeMap<PromId, Published>,
}

/// The vats in order of birth, each with its name.
pub fn vats_by_birth(
    alloc: Global,
    names: &BTreeMap<Text, Vat>,
) -> Result<BTreeMap<VatNo, Text>, AllocError>
    ensures { IfOk result (λ vats. ByBirth (names_in names.now) vats.entries) }
{
    let mut vats = BTreeMap::new(alloc);
    for (name, vat) in names.iter() {
        vats.insert(vat.number, name.share()?)?;
    }
    Ok(vats)
}

/// What a vat holds.
fn held_by(alloc: Global, number: VatNo, world: &World) -> Result<Option<Contents>, AllocError>
    ensures { IfOk result (λ held. StateLines (vat_state (world_of world.now) number) (held_text held)) }
{
    match world.home(number) {
        Some(state) => Ok(Some(contents_of(alloc, state)?)),
        None => Ok(None),
    }
}

fn contents_of(alloc: Global, state: &VatState) -> Result<Contents, AllocError>
    ensures { IfOk result (λ contents. StateLines (state_of state.now) (contents_text contents)) }
{
    let contents = state.contents(alloc)?;
    in_order(&contents.nouns);
    in_order(&contents.slots);
    in_order(&contents.objects);
    in_order(&contents.views);
    in_order(&contents.fences);
    Ok(contents)
}

/// A map has its entries in the order of their keys.
fn in_order<K: Ord, V>(map: &BTreeMap<K, V>)
    ensures { IsOrdered K.cmp map.now }
{
    let _ = map.iter();
}

/// The vats with what they hold.
fn homes_of(
    alloc: Global,
    vats: &BTreeMap<VatNo, Text>,
    world: &World,
) -> Result<Vec<VatHome>, AllocError>
    ensures { IfOk result (λ homes. VatLines (world_of world.now) vats.now.entries (homes_text homes.items)) }
{
    let mut homes = Vec::new(alloc);
    for (number, name) in vats.iter() {
        homes.push(home_of(alloc, *number, name, world)?)?;
    }
    Ok(homes)
}

/// A vat with what it holds.
fn home_of(alloc: Global, number: VatNo, name: &Text, world: &World) -> Result<VatHome, AllocError>
    ensures { IfOk result (IsHome (world_of world.now) number name.now) }
{
    Ok(VatHome {
        number,
        name: name.share()?,
        held: held_by(alloc, number, world)?,
    })
}

impl Picture {
    /// # Errors
    /// Memory ran out for a list.
    pub fn new(alloc: Global, world: &World) -> Result<Picture, AllocError>
        ensures { IfOk result (λ picture. Shows (world_of world.now) (picture_text picture)) }
    {
        let vats = vats_by_birth(alloc, &world.names(alloc)?)?;
        let homes = homes_of(alloc, &vats, world)?;
        let messages = world.messages(alloc)?;
        let board = world.board(alloc)?;
        in_order(&messages);
        in_order(&board);
        Ok(Picture {
            vats,
            homes,
            messages,
            board,
        })
    }
}
