//! One keeper and many holders agree, across threads, on what each holder has done.
//!
//! What they know is in tokens, which take no bytes: at run time there is one small cell. The keeper knows what every holder did, a holder
//! what it did itself, and by a rule over the cell both are the same.
#![tactic(auto)]

ghost use Rattle.std.specs.Prelude.{◌≡◌, [], ◌∷◌, ◌++◌, length, Some, slice_get, slice_set, IfOk};
ghost use Rattle.crossbeam_utils.specs.Seq.{cell_view};
ghost use Rattle.bench_pact.specs.Agree.{knower, holder, blank, after, IsKeeper, IsHolder};

use atomic_table::{Join, Split};
use crossbeam_utils::atomic::seq_cell::{Pass, RuledSeqCell};
use crossbeam_utils::rule::{Outcome, Protocol};
use ids::names::EventName;
use std::alloc::{AllocError, Global};
use std::collections::LinkedList;
use std::marker::{Brand, PhantomData};
use std::mem;
use std::snapshot::Snapshot;
use std::sync::Wait;
use world_cells::event::Event;

/// What a holder has done: the events that it entered, the oldest first, and the numbers of its open tickets. No value of it is made.
pub struct Deeds {
    pub events: LinkedList<Event>,
    pub tickets: LinkedList<EventName>,
}

/// What a holder does. `note` adds it to its deeds. An event is there for proofs alone.
#[derive(Drop)]
pub enum Act {
    Nothing,
    /// It enters an event.
    Enters(Snapshot<Event>),
    /// It enters the event of a ticket, which is no longer open.
    Gives(Snapshot<Event>),
    /// A ticket of this number is open.
    Opens(EventName),
    /// It is no longer open.
    Closes(EventName),
}

/// What a token knows: a keeper, what each holder has done, by its place; a holder, its place and what it has done. No value of it is made.
pub struct TokenView {
    pub keeps: bool,
    pub all: LinkedList<Deeds>,
    pub holds: bool,
    pub place: u64,
    pub deeds: Deeds,
}

/// The rule of the cell: keeper and holders agree.
pub struct Agreed;

impl Protocol<[u64; 1], TokenView> for Agreed {
    ghost use Rattle.std.specs.Prelude.{[]};
    ghost use Rattle.bench_pact.specs.Agree.{knower, Kept};

    ghost holds = { Kept };

    ghost first = { knower [] };
}

/// The keeper adds a place, and has it in hand.
pub struct Adding;

impl Outcome<[u64; 1], TokenView> for Adding {
    ghost use Rattle.bench_pact.specs.Agree.{Adds};

    ghost then = { Adds };
}

/// What a holder has done now. Each call picks it.
pub trait HolderDeed {
    ghost use Rattle.bench_pact.specs.declared.Deeds.{Deeds};

    ghost deeds: { Deeds };
}

impl HolderDeed for Brand {
    ghost use Rattle.bench_pact.specs.Agree.{blank};

    ghost deeds = { blank };
}

/// The keeper writes anew what the holder in hand has done.
pub struct Writing<W: HolderDeed>(PhantomData<W>);

impl<W: HolderDeed> Outcome<[u64; 1], TokenView> for Writing<W> {
    ghost use Rattle.bench_pact.specs.Agree.{Writes};

    ghost then = { Writes W.deeds };
}

/// A token that knows nothing is cut off.
pub struct Spare;

impl Split<TokenView> for Spare {
    ghost use Rattle.bench_pact.specs.Agree.{nobody};

    ghost left = { λ v. v };

    ghost right = { λ v. nobody };
}

/// The holder in hand is cut off, or is taken in hand.
pub struct HolderCut;

impl Split<TokenView> for HolderCut {
    ghost use Rattle.bench_pact.specs.Agree.{keeper_of, holder_of};

    ghost left = { keeper_of };

    ghost right = { holder_of };
}

impl Join<TokenView> for HolderCut {
    ghost use Rattle.bench_pact.specs.Agree.{joined, nobody};

    ghost both = { joined };

    ghost spent = { nobody };
}

pub type PactCell = RuledSeqCell<[u64; 1], TokenView, Agreed, 1>;

pub type PactToken = Pass<[u64; 1], TokenView>;

/// A new cell, with its keeper.
pub fn begin(alloc: Global) -> Result<(PactCell, PactToken), AllocError>
    ensures { IfOk result (λ c. (c.1.table_id ≡ c.0.table.shared.table_id) × (cell_view c.1 ≡ knower [])) }
{
    PactCell::ruled(alloc, [0])
}

/// A new holder, at the next place.
pub fn add<R: Wait>(rt: &R, cell: &PactCell, keeper: &mut PactToken) -> PactToken
    requires cell { keeper.old.table_id ≡ cell.now.table.shared.table_id }
    requires view { IsKeeper (cell_view keeper.old) }
    ensures keeper { (keeper.new.table_id ≡ keeper.old.table_id) × (cell_view keeper.new ≡ knower ((cell_view keeper.old).all ++ blank ∷ [])) }
    ensures holder { (result.table_id ≡ keeper.old.table_id) × (result.me.1 ≡ []) × (cell_view result ≡ holder (length (cell_view keeper.old).all) blank) }
{
    cell.swap_as::<Adding, R>(rt, keeper, [0]);
    cell.split_pass::<HolderCut>(keeper)
}

// Writes anew what a holder has done. Keeper and holder agreed on what it was. The act is there for the caller's pick of `W`.
fn write<W: HolderDeed, R: Wait>(
    rt: &R,
    cell: &PactCell,
    keeper: &mut PactToken,
    mine: &mut PactToken,
    _act: &Act,
)
    requires cell { (keeper.old.table_id ≡ cell.now.table.shared.table_id) × (mine.old.table_id ≡ keeper.old.table_id) × (mine.old.me.1 ≡ []) }
    requires view { IsKeeper (cell_view keeper.old) × IsHolder (cell_view mine.old) }
    ensures tokens { (keeper.new.table_id ≡ keeper.old.table_id) × (mine.new.table_id ≡ mine.old.table_id) × (mine.new.me.1 ≡ []) }
    ensures agreed { slice_get (cell_view keeper.old).all (cell_view mine.old).place ≡ Some (cell_view mine.old).deeds }
    ensures keeper { cell_view keeper.new ≡ knower (slice_set (cell_view keeper.old).all (cell_view mine.old).place W.deeds) }
    ensures holder { cell_view mine.new ≡ holder (cell_view mine.old).place W.deeds }
{
    let spare = cell.split_pass::<Spare>(keeper);
    let theirs = mem::replace(mine, spare);
    cell.join_pass::<HolderCut>(keeper, theirs);
    cell.swap_as::<Writing<W>, R>(rt, keeper, [0]);
    *mine = cell.split_pass::<HolderCut>(keeper);
}

/// Adds what a holder does to its deeds, on which keeper and holder agreed.
pub fn note<R: Wait>(
    rt: &R,
    cell: &PactCell,
    keeper: &mut PactToken,
    mine: &mut PactToken,
    act: &Act,
)
    requires cell { (keeper.old.table_id ≡ cell.now.table.shared.table_id) × (mine.old.table_id ≡ keeper.old.table_id) × (mine.old.me.1 ≡ []) }
    requires view { IsKeeper (cell_view keeper.old) × IsHolder (cell_view mine.old) }
    ensures tokens { (keeper.new.table_id ≡ keeper.old.table_id) × (mine.new.table_id ≡ mine.old.table_id) × (mine.new.me.1 ≡ []) }
    ensures agreed { slice_get (cell_view keeper.old).all (cell_view mine.old).place ≡ Some (cell_view mine.old).deeds }
    ensures keeper { cell_view keeper.new ≡ knower (slice_set (cell_view keeper.old).all (cell_view mine.old).place (after act.now (cell_view mine.old).deeds)) }
    ensures holder { cell_view mine.new ≡ holder (cell_view mine.old).place (after act.now (cell_view mine.old).deeds) }
{
    write::<Brand, R>(rt, cell, keeper, mine, act);
}
