// How one event came of another, ready to be told.
ghost use Rattle.std.specs.Prelude.{◌++◌, codes};
ghost use Rattle.stepper_questions.specs.WhyView.{chain_text, link_text, links_text, reason_text, relation_text};
ghost use Rattle.stepper_streams.specs.Outlet.{Tells};

use crate::cell::ToldCell;
use crate::showing::put_cell;
use ids::names::EventName;
use std::io::Write;
use stepper_printing::names::put_event;
use stepper_streams::outlet::Outlet;

/// A step from an event to a later one, by a cell; or two events that cross at it.
#[derive(Drop)]
pub(crate) struct ChainLink {
    pub from: EventName,
    pub to: EventName,
    pub cell: ToldCell,
}

/// How a later event has to do with an earlier one.
#[derive(Drop)]
pub(crate) enum Relation {
    /// It came of it, by these steps.
    Chained(Vec<ChainLink>),
    /// It did not, but the two cross.
    Crossed(ChainLink),
    Neither,
}

/// How the later of two events came of the earlier.
#[derive(Drop)]
pub struct ToldReason {
    pub(crate) event: EventName,
    pub(crate) other: EventName,
    pub(crate) relation: Relation,
}

fn put_link<W: Write>(link: &ChainLink, out: &mut Outlet<W>)
    ensures { Tells W.contents out.old out.new (link_text link.now) }
{
    out.put(" ");
    put_event(link.from, out);
    out.put(" ");
    put_event(link.to, out);
    out.put(" ");
    put_cell(&link.cell, out);
    out.put("\n");
}

fn put_links<W: Write>(links: &[ChainLink], out: &mut Outlet<W>)
    ensures { Tells W.contents out.old out.new (links_text links.now) }
{
    for link in links {
        put_link(link, out);
    }
}

/// Puts how many steps a chain has, and each of them.
fn put_chain<W: Write>(links: &[ChainLink], out: &mut Outlet<W>)
    ensures { Tells W.contents out.old out.new (chain_text links.now) }
{
    out.put_number(links.len());
    out.put("\n");
    put_links(links, out);
}

fn put_crossed<W: Write>(link: &ChainLink, out: &mut Outlet<W>)
    ensures { Tells W.contents out.old out.new (codes "crossed\n" ++ link_text link.now) }
{
    out.put("crossed\n");
    put_link(link, out);
}

fn put_relation<W: Write>(relation: &Relation, out: &mut Outlet<W>)
    ensures { Tells W.contents out.old out.new (relation_text relation.now) }
{
    match relation {
        Relation::Chained(links) => put_chain(links.as_slice(), out),
        Relation::Crossed(link) => put_crossed(link, out),
        Relation::Neither => out.put("none\n"),
    }
}

/// Puts how the later of two events came of the earlier.
pub fn put_reason<W: Write>(told: &ToldReason, out: &mut Outlet<W>)
    ensures { Tells W.contents out.old out.new (reason_text told.now) }
{
    out.put("why ");
    put_event(told.event, out);
    out.put(" ");
    put_event(told.other, out);
    out.put(" ");
    put_relation(&told.relation, out);
}
