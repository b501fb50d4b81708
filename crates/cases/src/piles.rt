//! Puts closing layers on one another, and says how often a question to such a pile asks for the edge count of the table below it.

use closing::close::close;
use loading::scanned::Scanned;
use std::cell::Cell;
use std::marker::PhantomData;
use table::questions::Table;
use table::record::{Edge, Process, Signal, Term};

/// A table that counts the questions for its edge count.
#[derive(Clone, Copy)]
struct Counted<'a, T> {
    table: &'a T,
    asked: &'a Cell<u64>,
}

impl<'a, T: Table> Table for Counted<'a, T> {
    ghost lists = { λ s. T.Table.lists s.table.now };

    fn process_count(&self) -> usize {
        self.table.process_count()
    }

    fn signal_count(&self) -> usize {
        self.table.signal_count()
    }

    fn edge_count(&self) -> usize {
        self.asked.set(self.asked.get().wrapping_add(1));
        self.table.edge_count()
    }

    fn term_count(&self) -> usize {
        self.table.term_count()
    }

    fn process(&self, p: usize, place: &mut Process) -> bool {
        self.table.process(p, place)
    }

    fn signal(&self, s: usize) -> Option<Signal> {
        self.table.signal(s)
    }

    fn edge(&self, k: usize) -> Option<Edge> {
        self.table.edge(k)
    }

    fn term(&self, i: usize) -> Option<Term> {
        self.table.term(i)
    }
}

/// How many layers are still to come, as a type: each layer is a type of its own.
trait Height {
    /// Puts the layers on the table, whose own height is given, and tells of each.
    fn pile<T: Table>(
        rt: &HostRuntime,
        table: &T,
        asked: &Cell<u64>,
        height: u8,
    ) -> anyhow::Result<()>;
}

struct Done;

struct OneMore<H> {
    rest: PhantomData<H>,
}

type Four<H> = OneMore<OneMore<OneMore<OneMore<H>>>>;

type Sixteen<H> = Four<Four<Four<Four<H>>>>;

type ThirtyTwo = Sixteen<Sixteen<Done>>;

impl Height for Done {
    fn pile<T: Table>(
        _rt: &HostRuntime,
        _table: &T,
        _asked: &Cell<u64>,
        _height: u8,
    ) -> anyhow::Result<()> {
        Ok(())
    }
}

impl<H: Height> Height for OneMore<H> {
    fn pile<T: Table>(
        rt: &HostRuntime,
        table: &T,
        asked: &Cell<u64>,
        height: u8,
    ) -> anyhow::Result<()> {
        let layer = close(Scanned { table });
        let height = height.wrapping_add(1);
        tell(rt, &layer, asked, height)?;
        H::pile(rt, &layer, asked, height)
    }
}

/// Of each sort of question, how often one asks; of the edges, the one that asks most.
fn tell<T: Table>(rt: &HostRuntime, pile: &T, asked: &Cell<u64>, height: u8) -> anyhow::Result<()> {
    asked.set(0);
    let edges = pile.edge_count();
    let count = asked.replace(0);
    pile.process(0, &mut Process::BLANK);
    let process = asked.replace(0);
    pile.signal(0);
    let signal = asked.replace(0);
    let mut edge = 0;
    for k in 0..edges {
        pile.edge(k);
        edge = asked.replace(0).max(edge);
    }
    println!(rt; "{height}: edge count {count}, process {process}, signal {signal}, edge {edge}")?;
    Ok(())
}

/// For piles of 1 to 32 layers on the table.
pub(crate) fn tell_piles<T: Table>(rt: &HostRuntime, table: &T) -> anyhow::Result<()> {
    println!(rt; "so many layers: how often a question asks for the edge count below")?;
    let asked = Cell::new(0);
    let table = Counted {
        table,
        asked: &asked,
    };
    ThirtyTwo::pile(rt, &table, &asked, 0)
}
