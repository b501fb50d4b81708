//! Any table as one that is asked where the edges of a location stand, and cannot tell.

use crate::leaving::Leaving;
use examination::bounds::check_limits;
use refusal::fault::TableFault;
use table::questions::Table;
use table::record::{Edge, Process, Signal, Term};
use table::site::Site;

/// Any table, which knows nothing more of itself.
#[derive(Clone, Copy)]
pub struct Scanned<'a, T> {
    pub table: &'a T,
}

impl<'a, T: Table> Table for Scanned<'a, T> {
    ghost lists = { λ s. T.lists s.table.now };

    fn process_count(&self) -> usize {
        self.table.process_count()
    }

    fn signal_count(&self) -> usize {
        self.table.signal_count()
    }

    fn edge_count(&self) -> usize {
        self.table.edge_count()
    }

    fn term_count(&self) -> usize {
        self.table.term_count()
    }

    fn process(&self, p: usize, place: &mut Process) -> bool {
        self.table.process(p, place)
    }

    fn signal(&self, s: usize) -> Option<Signal> {
        self.table.signal(s)
    }

    fn edge(&self, k: usize) -> Option<Edge> {
        self.table.edge(k)
    }

    fn term(&self, i: usize) -> Option<Term> {
        self.table.term(i)
    }
}

#[tactic(auto)]
impl<'a, T: Table> Leaving for Scanned<'a, T> {
    fn check_limits(&self) -> Result<(), TableFault> {
        check_limits(self.table)
    }

    fn next_leaving(&self, _site: Site, k: usize) -> usize {
        k
    }
}
