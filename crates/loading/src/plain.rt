//! A loaded table is a table: each question is a read.
ghost use Rattle.loading.specs.Loading.{lists_of};

use crate::loaded::Loaded;
use table::questions::Table;
use table::record::{Edge, Process, Signal, Term};

impl Table for Loaded {
    ghost lists = { lists_of };

    fn process_count(&self) -> usize {
        self.process_count
    }

    fn signal_count(&self) -> usize {
        self.signal_count
    }

    fn edge_count(&self) -> usize {
        self.edge_count
    }

    fn term_count(&self) -> usize {
        self.term_count
    }

    fn process(&self, p: usize, place: &mut Process) -> bool {
        let Some(process) = self.processes[..self.process_count].get(p) else {
            return false;
        };
        *place = *process;
        true
    }

    fn signal(&self, s: usize) -> Option<Signal> {
        self.signals[..self.signal_count].get(s).copied()
    }

    fn edge(&self, k: usize) -> Option<Edge> {
        self.edges[..self.edge_count].get(k).copied()
    }

    fn term(&self, i: usize) -> Option<Term> {
        self.terms[..self.term_count].get(i).copied()
    }
}
