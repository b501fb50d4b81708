//! A book read as a table, with the memory that it is lent.
ghost use Rattle.std.specs.Prelude.{◌≡◌, map, take};
ghost use Rattle.book.specs.Books.{lists_of, plain};

use crate::book::Book;
use table::questions::Table;
use table::record::{Edge, Process, Signal, Term};

/// A book with the memory that it is lent.
#[derive(Clone, Copy)]
pub struct View<'a> {
    pub(crate) book: &'a Book,
    pub(crate) edges: &'a [Edge],
    pub(crate) terms: &'a [Term],
}

impl Book {
    /// The book as a table, in the memory that it is lent.
    pub fn view<'a>(&'a self, edges: &'a [Edge], terms: &'a [Term]) -> View<'a>
        ensures book { result.book.now ≡ self.now }
        ensures edges { result.edges.now ≡ edges.now }
        ensures terms { result.terms.now ≡ terms.now }
    {
        View {
            book: self,
            edges,
            terms,
        }
    }
}

impl<'a> View<'a> {
    /// The edges that the book has and the memory holds.
    fn edges(&self) -> &'a [Edge]
        ensures { result.now ≡ take self.now.book.now.edges self.now.edges.now }
    {
        let count = usize::from(self.book.edges).min(self.edges.len());
        &self.edges[..count]
    }

    fn terms(&self) -> &'a [Term]
        ensures { result.now ≡ take self.now.book.now.terms self.now.terms.now }
    {
        let count = usize::from(self.book.terms).min(self.terms.len());
        &self.terms[..count]
    }
}

#[tactic(auto, unfolding(crate::specs::Books::lists_of))]
impl<'a> Table for View<'a> {
    ghost lists = { λ v. lists_of v.book.now v.edges.now v.terms.now };

    fn process_count(&self) -> usize {
        self.book.processes.len()
    }

    fn signal_count(&self) -> usize {
        self.book.signals.len()
    }

    fn edge_count(&self) -> usize {
        self.edges().len()
    }

    fn term_count(&self) -> usize {
        self.terms().len()
    }

    fn process(&self, p: usize, place: &mut Process) -> bool {
        let Some(process) = self.book.processes.get(p) else {
            return false;
        };
        *place = *process;
        true
    }

    fn signal(&self, s: usize) -> Option<Signal> {
        self.book.signals.get(s).copied()
    }

    fn edge(&self, k: usize) -> Option<Edge> {
        self.edges().get(k).copied()
    }

    fn term(&self, i: usize) -> Option<Term> {
        let term = self.terms().get(i)?;
        Some(Term {
            operation: term.operation.min(15),
            argument: term.argument,
        })
    }
}
