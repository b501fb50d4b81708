//! The edits of a book. One that is accepted drops the kept marks; one that is refused changes nothing.
ghost use Rattle.std.specs.Prelude.{◌≡◌, ◌+◌, ◌++◌, ◌≤◌, OnOk, OnErr, length, take, drop, if◌then◌else◌, nat_lt, slice_set, Some, None};
ghost use Rattle.book.specs.Books.{lists_of, pages, room, lack, lacking, Dealt, Whole};
ghost use Rattle.book.specs.Calls.{edit, declare_process, declare_signal, enter_expression, enter_edge, change_edge, strike_edge, bad_terms, numbered_edge, empty};
ghost use Rattle.book.specs.Faults.{book_refusal, said, done};
ghost use Rattle.std.specs.List.{list_any};
ghost use Rattle.refusal.specs.Refusals.{outcome};
ghost use Rattle.table.specs.Lists.{meant};

use crate::book::Book;
use crate::fault::BookFault;
use arrayvec::ArrayVec;
use examination::edge;
use refusal::fault::BadEdge;
use table::limits;
use table::record::{Edge, Process, Signal, Term};

#[tactic(auto, using(crate::proofs::Memories::after_writes), unfolding(crate::specs::Books::lists_of, crate::specs::Calls::Does, crate::specs::Calls::edit_refused, crate::specs::Calls::edited))]
impl Book {
    /// A book without anything in it.
    #[tactic(auto, unfolding(crate::specs::Books::lists_of))]
    pub fn new() -> Book
        ensures value { (edges terms : _) → pages result edges terms ≡ empty }
        ensures whole { (edges terms : _) → Whole result edges terms }
    {
        Book {
            processes: ArrayVec::new(),
            signals: ArrayVec::new(),
            edges: 0,
            terms: 0,
            marks: None,
        }
    }

    /// Whether the memories hold all that the book has in them.
    pub(crate) fn check_memory(&self, edges: &[Edge], terms: &[Term]) -> Result<(), BookFault>
        ensures value { outcome book_refusal result ≡ lacking self.now edges.now terms.now }
        ensures edges { OnOk result (self.now.edges ≤ length edges.now) }
        ensures terms { OnOk result (self.now.terms ≤ length terms.now) }
    {
        let no_edge = lack(self.edges, edges.len());
        let no_term = lack(self.terms, terms.len());
        match (no_edge, no_term) {
            (None, None) => Ok(()),
            (Some(place), None) | (None, Some(place)) => Err(BookFault::Full(place)),
            (Some(edge), Some(term)) => Err(BookFault::Full(edge.min(term))),
        }
    }

    /// Adds a process; answers its number.
    pub fn declare_process(
        &mut self,
        edges: &[Edge],
        terms: &[Term],
        process: &Process,
    ) -> Result<usize, BookFault>
        ensures does { Dealt (lacking self.old edges.now terms.now) (room edges.now terms.now) (edit (declare_process (meant process.now))) (pages self.old edges.now terms.now) (said result) (pages self.new edges.now terms.now) }
        ensures whole { OnOk result (Whole self.new edges.now terms.now) }
        ensures refused { OnErr result (self.new ≡ self.old) }
    {
        self.check_memory(edges, terms)?;
        let number = self.processes.len();
        if process.is_bad() {
            return Err(BookFault::Limit(number));
        }
        if number == limits::PROCESSES {
            return Err(BookFault::Full(number));
        }
        self.processes.push(*process);
        self.marks = None;
        Ok(number)
    }

    /// Adds a signal; answers its number.
    pub fn declare_signal(
        &mut self,
        edges: &[Edge],
        terms: &[Term],
        signal: Signal,
    ) -> Result<usize, BookFault>
        ensures does { Dealt (lacking self.old edges.now terms.now) (room edges.now terms.now) (edit (declare_signal signal)) (pages self.old edges.now terms.now) (said result) (pages self.new edges.now terms.now) }
        ensures whole { OnOk result (Whole self.new edges.now terms.now) }
        ensures refused { OnErr result (self.new ≡ self.old) }
    {
        self.check_memory(edges, terms)?;
        let number = self.signals.len();
        if signal.is_bad(self.processes.len()) {
            return Err(BookFault::Limit(number));
        }
        if number == limits::SIGNALS {
            return Err(BookFault::Full(number));
        }
        self.signals.push(signal);
        self.marks = None;
        Ok(number)
    }

    /// Adds the terms of an expression; answers the number of the first.
    pub fn enter_expression(
        &mut self,
        edges: &[Edge],
        terms: &mut [Term],
        expression: &[Term],
    ) -> Result<usize, BookFault>
        ensures does { Dealt (lacking self.old edges.now terms.old) (room edges.now terms.old) (edit (enter_expression expression.now)) (pages self.old edges.now terms.old) (said result) (pages self.new edges.now terms.new) }
        ensures whole { OnOk result (Whole self.new edges.now terms.new) }
        ensures after { OnOk result (terms.new ≡ take self.old.terms terms.old ++ expression.now ++ drop (self.old.terms + length expression.now) terms.old) }
        ensures refused { OnErr result (self.new ≡ self.old) }
        ensures untouched { OnErr result (terms.new ≡ terms.old) }
        ensures size { length terms.new ≡ length terms.old }
    {
        self.check_memory(edges, terms)?;
        let number = usize::from(self.terms);
        if is_bad(expression) {
            return Err(BookFault::Expression(number));
        }
        let end = number + expression.len();
        if end > limits::TERMS.min(terms.len()) {
            return Err(BookFault::Full(number));
        }
        terms[number..end].copy_from_slice(expression);
        self.terms = end as u16;
        self.marks = None;
        Ok(number)
    }

    /// Adds an edge; answers its number.
    pub fn enter_edge(
        &mut self,
        edges: &mut [Edge],
        terms: &[Term],
        edge: Edge,
    ) -> Result<usize, BookFault>
        ensures does { Dealt (lacking self.old edges.old terms.now) (room edges.old terms.now) (edit (enter_edge edge)) (pages self.old edges.old terms.now) (said result) (pages self.new edges.new terms.now) }
        ensures whole { OnOk result (Whole self.new edges.new terms.now) }
        ensures after { OnOk result (edges.new ≡ slice_set edges.old self.old.edges edge) }
        ensures refused { OnErr result (self.new ≡ self.old) }
        ensures untouched { OnErr result (edges.new ≡ edges.old) }
        ensures size { length edges.new ≡ length edges.old }
    {
        self.check_memory(edges, terms)?;
        let number = usize::from(self.edges);
        self.check_edge(edges, terms, number, &edge)?;
        if number + 1 > limits::EDGES.min(edges.len()) {
            return Err(BookFault::Full(number));
        }
        edges[number] = edge;
        self.edges += 1;
        self.marks = None;
        Ok(number)
    }

    /// Puts another edge in the place of edge k.
    pub fn change_edge(
        &mut self,
        edges: &mut [Edge],
        terms: &[Term],
        k: usize,
        edge: Edge,
    ) -> Result<(), BookFault>
        ensures does { Dealt (lacking self.old edges.old terms.now) (room edges.old terms.now) (edit (change_edge k edge)) (pages self.old edges.old terms.now) (done result) (pages self.new edges.new terms.now) }
        ensures whole { OnOk result (Whole self.new edges.new terms.now) }
        ensures after { OnOk result (edges.new ≡ slice_set edges.old k edge) }
        ensures refused { OnErr result (self.new ≡ self.old) }
        ensures untouched { OnErr result (edges.new ≡ edges.old) }
        ensures size { length edges.new ≡ length edges.old }
    {
        self.check_memory(edges, terms)?;
        self.check_edge(edges, terms, k, &edge)?;
        if k >= usize::from(self.edges) {
            return Err(BookFault::NoEdge(k));
        }
        edges[k] = edge;
        self.marks = None;
        Ok(())
    }

    /// Takes edge k out; later edges move down by one.
    pub fn strike_edge(
        &mut self,
        edges: &mut [Edge],
        terms: &[Term],
        k: usize,
    ) -> Result<(), BookFault>
        ensures does { Dealt (lacking self.old edges.old terms.now) (room edges.old terms.now) (edit (strike_edge k)) (pages self.old edges.old terms.now) (done result) (pages self.new edges.new terms.now) }
        ensures whole { OnOk result (Whole self.new edges.new terms.now) }
        ensures beyond { OnOk result (drop self.old.edges edges.new ≡ drop self.old.edges edges.old) }
        ensures refused { OnErr result (self.new ≡ self.old) }
        ensures untouched { OnErr result (edges.new ≡ edges.old) }
        ensures size { length edges.new ≡ length edges.old }
    {
        self.check_memory(edges, terms)?;
        let count = usize::from(self.edges);
        if k >= count {
            return Err(BookFault::NoEdge(k));
        }
        edges.copy_within(k + 1..count, k);
        self.edges -= 1;
        self.marks = None;
        Ok(())
    }

    /// Whether the edge may stand in the book, where it would have the number k.
    fn check_edge(
        &self,
        edges: &[Edge],
        terms: &[Term],
        k: usize,
        edge: &Edge,
    ) -> Result<(), BookFault>
        ensures { outcome book_refusal result ≡ numbered_edge k (lists_of self.now edges.now terms.now) edge.now }
    {
        let view = self.view(edges, terms);
        edge::check(&view, edge).map_err(|fault| BookFault::Edge(BadEdge { edge: k, fault }))
    }
}

/// The first of so many items that a memory of that length has no place for.
fn lack(count: u16, length: usize) -> Option<usize>
    ensures { result ≡ (if nat_lt length count then Some length else None) }
{
    (length < usize::from(count)).then_some(length)
}

/// Not 1 to 16 terms, or an operation above 15.
fn is_bad(expression: &[Term]) -> bool
    ensures { result ≡ bad_terms expression.now }
{
    let count = expression.len();
    count == 0 || count > usize::from(limits::EXPRESSION) || has_unknown(expression)
}

fn has_unknown(expression: &[Term]) -> bool
    ensures { result ≡ list_any (λ t. nat_lt 15 t.operation) expression.now }
{
    expression.iter().any(|term| term.operation > 15)
}
