//! Marking a book, and closing it by its marks.
ghost use Rattle.std.specs.Prelude.{◌≡◌, ◌↔◌, List, None, Ok, IsOk, OnOk, OnErr};
ghost use Rattle.book.specs.Books.{lists_of, pages, room, lacking, shut, Dealt, Whole};
ghost use Rattle.book.specs.Calls.{mark, ready, close, empty, Does};
ghost use Rattle.book.specs.Faults.{said, done};
ghost use Rattle.book.specs.Histories.{Entry, Follows, MarkedSince, Histories, ClosesAs};
ghost use Rattle.closing.specs.Layers.{layered};
ghost use Rattle.marks.specs.Words.{marking};
ghost use Rattle.std.specs.Option.{option_map};

use crate::book::Book;
use crate::fault::BookFault;
use crate::view::View;
use closing::close::{close_by, unclosed};
use closing::layer::Layer;
use closing::test::measure;
use table::record::{Edge, Term};

impl Book {
    /// Tests the table that the book is, and where it passes keeps its least marks; answers how many they are.
    #[tactic(auto, using(crate::proofs::Histories::marking_call))]
    pub fn mark(&mut self, edges: &[Edge], terms: &[Term]) -> Result<usize, BookFault>
        ensures does { Dealt (lacking self.old edges.now terms.now) (room edges.now terms.now) mark (pages self.old edges.now terms.now) (said result) (pages self.new edges.now terms.now) }
        ensures whole { OnOk result (Whole self.new edges.now terms.now) }
        ensures refused { OnErr result (self.new ≡ self.old) }
        ensures histories { Histories (pages self.new edges.now terms.now) }
    {
        self.check_memory(edges, terms)?;
        let (marks, _) = measure(&self.view(edges, terms))?;
        self.marks = Some(marks);
        Ok(marks.total() as usize)
    }

    /// Whether marks are kept.
    #[tactic(auto, using(crate::proofs::Histories::ready_call))]
    pub fn ready(&self) -> Result<(), BookFault>
        ensures does { (edges terms : _) → Does (room edges terms) ready (pages self.now edges terms) (done result) (pages self.now edges terms) }
        ensures histories { (edges terms : _) → Histories (pages self.now edges terms) }
        ensures law { (edges terms : _) (es : List Entry) → Follows empty es (pages self.now edges terms) → IsOk result ↔ MarkedSince es }
    {
        if self.marks.is_none() {
            return Err(BookFault::Unmarked);
        }
        Ok(())
    }

    /// The book closed by the marks that it keeps, or as it is where it keeps none.
    pub fn close<'a>(&'a self, edges: &'a [Edge], terms: &'a [Term]) -> Layer<View<'a>>
        ensures does { Does (room edges.now terms.now) close (pages self.now edges.now terms.now) (Ok 0) (pages self.now edges.now terms.now) }
        ensures below { lists_of result.below.book.now result.below.edges.now result.below.terms.now ≡ lists_of self.now edges.now terms.now }
        ensures meaning { layered result.plan (lists_of result.below.book.now result.below.edges.now result.below.terms.now) ≡ shut (lacking self.now edges.now terms.now) (option_map marking self.now.marks) (lists_of self.now edges.now terms.now) }
        ensures histories { Histories (pages self.now edges.now terms.now) }
        ensures law { lacking self.now edges.now terms.now ≡ None → (es : List Entry) → Follows empty es (pages self.now edges.now terms.now) → ClosesAs es (lists_of self.now edges.now terms.now) (layered result.plan (lists_of result.below.book.now result.below.edges.now result.below.terms.now)) }
    {
        self.shut(edges, terms)
    }

    /// Closes by the kept marks, if there are any and the memory is whole.
    fn shut<'a>(&'a self, edges: &'a [Edge], terms: &'a [Term]) -> Layer<View<'a>>
        ensures below { lists_of result.below.book.now result.below.edges.now result.below.terms.now ≡ lists_of self.now edges.now terms.now }
        ensures meaning { layered result.plan (lists_of result.below.book.now result.below.edges.now result.below.terms.now) ≡ shut (lacking self.now edges.now terms.now) (option_map marking self.now.marks) (lists_of self.now edges.now terms.now) }
    {
        let view = self.view(edges, terms);
        match &self.marks {
            Some(marks) if self.check_memory(edges, terms).is_ok() => close_by(view, marks),
            _ => unclosed(view),
        }
    }
}
