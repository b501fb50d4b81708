//! Whether an expression is marked: it mentions a variable that is marked where its edge begins.
ghost use Rattle.std.specs.Prelude.{◌≡◌};
ghost use Rattle.marks.specs.Rules.{marked};
ghost use Rattle.marks.specs.Words.{marking};
ghost use Rattle.survey.specs.Surveys.{hits};

use marks::marks::{Marks, Sort};
use table::expression::any_term;
use table::questions::Table;
use table::record::{Edge, Operation, Span, Term};

/// Whether the term reads a variable that is marked where the edge begins.
fn is_hit(marks: &Marks, edge: &Edge, term: Term) -> bool
    ensures { result ≡ hits (marking marks.now) edge.now term }
{
    term.does() == Operation::Variable
        && 0 <= term.argument
        && marks.has(Sort::Variable, edge.start(), term.argument as usize)
}

/// Whether the edge's expression is marked.
pub fn is_marked<T: Table>(table: &T, marks: &Marks, edge: &Edge, span: Span) -> bool
    ensures { result ≡ marked (T.lists table.now) (marking marks.now) edge.now span }
{
    any_term(table, span, |term| is_hit(marks, edge, term))
}
