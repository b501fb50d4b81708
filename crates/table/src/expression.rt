//! Postfix expressions: which variables one mentions, whether it is well formed, and its value.
ghost use Rattle.std.specs.Prelude.{◌≡◌, ◌+◌, ◌^◌, ◌<◌, ◌&&◌, Bool, length, nat_le};
ghost use Rattle.table.specs.declared.record.Term.{Term};
ghost use Rattle.table.specs.Records.{operation_of};
ghost use Rattle.table.specs.Expressions.{part, mentions, reads, operands, fitting, depth_after, formed, sound};
ghost use Rattle.std.specs.List.{list_any};

use crate::limits;
use crate::questions::Table;
use crate::record::{Operation, Span, Term};

impl Term {
    pub fn reads(&self, variable: u8) -> bool
        ensures { result ≡ reads variable self.now }
    {
        self.does() == Operation::Variable && self.argument == i16::from(variable)
    }

    /// How many values the term takes before it gives one.
    fn operands(&self) -> usize
        ensures { result ≡ operands (operation_of self.now.operation) }
    {
        match self.does() {
            Operation::Number | Operation::Variable | Operation::Unknown => 0,
            Operation::Not => 1,
            _ => 2,
        }
    }

    /// Whether the term may stand in an expression of a process with so many variables.
    fn fits(&self, variables: u8) -> bool
        ensures { result ≡ fitting variables self.now }
    {
        match self.does() {
            Operation::Number => true,
            Operation::Variable => (0..i16::from(variables)).contains(&self.argument),
            Operation::Unknown => false,
            _ => self.argument == 0,
        }
    }

    /// How many values there are after the term, where `depth` were before.
    fn depth_after(&self, variables: u8, depth: usize) -> Option<usize>
        requires { depth < 2 ^ 32 }
        ensures { result ≡ depth_after variables self.now depth }
    {
        let operands = self.operands();
        if self.fits(variables) && operands <= depth {
            Some(depth + 1 - operands)
        } else {
            None
        }
    }
}

/// Whether the expression reads the variable.
pub fn mentions<T: Table>(table: &T, span: Span, variable: u8) -> bool
    ensures { result ≡ mentions (part (T.lists table.now).terms span) variable }
{
    any_term(table, span, |term| term.reads(variable))
}

/// Whether some term of the span passes the test.
pub fn any_term<T: Table, F: Fn(Term) -> bool>(table: &T, span: Span, test: F) -> bool
    requires { F.IsAlwaysCallable test }
    ensures { (f : Term → Bool) → ((t : Term) (b : Bool) → F.post test t b → b ≡ f t) → result ≡ list_any f (part (T.lists table.now).terms span) }
{
    let start = usize::from(span.start);
    for i in start..start + usize::from(span.count) {
        let Some(term) = table.term(i) else {
            return false;
        };
        if test(term) {
            return true;
        }
    }
    false
}

/// Whether the part of the term list is a well-formed expression of a process with so many variables.
#[tactic(auto, unfolding(crate::specs::Expressions::sound))]
pub fn is_sound<T: Table>(table: &T, span: Span, variables: u8) -> bool
    ensures { result ≡ sound variables (T.lists table.now).terms span }
{
    is_there(table, span) && is_formed(table, span, variables)
}

/// Whether the span has as many terms as an expression may have, all of them in the term list.
pub fn is_there<T: Table>(table: &T, span: Span) -> bool
    ensures { result ≡ ((nat_le 1 span.count && nat_le span.count 16) && nat_le (span.start + span.count) (length (T.lists table.now).terms)) }
{
    if span.count == 0 || span.count > limits::EXPRESSION {
        return false;
    }
    usize::from(span.start) + usize::from(span.count) <= table.term_count()
}

/// Whether no operation lacks an operand, and one value alone is left at the end.
fn is_formed<T: Table>(table: &T, span: Span, variables: u8) -> bool
    ensures { result ≡ formed variables (part (T.lists table.now).terms span) 0 }
{
    let start = usize::from(span.start);
    let mut depth = 0;
    for i in start..start + usize::from(span.count) {
        let Some(term) = table.term(i) else {
            break;
        };
        let Some(after) = term.depth_after(variables, depth) else {
            return false;
        };
        depth = after;
    }
    depth == 1
}
