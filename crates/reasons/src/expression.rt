//! What is wrong with an expression.
ghost use Rattle.std.specs.Prelude.{◌≡◌, ℕ, ◌^◌, ◌<◌, is_none, IfErr, IfSome};
ghost use Rattle.std.specs.Result.{result_ok};
ghost use Rattle.reasons.specs.Wrongs.{Misses, Stops};
ghost use Rattle.table.specs.Expressions.{depth_after, fitting, formed, operands, part, sound};
ghost use Rattle.table.specs.Records.{operation_of};

use crate::flaw::Wrong;
use table::expression::is_there;
use table::limits;
use table::questions::Table;
use table::record::{Operation, Span, Term};

/// What is wrong first with an expression of a process with so many variables.
#[tactic(auto, unfolding(table::specs::Expressions::sound))]
pub fn find_wrong<T: Table>(table: &T, span: Span, variables: u8) -> Option<Wrong>
    ensures test { is_none result ≡ sound variables (T.lists table.now).terms span }
    ensures holds { IfSome result (λ w. Misses variables (T.lists table.now).terms span w) }
{
    if span.count == 0 || span.count > limits::EXPRESSION {
        return Some(Wrong::Count(span.count));
    }
    if !is_there(table, span) {
        return Some(Wrong::Beyond);
    }
    find_ill_formed(table, span, variables)
}

/// The first term that may not stand where it does, or how many values are left at the end.
fn find_ill_formed<T: Table>(table: &T, span: Span, variables: u8) -> Option<Wrong>
    ensures test { is_none result ≡ formed variables (part (T.lists table.now).terms span) 0 }
    ensures holds { IfSome result (λ w. Misses variables (T.lists table.now).terms span w) }
{
    let start = usize::from(span.start);
    let mut depth = 0;
    for i in start..start + usize::from(span.count) {
        let Some(term) = table.term(i) else {
            break;
        };
        match depth_after(term, i, variables, depth) {
            Ok(after) => depth = after,
            Err(wrong) => return Some(wrong),
        }
    }
    (depth != 1).then_some(Wrong::Left(depth))
}

/// How many values there are after term i, where `depth` were before; or why it may not stand there.
fn depth_after(term: Term, i: usize, variables: u8, depth: usize) -> Result<usize, Wrong>
    requires { depth < 2 ^ 32 }
    ensures value { result_ok result ≡ depth_after variables term depth }
    ensures holds { IfErr result (λ w. Stops variables term i depth w) }
{
    if let Some(wrong) = find_unfit(term, i, variables) {
        return Err(wrong);
    }
    let operands = operand_count(term.does());
    if operands > depth {
        return Err(Wrong::Lacking(i));
    }
    Ok(depth + 1 - operands)
}

/// Why term i may stand in no expression of a process with so many variables.
fn find_unfit(term: Term, i: usize, variables: u8) -> Option<Wrong>
    ensures test { is_none result ≡ fitting variables term }
    ensures holds { (d : ℕ) → IfSome result (λ w. Stops variables term i d w) }
{
    let argument = term.argument;
    match term.does() {
        Operation::Number => None,
        Operation::Variable => {
            let there = (0..i16::from(variables)).contains(&argument);
            (!there).then_some(Wrong::NoVariable {
                term: i,
                variable: argument,
            })
        }
        Operation::Unknown => Some(Wrong::Unknown {
            term: i,
            operation: term.operation,
        }),
        _ => (argument != 0).then_some(Wrong::Argument { term: i, argument }),
    }
}

/// How many values the operation takes before it gives one.
fn operand_count(operation: Operation) -> usize
    ensures { result ≡ operands operation }
{
    match operation {
        Operation::Number | Operation::Variable | Operation::Unknown => 0,
        Operation::Not => 1,
        _ => 2,
    }
}
