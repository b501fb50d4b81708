//! The value of a postfix expression, and whether a guard is true.
ghost use Rattle.std.specs.Prelude.{◌≡◌, ◌≤◌, [], ◌∷◌, length, reverse, pos, is_some, if◌then◌else◌, Some, None};
ghost use Rattle.std.specs.Option.{option_map};
ghost use Rattle.table.specs.Expressions.{part, suits, sound};
ghost use Rattle.evaluation.specs.Values.{single, same, combined, operated, numbered, applied, evaluated, value_of, holds};

use arrayvec::ArrayVec;
use table::expression::is_there;
use table::questions::Table;
use table::record::{Operation, Span, Term};

/// The values that an expression has given so far and not yet taken, the top last. It has at most 16 terms, so it never
/// has more values.
type Stack = ArrayVec<i16, 16>;

/// The value of the expression; none where it is not well formed.
#[tactic(auto, using(crate::proofs::Evaluations::evaluated_formed), unfolding(crate::specs::Values::value_of, table::specs::Expressions::sound))]
pub fn evaluate<T: Table>(table: &T, span: Span, variables: &[i16]) -> Option<i16>
    ensures value { result ≡ value_of variables.now (T.lists table.now).terms span }
    ensures test { is_some result ≡ sound (length variables.now) (T.lists table.now).terms span }
{
    if !is_there(table, span) {
        return None;
    }
    run(table, span, variables)
}

/// Whether the guard is true: it has a value, and that is not 0.
pub fn is_true<T: Table>(table: &T, guard: Span, variables: &[i16]) -> bool
    ensures { result ≡ holds variables.now (T.lists table.now).terms guard }
{
    evaluate(table, guard, variables).is_some_and(|value| value != 0)
}

/// The one value that the terms leave.
fn run<T: Table>(table: &T, span: Span, variables: &[i16]) -> Option<i16>
    requires { span.count ≤ 16 }
    ensures { result ≡ evaluated variables.now (part (T.lists table.now).terms span) [] }
{
    let start = usize::from(span.start);
    let mut stack = Stack::new();
    for i in start..start + usize::from(span.count) {
        let Some(term) = table.term(i) else {
            break;
        };
        let value = apply(term, variables, &mut stack)?;
        stack.push(value);
    }
    only(&stack)
}

/// The value, where there is just one.
fn only(values: &[i16]) -> Option<i16>
    ensures { result ≡ single values.now }
{
    match values {
        [value] => Some(*value),
        _ => None,
    }
}

/// Takes the term's operands off the stack and answers the value that it gives, which is not yet put on; none where the
/// term is unknown, its argument does not fit or operands lack.
#[tactic(auto, unfolding(crate::specs::Values::applied))]
fn apply(term: Term, variables: &[i16], stack: &mut Stack) -> Option<i16>
    ensures { option_map (λ v. v ∷ reverse stack.new.items) result ≡ applied variables.now term (reverse stack.old.items) }
{
    match term.does() {
        Operation::Number => Some(term.argument),
        Operation::Variable => numbered(variables, term.argument),
        operation => operate(operation, term.argument, stack),
    }
}

/// The variable of that number, if there is one.
fn numbered(variables: &[i16], number: i16) -> Option<i16>
    ensures { result ≡ (if suits (length variables.now) Operation.Variable number then Some (numbered variables.now number) else None) }
{
    let i = usize::try_from(number).ok()?;
    variables.get(i).copied()
}

/// The same as `apply`, of an operation that takes operands and so has argument 0.
fn operate(operation: Operation, argument: i16, stack: &mut Stack) -> Option<i16>
    ensures { option_map (λ v. v ∷ reverse stack.new.items) result ≡ (if same argument (pos 0) then operated operation (reverse stack.old.items) else None) }
{
    if argument != 0 {
        return None;
    }
    match operation {
        Operation::Number | Operation::Variable | Operation::Unknown => None,
        Operation::Not => {
            let a = stack.pop()?;
            Some(i16::from(a == 0))
        }
        _ => {
            let b = stack.pop()?;
            let a = stack.pop()?;
            Some(combine(operation, a, b))
        }
    }
}

/// What an operation of two operands gives, `b` having been on top.
#[tactic(auto, using(std::proofs::lemmas::Int::wraps))]
fn combine(operation: Operation, a: i16, b: i16) -> i16
    ensures { result ≡ combined operation a b }
{
    match operation {
        Operation::Sum => a.wrapping_add(b),
        Operation::Difference => a.wrapping_sub(b),
        Operation::Equal => i16::from(a == b),
        Operation::Less => i16::from(a < b),
        Operation::Both => i16::from(a != 0 && b != 0),
        _ => 0,
    }
}
