//! The calls on a book that bytes spell.
ghost use Rattle.std.specs.Prelude.{◌≡◌, ◌<◌, ◌^◌, length, None};
ghost use Rattle.book.specs.Books.{lacking, pages, room};
ghost use Rattle.book.specs.Calls.{Does};
ghost use Rattle.book.specs.Faults.{done, said};
ghost use Rattle.bridge.specs.Calls.{call_at, edge_at, expression_at, process_at, signal_at, span_at, term_at, timer_at, timers_at, values_at};
ghost use Rattle.table.specs.Lists.{meant};

use crate::bytes::{byte_at, pair_at, value_at};
use arrayvec::ArrayVec;
use book::book::Book;
use book::fault::BookFault;
use table::record::{Edge, Process, Signal, Span, Term, Timer};

/// Terms that are read of an expression, one more than it may have.
const TERMS: usize = 17;

fn timer_at(bytes: &[u8], i: usize) -> Timer
    requires { i < 2 ^ 62 }
    ensures { result ≡ timer_at bytes.now i }
{
    if byte_at(bytes, i) == 0 {
        Timer::Off
    } else {
        Timer::On(pair_at(bytes, i + 1))
    }
}

fn process_at(bytes: &[u8], i: usize) -> Process
    requires { i < 2 ^ 60 }
    ensures { meant result ≡ process_at bytes.now i }
{
    Process {
        locations: byte_at(bytes, i),
        first: byte_at(bytes, i + 1),
        variables: byte_at(bytes, i + 2),
        timers: byte_at(bytes, i + 3),
        values: values_at(bytes, i + 4),
        settings: timers_at(bytes, i + 20),
    }
}

fn values_at(bytes: &[u8], i: usize) -> [i16; 8]
    requires { i < 2 ^ 61 }
    ensures { result ≡ values_at bytes.now i }
{
    [
        value_at(bytes, i),
        value_at(bytes, i + 2),
        value_at(bytes, i + 4),
        value_at(bytes, i + 6),
        value_at(bytes, i + 8),
        value_at(bytes, i + 10),
        value_at(bytes, i + 12),
        value_at(bytes, i + 14),
    ]
}

fn timers_at(bytes: &[u8], i: usize) -> [Timer; 8]
    requires { i < 2 ^ 61 }
    ensures { result ≡ timers_at bytes.now i }
{
    [
        timer_at(bytes, i),
        timer_at(bytes, i + 3),
        timer_at(bytes, i + 6),
        timer_at(bytes, i + 9),
        timer_at(bytes, i + 12),
        timer_at(bytes, i + 15),
        timer_at(bytes, i + 18),
        timer_at(bytes, i + 21),
    ]
}

fn signal_at(bytes: &[u8], i: usize) -> Signal
    requires { i < 2 ^ 60 }
    ensures { result ≡ signal_at bytes.now i }
{
    Signal {
        class: byte_at(bytes, i),
        destination: byte_at(bytes, i + 1),
    }
}

fn term_at(bytes: &[u8], i: usize) -> Term
    requires { i < 2 ^ 61 }
    ensures { result ≡ term_at bytes.now i }
{
    Term {
        operation: byte_at(bytes, i),
        argument: value_at(bytes, i + 1),
    }
}

fn expression_at(bytes: &[u8], i: usize) -> ArrayVec<Term, 17>
    requires { i < 2 ^ 60 }
    ensures { result.items ≡ expression_at bytes.now i }
{
    let mut terms = ArrayVec::new();
    for n in 0..usize::from(byte_at(bytes, i)).min(TERMS) {
        terms.push(term_at(bytes, i + 1 + 3 * n));
    }
    terms
}

fn span_at(bytes: &[u8], i: usize) -> Span
    requires { i < 2 ^ 61 }
    ensures { result ≡ span_at bytes.now i }
{
    Span {
        start: pair_at(bytes, i),
        count: byte_at(bytes, i + 2),
    }
}

fn edge_at(bytes: &[u8], i: usize) -> Edge
    requires { i < 2 ^ 60 }
    ensures { result ≡ edge_at bytes.now i }
{
    Edge {
        process: byte_at(bytes, i),
        from: byte_at(bytes, i + 1),
        to: byte_at(bytes, i + 2),
        kind: byte_at(bytes, i + 3),
        first: byte_at(bytes, i + 4),
        second: byte_at(bytes, i + 5),
        mode: byte_at(bytes, i + 6),
        guard: span_at(bytes, i + 7),
        value: span_at(bytes, i + 10),
    }
}

/// The answer of a call that has no number.
fn none(answer: Result<(), BookFault>) -> Result<usize, BookFault>
    ensures { said result ≡ done answer }
{
    answer.map(|()| 0)
}

/// Makes the call whose bytes begin at i; answers its number, or 0 where it has none.
#[tactic(auto, unfolding(crate::specs::Calls::call_at))]
pub(crate) fn make(
    book: &mut Book,
    edges: &mut [Edge],
    terms: &mut [Term],
    bytes: &[u8],
    i: usize,
) -> Result<usize, BookFault>
    requires { i < 2 ^ 58 }
    ensures does { lacking book.old edges.old terms.old ≡ None → Does (room edges.old terms.old) (call_at bytes.now i) (pages book.old edges.old terms.old) (said result) (pages book.new edges.new terms.new) }
    ensures lent { lacking book.old edges.old terms.old ≡ None → lacking book.new edges.new terms.new ≡ None }
    ensures edges { length edges.new ≡ length edges.old }
    ensures terms { length terms.new ≡ length terms.old }
{
    match byte_at(bytes, i) {
        0 => book.declare_process(edges, terms, &process_at(bytes, i + 1)),
        1 => book.declare_signal(edges, terms, signal_at(bytes, i + 1)),
        2 => book.enter_expression(edges, terms, &expression_at(bytes, i + 1)),
        3 => book.enter_edge(edges, terms, edge_at(bytes, i + 1)),
        4 => {
            let edge = edge_at(bytes, i + 3);
            none(book.change_edge(edges, terms, pair_at(bytes, i + 1).into(), edge))
        }
        5 => none(book.strike_edge(edges, terms, pair_at(bytes, i + 1).into())),
        6 => book.mark(edges, terms),
        7 => none(book.ready()),
        _ => {
            book.close(edges, terms);
            Ok(0)
        }
    }
}
