//! A book that is built up by a list of calls.
ghost use Rattle.std.specs.Prelude.{◌≡◌, ◌*◌, ◌≤◌, List, ◌++◌, length, None};
ghost use Rattle.book.specs.Books.{lacking, pages, room};
ghost use Rattle.book.specs.Calls.{empty};
ghost use Rattle.book.specs.Histories.{Entry};
ghost use Rattle.bridge.specs.Answers.{answers_of, Booked, Made, Written};
ghost use Rattle.bridge.specs.Calls.{call_count, room_in};
ghost use Rattle.bridge.specs.Laid.{laid, spelled};
ghost use Rattle.bridge.specs.Tables.{size_of, words_of};

use crate::bytes::pair_at;
use crate::calls::make;
use crate::codes::number_code;
use crate::laying::put;
use crate::tables::{put_table, size_of};
use book::book::Book;
use table::questions::Table;
use table::record::{Edge, Term};

/// Bytes ahead of the calls: how many edges and terms the memories hold.
const HEAD: usize = 4;

/// Bytes of a call.
const CALL: usize = 64;

/// The most calls that are made.
const CALLS: usize = 4096;

/// The places that there are; somewhat more than a book may fill.
const EDGES: usize = 2080;

const TERMS: usize = 4128;

fn call_count(calls: &[u8]) -> usize
    ensures { result ≡ call_count calls.now }
{
    (calls.len().saturating_sub(HEAD) / CALL).min(CALLS)
}

/// Makes the first so many calls, and writes what they answer.
fn make_all(
    book: &mut Book,
    edges: &mut [Edge],
    terms: &mut [Term],
    calls: &[u8],
    count: usize,
    answers: &mut [u8],
)
    requires count { count ≤ 4096 }
    requires answers { 8 * count ≤ length answers.old }
    requires new { pages book.old edges.old terms.old ≡ empty }
    requires lent { lacking book.old edges.old terms.old ≡ None }
    requires room { room edges.old terms.old ≡ room_in calls.now }
    ensures made { (es : List Entry) × Made calls.now count es (pages book.new edges.new terms.new) × (answers.new ≡ laid (spelled (answers_of es)) answers.old) }
    ensures lent { lacking book.new edges.new terms.new ≡ None }
    ensures length { length answers.new ≡ length answers.old }
{
    for n in 0..count {
        let answer = make(book, edges, terms, calls, HEAD + CALL * n);
        put(answers, 8 * n, &number_code(answer).to_be_bytes());
    }
}

/// Writes the answers, the book and what closing it means, if there is room for all of it; answers how many bytes that takes.
fn write<T: Table, C: Table>(answers: &[u8], book: &T, closed: &C, out: &mut [u8]) -> usize
    requires answers { length answers.now ≤ 32768 }
    requires book { size_of (T.lists book.now) ≤ 16384 }
    requires closed { size_of (C.lists closed.now) ≤ 16384 }
    ensures { Written (answers.now ++ spelled (words_of (T.lists book.now)) ++ spelled (words_of (C.lists closed.now))) result out.old out.new }
{
    let start = answers.len();
    let middle = start + 8 * size_of(book);
    let end = middle + 8 * size_of(closed);
    if end <= out.len() {
        put(out, 0, answers);
        put_table(book, start, out);
        put_table(closed, middle, out);
    }
    end
}

/// Makes the calls on a new book, closes it, and writes what came of it.
fn run(edges: &mut [Edge], terms: &mut [Term], calls: &[u8], out: &mut [u8]) -> usize
    requires { room edges.old terms.old ≡ room_in calls.now }
    ensures { Booked calls.now result out.old out.new }
{
    let mut book = Book::new();
    let mut answers = [0; 8 * CALLS];
    let count = call_count(calls);
    make_all(&mut book, edges, terms, calls, count, &mut answers);
    let closed = book.close(edges, terms);
    write(
        &answers[..8 * count],
        &book.view(edges, terms),
        &closed,
        out,
    )
}

/// Makes the calls in memories of the lengths that are given ahead of them.
pub(crate) fn make_and_close(calls: &[u8], out: &mut [u8]) -> u64
    ensures { Booked calls.now result out.old out.new }
{
    let mut edges = [Edge::default(); EDGES];
    let mut terms = [Term::default(); TERMS];
    let edge_count = usize::from(pair_at(calls, 0)).min(EDGES);
    let term_count = usize::from(pair_at(calls, 2)).min(TERMS);
    run(
        &mut edges[..edge_count],
        &mut terms[..term_count],
        calls,
        out,
    ) as u64
}
