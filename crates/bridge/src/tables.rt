//! Tables as numbers of 64 bits.
ghost use Rattle.std.specs.Prelude.{◌≡◌, ℕ, ◌+◌, ◌*◌, ◌<◌, ◌≤◌, List, ◌++◌, length};
ghost use Rattle.std.specs.List.{slice_get};
ghost use Rattle.std.specs.Option.{option_map};
ghost use Rattle.bridge.specs.Laid.{laid, spelled};
ghost use Rattle.bridge.specs.Tables.{edge_part, edge_word, head_of, process_part, process_word, signal_part, signal_word, size_of, table_word, table_words, term_part, term_word, words_of};
ghost use Rattle.table.specs.Lists.{meant};

use crate::closed::{back_of, front_of};
use crate::ending::{timer_word, variable_word};
use crate::laying::put;
use table::questions::{Table, process_at};
use table::record::{Edge, Process, Signal, Term, Timer};

/// Words of a process: its head, 8 variables, 8 timers.
const WORDS: usize = 17;

fn head_of(process: &Process) -> u64
    ensures { result ≡ head_of (meant process.now) }
{
    let place = u64::from(process.locations) * 256 + u64::from(process.first);
    place * 65536 + u64::from(process.variables) * 256 + u64::from(process.timers)
}

/// Variable n, if the process has it.
fn value_of(process: &Process, n: usize) -> Option<i16>
    ensures { result ≡ slice_get (meant process.now).values n }
{
    process
        .values
        .iter()
        .take(process.variables.into())
        .nth(n)
        .copied()
}

/// Timer n, if the process has it.
fn setting_of(process: &Process, n: usize) -> Option<Timer>
    ensures { result ≡ slice_get (meant process.now).settings n }
{
    process
        .settings
        .iter()
        .take(process.timers.into())
        .nth(n)
        .copied()
}

fn process_word(process: Option<Process>, k: usize) -> u64
    ensures { result ≡ process_word (option_map meant process) k }
{
    let Some(process) = process else {
        return 0;
    };
    if k == 0 {
        head_of(&process)
    } else if k <= 8 {
        variable_word(value_of(&process, k - 1))
    } else {
        timer_word(setting_of(&process, k - 9))
    }
}

fn signal_word(signal: Option<Signal>) -> u64
    ensures { result ≡ signal_word signal }
{
    signal.map_or(0, |signal| {
        256 * u64::from(signal.class) + u64::from(signal.destination)
    })
}

fn edge_word(edge: Option<Edge>, k: usize) -> u64
    ensures { result ≡ edge_word edge k }
{
    match edge {
        Some(edge) if k == 0 => front_of(&edge),
        Some(edge) => back_of(&edge),
        None => 0,
    }
}

fn term_word(term: Option<Term>) -> u64
    ensures { result ≡ term_word term }
{
    term.map_or(0, |term| {
        65536 * u64::from(term.operation) + u64::from(term.argument.cast_unsigned())
    })
}

fn process_part<T: Table>(table: &T, n: usize) -> u64
    ensures { result ≡ process_part (T.lists table.now).processes n }
{
    if n == 0 {
        return table.process_count() as u64;
    }
    process_word(process_at(table, (n - 1) / WORDS), (n - 1) % WORDS)
}

fn signal_part<T: Table>(table: &T, n: usize) -> u64
    ensures { result ≡ signal_part (T.lists table.now).signals n }
{
    if n == 0 {
        return table.signal_count() as u64;
    }
    signal_word(table.signal(n - 1))
}

fn edge_part<T: Table>(table: &T, n: usize) -> u64
    ensures { result ≡ edge_part (T.lists table.now).edges n }
{
    if n == 0 {
        return table.edge_count() as u64;
    }
    edge_word(table.edge((n - 1) / 2), (n - 1) % 2)
}

fn term_part<T: Table>(table: &T, n: usize) -> u64
    ensures { result ≡ term_part (T.lists table.now).terms n }
{
    if n == 0 {
        return table.term_count() as u64;
    }
    term_word(table.term(n - 1))
}

/// How many words the table has.
pub(crate) fn size_of<T: Table>(table: &T) -> usize
    requires { size_of (T.lists table.now) ≤ 16384 }
    ensures { result ≡ size_of (T.lists table.now) }
{
    let lists = 4 + table.signal_count() + table.term_count();
    lists + WORDS * table.process_count() + 2 * table.edge_count()
}

#[tactic(auto, unfolding(crate::specs::Tables::table_word))]
fn table_word<T: Table>(table: &T, n: usize) -> u64
    requires { size_of (T.lists table.now) ≤ 16384 }
    ensures { result ≡ table_word (T.lists table.now) n }
{
    let signals = 1 + WORDS * table.process_count();
    let edges = signals + 1 + table.signal_count();
    let terms = edges + 1 + 2 * table.edge_count();
    if n < signals {
        process_part(table, n)
    } else if n < edges {
        signal_part(table, n - signals)
    } else if n < terms {
        edge_part(table, n - edges)
    } else {
        term_part(table, n - terms)
    }
}

/// Writes the table.
pub(crate) fn put_table<T: Table>(table: &T, at: usize, out: &mut [u8])
    requires few { size_of (T.lists table.now) ≤ 16384 }
    requires room { at + 8 * size_of (T.lists table.now) ≤ length out.old }
    ensures laid { (xs old : List ℕ) → length xs ≡ at → out.old ≡ laid xs old → out.new ≡ laid (xs ++ spelled (words_of (T.lists table.now))) old }
    ensures length { length out.new ≡ length out.old }
{
    for n in 0..size_of(table) {
        put(out, at + 8 * n, &table_word(table, n).to_be_bytes());
    }
}
