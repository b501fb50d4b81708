//! Copying the lists of a table into arrays.
ghost use Rattle.std.specs.Prelude.{◌≡◌, ℕ, ◌<◌, ◌≤◌, length, map, take, Some};
ghost use Rattle.std.specs.List.{slice_get};
ghost use Rattle.table.specs.Lists.{meant};
ghost use Rattle.table.specs.declared.record.Edge.{Edge};
ghost use Rattle.table.specs.declared.record.Term.{Term};

use table::limits;
use table::questions::{Table, process_or_blank, signal_or_absent};
use table::record::{Edge, Process, Signal, Term};

/// Puts the items of the numbers below `count` into their places.
fn fill<A: Copy, F: Fn(usize) -> A>(places: &mut [A], count: usize, item: F)
    requires callable { F.IsAlwaysCallable item }
    requires room { count ≤ length places.old }
    ensures { (k : ℕ) (x : A) → k < count → slice_get places.new k ≡ Some x → F.post item k x }
{
    for k in 0..count {
        places[k] = item(k);
    }
}

pub(crate) fn processes<T: Table>(table: &T) -> [Process; limits::PROCESSES]
    requires { length (T.lists table.now).processes ≤ 8 }
    ensures places { length result ≡ 8 }
    ensures items { map meant (take (length (T.lists table.now).processes) result) ≡ (T.lists table.now).processes }
{
    let mut processes = [Process::BLANK; limits::PROCESSES];
    fill(&mut processes, table.process_count(), |p| {
        process_or_blank(table, p)
    });
    processes
}

pub(crate) fn signals<T: Table>(table: &T) -> [Signal; limits::SIGNALS]
    requires { length (T.lists table.now).signals ≤ 64 }
    ensures places { length result ≡ 64 }
    ensures items { take (length (T.lists table.now).signals) result ≡ (T.lists table.now).signals }
{
    let mut signals = [Signal::ABSENT; limits::SIGNALS];
    fill(&mut signals, table.signal_count(), |s| {
        signal_or_absent(table, s)
    });
    signals
}

/// Edge k, or one of zeros where there is none.
fn edge_or_zeros<T: Table>(table: &T, k: usize) -> Edge
    ensures { (e : Edge) → slice_get (T.lists table.now).edges k ≡ Some e → result ≡ e }
{
    table.edge(k).unwrap_or_default()
}

pub(crate) fn edges<T: Table>(table: &T) -> [Edge; limits::EDGES]
    requires { length (T.lists table.now).edges ≤ 2048 }
    ensures places { length result ≡ 2048 }
    ensures items { take (length (T.lists table.now).edges) result ≡ (T.lists table.now).edges }
{
    let mut edges = [Edge::default(); limits::EDGES];
    fill(&mut edges, table.edge_count(), |k| edge_or_zeros(table, k));
    edges
}

/// Term i, or one of zeros where there is none.
fn term_or_zeros<T: Table>(table: &T, i: usize) -> Term
    ensures value { (t : Term) → slice_get (T.lists table.now).terms i ≡ Some t → result ≡ t }
    ensures bound { result.operation ≤ 15 }
{
    table.term(i).unwrap_or_default()
}

pub(crate) fn terms<T: Table>(table: &T) -> [Term; limits::TERMS]
    requires { length (T.lists table.now).terms ≤ 4096 }
    ensures places { length result ≡ 4096 }
    ensures items { take (length (T.lists table.now).terms) result ≡ (T.lists table.now).terms }
    ensures bound { (i : ℕ) (t : Term) → slice_get (take (length (T.lists table.now).terms) result) i ≡ Some t → t.operation ≤ 15 }
{
    let mut terms = [Term::default(); limits::TERMS];
    fill(&mut terms, table.term_count(), |i| term_or_zeros(table, i));
    terms
}
