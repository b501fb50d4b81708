//! An index of the inputs of a table by the signal they take.
ghost use Rattle.std.specs.Prelude.{◌≡◌, ℕ, ◌+◌, ◌<◌, ◌≤◌, List, length, slice_index, true, Some};
ghost use Rattle.std.specs.List.{slice_get};
ghost use Rattle.table.specs.declared.record.Edge.{Edge};
ghost use Rattle.loading.specs.Following.{next_of, taking};
ghost use Rattle.loading.specs.Indexing.{Chained, Chains};

use crate::index::Inputs;
use table::limits;
use table::questions::Table;
use table::record::{Edge, Kind};

impl Inputs {
    /// None of the `count` edges takes any signal.
    fn none(count: usize) -> Inputs
        requires { count ≤ 2048 }
        ensures { (s : ℕ) → s < 64 → slice_index result.first s ≡ count }
    {
        Inputs {
            first: [count as u16; 64],
            next: [0; 2048],
        }
    }

    /// The index of a table's inputs, where there are no more edges than a table may have. Of a larger table nothing is promised.
    pub fn of<T: Table>(table: &T) -> Inputs
        ensures { length (T.lists table.now).edges ≤ 2048 → Chains result (T.lists table.now).edges }
    {
        let count = table.edge_count().min(limits::EDGES);
        let mut inputs = Inputs::none(count);
        for k in (0..count).rev() {
            if let Some(edge) = table.edge(k) {
                inputs.put(&edge, k);
            }
        }
        inputs
    }

    /// Edge k comes before those above it, if it is an input.
    fn put(&mut self, edge: &Edge, k: usize)
        requires { k < 2048 }
        ensures { (es : List Edge) → slice_get es k ≡ Some edge.now → Chained self.old.first self.old.next es (k + 1) → Chained self.new.first self.new.next es k }
    {
        if let Kind::Input = edge.does() {
            self.link(edge.first.into(), k);
        }
    }

    /// Edge k, which takes the signal, comes before those above it.
    fn link(&mut self, signal: usize, k: usize)
        requires { k < 2048 }
        ensures { (es : List Edge) (e : Edge) → slice_get es k ≡ Some e → taking signal e ≡ true → Chained self.old.first self.old.next es (k + 1) → Chained self.new.first self.new.next es k }
    {
        if signal < limits::SIGNALS {
            self.next[k] = self.first[signal];
            self.first[signal] = k as u16;
        }
    }

    /// The first edge that takes the signal, or the number of edges where none does. Of a number that no signal has nothing
    /// is known: 0.
    pub fn first_taking(&self, signal: usize) -> usize
        ensures { (es : List Edge) → Chains self.now es → signal < 64 → result ≡ next_of (taking signal) es 0 }
    {
        self.first.get(signal).copied().unwrap_or(0).into()
    }

    /// The next edge after the input k that takes the same signal, or the number of edges where none does.
    pub fn next_taking(&self, k: usize) -> usize
        ensures { (es : List Edge) (s : ℕ) (e : Edge) → Chains self.now es → s < 64 → slice_get es k ≡ Some e → taking s e ≡ true → result ≡ next_of (taking s) es (k + 1) }
    {
        self.next.get(k).copied().unwrap_or(0).into()
    }
}
