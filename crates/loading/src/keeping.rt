//! Keeping the processes and signals of a table, and answering from them.
ghost use Rattle.std.specs.Prelude.{◌≡◌, None};
ghost use Rattle.loading.specs.Loading.{kept};
ghost use Rattle.table.specs.Examination.{limits_refused};

use crate::copying::{processes, signals};
use crate::kept::Kept;
use table::questions::Table;
use table::record::{Edge, Process, Signal, Term};

impl<'a, T: Table> Kept<'a, T> {
    /// For a table within its limits.
    pub fn of(table: &'a T) -> Self
        requires { limits_refused (T.lists table.now) ≡ None }
        ensures { kept result (T.lists result.table.now) ≡ T.lists table.now }
    {
        Kept {
            table,
            process_count: table.process_count(),
            signal_count: table.signal_count(),
            processes: processes(table),
            signals: signals(table),
        }
    }
}

impl<'a, T: Table> Table for Kept<'a, T> {
    ghost lists = { λ k. kept k (T.Table.lists k.table.now) };

    fn process_count(&self) -> usize {
        self.process_count
    }

    fn signal_count(&self) -> usize {
        self.signal_count
    }

    fn edge_count(&self) -> usize {
        self.table.edge_count()
    }

    fn term_count(&self) -> usize {
        self.table.term_count()
    }

    fn process(&self, p: usize, place: &mut Process) -> bool {
        let Some(process) = self.processes[..self.process_count].get(p) else {
            return false;
        };
        *place = *process;
        true
    }

    fn signal(&self, s: usize) -> Option<Signal> {
        self.signals[..self.signal_count].get(s).copied()
    }

    fn edge(&self, k: usize) -> Option<Edge> {
        self.table.edge(k)
    }

    fn term(&self, i: usize) -> Option<Term> {
        self.table.term(i)
    }
}
