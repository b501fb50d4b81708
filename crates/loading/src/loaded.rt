//! A table that was copied into memory.
ghost use Rattle.std.specs.Prelude.{◌≡◌, ℕ, ◌≤◌, length, take, Some, false, is_some};
ghost use Rattle.std.specs.List.{slice_get};
ghost use Rattle.loading.specs.Copies.{copied};
ghost use Rattle.loading.specs.Indexing.{Indexes};
ghost use Rattle.table.specs.Examination.{limits_refused};
ghost use Rattle.table.specs.declared.record.Term.{Term};

use crate::index::Index;
use table::limits;
use table::record::{Edge, Process, Signal, Term};

/// A table within its limits, and the index of its edges. What stands in the arrays beyond the counts means nothing.
#[derive(Drop)]
pub struct Loaded {
    pub(crate) process_count: usize,
    pub(crate) signal_count: usize,
    pub(crate) edge_count: usize,
    pub(crate) term_count: usize,
    pub(crate) processes: [Process; limits::PROCESSES],
    pub(crate) signals: [Signal; limits::SIGNALS],
    pub(crate) edges: [Edge; limits::EDGES],
    pub(crate) terms: [Term; limits::TERMS],
    pub(crate) index: Index,
    ghost few_processes: { process_count ≤ length processes },
    ghost few_signals: { signal_count ≤ length signals },
    ghost few_edges: { edge_count ≤ length edges },
    ghost few_terms: { term_count ≤ length terms },
    ghost known_operations: { (i : ℕ) (t : Term) → slice_get (take term_count terms) i ≡ Some t → t.operation ≤ 15 },
    ghost indexed: { Indexes index (take edge_count edges) },
    ghost limited: { is_some (limits_refused (copied (take process_count processes) (take signal_count signals) (take edge_count edges) (take term_count terms))) ≡ false },
}
