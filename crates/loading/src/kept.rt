//! A table with its processes and signals in memory.
ghost use Rattle.std.specs.Prelude.{◌≤◌, length};

use table::limits;
use table::record::{Process, Signal};

/// Any table, which is asked for its edges and terms, and a copy of its processes and signals: those who need them at every edge get them
/// fast. What stands in the arrays beyond the counts means nothing.
#[derive(Drop)]
pub struct Kept<'a, T> {
    pub(crate) table: &'a T,
    pub(crate) process_count: usize,
    pub(crate) signal_count: usize,
    pub(crate) processes: [Process; limits::PROCESSES],
    pub(crate) signals: [Signal; limits::SIGNALS],
    ghost few_processes: { process_count ≤ length processes },
    ghost few_signals: { signal_count ≤ length signals },
}
