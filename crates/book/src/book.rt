//! The book.
ghost use Rattle.std.specs.Prelude.{◌≡◌, ◌≤◌};

use arrayvec::ArrayVec;
use marks::marks::Marks;
use table::record::{Process, Signal};

/// A table that is built up call by call. Its edges and terms lie in memory that is lent to each call, as the call before left it.
#[derive(Drop)]
pub struct Book {
    pub(crate) processes: ArrayVec<Process, 8>,
    pub(crate) signals: ArrayVec<Signal, 64>,
    pub(crate) edges: u16,
    pub(crate) terms: u16,
    /// Those of the last marking that no edit followed.
    pub(crate) marks: Option<Marks>,
    ghost few_edges: { edges ≤ 2048 },
    ghost few_terms: { terms ≤ 4096 },
}
