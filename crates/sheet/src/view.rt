//! An open sheet: a table that is read in the caller's bytes.
ghost use Rattle.std.specs.Prelude.{◌≡◌, ◌+◌, ◌*◌, ◌≤◌, IfSome, is_some, nat_lt};
ghost use Rattle.sheet.specs.Views.{lists_of};

use reading::reader::Reader;
use reading::records::{Counts, EDGE_BITS, SIGNAL_BITS, TERM_BITS};
use table::limits;
use table::questions::Table;
use table::record::{Edge, Process, Signal, Term};

/// A view over the bytes of a sheet: the bit at which each process begins, and where its other parts begin, by bits but for the names'
/// byte. A record is read where it lies whenever it is asked for.
#[derive(Clone, Copy)]
pub struct Sheet<'a> {
    pub(crate) bytes: &'a [u8],
    pub(crate) counts: Counts,
    pub(crate) processes_at: [u32; limits::PROCESSES],
    pub(crate) signals_at: u32,
    pub(crate) edges_at: u32,
    pub(crate) terms_at: u32,
    pub(crate) names_at: u32,
}

impl<'a> Sheet<'a> {
    /// At record k of the `count` of `width` bits that begin at bit `first`.
    fn record(&self, first: u32, width: usize, count: u16, k: usize) -> Option<Reader<'a>>
        requires { width ≤ 64 }
        ensures test { is_some result ≡ nat_lt k count }
        ensures bytes { IfSome result (λ r. r.bytes.now ≡ self.now.bytes.now) }
        ensures place { IfSome result (λ r. r.place ≡ first + width * k) }
    {
        (k < usize::from(count)).then(|| Reader::at(self.bytes, first as usize + width * k))
    }
}

#[tactic(auto, using(reading::proofs::Viewing::rows), unfolding(crate::specs::Views::lists_of))]
impl<'a> Table for Sheet<'a> {
    ghost lists = { lists_of };

    fn process_count(&self) -> usize {
        usize::from(self.counts.processes).min(limits::PROCESSES)
    }

    fn signal_count(&self) -> usize {
        usize::from(self.counts.signals)
    }

    fn edge_count(&self) -> usize {
        usize::from(self.counts.edges)
    }

    fn term_count(&self) -> usize {
        usize::from(self.counts.terms)
    }

    fn process(&self, p: usize, place: &mut Process) -> bool {
        let Some(at) = self.processes_at[..self.process_count()].get(p) else {
            return false;
        };
        *place = Reader::at(self.bytes, *at as usize).process_here();
        true
    }

    fn signal(&self, s: usize) -> Option<Signal> {
        let counts = self.counts;
        let reader = self.record(self.signals_at, SIGNAL_BITS, counts.signals.into(), s)?;
        Some(reader.signal_here(counts.processes))
    }

    fn edge(&self, k: usize) -> Option<Edge> {
        let reader = self.record(self.edges_at, EDGE_BITS, self.counts.edges, k)?;
        Some(reader.edge_here())
    }

    fn term(&self, i: usize) -> Option<Term> {
        let reader = self.record(self.terms_at, TERM_BITS, self.counts.terms, i)?;
        Some(reader.term_here())
    }
}
