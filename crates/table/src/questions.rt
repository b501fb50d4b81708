//! The questions by which every table is read.
ghost use Rattle.std.specs.Prelude.{◌≡◌, ◌≤◌, length, IfSome, MatchBool, nat_lt, slice_index_or};
ghost use Rattle.std.specs.List.{slice_get};
ghost use Rattle.std.specs.Option.{option_map};
ghost use Rattle.table.specs.Edges.{absent, blank};
ghost use Rattle.table.specs.Lists.{Lists, meant};
ghost use Rattle.table.specs.Records.{class_of};

use crate::record::{Class, Edge, Process, Signal, Term};

/// A table, read by eight questions. None is refused and none changes anything; a place beyond the end of a list is
/// answered as absent.
pub trait Table {
    ghost lists: { Self → Lists };

    fn process_count(&self) -> usize
        ensures { result ≡ length (lists self.now).processes };

    fn signal_count(&self) -> usize
        ensures { result ≡ length (lists self.now).signals };

    fn edge_count(&self) -> usize
        ensures { result ≡ length (lists self.now).edges };

    fn term_count(&self) -> usize
        ensures { result ≡ length (lists self.now).terms };

    /// Fills `place` with process p and answers true, or leaves it as it is where there is none.
    fn process(&self, p: usize, place: &mut Process) -> bool
        ensures test { result ≡ nat_lt p (length (lists self.now).processes) }
        ensures value { meant place.new ≡ slice_index_or (lists self.now).processes p (meant place.old) }
        ensures same { MatchBool result (Unit {0}) (place.new ≡ place.old) };

    fn signal(&self, s: usize) -> Option<Signal>
        ensures { result ≡ slice_get (lists self.now).signals s };

    fn edge(&self, k: usize) -> Option<Edge>
        ensures { result ≡ slice_get (lists self.now).edges k };

    /// No table has an operation above 15.
    fn term(&self, i: usize) -> Option<Term>
        ensures value { result ≡ slice_get (lists self.now).terms i }
        ensures bound { IfSome result (λ t. t.operation ≤ 15) };
}

/// Process p, if there is one.
pub fn process_at<T: Table>(table: &T, p: usize) -> Option<Process>
    ensures { option_map meant result ≡ slice_get (T.lists table.now).processes p }
{
    let mut process = Process::BLANK;
    table.process(p, &mut process).then_some(process)
}

/// Process p, or a blank one where there is none.
pub fn process_or_blank<T: Table>(table: &T, p: usize) -> Process
    ensures { meant result ≡ slice_index_or (T.lists table.now).processes p blank }
{
    let mut process = Process::BLANK;
    table.process(p, &mut process);
    process
}

/// Signal s, or an absent one where there is none.
pub fn signal_or_absent<T: Table>(table: &T, s: usize) -> Signal
    ensures { result ≡ slice_index_or (T.lists table.now).signals s absent }
{
    table.signal(s).unwrap_or(Signal::ABSENT)
}

/// The class of a signal, absent where there is none.
pub fn class_of<T: Table>(table: &T, signal: u8) -> Class
    ensures { result ≡ class_of (slice_index_or (T.lists table.now).signals signal absent).class }
{
    signal_or_absent(table, usize::from(signal)).is()
}
