//! The parts of a sheet: rows of records, the fill and the names.
ghost use Rattle.std.specs.Prelude.{◌≡◌, ℕ, ◌+◌, ◌*◌, ◌/◌, ◌%◌, ◌^◌, ◌<◌, ◌≤◌, [], ◌∷◌, length, map, None, slice_index_or};
ghost use Rattle.std.specs.List.{All, flat_map};
ghost use Rattle.reading.specs.Formats.{bits, fill};
ghost use Rattle.reading.specs.Layout.{process_format, signal_format, edge_format, term_format};
ghost use Rattle.reading.specs.Rows.{no_edge, no_term};
ghost use Rattle.reading.specs.Spelling.{FitsProcess, FitsTerm};
ghost use Rattle.table.specs.Examination.{edges_refused, limits_refused};
ghost use Rattle.writing.specs.Writes.{Writes};

use crate::writer::Writer;
use table::questions::{Table, process_or_blank, signal_or_absent};
use table::record::{Edge, Term};

/// Edge k, or an edge of zeros where there is none.
fn edge_or_zeros<T: Table>(table: &T, k: usize) -> Edge
    ensures { result ≡ slice_index_or (T.lists table.now).edges k no_edge }
{
    table.edge(k).unwrap_or_default()
}

/// Term i, or a term of zeros where there is none.
fn term_or_zeros<T: Table>(table: &T, i: usize) -> Term
    ensures value { result ≡ slice_index_or (T.lists table.now).terms i no_term }
    ensures bound { result.operation ≤ 15 }
{
    table.term(i).unwrap_or_default()
}

/// Bytes as they are, from byte `at` on.
pub fn copy(bytes: &mut [u8], at: usize, names: &[u8])
    requires { at + length names.now ≤ length bytes.old }
    ensures { Writes (map (bits 8) names.now) (8 * at) (8 * at + 8 * length names.now) bytes.old bytes.new }
{
    bytes[at..at + names.len()].copy_from_slice(names);
}

impl Writer {
    pub fn processes<T: Table>(&mut self, bytes: &mut [u8], table: &T)
        requires room { self.old.place < 2 ^ 32 }
        requires limits { limits_refused (T.lists table.now) ≡ None }
        ensures bound { self.new.place ≤ self.old.place + 272 * length (T.lists table.now).processes }
        ensures fits { All FitsProcess (T.lists table.now).processes }
        ensures writes { Writes (flat_map process_format.writes (T.lists table.now).processes) self.old.place self.new.place bytes.old bytes.new }
    {
        self.row(
            bytes,
            table.process_count(),
            |p| process_or_blank(table, p),
            Writer::process,
        );
    }

    pub fn signals<T: Table>(&mut self, bytes: &mut [u8], table: &T)
        requires room { self.old.place < 2 ^ 32 }
        requires limits { limits_refused (T.lists table.now) ≡ None }
        ensures bound { self.new.place ≤ self.old.place + 6 * length (T.lists table.now).signals }
        ensures writes { (n : ℕ) → Writes (flat_map (signal_format n).writes (T.lists table.now).signals) self.old.place self.new.place bytes.old bytes.new }
    {
        self.row(
            bytes,
            table.signal_count(),
            |s| signal_or_absent(table, s),
            Writer::signal,
        );
    }

    pub fn edges<T: Table>(&mut self, bytes: &mut [u8], table: &T)
        requires room { self.old.place < 2 ^ 32 }
        requires limits { limits_refused (T.lists table.now) ≡ None }
        requires edges { edges_refused (T.lists table.now) ≡ None }
        ensures bound { self.new.place ≤ self.old.place + 60 * length (T.lists table.now).edges }
        ensures writes { Writes (flat_map edge_format.writes (T.lists table.now).edges) self.old.place self.new.place bytes.old bytes.new }
    {
        self.row(
            bytes,
            table.edge_count(),
            |k| edge_or_zeros(table, k),
            Writer::edge,
        );
    }

    pub fn terms<T: Table>(&mut self, bytes: &mut [u8], table: &T)
        requires room { self.old.place < 2 ^ 32 }
        requires limits { limits_refused (T.lists table.now) ≡ None }
        ensures bound { self.new.place ≤ self.old.place + 20 * length (T.lists table.now).terms }
        ensures fits { All FitsTerm (T.lists table.now).terms }
        ensures writes { Writes (flat_map term_format.writes (T.lists table.now).terms) self.old.place self.new.place bytes.old bytes.new }
    {
        self.row(
            bytes,
            table.term_count(),
            |i| term_or_zeros(table, i),
            Writer::term,
        );
    }

    /// Zero bits up to the next whole byte.
    pub fn fill(&mut self, bytes: &mut [u8])
        requires room { self.old.place < 2 ^ 32 }
        ensures place { self.new.place ≡ (self.old.place + 7) / 8 * 8 }
        ensures writes { Writes (fill ∷ []) self.old.place self.new.place bytes.old bytes.new }
    {
        self.put(bytes, (8 - self.place % 8) % 8, 0);
    }
}
