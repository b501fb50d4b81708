//! Closing a sheet.
ghost use Rattle.std.specs.Prelude.{◌≡◌, ◌<◌, ◌≤◌, IfOk, IfErr, length};
ghost use Rattle.bridge.specs.Answers.{Sealing, Summed};
ghost use Rattle.bridge.specs.Codes.{packed};
ghost use Rattle.bridge.specs.Sums.{back_of, checksum, front_of, joined, mixed, span_of};
ghost use Rattle.refusal.specs.declared.fault.Refusal.{Refusal};
ghost use Rattle.sealing.specs.Seals.{RefusedAs};

use crate::codes::packed;
use sealing::seal::{judge, seal_into};
use table::questions::Table;
use table::record::{Edge, Span};

/// Writes the closed sheet; answers how long it is, or the refusal.
pub(crate) fn close(sheet: &[u8], out: &mut [u8]) -> u64
    ensures sealing { Sealing sheet.now result out.old out.new }
    ensures told { (r : Refusal) → RefusedAs sheet.now r → result ≡ packed r }
{
    match seal_into(sheet, out) {
        Ok(size) => size as u64,
        Err(refusal) => packed(refusal),
    }
}

/// The fields of one byte.
pub(crate) fn front_of(edge: &Edge) -> u64
    ensures value { result ≡ front_of edge.now }
    ensures bound { result < 72057594037927936 }
{
    let site = u64::from(edge.process) * 65536 + u64::from(edge.from) * 256 + u64::from(edge.to);
    let does = u64::from(edge.kind) * 65536 + u64::from(edge.first) * 256 + u64::from(edge.second);
    site * 4294967296 + does * 256 + u64::from(edge.mode)
}

fn span_of(span: Span) -> u64
    ensures value { result ≡ span_of span }
    ensures bound { result < 16777216 }
{
    u64::from(span.start) * 256 + u64::from(span.count)
}

/// The guard and the value.
pub(crate) fn back_of(edge: &Edge) -> u64
    ensures value { result ≡ back_of edge.now }
    ensures bound { result < 72057594037927936 }
{
    span_of(edge.guard) * 16777216 + span_of(edge.value)
}

const PRIME: u64 = (1 << 57) - 13;

#[tactic(auto, unfolding(crate::specs::Sums::mixed))]
fn mixed(sum: u64, word: u64) -> u64
    requires sum { sum < 144115188075855859 }
    requires word { word < 72057594037927936 }
    ensures value { result ≡ mixed sum word }
    ensures bound { result < 144115188075855859 }
{
    31 * (sum + word) % PRIME
}

fn joined(sum: u64, edge: Option<Edge>) -> u64
    requires { sum < 144115188075855859 }
    ensures value { result ≡ joined sum edge }
    ensures bound { result < 144115188075855859 }
{
    match edge {
        Some(edge) => mixed(mixed(sum, front_of(&edge)), back_of(&edge)),
        None => sum,
    }
}

/// The sum over all edges of the table.
fn checksum<T: Table>(table: &T) -> u64
    ensures { result ≡ checksum (T.lists table.now).edges }
{
    let mut sum = 0;
    for k in 0..table.edge_count() {
        sum = joined(sum, table.edge(k));
    }
    sum
}

/// The sum over the edges of the closed table, or the refusal.
pub(crate) fn closed_edges(sheet: &[u8]) -> u64
    ensures { Summed sheet.now result }
{
    match judge(sheet) {
        Ok((_, closed, _)) => checksum(&closed),
        Err(refusal) => packed(refusal),
    }
}
