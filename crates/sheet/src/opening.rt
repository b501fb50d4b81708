//! Opening a sheet: all its bits first, then its edges.
ghost use Rattle.std.specs.Prelude.{◌≡◌, ◌^◌, ◌<◌, drop, IfOk, None};
ghost use Rattle.std.specs.List.{slice_get};
ghost use Rattle.std.specs.Result.{result_map_both};
ghost use Rattle.table.specs.Examination.{answer_at, first_at, limits_refused};
ghost use Rattle.refusal.specs.Refusals.{outcome};
ghost use Rattle.reading.specs.Faults.{edge_at_refusal, sheet_refusal};
ghost use Rattle.reading.specs.Layout.{sheet_format};
ghost use Rattle.reading.specs.Opening.{edges_bit, names_byte, names_in, placed, split, edge_refused_at, opened};
ghost use Rattle.reading.specs.Readings.{Reads};
ghost use Rattle.reading.specs.Spelling.{Inverse, IsTheSheet, area_of, held};
ghost use Rattle.sheet.specs.Bits.{bits_opened};
ghost use Rattle.sheet.specs.Cut.{OpensAsCut};
ghost use Rattle.sheet.specs.Views.{bytes_of, contents_of, lists_of, opened_of};

use crate::view::Sheet;
use examination::edge;
use examination::first::first_fault;
use loading::kept::Kept;
use reading::fault::{EdgeAt, SheetFault};
use reading::reader::Reader;
use reading::records::EDGE_BITS;
use table::limits;
use table::questions::Table;

/// All parts of a sheet.
#[tactic(auto, unfolding(reading::specs::Formats::after, reading::specs::Layout::sheet_format))]
fn read_sheet<'a>(reader: &mut Reader<'a>) -> Result<Sheet<'a>, SheetFault>
    requires { reader.old.place ≡ 0 }
    ensures reads { Reads sheet_format.reads contents_of reader.old result reader.new }
    ensures limits { IfOk result (λ s. limits_refused (lists_of s) ≡ None) }
    ensures edges { IfOk result (λ s. s.edges_at ≡ edges_bit (lists_of s)) }
    ensures bytes { IfOk result (λ s. bytes_of s ≡ reader.old.bytes.now) }
    ensures place { IfOk result (λ s. s.names_at ≡ names_byte (lists_of s)) }
    ensures names { IfOk result (λ s. opened_of s ≡ split (lists_of s) (placed (names_byte (lists_of s)) (contents_of s).names)) }
{
    let counts = reader.header()?;
    let mut processes_at = [0; limits::PROCESSES];
    reader.processes(counts.processes, &mut processes_at)?;
    let signals_at = reader.place as u32;
    reader.signals(counts.signals, counts.processes)?;
    let edges_at = reader.place as u32;
    reader.edges(counts.edges)?;
    let terms_at = reader.place as u32;
    reader.terms(counts.terms)?;
    reader.fill()?;
    let names_at = (reader.place / 8) as u32;
    reader.names(usize::from(counts.processes) + usize::from(counts.signals))?;
    reader.end()?;
    Ok(Sheet {
        bytes: reader.bytes,
        counts,
        processes_at,
        signals_at,
        edges_at,
        terms_at,
        names_at,
    })
}

/// Whether edge k may stand in its table, where the records of the edges begin at bit `start`.
fn check_edge<T: Table>(table: &T, start: u32, k: usize) -> Result<(), EdgeAt>
    requires { k < 2 ^ 16 }
    ensures { outcome edge_at_refusal result ≡ answer_at (edge_refused_at (T.lists table.now) start) k (slice_get (T.lists table.now).edges k) }
{
    let bit = start as usize + EDGE_BITS * k;
    edge::check_at(table, k).map_err(|bad| EdgeAt { bad, bit })
}

/// The first edge that may not stand in the sheet's table.
fn check_edges(sheet: &Sheet<'_>) -> Result<(), EdgeAt>
    requires { limits_refused (lists_of sheet.now) ≡ None }
    ensures { outcome edge_at_refusal result ≡ first_at (edge_refused_at (lists_of sheet.now) sheet.now.edges_at) 0 (lists_of sheet.now).edges }
{
    let table = Kept::of(sheet);
    let start = sheet.edges_at;
    first_fault(
        usize::from(sheet.counts.edges),
        |k| check_edge(&table, start, k),
    )
}

/// Reads all fields in their order. The first fault decides. Whether the edges may stand in the table is not looked at.
#[tactic(auto, unfolding(crate::specs::Bits::bits_opened, crate::specs::Views::contents_of))]
pub fn open_bits(bytes: &[u8]) -> Result<Sheet<'_>, SheetFault>
    ensures value { result_map_both opened_of sheet_refusal result ≡ bits_opened bytes.now }
    ensures bytes { IfOk result (λ s. bytes_of s ≡ bytes.now) }
    ensures limits { IfOk result (λ s. limits_refused (lists_of s) ≡ None) }
    ensures place { IfOk result (λ s. s.names_at ≡ names_byte (lists_of s)) }
{
    read_sheet(&mut Reader::at(bytes, 0))
}

/// Reads all fields in their order and then looks at the edges. The first fault decides.
/// What opens is what the layout writes for a table and its names, and nothing else. So these are the only bytes that writing back
/// what was opened can give.
/// Of more bytes than the largest sheet has, the first 27,079 decide.
#[tactic(auto, using(reading::proofs::Inverse::inverse, crate::proofs::Cutting::cut), unfolding(reading::specs::Opening::opened, crate::specs::Views::contents_of))]
pub fn open_sheet(bytes: &[u8]) -> Result<Sheet<'_>, SheetFault>
    ensures value { result_map_both opened_of sheet_refusal result ≡ opened bytes.now }
    ensures inverse { Inverse bytes.now }
    ensures cut { OpensAsCut bytes.now }
    ensures again { IfOk result (λ s. IsTheSheet (held (opened_of s)) bytes.now) }
    ensures area { IfOk result (λ s. drop s.names_at bytes.now ≡ area_of (names_in (opened_of s))) }
    ensures bytes { IfOk result (λ s. bytes_of s ≡ bytes.now) }
    ensures limits { IfOk result (λ s. limits_refused (lists_of s) ≡ None) }
    ensures place { IfOk result (λ s. s.names_at ≡ names_byte (lists_of s)) }
{
    let sheet = read_sheet(&mut Reader::at(bytes, 0))?;
    check_edges(&sheet)?;
    Ok(sheet)
}
