//! Writing a table with names as a sheet.
ghost use Rattle.std.specs.Prelude.{◌≡◌, ℕ, ◌*◌, ◌≤◌, List, length, take, drop, None, IfOk, OnErr};
ghost use Rattle.std.specs.Result.{result_map_both};
ghost use Rattle.reading.specs.Layout.{sheet_format, counts_of};
ghost use Rattle.reading.specs.Spelling.{AreBytes, FitsRecords, Inverse, area_of};
ghost use Rattle.table.specs.Examination.{edges_refused, limits_refused};
ghost use Rattle.writing.specs.Faults.{write_refusal};
ghost use Rattle.writing.specs.Writes.{Writes};
ghost use Rattle.writing.specs.Written.{IsWrittenAs, needed, written};

use crate::checks::check;
use crate::fault::WriteFault;
use crate::parts::copy;
use crate::writer::Writer;
use reading::records::Counts;
use table::questions::Table;

/// What a header says of the table.
#[tactic(auto, using(crate::proofs::Tables::few_records))]
fn counts<T: Table>(table: &T) -> Counts
    requires { limits_refused (T.lists table.now) ≡ None }
    ensures { result ≡ counts_of (T.lists table.now) }
{
    Counts {
        processes: table.process_count() as u8,
        signals: table.signal_count() as u8,
        edges: table.edge_count() as u16,
        terms: table.term_count() as u16,
    }
}

/// All fields of the sheet.
fn put_sheet<T: Table>(bytes: &mut [u8], table: &T, names: &[u8])
    requires limits { limits_refused (T.lists table.now) ≡ None }
    requires edges { edges_refused (T.lists table.now) ≡ None }
    requires room { needed (T.lists table.now) names.now ≤ length bytes.old }
    ensures records { FitsRecords (T.lists table.now) }
    ensures writes { (texts : List (List ℕ)) → names.now ≡ area_of texts → Writes (sheet_format.writes (record { lists = T.lists table.now; names = texts })) 0 (8 * needed (T.lists table.now) names.now) bytes.old bytes.new }
{
    let mut writer = Writer { place: 0 };
    writer.header(bytes, counts(table));
    writer.processes(bytes, table);
    writer.signals(bytes, table);
    writer.edges(bytes, table);
    writer.terms(bytes, table);
    writer.fill(bytes);
    copy(bytes, writer.place / 8, names);
}

/// Writes the sheet of the table, with the names of its processes and then its signals, to the start of the output.
/// Nothing is written where anything is refused.
pub fn write_sheet<T: Table>(
    table: &T,
    names: &[u8],
    output: &mut [u8],
) -> Result<usize, WriteFault>
    ensures answer { result_map_both (λ n. n) write_refusal result ≡ written (T.lists table.now) names.now (length output.old) }
    ensures sheet { IfOk result (λ n. IsWrittenAs (T.lists table.now) names.now (take n output.new)) }
    ensures bytes { IfOk result (λ n. AreBytes (take n output.new)) }
    ensures inverse { IfOk result (λ n. Inverse (take n output.new)) }
    ensures sole { IfOk result (λ n. (bs : List ℕ) → AreBytes bs → IsWrittenAs (T.lists table.now) names.now bs → bs ≡ take n output.new) }
    ensures beyond { IfOk result (λ n. drop n output.new ≡ drop n output.old) }
    ensures size { length output.new ≡ length output.old }
    ensures refused { OnErr result (output.new ≡ output.old) }
{
    let size = check(table, names, output.len())?;
    put_sheet(output, table, names);
    Ok(size)
}
