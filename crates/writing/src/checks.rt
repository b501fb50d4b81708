//! What is looked for before anything is written.
ghost use Rattle.std.specs.Prelude.{◌≡◌, ◌≤◌, None};
ghost use Rattle.std.specs.Result.{result_map_both};
ghost use Rattle.reading.specs.Opening.{names_byte, processes_bits};
ghost use Rattle.reading.specs.Readings.{Reads};
ghost use Rattle.refusal.specs.Refusals.{outcome};
ghost use Rattle.table.specs.Examination.{limits_refused};
ghost use Rattle.writing.specs.Faults.{write_refusal};
ghost use Rattle.writing.specs.Written.{area_reads, misnamed, written};

use crate::fault::WriteFault;
use examination::bounds::check_limits;
use examination::check_records;
use loading::kept::Kept;
use reading::fault::SheetFault;
use reading::reader::Reader;
use reading::records::{EDGE_BITS, HEADER_BITS, SIGNAL_BITS, TERM_BITS};
use table::limits;
use table::questions::{Table, process_or_blank};

/// The names of an area, and its end.
#[tactic(auto, unfolding(reading::specs::Formats::after))]
fn read_names(reader: &mut Reader<'_>, count: usize) -> Result<(), SheetFault>
    requires start { reader.old.place ≡ 0 }
    requires few { count ≤ 72 }
    ensures { Reads (area_reads count) (λ _. 0) reader.old result reader.new }
{
    reader.names(count)?;
    reader.end()
}

/// Whether the area holds so many names, and nothing else.
fn check_names(area: &[u8], count: usize) -> Result<(), WriteFault>
    requires { count ≤ 72 }
    ensures { outcome write_refusal result ≡ misnamed (area_reads count area.now 0) }
{
    let mut reader = Reader::at(area, 0);
    let read = read_names(&mut reader, count);
    read.map_err(|_| WriteFault::Names(reader.place))
}

/// How many bits the processes take.
#[tactic(auto, using(crate::proofs::Tables::few_records))]
fn processes_bits<T: Table>(table: &T) -> usize
    requires { limits_refused (T.lists table.now) ≡ None }
    ensures value { result ≡ processes_bits (T.lists table.now).processes }
    ensures bound { result ≤ 65536 }
{
    let mut bits = 0;
    for p in 0..table.process_count() {
        let process = process_or_blank(table, p);
        bits += 16 * (1 + usize::from(process.variables) + usize::from(process.timers));
    }
    bits
}

/// The byte at which the names begin.
#[tactic(auto, using(crate::proofs::Tables::few_records))]
fn names_byte<T: Table>(table: &T) -> usize
    requires { limits_refused (T.lists table.now) ≡ None }
    ensures value { result ≡ names_byte (T.lists table.now) }
    ensures bound { result ≤ 65536 }
{
    let signals = SIGNAL_BITS * table.signal_count();
    let edges = EDGE_BITS * table.edge_count();
    let terms = TERM_BITS * table.term_count();
    (HEADER_BITS + processes_bits(table) + signals + edges + terms).div_ceil(8)
}

/// How many bytes the sheet of the table takes, with these names and in so much room.
#[tactic(auto, using(crate::proofs::Tables::few_records), unfolding(crate::specs::Written::write_refused))]
pub fn check<T: Table>(table: &T, names: &[u8], room: usize) -> Result<usize, WriteFault>
    ensures { result_map_both (λ n. n) write_refusal result ≡ written (T.lists table.now) names.now room }
{
    let processes = table.process_count();
    if processes == 0 || processes > limits::PROCESSES {
        return Err(WriteFault::Processes);
    }
    check_limits(table)?;
    check_records(&Kept::of(table))?;
    check_names(names, processes + table.signal_count())?;
    let size = names_byte(table) + names.len();
    if room < size {
        return Err(WriteFault::Short(size));
    }
    Ok(size)
}
