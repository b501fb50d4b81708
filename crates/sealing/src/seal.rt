//! Closing the table of a sheet, and writing the closed table as a sheet.
ghost use Rattle.std.specs.Prelude.{◌≡◌, ℕ, ◌≤◌, List, IfOk, IfErr, IfSome, OnErr, Ok, Err, length, string_bytes};
ghost use Rattle.closing.specs.Layers.{layered};
ghost use Rattle.marks.specs.Words.{marking};
ghost use Rattle.reading.specs.Opening.{names_byte, opened};
ghost use Rattle.reading.specs.Spelling.{Inverse, IsWritable, area_of};
ghost use Rattle.rules.specs.Closing.{closed_by};
ghost use Rattle.rules.specs.Promise.{ClosedBy, Measured};
ghost use Rattle.sealing.specs.Seals.{PutInFront, RefusedAs, SealedAs, SealedInto};
ghost use Rattle.sealing.specs.Summary.{Summarised};
ghost use Rattle.sheet.specs.Views.{bytes_of, lists_of, opened_of};
ghost use Rattle.refusal.specs.declared.fault.Refusal.{Refusal};
ghost use Rattle.refusal.specs.Refusals.{refusal_in};
ghost use Rattle.refusal.specs.declared.failure.Failure.TheVariants.{Refused};
ghost use Rattle.writing.specs.Written.{IsWrittenAs, needed};

use crate::summary::describe;
use closing::close::close_tested;
use closing::layer::Layer;
use marks::marks::Marks;
use reading::records::LARGEST_SHEET;
use refusal::failure::Failure;
use refusal::fault::Refusal;
use sheet::opening::open_sheet;
use sheet::view::Sheet;
use std::alloc::{AllocError, Global};
use table::questions::Table;
use writing::fault::WriteFault;
use writing::write::write_sheet;

/// A closed sheet, and what closing did.
#[derive(Drop)]
pub struct Sealed {
    pub sheet: Vec<u8>,
    pub summary: String,
}

/// The sheet of the closed table, with the names that the open one has.
pub fn seal(heap: Global, bytes: &[u8]) -> Result<Sealed, Failure>
    ensures sealed { IfOk result (λ v. SealedAs bytes.now v.sheet.items) }
    ensures summary { IfOk result (λ v. Summarised bytes.now (string_bytes v.summary)) }
    ensures refused { IfErr result (λ e. IfSome (refusal_in e) (RefusedAs bytes.now)) }
    ensures told { (f : Refusal) → RefusedAs bytes.now f → result ≡ Err (Refused f) }
{
    let (open, closed, marks) = judge(bytes)?;
    let sheet = write_anew(heap, &closed, open.name_area(), LARGEST_SHEET)?;
    let summary = describe(heap, &open, &closed, &marks)?;
    Ok(Sealed { sheet, summary })
}

/// Writes the sheet of the closed table, with the names that the open one has, to the start of the output, if there is room for it;
/// answers how many bytes it has. With less room nothing is written.
pub fn seal_into(bytes: &[u8], output: &mut [u8]) -> Result<usize, Refusal>
    ensures sealed { IfOk result (λ n. SealedInto bytes.now n output.old output.new) }
    ensures refused { IfErr result (RefusedAs bytes.now) }
    ensures told { (f : Refusal) → RefusedAs bytes.now f → result ≡ Err f }
    ensures same { OnErr result (output.new ≡ output.old) }
{
    let (open, closed, _) = judge(bytes)?;
    Ok(write(&closed, open.name_area(), output))
}

/// The sheet in these bytes, its table closed, and the marks that it is closed by; or why it cannot be closed.
pub fn judge(bytes: &[u8]) -> Result<(Sheet<'_>, Layer<Sheet<'_>>, Marks), Refusal>
    ensures refused { IfErr result (RefusedAs bytes.now) }
    ensures inverse { Inverse bytes.now }
    ensures bytes { IfOk result (λ j. bytes_of j.0 ≡ bytes.now) }
    ensures place { IfOk result (λ j. j.0.names_at ≡ names_byte (lists_of j.0)) }
    ensures opens { IfOk result (λ j. opened bytes.now ≡ Ok (opened_of j.0)) }
    ensures tests { IfOk result (λ j. (n : ℕ) × Measured (lists_of j.0) (Ok (marking j.2, n))) }
    ensures closed { IfOk result (λ j. layered j.1.plan (lists_of j.1.below) ≡ closed_by (lists_of j.0) (marking j.2)) }
    ensures closes { IfOk result (λ j. ClosedBy (lists_of j.0) (layered j.1.plan (lists_of j.1.below))) }
{
    let sheet = open_sheet(bytes)?;
    let (closed, marks) = close_tested(sheet)?;
    Ok((sheet, closed, marks))
}

/// Writes the sheet of a table and names of which nothing but the room can be refused; answers how many bytes it has. With less room
/// nothing is written.
fn write<T: Table>(table: &T, names: &[u8], output: &mut [u8]) -> usize
    requires { (texts : List (List ℕ)) × (names.now ≡ area_of texts) × IsWritable (record { lists = T.lists table.now; names = texts }) }
    ensures size { result ≡ needed (T.lists table.now) names.now }
    ensures sheet { (vs : List ℕ) × IsWrittenAs (T.lists table.now) names.now vs × (result ≡ length vs) × PutInFront vs output.old output.new }
{
    match write_sheet(table, names, output) {
        Ok(size) => size,
        Err(WriteFault::Short(size)) => size,
        Err(WriteFault::Processes) => unreachable!(),
        Err(WriteFault::Table(_)) => unreachable!(),
        Err(WriteFault::Names(_)) => unreachable!(),
    }
}

/// The same in memory of its own, where the sheet has at most `room` bytes.
fn write_anew<T: Table>(
    heap: Global,
    table: &T,
    names: &[u8],
    room: usize,
) -> Result<Vec<u8>, AllocError>
    requires writable { (texts : List (List ℕ)) × (names.now ≡ area_of texts) × IsWritable (record { lists = T.lists table.now; names = texts }) }
    requires room { needed (T.lists table.now) names.now ≤ room }
    ensures { IfOk result (λ v. IsWrittenAs (T.lists table.now) names.now v.items) }
{
    let mut output = vec![in heap; 0; room]?;
    let size = write(table, names, &mut output);
    output.truncate(size);
    Ok(output)
}
