//! The listing of the marks of a sheet, as text for people.
#![tactic(auto)]

ghost use Rattle.std.specs.Prelude.{◌≡◌, IfErr, IfOk, IfSome, Some, Ok, Err, string_bytes};
ghost use Rattle.std.specs.Result.{result_err};
ghost use Rattle.listing.specs.Listing.{Listed, refused_by};
ghost use Rattle.marks.specs.Rules.{Least};
ghost use Rattle.marks.specs.Words.{marking};
ghost use Rattle.reading.specs.Opening.{opened};
ghost use Rattle.refusal.specs.Refusals.{refusal_in};
ghost use Rattle.refusal.specs.declared.failure.Failure.TheVariants.{Refused};
ghost use Rattle.refusal.specs.declared.fault.Refusal.{Refusal};
ghost use Rattle.sheet.specs.Views.{bytes_of, lists_of, opened_of};

use marking::mark;
use marks::marks::Marks;
use refusal::failure::Failure;
use refusal::fault::Refusal;
use sheet::opening::open_sheet;
use sheet::view::Sheet;
use std::alloc::Global;

pub mod lines;
#[cfg(test)]
mod tests;

/// The marks of the sheet in these bytes, line by line. What is refused is told whatever the heap has.
pub fn list(heap: Global, bytes: &[u8]) -> Result<String, Failure>
    ensures listing { IfOk result (λ s. Listed bytes.now (string_bytes s)) }
    ensures refused { IfErr result (λ e. IfSome (refusal_in e) (λ f. refused_by bytes.now ≡ Some f)) }
    ensures told { (f : Refusal) → refused_by bytes.now ≡ Some f → result ≡ Err (Refused f) }
{
    let (sheet, marks) = judge(bytes)?;
    let text = lines::describe(heap, &sheet, &marks)?;
    Ok(text)
}

/// The sheet and its least marks, or the first refusal met on the way. This needs no heap.
pub fn judge(bytes: &[u8]) -> Result<(Sheet<'_>, Marks), Refusal>
    ensures refused { result_err result ≡ refused_by bytes.now }
    ensures bytes { IfOk result (λ j. bytes_of j.0 ≡ bytes.now) }
    ensures opens { IfOk result (λ j. opened bytes.now ≡ Ok (opened_of j.0)) }
    ensures least { IfOk result (λ j. Least (lists_of j.0) (marking j.1)) }
{
    let sheet = open_sheet(bytes)?;
    let marks = mark(&sheet)?;
    Ok((sheet, marks))
}
