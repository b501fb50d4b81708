//! Calls for programs in other languages: on bytes and numbers alone, each whole, so that nothing is kept between calls.
#![tactic(auto)]

ghost use Rattle.std.specs.Prelude.{◌≡◌};
ghost use Rattle.bridge.specs.Answers.{Booked, Counted, Sealing, Shown, Summed, Traced};
ghost use Rattle.bridge.specs.Codes.{judgement, packed};
ghost use Rattle.refusal.specs.declared.fault.Refusal.{Refusal};
ghost use Rattle.sealing.specs.Seals.{RefusedAs};
ghost use Rattle.listing.specs.Listing.{refused_by};

mod books;
mod bytes;
mod calls;
mod closed;
mod codes;
mod ending;
mod judging;
mod laying;
mod listed;
mod runs;
mod tables;
#[cfg(test)]
mod tests;

use std::alloc::Global;

/// Opens the sheet and examines its table: 0, or the refusal.
#[unsafe(no_mangle)]
pub extern "C" fn funavolem_open(sheet: &[u8]) -> u64
    ensures { result ≡ judgement (refused_by sheet.now) }
{
    judging::verdict(sheet)
}

/// How many instances are marked, or the refusal.
#[unsafe(no_mangle)]
pub extern "C" fn funavolem_mark_count(sheet: &[u8]) -> u64
    ensures { Counted sheet.now result }
{
    judging::mark_count(sheet)
}

/// Writes the listing of the marks, or the line of the refusal; answers how many bytes it has. With less room nothing is written. All
/// ones: there is no memory.
#[unsafe(no_mangle)]
pub extern "C" fn funavolem_marks(heap: Global, sheet: &[u8], out: &mut [u8]) -> u64
    ensures { Shown sheet.now result out.old out.new }
{
    listed::marks(heap, sheet, out)
}

/// Writes the closed sheet; answers how many bytes it has, or the refusal. With less room nothing is written.
#[unsafe(no_mangle)]
pub extern "C" fn funavolem_close(sheet: &[u8], out: &mut [u8]) -> u64
    ensures sealing { Sealing sheet.now result out.old out.new }
    ensures told { (r : Refusal) → RefusedAs sheet.now r → result ≡ packed r }
{
    closed::close(sheet, out)
}

/// A sum over every field of every edge of the closed table, or the refusal.
#[unsafe(no_mangle)]
pub extern "C" fn funavolem_closed_edges(sheet: &[u8]) -> u64
    ensures { Summed sheet.now result }
{
    closed::closed_edges(sheet)
}

/// Makes steps from the table's start on, and writes the answers and the end; answers how many bytes they have, or the refusal. With
/// less room nothing is written.
#[unsafe(no_mangle)]
pub extern "C" fn funavolem_trace(sheet: &[u8], steps: &[u8], out: &mut [u8]) -> u64
    ensures { Traced sheet.now steps.now result out.old out.new }
{
    runs::trace(sheet, steps, out)
}

/// Makes calls on a new book, and writes their answers, the book and what closing it means; answers how many bytes that takes. With less
/// room nothing is written.
#[unsafe(no_mangle)]
pub extern "C" fn funavolem_book(calls: &[u8], out: &mut [u8]) -> u64
    ensures { Booked calls.now result out.old out.new }
{
    books::make_and_close(calls, out)
}
