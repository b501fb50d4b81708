//! The listing of marks, or the line of a refusal.
ghost use Rattle.std.specs.Prelude.{IfOk, string_bytes};
ghost use Rattle.bridge.specs.Answers.{Described, Shown};

use crate::codes::FAILED;
use crate::laying::fit;
use listing::list;
use refusal::failure::Failure;
use std::alloc::{AllocError, Global};

/// The listing of the sheet, or its refusal on a line of its own.
fn describe(heap: Global, sheet: &[u8]) -> Result<String, AllocError>
    ensures { IfOk result (λ s. Described sheet.now (string_bytes s)) }
{
    match list(heap, sheet) {
        Ok(text) => Ok(text),
        Err(Failure::Refused(refusal)) => format!(in heap; "{refusal}\n"),
        Err(Failure::OutOfMemory) => Err(AllocError),
    }
}

/// Writes that text; answers how long it is.
pub(crate) fn marks(heap: Global, sheet: &[u8], out: &mut [u8]) -> u64
    ensures { Shown sheet.now result out.old out.new }
{
    match describe(heap, sheet) {
        Ok(text) => fit(out, text.as_bytes()) as u64,
        Err(_) => FAILED,
    }
}
