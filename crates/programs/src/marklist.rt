//! `marklist`: which variables and timers of a part, at which locations, can depend on what came from outside.

use crate::refusing::{answer_refusal, say_trouble};
use listing::list;
use refusal::failure::Failure;
use shell::input::{ROOM, read_sheet};
use shell::status::Status;
use shell::words::{command, explain, sheet_word};
use std::alloc::{AllocError, Global};
use std::convert::AsStr;
use std::fs::Files;

const NAME: &str = "marklist";

const ABOUT: &str = "Lists the variables and timers that can depend on what came from outside";

const MORE: &str = "\
Each marked instance has a line: its process, its location, and the variable (x) or timer (t).
The last line says how many of all instances are marked. A sheet or table that is refused has
the refusal as its only line, with a sentence on standard error and status 1.";

/// Reads a sheet, and writes the marks of its table.
pub fn run<R: Print + Eprint + Input + Files, W: AsStr>(
    rt: &R,
    heap: Global,
    words: &[W],
) -> anyhow::Result<Status> {
    let command = command(heap, NAME, ABOUT)
        .after_help(MORE)
        .arg(sheet_word(heap))?;
    let matches = match command.try_get_matches_from(words) {
        Ok(matches) => matches,
        Err(error) => return Ok(explain(rt, &error)?),
    };
    let mut room = [0; ROOM];
    let bytes = match read_sheet(rt, matches.get_str("SHEET"), &mut room) {
        Ok(bytes) => bytes,
        Err(trouble) => return Ok(say_trouble(rt, NAME, &trouble)?),
    };
    match list(heap, bytes) {
        Ok(text) => rt.print(text.as_str())?,
        Err(Failure::Refused(refusal)) => return Ok(answer_refusal(rt, "", refusal, bytes)?),
        Err(Failure::OutOfMemory) => return Err(AllocError.into()),
    }
    Ok(Status::Done)
}
