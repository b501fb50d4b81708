//! `resheet`: whether a sheet that is read and written again is the same to the bit.

use crate::refusing::{answer_refusal, say_trouble};
use clap::ArgAction;
use refusal::fault::Refusal;
use sheet::opening::open_sheet;
use sheet::view::Sheet;
use shell::input::{ROOM, read_sheet};
use shell::status::Status;
use shell::words::{command, explain, sheet_word};
use std::alloc::Global;
use std::convert::AsStr;
use std::fs::Files;
use table::questions::Table;
use writing::write::write_sheet;

const NAME: &str = "resheet";

const ABOUT: &str = "Tells whether sheets that are read and written again are the same to the bit";

const MORE: &str = "\
Each sheet has a line, which counts what it holds and says whether the bytes are the same, or is
the sheet's refusal; that has a sentence on standard error. The status is 1 where a sheet differs,
is refused or cannot be read.";

/// The first byte in which the two differ, if they do.
fn first_difference(before: &[u8], after: &[u8]) -> Option<usize> {
    let unlike = before.iter().zip(after).position(|(b, a)| b != a);
    unlike.or((before.len() != after.len()).then_some(before.len().min(after.len())))
}

/// Writes what the sheet holds, and how it compares when written again.
fn compare<R: Print + Eprint>(
    rt: &R,
    heap: Global,
    name: &str,
    sheet: &Sheet<'_>,
    bytes: &[u8],
) -> anyhow::Result<Status> {
    let mut again = vec![in heap; 0; bytes.len()]?;
    let length = match write_sheet(sheet, sheet.name_area(), &mut again) {
        Ok(length) => length,
        Err(fault) => return Ok(answer_refusal(rt, name, Refusal::from(fault), bytes)?),
    };
    again.truncate(length);
    let (processes, signals) = (sheet.process_count(), sheet.signal_count());
    print!(rt; "{name}{processes} processes, {signals} signals, ")?;
    let (edges, terms) = (sheet.edge_count(), sheet.term_count());
    let names = processes.saturating_add(signals);
    print!(rt; "{edges} edges, {terms} terms, {names} names; {length} bytes, ")?;
    match first_difference(bytes, &again) {
        None => {
            println!(rt; "the same again")?;
            Ok(Status::Done)
        }
        Some(at) => {
            println!(rt; "different from byte {at} on")?;
            Ok(Status::Refused)
        }
    }
}

/// Writes a line about one sheet, which begins with `name`.
fn tell<R: Print + Eprint + Input + Files>(
    rt: &R,
    heap: Global,
    name: &str,
    file: Option<&str>,
) -> anyhow::Result<Status> {
    let mut room = [0; ROOM];
    let bytes = match read_sheet(rt, file, &mut room) {
        Ok(bytes) => bytes,
        Err(trouble) => return Ok(say_trouble(rt, NAME, &trouble)?),
    };
    match open_sheet(bytes) {
        Ok(sheet) => compare(rt, heap, name, &sheet, bytes),
        Err(fault) => Ok(answer_refusal(rt, name, Refusal::from(fault), bytes)?),
    }
}

/// Reads sheets, and says of each whether its bytes are the same when written again.
pub fn run<R: Print + Eprint + Input + Files, W: AsStr>(
    rt: &R,
    heap: Global,
    words: &[W],
) -> anyhow::Result<Status> {
    let command = command(heap, NAME, ABOUT)
        .after_help(MORE)
        .arg(sheet_word(heap).action(ArgAction::Append))?;
    let matches = match command.try_get_matches_from(words) {
        Ok(matches) => matches,
        Err(error) => return Ok(explain(rt, &error)?),
    };
    let Some(files) = matches.get_strs("SHEET") else {
        return tell(rt, heap, "", None);
    };
    let mut status = Status::Done;
    for file in files {
        let name = format!(in heap; "{file}: ")?;
        status = status.and(tell(rt, heap, name.as_str(), Some(file))?);
    }
    Ok(status)
}
