//! `closer`: closes the table of a sheet.

use crate::refusing::{say_trouble, say_why};
use clap::{Arg, ArgAction, ArgMatches, Command};
use refusal::failure::Failure;
use refusal::fault::Refusal;
use sealing::seal::{Sealed, seal};
use shell::input::{ROOM, STANDARD, read_sheet};
use shell::output::write_whole;
use shell::status::Status;
use shell::trouble::Trouble;
use shell::words::{command, explain, sheet_word};
use std::alloc::{AllocError, Global};
use std::convert::AsStr;
use std::fs::Files;

const NAME: &str = "closer";

const ABOUT: &str = "Closes a part, so that it can be checked without the rest of the link";

const MORE: &str = "\
The closed sheet has the names of the open one. What closing did is told on standard output
where no sheet goes there, and else on standard error. A sheet or table that is refused gives
no sheet, two lines on standard error and status 1; a file that is there stays as it was.";

/// Where the closed sheet goes.
#[derive(Clone, Copy)]
enum Target<'a> {
    Output,
    File(&'a str),
    Nowhere,
}

fn closer_command<'a>(heap: Global) -> Result<Command<'a>, AllocError> {
    let output = Arg::new(heap, "output")
        .short('o')
        .long("output")
        .value_name("FILE")
        .help("Writes the closed sheet to FILE, whole or not at all");
    let summary = Arg::new(heap, "summary")
        .short('s')
        .long("summary")
        .action(ArgAction::SetTrue)
        .conflicts_with("output")?
        .help("Writes no sheet, and tells what closing does");
    command(heap, NAME, ABOUT)
        .after_help(MORE)
        .arg(sheet_word(heap))?
        .arg(output)?
        .arg(summary)
}

fn target_of<'a>(matches: &ArgMatches<'a>) -> Target<'a> {
    if matches.get_flag("summary") {
        return Target::Nowhere;
    }
    match matches.get_str("output") {
        None | Some(STANDARD) => Target::Output,
        Some(file) => Target::File(file),
    }
}

/// Writes the closed sheet to its target, and what closing did.
fn put<R: Print + Eprint + Files>(
    rt: &R,
    heap: Global,
    sealed: &Sealed,
    target: Target<'_>,
) -> anyhow::Result<Status> {
    let summary = sealed.summary.as_str();
    match target {
        Target::Output => {
            rt.write_all(&sealed.sheet)?;
            rt.eprint(summary)?;
        }
        Target::File(file) => {
            if let Err(error) = write_whole(rt, heap, file, &sealed.sheet) {
                return Ok(say_trouble(rt, NAME, &Trouble { place: file, error })?);
            }
            rt.print(summary)?;
        }
        Target::Nowhere => rt.print(summary)?,
    }
    Ok(Status::Done)
}

fn refuse<R: Eprint>(rt: &R, refusal: Refusal, bytes: &[u8]) -> anyhow::Result<Status> {
    eprintln!(rt; "{refusal}")?;
    Ok(say_why(rt, "", refusal, bytes)?)
}

/// Reads a sheet, closes its table, and writes the closed sheet.
pub fn run<R: Print + Eprint + Input + Files, W: AsStr>(
    rt: &R,
    heap: Global,
    words: &[W],
) -> anyhow::Result<Status> {
    let matches = match closer_command(heap)?.try_get_matches_from(words) {
        Ok(matches) => matches,
        Err(error) => return Ok(explain(rt, &error)?),
    };
    let mut room = [0; ROOM];
    let bytes = match read_sheet(rt, matches.get_str("SHEET"), &mut room) {
        Ok(bytes) => bytes,
        Err(trouble) => return Ok(say_trouble(rt, NAME, &trouble)?),
    };
    match seal(heap, bytes) {
        Ok(sealed) => put(rt, heap, &sealed, target_of(&matches)),
        Err(Failure::Refused(refusal)) => refuse(rt, refusal, bytes),
        Err(Failure::OutOfMemory) => Err(AllocError.into()),
    }
}
