//! What is said for people where something is refused or goes wrong.

use reasons::sentence::Sentence;
use refusal::fault::Refusal;
use shell::status::Status;
use shell::trouble::Trouble;
use std::io;

/// Says in a sentence, behind `name`, why the sheet in these bytes is refused.
pub(crate) fn say_why<R: Eprint>(
    rt: &R,
    name: &str,
    refusal: Refusal,
    bytes: &[u8],
) -> io::Result<Status> {
    let sentence = Sentence::of_sheet(refusal, bytes);
    eprintln!(rt; "{name}{sentence}")?;
    Ok(Status::Refused)
}

/// Answers a refusal: its line, behind `name`, on standard output, and why on standard error.
pub(crate) fn answer_refusal<R: Print + Eprint>(
    rt: &R,
    name: &str,
    refusal: Refusal,
    bytes: &[u8],
) -> io::Result<Status> {
    println!(rt; "{name}{refusal}")?;
    say_why(rt, name, refusal, bytes)
}

/// Says what could not be read or written.
pub(crate) fn say_trouble<R: Eprint>(
    rt: &R,
    program: &str,
    trouble: &Trouble<'_>,
) -> io::Result<Status> {
    eprintln!(rt; "{program}: {trouble}")?;
    Ok(Status::Failed)
}
