//! The words after a program's name.
ghost use Rattle.std.specs.Prelude.{◌≡◌, IfOk, IfSome, codes};
ghost use Rattle.clap.specs.Values.{kind_of};
ghost use Rattle.clap.specs.declared.error.kind.ErrorKind.{ErrorKind};
ghost use Rattle.clap.specs.declared.builder.command.Command.TheViews.{out-Command as fields_of};
ghost use Rattle.shell.specs.Statuses.{ended};

use crate::status::Status;
use clap::error::ErrorKind;
use clap::{Arg, Command, Error};
use std::alloc::Global;
use std::convert::AsStr;
use std::io;

const VERSION: &str = "0.1.0";

/// A command of this name; `about` is the first line of its help.
pub fn command<'a>(heap: Global, name: &'a str, about: &'a str) -> Command<'a>
    ensures { (fields_of result).name ≡ name.entry }
{
    Command::new(heap, name).version(VERSION).about(about)
}

/// The word that names the sheet to read.
pub fn sheet_word<'a>(heap: Global) -> Arg<'a>
    ensures { result.id.now ≡ codes "SHEET" }
{
    Arg::new(heap, "SHEET").help("The sheet to read; standard input where none is named, or -")
}

/// Writes help or the version to standard output, or to standard error what is wrong with the words.
pub fn explain<R: Print + Eprint>(rt: &R, error: &Error) -> io::Result<Status>
    ensures { IfOk result (λ s. s ≡ ended (kind_of error.now)) }
{
    error.print(rt)?;
    match error.kind() {
        ErrorKind::DisplayHelp | ErrorKind::DisplayVersion => Ok(Status::Done),
        _ => Ok(Status::Misused),
    }
}

/// The words of a program that takes none but `--help` and `--version`: how it ends at once, or that it is to go on.
pub fn take_none<R: Print + Eprint, W: AsStr>(
    rt: &R,
    heap: Global,
    name: &str,
    about: &str,
    words: &[W],
) -> io::Result<Option<Status>>
    ensures { IfOk result (λ r. IfSome r (λ s. (k : ErrorKind) × (s ≡ ended k))) }
{
    match command(heap, name, about).try_get_matches_from(words) {
        Ok(_) => Ok(None),
        Err(error) => Ok(Some(explain(rt, &error)?)),
    }
}
