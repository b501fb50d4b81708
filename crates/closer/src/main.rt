//! Closes the table of a sheet, and writes the sheet of the closed table.
#![tactic(auto)]

use programs::closer;
use std::env;
use std::process::ExitCode;

fn main(rt: HostRuntime) -> anyhow::Result<ExitCode> {
    let words: Vec<String> = env::args(&rt)?.collect(rt.alloc())?;
    let status = closer::run(&rt, rt.alloc(), words.as_slice())?;
    Ok(ExitCode::from(status))
}
