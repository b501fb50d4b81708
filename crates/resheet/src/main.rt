//! Reads sheets, writes each again through its table, and says whether the bytes are the same.
#![tactic(auto)]

use programs::resheet;
use std::env;
use std::process::ExitCode;

fn main(rt: HostRuntime) -> anyhow::Result<ExitCode> {
    let words: Vec<String> = env::args(&rt)?.collect(rt.alloc())?;
    let status = resheet::run(&rt, rt.alloc(), words.as_slice())?;
    Ok(ExitCode::from(status))
}
