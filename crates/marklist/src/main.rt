//! Lists which variables and timers of a part, at which locations, can depend on what came from outside.
#![tactic(auto)]

use programs::marklist;
use std::env;
use std::process::ExitCode;

fn main(rt: HostRuntime) -> anyhow::Result<ExitCode> {
    let words: Vec<String> = env::args(&rt)?.collect(rt.alloc())?;
    let status = marklist::run(&rt, rt.alloc(), words.as_slice())?;
    Ok(ExitCode::from(status))
}
