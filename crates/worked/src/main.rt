//! Enters the worked example into a book call by call, with refused calls among them, closes it, and runs the closed table
//! beside the open one. What it writes is what each call answered, and where the processes are after each step; and on standard error
//! a sentence for each refusal.
#![tactic(auto)]

mod desk;
mod entering;
mod records;
mod running;
mod runs;
mod telling;

use book::laws::example_is_entered;
use desk::Desk;
use rules::laws::example_is_worked;
use shell::words::take_none;
use std::env;
use std::process::ExitCode;

const NAME: &str = "worked";

const ABOUT: &str =
    "Makes the worked example in a book, closes it, and runs it open and closed side by side";

fn run(rt: &HostRuntime) -> anyhow::Result<()> {
    // These do nothing; their contracts say what is proved of this very example, and of the calls that enter it.
    example_is_worked();
    example_is_entered();
    let mut desk = Desk::new(rt.alloc())?;
    entering::declare(rt, &mut desk)?;
    entering::write_expressions(rt, &mut desk)?;
    entering::draw_edges(rt, &mut desk)?;
    entering::mark_and_change(rt, &mut desk)?;
    runs::side_by_side(rt, &desk)
}

fn main(rt: HostRuntime) -> anyhow::Result<ExitCode> {
    let words: Vec<String> = env::args(&rt)?.collect(rt.alloc())?;
    if let Some(status) = take_none(&rt, rt.alloc(), NAME, ABOUT, words.as_slice())? {
        return Ok(ExitCode::from(status));
    }
    run(&rt)?;
    Ok(ExitCode::SUCCESS)
}
