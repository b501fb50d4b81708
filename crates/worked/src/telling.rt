//! Refusals as `worked` tells them.

use reasons::sentence::Sentence;
use refusal::fault::Refusal;

/// The refusal on standard output, and on standard error what it means.
pub fn tell_refusal(rt: &HostRuntime, refusal: Refusal) -> anyhow::Result<()> {
    println!(rt; "{refusal}")?;
    let sentence = Sentence::of(refusal);
    eprintln!(rt; "{sentence}")?;
    Ok(())
}
