//! The programs as people use them: which words they are given, what they write where, and their status.

use crate::watched::Watched;
use programs::{closer, marklist, resheet};
use shell::status::Status;

/// Runs the program that the first word names.
fn start(rt: &Watched<'_>, words: &[&'static str]) -> anyhow::Result<Status> {
    let heap = rt.rt.alloc();
    match words.first() {
        Some(&"closer") => closer::run(rt, heap, words),
        Some(&"marklist") => marklist::run(rt, heap, words),
        _ => resheet::run(rt, heap, words),
    }
}

/// Shows the command, and what comes of it.
fn show(rt: &HostRuntime, input: &[u8], words: &[&'static str]) -> anyhow::Result<()> {
    print!(rt; "$")?;
    for word in words {
        print!(rt; " {word}")?;
    }
    println!(rt; "")?;
    let status = start(&Watched { rt, input }, words)?;
    println!(rt; "status: {status:?}")?;
    Ok(())
}

pub(crate) fn show_uses(rt: &HostRuntime, gate: &[u8], largest: &[u8]) -> anyhow::Result<()> {
    show(rt, gate, &["closer"])?;
    show(rt, gate, &["closer", "-"])?;
    show(rt, &[], &["closer", "gate.sheet"])?;
    show(rt, gate, &["closer", "--summary"])?;
    show(rt, gate, &["closer", "-s"])?;
    show(rt, gate, &["closer", "--output", "-"])?;
    show(rt, gate, &["closer", "--output", "/dev/null"])?;
    show(rt, gate, &["closer", "--output", "closed.sheet"])?;
    show(rt, &[], &["resheet", "closed.sheet", "gate.sheet"])?;
    show(rt, &[], &["closer", "-o", "closed.sheet", "gate.sheet"])?;
    show(rt, &[], &["resheet", "closed.sheet.0.part"])?;
    show(rt, &[], &["closer", "-o", "closed.sheet", "damaged.sheet"])?;
    show(
        rt,
        &[],
        &[
            "resheet",
            "closed.sheet",
            "damaged.sheet",
            "missing.sheet",
            "gate.sheet",
        ],
    )?;
    show(rt, &[], &["closer", "damaged.sheet"])?;
    show(rt, &[], &["closer"])?;
    show(rt, &[], &["closer", "missing.sheet"])?;
    show(rt, gate, &["closer", "--output", "nowhere/closed.sheet"])?;
    show(rt, gate, &["closer", "--sumary"])?;
    show(rt, gate, &["closer", "gate.sheet", "closed.sheet"])?;
    show(
        rt,
        gate,
        &["closer", "--summary", "--output", "other.sheet"],
    )?;
    show(rt, &[], &["closer", "--help"])?;
    show(rt, &[], &["closer", "--version"])?;
    show(rt, gate, &["marklist"])?;
    show(rt, &[], &["marklist", "gate.sheet"])?;
    show(rt, &[], &["marklist", "--help"])?;
    show(rt, &[], &["marklist", "--version"])?;
    show(rt, &[], &["marklist", "damaged.sheet"])?;
    show(rt, &[], &["marklist", "--all"])?;
    show(rt, &[], &["resheet", "--help"])?;
    show(rt, &[], &["resheet", "--version"])?;
    show(rt, gate, &["resheet"])?;
    show(rt, largest, &["resheet"])?;
    let mut longer = Vec::from_slice(rt.alloc(), largest)?;
    longer.push(0)?;
    show(rt, &longer, &["resheet"])?;
    longer.push(0)?;
    show(rt, &longer, &["resheet"])
}
