//! What closing did, for people.
ghost use Rattle.std.specs.Prelude.{◌≡◌, ◌++◌, IfOk, OnOk, Some, encode_utf8, string_bytes};
ghost use Rattle.std.specs.List.{flat_map};
ghost use Rattle.marks.specs.Words.{marking};
ghost use Rattle.sealing.specs.Summary.{name_text, did, edge_text, changed_text, name_of, timer_text, timers_text, parts_text, counts_text, marks_text, summary_text};
ghost use Rattle.sheet.specs.Views.{heard, lists_of, opened_of};

use marks::instances;
use marks::marks::Marks;
use sheet::view::Sheet;
use std::alloc::{AllocError, Global};
use std::fmt::{self, Write};
use table::questions::{Table, process_or_blank};
use table::record::{Edge, Kind};

/// What closing does to an edge.
#[derive(Clone, Copy, Debug, PartialEq, Eq)]
enum Change {
    /// An input of an inbound signal waits for the chaos timer.
    Awaiting,
    /// An output or an assignment does nothing any more.
    Skipped,
    /// A value is gone.
    Emptied,
    /// A guard is gone.
    Opened,
}

impl fmt::Display for Change {
    ghost output = { λ c. Some (name_text c) };

    fn fmt<W: fmt::Write>(&self, f: &mut fmt::Formatter<W>) -> fmt::Result {
        let name = match self {
            Change::Awaiting => "awaiting chaos",
            Change::Skipped => "skipped",
            Change::Emptied => "emptied",
            Change::Opened => "opened",
        };
        write!(f, "{name}")
    }
}

impl Change {
    /// Whether closing did this to the edge.
    fn is_of(self, before: &Edge, after: &Edge) -> bool
        ensures { result ≡ did self before.now after.now }
    {
        let turned = before.kind != after.kind;
        match self {
            Change::Awaiting => turned && after.kind == Kind::Rearm as u8,
            Change::Skipped => turned && after.kind == Kind::Skip as u8,
            Change::Emptied => !turned && before.value != after.value,
            Change::Opened => before.mode != after.mode,
        }
    }
}

/// What the closed sheet has that the open one had not, and what became of its edges.
#[tactic(auto, unfolding(sheet::specs::Views::opened_of))]
pub(crate) fn describe<C: Table>(
    heap: Global,
    sheet: &Sheet<'_>,
    closed: &C,
    marks: &Marks,
) -> Result<String, AllocError>
    ensures { IfOk result (λ s. string_bytes s ≡ summary_text (opened_of sheet.now) (C.lists closed.now) (marking marks.now)) }
{
    let mut text = String::new(heap);
    push_parts(&mut text, sheet)?;
    push_counts(&mut text, sheet, closed)?;
    push_marks(&mut text, sheet, marks)?;
    push_timers(&mut text, sheet, closed)?;
    push_changed(&mut text, sheet, closed, Change::Awaiting)?;
    push_changed(&mut text, sheet, closed, Change::Skipped)?;
    push_changed(&mut text, sheet, closed, Change::Emptied)?;
    push_changed(&mut text, sheet, closed, Change::Opened)?;
    Ok(text)
}

fn push_parts<T: Table>(text: &mut String, table: &T) -> Result<(), AllocError>
    ensures { OnOk result (string_bytes text.new ≡ string_bytes text.old ++ parts_text (T.lists table.now)) }
{
    let (processes, signals) = (table.process_count(), table.signal_count());
    write!(text, "{processes} processes, {signals} signals\n")
}

fn push_counts<T: Table, C: Table>(
    text: &mut String,
    table: &T,
    closed: &C,
) -> Result<(), AllocError>
    ensures { OnOk result (string_bytes text.new ≡ string_bytes text.old ++ counts_text (T.lists table.now) (C.lists closed.now)) }
{
    let (before, after) = (table.edge_count(), closed.edge_count());
    write!(text, "{before} edges, closed {after}\n")
}

fn push_marks<T: Table>(text: &mut String, table: &T, marks: &Marks) -> Result<(), AllocError>
    ensures { OnOk result (string_bytes text.new ≡ string_bytes text.old ++ marks_text (T.lists table.now) (marking marks.now)) }
{
    let (marked, all) = (marks.total(), instances(table));
    write!(text, "{marked} of {all} instances marked\n")
}

/// The chaos timers, each with its process.
fn push_timers<C: Table>(text: &mut String, sheet: &Sheet<'_>, closed: &C) -> Result<(), AllocError>
    ensures { OnOk result (string_bytes text.new ≡ string_bytes text.old ++ timers_text (opened_of sheet.now).process_names (lists_of sheet.now) (C.lists closed.now)) }
{
    write!(text, "chaos timers:")?;
    for p in 0..sheet.process_count() {
        let own = process_or_blank(sheet, p).timers;
        let timers = process_or_blank(closed, p).timers;
        push_timer(text, sheet.process_name(p), own, timers)?;
    }
    write!(text, "\n")?;
    Ok(())
}

/// The chaos timer of a process, if it has one more timer when closed.
fn push_timer(
    text: &mut String,
    name: Option<(usize, &[u8])>,
    own: u8,
    timers: u8,
) -> Result<(), AllocError>
    ensures { OnOk result (string_bytes text.new ≡ string_bytes text.old ++ timer_text (name_of (heard name.entry)) own timers) }
{
    if timers == own {
        return Ok(());
    }
    write!(text, " ")?;
    push_name(text, name)?;
    write!(text, " t{own}")?;
    Ok(())
}

fn push_name(text: &mut String, name: Option<(usize, &[u8])>) -> Result<(), AllocError>
    ensures { OnOk result (string_bytes text.new ≡ string_bytes text.old ++ name_of (heard name.entry)) }
{
    match name {
        Some((_, characters)) => push_characters(text, characters),
        None => Ok(()),
    }
}

fn push_characters(text: &mut String, characters: &[u8]) -> Result<(), AllocError>
    ensures { OnOk result (string_bytes text.new ≡ string_bytes text.old ++ flat_map encode_utf8 characters.now) }
{
    for character in characters {
        text.push(char::from(*character))?;
    }
    Ok(())
}

/// The numbers of the edges to which closing did this.
fn push_changed<T: Table, C: Table>(
    text: &mut String,
    table: &T,
    closed: &C,
    change: Change,
) -> Result<(), AllocError>
    ensures { OnOk result (string_bytes text.new ≡ string_bytes text.old ++ changed_text change (T.lists table.now) (C.lists closed.now)) }
{
    write!(text, "{change}:")?;
    for k in 0..table.edge_count() {
        push_edge(text, table, closed, change, k)?;
    }
    write!(text, "\n")?;
    Ok(())
}

/// The number of edge k, if closing did this to it.
fn push_edge<T: Table, C: Table>(
    text: &mut String,
    table: &T,
    closed: &C,
    change: Change,
    k: usize,
) -> Result<(), AllocError>
    ensures { OnOk result (string_bytes text.new ≡ string_bytes text.old ++ edge_text change (T.lists table.now) (C.lists closed.now) k) }
{
    if let Some(before) = table.edge(k)
        && let Some(after) = closed.edge(k)
        && change.is_of(&before, &after)
    {
        write!(text, " {k}")?;
    }
    Ok(())
}
