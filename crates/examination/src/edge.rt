//! The check of an edge against its table.
ghost use Rattle.std.specs.Prelude.{◌≡◌};
ghost use Rattle.table.specs.Edges.{missing_in, unfit_for, malformed, numbers_bad, guard_bad, value_bad, untrue_in, edge_fault};
ghost use Rattle.table.specs.Lists.{meant};
ghost use Rattle.table.specs.Records.{kind_of, mode_of};
ghost use Rattle.std.specs.List.{slice_get};
ghost use Rattle.table.specs.Examination.{answer_at, edge_refused};
ghost use Rattle.refusal.specs.Refusals.{outcome, edge_number, edge_refusal};

use refusal::fault::{BadEdge, EdgeFault};
use table::expression::is_sound;
use table::limits;
use table::questions::{Table, process_or_blank, signal_or_absent};
use table::record::{Class, Edge, Kind, Mode, Process, Signal};

/// Whether the edge may stand in the table, and if not, what is wrong with it first.
#[tactic(auto, unfolding(table::specs::Edges::edge_fault))]
pub fn check<T: Table>(table: &T, edge: &Edge) -> Result<(), EdgeFault>
    ensures { outcome edge_number result ≡ edge_fault (T.lists table.now) edge.now }
{
    let process = process_or_blank(table, usize::from(edge.process));
    let signal = signal_or_absent(table, usize::from(edge.first));
    if is_missing(edge, &process, table.signal_count()) {
        Err(EdgeFault::Missing)
    } else if is_unfit(edge, signal) {
        Err(EdgeFault::Unfit)
    } else if is_malformed(edge) {
        Err(EdgeFault::Malformed)
    } else if is_untrue(table, edge, process.variables) {
        Err(EdgeFault::Expression)
    } else {
        Ok(())
    }
}

/// Whether edge k may stand in its table; one that is not there may.
pub fn check_at<T: Table>(table: &T, k: usize) -> Result<(), BadEdge>
    ensures { outcome edge_refusal result ≡ answer_at (edge_refused (T.lists table.now)) k (slice_get (T.lists table.now).edges k) }
{
    let Some(edge) = table.edge(k) else {
        return Ok(());
    };
    check(table, &edge).map_err(|fault| BadEdge { edge: k, fault })
}

/// Whether the edge names something that is not there, in a table of so many signals.
fn is_missing(edge: &Edge, process: &Process, signals: usize) -> bool
    ensures { result ≡ missing_in signals (meant process.now) edge.now }
{
    let first = edge.first;
    if edge.from >= process.locations || edge.to >= process.locations {
        return true;
    }
    match edge.does() {
        Kind::Input => {
            usize::from(first) >= signals || edge.stored().is_some_and(|v| v >= process.variables)
        }
        Kind::Output => usize::from(first) >= signals,
        Kind::Assignment => first >= process.variables,
        Kind::Set | Kind::Reset | Kind::Timeout | Kind::Rearm => first >= process.timers,
        Kind::Skip | Kind::Unknown => false,
    }
}

/// Whether an input or output has a signal that it may not have.
fn is_unfit(edge: &Edge, signal: Signal) -> bool
    ensures { result ≡ unfit_for signal edge.now.process (kind_of edge.now.kind) }
{
    match edge.does() {
        Kind::Input => {
            !matches!(signal.is(), Class::Internal | Class::Inbound)
                || signal.destination != edge.process
        }
        Kind::Output => !matches!(signal.is(), Class::Internal | Class::Outbound),
        _ => false,
    }
}

/// Whether the edge has an unknown number, a guard where none belongs, or something in a field that it does not use.
fn is_malformed(edge: &Edge) -> bool
    ensures { result ≡ malformed edge.now }
{
    has_bad_numbers(edge) || has_bad_guard(edge) || has_bad_value(edge)
}

fn has_bad_numbers(edge: &Edge) -> bool
    ensures { result ≡ numbers_bad (kind_of edge.now.kind) edge.now.first edge.now.second }
{
    match edge.does() {
        Kind::Input => false,
        Kind::Rearm => edge.second > limits::REARM,
        Kind::Skip => edge.first != 0 || edge.second != 0,
        Kind::Unknown => true,
        _ => edge.second != 0,
    }
}

fn has_bad_guard(edge: &Edge) -> bool
    ensures { result ≡ guard_bad (mode_of edge.now.mode) (kind_of edge.now.kind) edge.now.guard }
{
    match edge.guarded() {
        Mode::Unguarded => !edge.guard.is_empty(),
        Mode::Expression => !edge.does().may_be_guarded(),
        Mode::Else => !edge.does().may_be_guarded() || !edge.guard.is_empty(),
        Mode::Unknown => true,
    }
}

fn has_bad_value(edge: &Edge) -> bool
    ensures { result ≡ value_bad (kind_of edge.now.kind) edge.now.value }
{
    !edge.value.is_empty() && (!edge.does().has_value() || edge.value.count == 0)
}

/// Whether the guard or the value is no expression of a process with so many variables.
fn is_untrue<T: Table>(table: &T, edge: &Edge, variables: u8) -> bool
    ensures { result ≡ untrue_in variables (T.lists table.now).terms edge.now }
{
    if edge.guarded() == Mode::Expression && !is_sound(table, edge.guard, variables) {
        return true;
    }
    edge.value.count != 0 && !is_sound(table, edge.value, variables)
}
