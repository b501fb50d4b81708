//! The first flaw of an edge, and the edges that leave a location.
ghost use Rattle.std.specs.Prelude.{◌≡◌, ◌<◌, length, is_some, IfSome};
ghost use Rattle.std.specs.List.{position_from};
ghost use Rattle.std.specs.Option.{option_map};
ghost use Rattle.reasons.specs.Flaws.{flaw_number, side, Holds};
ghost use Rattle.table.specs.Edges.{edge_fault, guard_bad, malformed, missing, missing_in, numbers_bad, proc_at, unfit, untrue, value_bad};
ghost use Rattle.table.specs.Examination.{leaves};
ghost use Rattle.table.specs.Lists.{Lists, meant};
ghost use Rattle.table.specs.Records.{kind_of, mode_of};

use crate::expression::find_wrong;
use crate::flaw::Flaw;
use table::limits;
use table::questions::{Table, process_or_blank, signal_or_absent};
use table::record::{Class, Edge, Kind, Mode, Process, Signal};
use table::site::Site;

/// What is wrong with the edge first, if it may not stand in the table.
#[tactic(auto, unfolding(table::specs::Edges::edge_fault))]
pub fn find_flaw<T: Table>(table: &T, edge: &Edge) -> Option<Flaw>
    ensures number { option_map flaw_number result ≡ edge_fault (T.lists table.now) edge.now }
    ensures holds { IfSome result (λ f. Holds (T.lists table.now) edge.now f) }
{
    if let Some(flaw) = find_missing(table, edge) {
        return Some(flaw);
    }
    if let Some(flaw) = find_unfit(table, edge) {
        return Some(flaw);
    }
    if let Some(flaw) = find_malformed(edge) {
        return Some(flaw);
    }
    find_untrue(table, edge)
}

/// What the edge names that is not there.
fn find_missing<T: Table>(table: &T, edge: &Edge) -> Option<Flaw>
    ensures test { is_some result ≡ missing (T.lists table.now) edge.now }
    ensures number { IfSome result (λ f. flaw_number f ≡ 7) }
    ensures holds { IfSome result (λ f. Holds (T.lists table.now) edge.now f) }
{
    if usize::from(edge.process) >= table.process_count() {
        return Some(Flaw::NoProcess(edge.process));
    }
    let process = process_or_blank(table, usize::from(edge.process));
    if edge.from >= process.locations {
        return Some(Flaw::NoLocation(edge.from));
    }
    if edge.to >= process.locations {
        return Some(Flaw::NoLocation(edge.to));
    }
    find_missing_of(edge, &process, table.signal_count())
}

/// What the fields of the edge of this process name that is not there, in a table of so many signals.
fn find_missing_of(edge: &Edge, process: &Process, signals: usize) -> Option<Flaw>
    requires from { edge.now.from < process.now.locations }
    requires to { edge.now.to < process.now.locations }
    ensures test { is_some result ≡ missing_in signals (meant process.now) edge.now }
    ensures number { IfSome result (λ f. flaw_number f ≡ 7) }
    ensures holds { (T : Lists) → length T.signals ≡ signals → proc_at T edge.now ≡ meant process.now → edge.now.process < length T.processes → IfSome result (λ f. Holds T edge.now f) }
{
    let first = edge.first;
    match edge.does() {
        Kind::Input | Kind::Output if usize::from(first) >= signals => Some(Flaw::NoSignal(first)),
        Kind::Input => {
            let stored = edge.stored()?;
            (stored >= process.variables).then_some(Flaw::NoVariable(stored))
        }
        Kind::Assignment => (first >= process.variables).then_some(Flaw::NoVariable(first)),
        Kind::Set | Kind::Reset | Kind::Timeout | Kind::Rearm => {
            (first >= process.timers).then_some(Flaw::NoTimer(first))
        }
        Kind::Output | Kind::Skip | Kind::Unknown => None,
    }
}

/// Why an input or output may not have its signal.
fn find_unfit<T: Table>(table: &T, edge: &Edge) -> Option<Flaw>
    ensures test { is_some result ≡ unfit (T.lists table.now) edge.now }
    ensures number { IfSome result (λ f. flaw_number f ≡ 8) }
    ensures holds { IfSome result (λ f. Holds (T.lists table.now) edge.now f) }
{
    let signal = signal_or_absent(table, usize::from(edge.first));
    match edge.does() {
        Kind::Input => {
            if !matches!(signal.is(), Class::Internal | Class::Inbound) {
                Some(Flaw::NotTaken(edge.first))
            } else if signal.destination != edge.process {
                Some(Flaw::Elsewhere {
                    signal: edge.first,
                    destination: signal.destination,
                })
            } else {
                None
            }
        }
        Kind::Output => {
            let given = matches!(signal.is(), Class::Internal | Class::Outbound);
            (!given).then_some(Flaw::NotGiven(edge.first))
        }
        _ => None,
    }
}

/// Which number is unknown, which guard stands where none belongs, or which field is not used and yet holds something.
fn find_malformed(edge: &Edge) -> Option<Flaw>
    ensures test { is_some result ≡ malformed edge.now }
    ensures number { IfSome result (λ f. flaw_number f ≡ 10) }
    ensures holds { (T : Lists) → IfSome result (λ f. Holds T edge.now f) }
{
    if let Some(flaw) = find_bad_number(edge) {
        return Some(flaw);
    }
    if let Some(flaw) = find_bad_guard(edge) {
        return Some(flaw);
    }
    find_bad_value(edge)
}

fn find_bad_number(edge: &Edge) -> Option<Flaw>
    ensures test { is_some result ≡ numbers_bad (kind_of edge.now.kind) edge.now.first edge.now.second }
    ensures number { IfSome result (λ f. flaw_number f ≡ 10) }
    ensures holds { (T : Lists) → IfSome result (λ f. Holds T edge.now f) }
{
    let second = edge.second;
    match edge.does() {
        Kind::Input => None,
        Kind::Rearm => (second > limits::REARM).then_some(Flaw::HighRearm(second)),
        Kind::Unknown => Some(Flaw::UnknownKind(edge.kind)),
        Kind::Skip if edge.first != 0 => Some(Flaw::UnusedFirst(edge.first)),
        _ => (second != 0).then_some(Flaw::UnusedSecond(second)),
    }
}

fn find_bad_guard(edge: &Edge) -> Option<Flaw>
    ensures test { is_some result ≡ guard_bad (mode_of edge.now.mode) (kind_of edge.now.kind) edge.now.guard }
    ensures number { IfSome result (λ f. flaw_number f ≡ 10) }
    ensures holds { (T : Lists) → IfSome result (λ f. Holds T edge.now f) }
{
    let mode = edge.guarded();
    if mode == Mode::Unknown {
        Some(Flaw::UnknownMode(edge.mode))
    } else if mode != Mode::Unguarded && !edge.does().may_be_guarded() {
        Some(Flaw::Guarded(edge.mode))
    } else if mode != Mode::Expression && !edge.guard.is_empty() {
        Some(Flaw::UnusedGuard)
    } else {
        None
    }
}

fn find_bad_value(edge: &Edge) -> Option<Flaw>
    ensures test { is_some result ≡ value_bad (kind_of edge.now.kind) edge.now.value }
    ensures number { IfSome result (λ f. flaw_number f ≡ 10) }
    ensures holds { (T : Lists) → IfSome result (λ f. Holds T edge.now f) }
{
    if edge.value.is_empty() {
        None
    } else if !edge.does().has_value() {
        Some(Flaw::UnusedValue)
    } else if edge.value.count == 0 {
        Some(Flaw::ValueStart(edge.value.start))
    } else {
        None
    }
}

/// Why the guard or the value is no expression.
fn find_untrue<T: Table>(table: &T, edge: &Edge) -> Option<Flaw>
    ensures test { is_some result ≡ untrue (T.lists table.now) edge.now }
    ensures number { IfSome result (λ f. flaw_number f ≡ 9) }
    ensures holds { IfSome result (λ f. Holds (T.lists table.now) edge.now f) }
{
    let process = process_or_blank(table, usize::from(edge.process));
    let variables = process.variables;
    if edge.guarded() == Mode::Expression
        && let Some(wrong) = find_wrong(table, edge.guard, variables)
    {
        return Some(Flaw::Guard(wrong));
    }
    if edge.value.count == 0 {
        return None;
    }
    find_wrong(table, edge.value, variables).map(Flaw::Value)
}

/// The lowest edge that leaves the location, of those that act or of those that wait.
pub fn find_leaving<T: Table>(table: &T, site: Site, acting: bool) -> Option<usize>
    ensures { result ≡ position_from (leaves site.process site.location (side acting)) 0 (T.lists table.now).edges }
{
    for k in 0..table.edge_count() {
        let Some(edge) = table.edge(k) else {
            break;
        };
        if is_leaving(&edge, site, acting) {
            return Some(k);
        }
    }
    None
}

/// Whether the edge leaves the location, and acts, or waits.
fn is_leaving(edge: &Edge, site: Site, acting: bool) -> bool
    ensures { result ≡ leaves site.process site.location (side acting) edge.now }
{
    let start = edge.start();
    start.process == site.process && start.location == site.location && edge.acts() == acting
}
