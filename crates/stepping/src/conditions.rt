//! What a step needs of the edges: that a location waits, and that a guard is true.
ghost use Rattle.std.specs.Prelude.{◌≡◌, ◌&&◌, ◌||◌, not};
ghost use Rattle.rules.specs.States.{waiting, takes_signal, handles};
ghost use Rattle.rules.specs.Steps.{unguarded, passing, otherwise, allowed, value_in};
ghost use Rattle.table.specs.Examination.{some};

use crate::edges::any_leaving;
use evaluation::{evaluate, is_true};
use loading::leaving::Leaving;
use table::questions::Table;
use table::record::{Edge, Kind, Mode};
use table::site::Site;

/// Whether no acting edge leaves the location.
pub(crate) fn waits<T: Leaving>(table: &T, site: Site) -> bool
    ensures { result ≡ waiting (T.lists table.now) site.process site.location }
{
    !any_leaving(table, site, Edge::acts)
}

fn takes(edge: &Edge, signal: u8) -> bool
    ensures { result ≡ takes_signal signal edge.now }
{
    edge.does() == Kind::Input && edge.first == signal
}

/// Whether the location waits and no input there takes the signal.
pub(crate) fn waits_without_input<T: Leaving>(table: &T, site: Site, signal: u8) -> bool
    ensures { result ≡ (waiting (T.lists table.now) site.process site.location && not (some (T.lists table.now) (takes_signal signal) site.process site.location)) }
{
    !any_leaving(table, site, |edge| edge.acts() || takes(edge, signal))
}

fn handles(edge: &Edge, timer: usize) -> bool
    ensures { result ≡ handles timer edge.now }
{
    matches!(edge.does(), Kind::Timeout | Kind::Rearm) && usize::from(edge.first) == timer
}

/// Whether the location waits and no timeout or rearm there handles the timer.
pub(crate) fn waits_without_timeout<T: Leaving>(table: &T, site: Site, timer: usize) -> bool
    ensures { result ≡ (waiting (T.lists table.now) site.process site.location && not (some (T.lists table.now) (handles timer) site.process site.location)) }
{
    !any_leaving(table, site, |edge| edge.acts() || handles(edge, timer))
}

/// Whether the edge keeps an else edge of its location from being taken.
fn overrules<T: Table>(table: &T, edge: &Edge, variables: &[i16]) -> bool
    ensures { result ≡ (unguarded edge.now || passing variables.now (T.lists table.now).terms edge.now) }
{
    match edge.guarded() {
        Mode::Unguarded => true,
        Mode::Expression => is_true(table, edge.guard, variables),
        Mode::Else | Mode::Unknown => false,
    }
}

/// Whether an else edge of the location may be taken.
fn is_else_open<T: Leaving>(table: &T, site: Site, variables: &[i16]) -> bool
    ensures { result ≡ otherwise (T.lists table.now) variables.now site.process site.location }
{
    !any_leaving(table, site, |edge| overrules(table, edge, variables))
}

/// Whether the edge's guard is true, of these variables.
#[tactic(auto, unfolding(rules::specs::Steps::allowed))]
pub(crate) fn is_allowed<T: Leaving>(table: &T, edge: &Edge, variables: &[i16]) -> bool
    ensures { result ≡ allowed (T.lists table.now) variables.now edge.now }
{
    match edge.guarded() {
        Mode::Unguarded => true,
        Mode::Expression => is_true(table, edge.guard, variables),
        Mode::Else => is_else_open(table, edge.start(), variables),
        Mode::Unknown => false,
    }
}

/// The edge's value, of these variables; 0 where it has none.
#[tactic(auto, using(crate::proofs::Leaving::value_empty), unfolding(rules::specs::Steps::value_in))]
pub(crate) fn value_of<T: Table>(table: &T, edge: &Edge, variables: &[i16]) -> i16
    ensures { result ≡ value_in (T.lists table.now) variables.now edge.now }
{
    evaluate(table, edge.value, variables).unwrap_or(0)
}
